ghost use Rattle.std.specs.Prelude.{◌≡◌, ◌+◌, ◌-◌, ◌*◌, ◌≤◌, ◌<◌, length, get_or};
ghost use Rattle.runs.specs.inner.Listed.{marked};
ghost use Rattle.runs.specs.inner.Pass.{PassArgs, PassDone, RuleStates, Stacked, StepArgs, StepDone};
ghost use Rattle.runs.specs.inner.Pass.{StretchArgs, StretchDone, SpanArgs, SpanDone, SpanEnd};

use crate::changes::{SPAN, UNLISTED, mark_in, unmarked};
use formats::rules::rule;

// Before a node's iteration: the node, how many trees wait, and the state of the last completed. Those of the others
// are in an array.
#[derive(Clone, Copy)]
pub struct Waiting {
    pub node: usize,
    pub count: usize,
    pub last: u8,
}

// Room for the states of the trees that wait.
fn room<const CELLS: usize>() -> [u8; CELLS]
    ensures { length result ≡ CELLS }
{
    [0u8; CELLS]
}

// The iteration of a node with label a. A leaf stores the state of the tree completed before it in the array; an inner
// node reads its left child's state there.
fn step(
    states: &mut [u8],
    before: Waiting,
    kinds: &[u8],
    a: usize,
    leaves: &[u8],
    inner: &[u8],
    s: usize,
    k: usize,
) -> Waiting
    requires { RuleStates kinds.now leaves.now inner.now s k × StepArgs kinds.now a k before
        × Stacked kinds.now s states.old before }
    ensures { StepDone kinds.now leaves.now inner.now s k a
        states.old before states.new result }
{
    let v = before.node;
    let top = before.count;
    states[top] = before.last;
    if kinds[v] == 0 {
        return Waiting {
            node: v + 1,
            count: top + 1,
            last: leaves[a],
        };
    }
    let p = states[top - 1] as usize;
    let q = before.last as usize;
    Waiting {
        node: v + 1,
        count: top - 1,
        last: rule(inner, s, k, p, a, q),
    }
}

// The iterations of the nodes that are not listed, up to the next mark. Their labels are read in the plan itself.
fn stretch(
    states: &mut [u8],
    before: Waiting,
    kinds: &[u8],
    labels: &[u8],
    marks: &[u8],
    from: usize,
    leaves: &[u8],
    inner: &[u8],
    s: usize,
    k: usize,
) -> Waiting
    requires { RuleStates kinds.now leaves.now inner.now s k × StretchArgs kinds.now labels.now marks.now from k before
        × Stacked kinds.now s states.old before }
    ensures { StretchDone kinds.now labels.now marks.now from leaves.now
        inner.now s k states.old before states.new result }
{
    let mut waiting = before;
    let mut v = before.node;
    // no for: the marks say where it ends, and a range would count to an end besides
    while marks[v - from] == UNLISTED {
        let a = labels[v] as usize;
        waiting = step(states, waiting, kinds, a, leaves, inner, s, k);
        v += 1;
    }
    waiting
}

// The label of node v as changed: its mark, or where it is not listed its own.
fn label_at(labels: &[u8], marks: &[u8], from: usize, v: usize) -> u8
    requires { (from ≤ v) × (v < length labels.now) × (v < from + length marks.now) }
    ensures { result ≡ marked (get_or labels.now v 0) (get_or marks.now (v - from) 0) }
{
    let mark = marks[v - from];
    if mark == UNLISTED {
        return labels[v];
    }
    mark
}

// The iterations of the nodes up to before `to`, whose changes are marked: of one with its label as changed, then of
// those up to the next mark.
fn turns(
    states: &mut [u8],
    before: Waiting,
    kinds: &[u8],
    labels: &[u8],
    marks: &[u8],
    to: usize,
    leaves: &[u8],
    inner: &[u8],
    s: usize,
    k: usize,
) -> Waiting
    requires { RuleStates kinds.now leaves.now inner.now s k × SpanArgs kinds.now labels.now marks.now to k before
        × Stacked kinds.now s states.old before }
    ensures { SpanDone kinds.now labels.now marks.now to leaves.now
        inner.now s k states.old before states.new result }
{
    let from = before.node;
    let mut waiting = before;
    let mut v = from;
    while v < to {
        let a = label_at(labels, marks, from, v) as usize;
        let turned = step(states, waiting, kinds, a, leaves, inner, s, k);
        waiting = stretch(
            states, turned, kinds, labels, marks, from, leaves, inner, s, k,
        );
        v = waiting.node;
    }
    waiting
}

// Where the marks from node v on end.
fn span_end(v: usize, n: usize) -> usize
    requires { v < n }
    ensures { SpanEnd v n result }
{
    // no min: v + SPAN might not fit
    if n - v < SPAN {
        return n;
    }
    v + SPAN
}

// The root's state in the run over the plan with the listed labels changed. One pass over the nodes in order: the
// states of the trees that wait are kept in the room given. The changes of some nodes at a time are marked, so that a
// node's label is read from the plan unless it is marked, with no search of the list.
fn pass_in(
    states: &mut [u8],
    kinds: &[u8],
    labels: &[u8],
    nodes: &[u16],
    news: &[u8],
    leaves: &[u8],
    inner: &[u8],
    s: usize,
    k: usize,
) -> u8
    requires { PassArgs kinds.now labels.now nodes.now news.now leaves.now inner.now s k
        × (length kinds.now + 1 < 2 * length states.old) }
    ensures { PassDone kinds.now labels.now nodes.now news.now
        leaves.now inner.now s k result }
{
    let n = kinds.len();
    let mut turn = Waiting {
        node: 0,
        count: 0,
        last: 0,
    };
    let mut v: usize = 0;
    while v < n {
        let to = span_end(v, n);
        let mut marks = unmarked();
        mark_in(&mut marks, nodes, news, v, to);
        turn = turns(states, turn, kinds, labels, &marks, to, leaves, inner, s, k);
        v = to;
    }
    turn.last
}

// The pass in room enough for the plan: of N nodes at most (N + 1) / 2 trees wait, and there is a spare cell before
// them. For fewer than 2,047 nodes there is less to clear.
pub fn pass(
    kinds: &[u8],
    labels: &[u8],
    nodes: &[u16],
    news: &[u8],
    leaves: &[u8],
    inner: &[u8],
    s: usize,
    k: usize,
) -> u8
    requires { PassArgs kinds.now labels.now nodes.now news.now leaves.now inner.now s k }
    ensures { PassDone kinds.now labels.now nodes.now news.now
        leaves.now inner.now s k result }
{
    if kinds.len() < 2047 {
        let mut few = room::<1024>();
        return pass_in(&mut few, kinds, labels, nodes, news, leaves, inner, s, k);
    }
    let mut many = room::<32769>();
    pass_in(&mut many, kinds, labels, nodes, news, leaves, inner, s, k)
}
