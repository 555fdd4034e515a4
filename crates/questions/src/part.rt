// One part of a question: the state of its root, from the parts before it, the links of its climb, and the nodes passed
// over, for any inputs.
ghost use Rattle.std.specs.Prelude.{◌≡◌, ℕ, ◌≤◌, slice_index};
ghost use Rattle.trees.specs.Changes.{changed};
ghost use Rattle.formats.specs.Limits.{state_limit};
ghost use Rattle.tables.specs.node_tables.Cells.{size_cell};
ghost use Rattle.tables.specs.Climbs.{below, climbed_of};
ghost use Rattle.tables.specs.inner.PathViews.{path_view, rules_view};
ghost use Rattle.questions.specs.Part.{join_on, leaf_on, fork_on, part_on};
ghost use Rattle.questions.specs.inner.Scans.{last_in, found_of, side_on};
ghost use Rattle.questions.specs.inner.PartArgs.{part_view, leaves_view, unmoved, reached_in, LastArgs, LabelArgs, LeafArgs};
ghost use Rattle.questions.specs.inner.PartArgs.{JoinArgs, SideArgs, ForkArgs, PartArgs};
ghost use Rattle.questions.specs.Promises.{PartDone};

use crate::fits::asked_fits;
use crate::scan::last_in;
use formats::buffers::{limits_fit, rule_buffers_fit};
use formats::layout::{NODE_COLUMNS, PLAN_HEAD, RULES_HEAD, SIZE};
use tables::answers::{Climbed, Reached};
use tables::climb::climb_state;
use tables::lookups::{rule_on, run_on};
use tables::node_tables::moves::{depth_at, size_at};

// The place, from 1, of the last of the earlier roots that is c or below it; 0 where there is none.
pub fn last_below(node_table: &[u16], earlier: &[u16], c: usize) -> usize
    requires { LastArgs node_table.now earlier.now c }
    ensures { result ≡ last_in c (size_cell node_table.now c) earlier.now }
{
    last_in(earlier, c as u16, node_table[c * NODE_COLUMNS + SIZE]) as usize
}

// The label of node v as changed: the last entry of v in the list, else the plan's label.
pub fn label_on(labels: &[u8], nodes: &[u16], changes: &[u8], v: usize) -> usize
    requires { LabelArgs labels.now nodes.now changes.now v }
    ensures { result
        ≡ slice_index (changed labels.now nodes.now changes.now) v }
{
    let at = last_in(nodes, v as u16, 1) as usize;
    if at == 0 {
        return labels[v] as usize;
    }
    changes[at - 1] as usize
}

// A number read as a state, reached by no link.
fn handled_state(q: usize, s: usize) -> Climbed
    requires { s ≤ state_limit }
    ensures { result ≡ climbed_of (unmoved (below s q)) }
{
    if s <= q {
        return Climbed::OutOfRange;
    }
    Climbed::Reached(Reached {
        state: q as u8,
        links: 0,
        passed: 0,
    })
}

// The part of a leaf with label a.
fn leaf_on(leaves: &[u8], s: usize, k: usize, a: usize) -> Climbed
    requires { LeafArgs s k leaves.now }
    ensures { result ≡ climbed_of (leaf_on (leaves_view s k leaves.now) a) }
{
    if k <= a {
        return Climbed::OutOfRange;
    }
    handled_state(leaves[a] as usize, s)
}

// The rule for the states of both children and the label a, with the links and the nodes passed over of both.
fn join_on(inner: &[u8], s: usize, k: usize, a: usize, left: Climbed, right: Climbed) -> Climbed
    requires { JoinArgs s k inner.now left right }
    ensures { result
        ≡ climbed_of (join_on (rules_view s k inner.now) a (reached_in left) (reached_in right)) }
{
    match left {
        Climbed::Reached(x) => match right {
            Climbed::Reached(y) => {
                let r = rule_on(inner, s, k, x.state as usize, a, y.state as usize);
                if s <= r {
                    return Climbed::OutOfRange;
                }
                Climbed::Reached(Reached {
                    state: r as u8,
                    links: x.links + y.links,
                    passed: x.passed + y.passed,
                })
            }
            Climbed::OutOfRange => Climbed::OutOfRange,
        },
        Climbed::OutOfRange => Climbed::OutOfRange,
    }
}

// The state at child c, at depth `to`, where `own` is the place of the last earlier root below c and `other` that of
// the last below its sibling: the run's without a root below, the root's own with roots below both, else what the
// climb from the root gives.
// Its many parameters are the runs of plan, rule table and tables, and N, S and K: a struct of slices would need a
// proof of its borrows by hand (docs/DECISIONS.md, "Many parameters").
fn side_on(
    labels: &[u8],
    inner: &[u8],
    node_table: &[u16],
    state_table: &[u8],
    n: usize,
    s: usize,
    k: usize,
    earlier: &[u16],
    states: &[u8],
    to: usize,
    c: usize,
    own: usize,
    other: usize,
) -> Climbed
    requires { SideArgs n s k labels.now inner.now node_table.now state_table.now earlier.now states.now c own }
    ensures { result ≡ climbed_of (side_on (path_view n s k labels.now inner.now
        node_table.now state_table.now) to c (found_of earlier.now states.now own)
        (found_of earlier.now states.now other)) }
{
    if own == 0 {
        return handled_state(run_on(state_table, s, c), s);
    }
    let q = states[own - 1] as usize;
    if other != 0 {
        return handled_state(q, s);
    }
    if s <= q {
        return Climbed::OutOfRange;
    }
    climb_state(
        labels,
        inner,
        node_table,
        state_table,
        n,
        s,
        k,
        earlier[own - 1] as usize,
        to,
        q,
    )
}

// The part of inner node v with left child l, whose right child is the node before it, and with label a.
fn fork_on(
    labels: &[u8],
    inner: &[u8],
    node_table: &[u16],
    state_table: &[u8],
    n: usize,
    s: usize,
    k: usize,
    earlier: &[u16],
    states: &[u8],
    v: usize,
    l: usize,
    a: usize,
) -> Climbed
    requires { ForkArgs n s k labels.now inner.now node_table.now state_table.now earlier.now states.now v l }
    ensures { result ≡ climbed_of (fork_on (path_view n s k labels.now inner.now
        node_table.now state_table.now) earlier.now states.now v l a) }
{
    let to = depth_at(node_table, v) + 1;
    let i = last_below(node_table, earlier, l);
    let j = last_below(node_table, earlier, v - 1);
    let left = side_on(
        labels,
        inner,
        node_table,
        state_table,
        n,
        s,
        k,
        earlier,
        states,
        to,
        l,
        i,
        j,
    );
    let right = side_on(
        labels,
        inner,
        node_table,
        state_table,
        n,
        s,
        k,
        earlier,
        states,
        to,
        v - 1,
        j,
        i,
    );
    join_on(inner, s, k, a, left, right)
}

// The part of root v, after the earlier roots and their states.
// On the many parameters see docs/DECISIONS.md, "Many parameters".
fn part_on(
    labels: &[u8],
    kinds: &[u8],
    leaves: &[u8],
    inner: &[u8],
    node_table: &[u16],
    state_table: &[u8],
    n: usize,
    s: usize,
    k: usize,
    earlier: &[u16],
    states: &[u8],
    nodes: &[u16],
    changes: &[u8],
    v: usize,
) -> Climbed
    requires { PartArgs n s k labels.now kinds.now leaves.now inner.now node_table.now state_table.now
        earlier.now states.now nodes.now changes.now v }
    ensures { result ≡ climbed_of (part_on (part_view n s k labels.now kinds.now
        leaves.now inner.now node_table.now state_table.now)
        earlier.now states.now nodes.now changes.now v) }
{
    let a = label_on(labels, nodes, changes, v);
    if kinds[v] == 0 {
        return leaf_on(leaves, s, k, a);
    }
    if v == 0 {
        return Climbed::OutOfRange;
    }
    let z = size_at(node_table, v - 1);
    if v - 1 < z {
        return Climbed::OutOfRange;
    }
    fork_on(
        labels,
        inner,
        node_table,
        state_table,
        n,
        s,
        k,
        earlier,
        states,
        v,
        v - 1 - z,
        a,
    )
}

// The part of the root that comes next after those whose states are given, with N, S and K as given, for any inputs and
// with the listed nodes' labels changed. Out of range also where the inputs or what is asked for do not fit.
pub fn part(
    n: usize,
    s: usize,
    k: usize,
    plan: &[u8],
    rules: &[u8],
    node_table: &[u16],
    state_table: &[u8],
    roots: &[u16],
    states: &[u8],
    nodes: &[u16],
    labels: &[u8],
) -> Climbed
    ensures { PartDone n s k plan.now rules.now node_table.now state_table.now
        roots.now states.now nodes.now labels.now result }
{
    if !limits_fit(n, s, k) {
        return Climbed::OutOfRange;
    }
    if !rule_buffers_fit(
        n,
        s,
        k,
        plan.len(),
        rules.len(),
        node_table.len(),
        state_table.len(),
    ) {
        return Climbed::OutOfRange;
    }
    if !asked_fits(n, roots, states, nodes, labels) {
        return Climbed::OutOfRange;
    }
    let i = states.len();
    part_on(
        &plan[PLAN_HEAD..PLAN_HEAD + n],
        &plan[PLAN_HEAD + n..],
        &rules[RULES_HEAD..RULES_HEAD + k],
        &rules[RULES_HEAD + k..RULES_HEAD + k + s * k * s],
        &node_table[..n * NODE_COLUMNS],
        &state_table[..n * (s + 1)],
        n,
        s,
        k,
        &roots[..i],
        states,
        nodes,
        labels,
        roots[i] as usize,
    )
}
