// One part of a rule question by colours: the state of its root, from the parts before it, the drops of its trials and
// their links, for any inputs. Where roots are below one child only, that child's state is found by trials. None says
// that there is no state: a value read leads outside, or no trial finds one.
ghost use Rattle.std.specs.Prelude.{◌≡◌, ◌≤◌};
ghost use Rattle.tables.specs.Climbs.{below};
ghost use Rattle.questions.specs.inner.Scans.{found_of};
ghost use Rattle.colour_questions.specs.target_states.Trials.{trial_of};
ghost use Rattle.colour_questions.specs.parts.Part.{sides_of, untried, side_tried, fork_tried, leaf_tried, part_tried};
ghost use Rattle.colour_questions.specs.parts.inner.Args.{colour_view, SideArgs, ForkArgs, LeafArgs, PartArgs, SideDone};
ghost use Rattle.colour_questions.specs.parts.inner.Args.{PartDone};

use crate::target_states::trials::{Trial, try_targets};
use questions::part::{label_on, last_below};
use tables::lookups::{rule_on, run_on};
use tables::node_tables::moves::size_at;

// A number read as a state, found without a trial.
fn untried_state(q: usize, s: usize) -> Option<Trial>
    requires { s ≤ 4 }
    ensures { result ≡ trial_of (untried (below s q)) }
{
    if s <= q {
        return None;
    }
    Some(Trial {
        state: q as u8,
        drops: 0,
        links: 0,
    })
}

// The state at child c, where `own` is the place of the last earlier root below c and `other` that of the last below
// its sibling: the run's without a root below, the root's own with roots below both, else what the trials find.
fn side_by_colours(
    state_table: &[u8],
    numbers: &[u16],
    copies: &[u8],
    n: usize,
    s: usize,
    m: usize,
    earlier: &[u16],
    states: &[u8],
    c: usize,
    own: usize,
    other: usize,
) -> Option<Trial>
    requires { SideArgs n s m state_table.now numbers.now copies.now earlier.now states.now c own }
    ensures { SideDone s own other (side_tried (sides_of n s m state_table.now numbers.now
        copies.now) c (found_of earlier.now states.now own)
        (found_of earlier.now states.now other)) result }
{
    if own == 0 {
        return untried_state(run_on(state_table, s, c), s);
    }
    let q = states[own - 1];
    if other != 0 {
        return untried_state(q as usize, s);
    }
    if s <= q as usize {
        return None;
    }
    try_targets(numbers, copies, n, s, m, c, earlier[own - 1] as usize, q)
}

// The part of inner node v with left child l, whose right child is the node before it, and with label a.
// On the many parameters see docs/DECISIONS.md, "Many parameters".
fn fork_by_colours(
    inner: &[u8],
    node_table: &[u16],
    state_table: &[u8],
    numbers: &[u16],
    copies: &[u8],
    n: usize,
    s: usize,
    k: usize,
    m: usize,
    earlier: &[u16],
    states: &[u8],
    v: usize,
    l: usize,
    a: usize,
) -> Option<Trial>
    requires { ForkArgs n s k m inner.now node_table.now state_table.now numbers.now copies.now
        earlier.now states.now v l }
    ensures { PartDone s (fork_tried (sides_of n s m state_table.now numbers.now
        copies.now) k inner.now node_table.now earlier.now
        states.now v l a) result }
{
    let r = v - 1;
    let i = last_below(node_table, earlier, l);
    let j = last_below(node_table, earlier, r);
    let left = side_by_colours(
        state_table,
        numbers,
        copies,
        n,
        s,
        m,
        earlier,
        states,
        l,
        i,
        j,
    )?;
    let right = side_by_colours(
        state_table,
        numbers,
        copies,
        n,
        s,
        m,
        earlier,
        states,
        r,
        j,
        i,
    )?;
    let q = rule_on(inner, s, k, left.state as usize, a, right.state as usize);
    if s <= q {
        return None;
    }
    Some(Trial {
        state: q as u8,
        drops: left.drops + right.drops,
        links: left.links + right.links,
    })
}

// The part of a leaf with label a.
fn leaf_state(leaves: &[u8], s: usize, k: usize, a: usize) -> Option<Trial>
    requires { LeafArgs s k leaves.now }
    ensures { result ≡ trial_of (leaf_tried s k leaves.now a) }
{
    if k <= a {
        return None;
    }
    untried_state(leaves[a] as usize, s)
}

// The part of root v, after the earlier roots and their states, with the listed nodes' labels changed; m is the number
// of sets of states.
// On the many parameters see docs/DECISIONS.md, "Many parameters".
pub fn part_by_colours(
    labels: &[u8],
    kinds: &[u8],
    leaves: &[u8],
    inner: &[u8],
    node_table: &[u16],
    state_table: &[u8],
    numbers: &[u16],
    copies: &[u8],
    n: usize,
    s: usize,
    k: usize,
    m: usize,
    earlier: &[u16],
    states: &[u8],
    nodes: &[u16],
    changes: &[u8],
    v: usize,
) -> Option<Trial>
    requires { PartArgs n s k m labels.now kinds.now leaves.now inner.now node_table.now state_table.now
        numbers.now copies.now earlier.now states.now nodes.now changes.now v }
    ensures { PartDone s (part_tried (colour_view n s k labels.now kinds.now leaves.entry.now
        inner.now node_table.now state_table.now numbers.now
        copies.now) earlier.now states.now nodes.now changes.now
        v)
        result }
{
    let a = label_on(labels, nodes, changes, v);
    if kinds[v] == 0 {
        return leaf_state(leaves, s, k, a);
    }
    if v == 0 {
        return None;
    }
    let z = size_at(node_table, v - 1);
    if v - 1 < z {
        return None;
    }
    fork_by_colours(
        inner,
        node_table,
        state_table,
        numbers,
        copies,
        n,
        s,
        k,
        m,
        earlier,
        states,
        v,
        v - 1 - z,
        a,
    )
}
