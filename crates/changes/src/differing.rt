// Changes that change nothing (document 02, S-5): the nodes of a list whose label, after superseding, is not the
// plan's.
//     LeftNodes   these nodes
//     differing   the test of a whole list
ghost use Rattle.std.specs.Prelude.{◌+◌, ◌≤◌, ◌≡◌, cond, [], length, drop, get_or};
ghost use Rattle.list_laws.specs.Tests.{holds};
ghost use Rattle.formats.specs.Limits.{change_limit};
ghost use Rattle.changes.specs.inner.LastPlaces.{LastPlaces, PlaceArgs};
ghost use Rattle.changes.specs.inner.LastDiffering.{is_left, left_within, left_nodes, pushed, KeepArgs, DifferingDone};

use formats::limits::CHANGE_LIMIT;
use formats::lists::{is_listed, lists_fit};

// The first `count` nodes are those that are left, each once; the rest is zero.
#[derive(Clone, Copy)]
pub struct LeftNodes {
    pub count: usize,
    pub nodes: [u16; CHANGE_LIMIT],
}

// No node.
fn none_left() -> LeftNodes
    ensures { result ≡ left_nodes [] }
{
    LeftNodes {
        count: 0,
        nodes: [0u16; CHANGE_LIMIT],
    }
}

// The label of node v; 0 past the end.
fn label_at(labels: &[u8], v: u16) -> u8
    ensures { result ≡ get_or labels.now v 0 }
{
    let at = v as usize;
    if labels.len() <= at {
        return 0;
    }
    labels[at]
}

// Stores for each remainder of a node by 256 the place of the last entry whose node has it.
fn put_places(nodes: &[u16], last: &mut [u8; 256])
    requires { (length nodes.now ≤ change_limit) × (length last.old ≡ 256) }
    ensures { LastPlaces (length nodes.now) nodes.now last.new }
{
    for (i, v) in nodes.iter().enumerate() {
        last[(*v % 256) as usize] = i as u8;
    }
}

// Whether the entry at place i is superseded. It is not where it is the last of its remainder; only else the entries
// after it are looked through.
fn is_superseded(nodes: &[u16], last: &[u8; 256], i: usize) -> bool
    requires { PlaceArgs nodes.now last.now i }
    ensures { result ≡ holds (get_or nodes.now i 0) (drop (i + 1) nodes.now) }
{
    let v = nodes[i];
    if last[(v % 256) as usize] == i as u8 {
        return false;
    }
    is_listed(v, &nodes[i + 1..])
}

// The entry at place i: its node is one more where it has no later entry and the label is not its own. Returns how many
// there are.
fn keep(
    left: &mut [u16; CHANGE_LIMIT],
    count: usize,
    labels: &[u8],
    nodes: &[u16],
    changes: &[u8],
    last: &[u8; 256],
    i: usize,
) -> usize
    requires { KeepArgs (left_within count left.old) nodes.now changes.now last.now i }
    ensures { left_within result left.new
        ≡ cond (is_left labels.now (get_or nodes.now i 0) (get_or changes.now i 0)
        (drop (i + 1) nodes.now))
        (pushed (left_within count left.old) (get_or nodes.now i 0))
        (left_within count left.old) }
{
    if is_superseded(nodes, last, i) {
        return count;
    }
    let v = nodes[i];
    if changes[i] == label_at(labels, v) {
        return count;
    }
    left[count] = v;
    count + 1
}

// The nodes of the list whose label, after superseding, is not the one they have in `labels`: in the order of their
// last entries.
pub fn differing(labels: &[u8], nodes: &[u16], changes: &[u8]) -> LeftNodes
    ensures { DifferingDone labels.now nodes.now changes.now result }
{
    if !lists_fit(nodes, changes) {
        return none_left();
    }
    let mut last = [0u8; 256];
    put_places(nodes, &mut last);
    let mut left = [0u16; CHANGE_LIMIT];
    let mut count = 0;
    for i in 0..nodes.len() {
        count = keep(&mut left, count, labels, nodes, changes, &last, i);
    }
    LeftNodes {
        count: count,
        nodes: left,
    }
}
