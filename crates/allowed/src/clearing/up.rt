// The pass up: where each subtree begins, and the states of each pair of children, in rising node number.
ghost use Rattle.std.specs.Prelude.{◌≡◌, ◌≤◌, length};
ghost use Rattle.allowed.specs.inner.Inputs.{PassArgs};
ghost use Rattle.allowed.specs.inner.clearing.Up.{pair_in, inner_up, node_up, PairArgs, InnerUpArgs, NodeUpArgs, UpWritten};

use crate::clearing::cells::{first_of, state_of};
use formats::rules::rule;

// The states of inner node v's children, and its own; its right child's subtree begins at f.
fn pair_cell(
    kinds: &[u8],
    labels: &[u8],
    leaves: &[u8],
    inner: &[u8],
    s: usize,
    k: usize,
    cells: &[u16],
    f: usize,
    v: usize,
) -> u16
    requires { PairArgs kinds.now labels.now leaves.now inner.now s k cells.now f v }
    ensures { result ≡ pair_in kinds.now labels.now leaves.now inner.now s k
        cells.now f v }
{
    let p = state_of(kinds, labels, leaves, cells, f - 1);
    let q = state_of(kinds, labels, leaves, cells, v - 1);
    let to = rule(inner, s, k, p, labels[v] as usize, q);
    (p + 16 * q + 256 * (to as usize)) as u16
}

// The iteration of an inner node.
fn inner_up(
    kinds: &[u8],
    labels: &[u8],
    leaves: &[u8],
    inner: &[u8],
    s: usize,
    k: usize,
    cells: &mut [u16],
    v: usize,
)
    requires { InnerUpArgs kinds.now labels.now leaves.now inner.now s k cells.old v }
    ensures { cells.new ≡ inner_up kinds.now labels.now leaves.now inner.now
        s k cells.old v }
{
    let f = first_of(kinds, cells, v - 1);
    let x = pair_cell(kinds, labels, leaves, inner, s, k, cells, f, v);
    let g = first_of(kinds, cells, f - 1);
    cells[f] = x;
    cells[v] = g as u16;
}

// The iteration of node v: nothing for a leaf.
fn node_up(
    kinds: &[u8],
    labels: &[u8],
    leaves: &[u8],
    inner: &[u8],
    s: usize,
    k: usize,
    cells: &mut [u16],
    v: usize,
)
    requires { NodeUpArgs kinds.now labels.now leaves.now inner.now s k cells.old v }
    ensures { cells.new ≡ node_up kinds.now labels.now leaves.now inner.now
        s k cells.old v }
{
    if kinds[v] == 0 {
        return;
    }
    inner_up(kinds, labels, leaves, inner, s, k, cells, v);
}

// Writes where each subtree begins, and the states of each pair of children.
pub fn pairs_up(
    kinds: &[u8],
    labels: &[u8],
    leaves: &[u8],
    inner: &[u8],
    s: usize,
    k: usize,
    cells: &mut [u16],
)
    requires { PassArgs kinds.now labels.now leaves.now inner.now s k × (length kinds.now ≤ length cells.old) }
    ensures { UpWritten kinds.now labels.now leaves.now inner.now s k
        (length kinds.now) cells.old cells.new }
{
    for v in 0..kinds.len() {
        node_up(kinds, labels, leaves, inner, s, k, cells, v);
    }
}
