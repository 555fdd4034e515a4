// The pass down: each node's set of clearing states, in falling node number. The set of the node at hand is carried
// along; that of a left child waits at the first node of its sibling's subtree.
ghost use Rattle.std.specs.Prelude.{◌≡◌, List, ℕ, ◌<◌, length, get_or};
ghost use Rattle.allowed.specs.inner.clearing.Down.{leaf_down, leaf_next, inner_down, inner_next, node_down, node_next};
ghost use Rattle.allowed.specs.inner.clearing.Down.{InnerDownArgs, NodeDownArgs, DownWritten, DownArgs, SetsWritten};
ghost use Rattle.allowed.specs.inner.Inputs.{PassArgs};

use crate::clearing::cells::first_of;
use crate::sets::{left_set, right_set};

// The iteration of a leaf with the set c: the set of the node before it was waiting here.
fn leaf_down(cells: &mut [u16], v: usize, c: u64) -> u64
    requires { (v < length cells.old) × (c < 65536) }
    ensures { (cells.new ≡ leaf_down cells.old v c) × (result ≡ leaf_next cells.old v) }
{
    let next = cells[v];
    cells[v] = c as u16;
    next as u64
}

// The iteration of an inner node with the set c: its left child's set waits, its right child's is next.
fn inner_down(
    kinds: &[u8],
    inner: &[u8],
    s: usize,
    k: usize,
    cells: &mut [u16],
    v: usize,
    a: usize,
    c: u64,
) -> u64
    requires { InnerDownArgs kinds.now inner.now s k cells.old v a c }
    ensures { (cells.new ≡ inner_down kinds.now inner.now s k cells.old v a c)
        × (result ≡ inner_next kinds.now inner.now s k cells.old v a c) }
{
    let f = first_of(kinds, cells, v - 1);
    let x = cells[f];
    let p = (x % 16) as usize;
    let q = (x / 16 % 16) as usize;
    let r = right_set(inner, s, k, p, a, q, c);
    let l = left_set(inner, s, k, p, a, q, c);
    cells[f] = l as u16;
    cells[v] = c as u16;
    r
}

// The iteration of node v with the set c: it returns the set of the node before v.
fn node_down(
    kinds: &[u8],
    labels: &[u8],
    inner: &[u8],
    s: usize,
    k: usize,
    cells: &mut [u16],
    v: usize,
    c: u64,
) -> u64
    requires { NodeDownArgs kinds.now labels.now inner.now s k cells.old v c }
    ensures { (cells.new ≡ node_down kinds.now labels.now inner.now s k cells.old v c)
        × (result ≡ node_next kinds.now labels.now inner.now s k cells.old v c) }
{
    if kinds[v] == 0 {
        return leaf_down(cells, v, c);
    }
    inner_down(kinds, inner, s, k, cells, v, labels[v] as usize, c)
}

// Writes each node's clearing states, from the root's, c.
pub fn sets_down(
    kinds: &[u8],
    labels: &[u8],
    inner: &[u8],
    s: usize,
    k: usize,
    cells: &mut [u16],
    c: u64,
)
    requires { DownArgs kinds.now labels.now inner.now s k c cells.old }
    ensures { (leaves marks first : List ℕ)
        → PassArgs kinds.now labels.now leaves inner.now s k
        → DownWritten kinds.now labels.now leaves inner.now marks s k
        (length kinds.now) c first cells.old
        → SetsWritten kinds.now labels.now leaves inner.now marks s k first
        cells.new }
{
    let mut set = c;
    for v in (0..kinds.len()).rev() {
        set = node_down(kinds, labels, inner, s, k, cells, v, set);
    }
}
