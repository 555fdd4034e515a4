// The pass down: each node's set of clearing states goes to its children, and its labels are written, in falling node
// number.
ghost use Rattle.std.specs.Prelude.{◌≡◌, List, ℕ, ◌<◌, length};
ghost use Rattle.allowed.specs.inner.masks.Down.{leaf_down, inner_labels, inner_down, node_down};
ghost use Rattle.allowed.specs.inner.masks.Down.{LeafDownArgs, InnerDownArgs, NodeDownArgs, DownWritten, DownArgs};
ghost use Rattle.allowed.specs.inner.Sets.{SetArgs};

use crate::sets::{left_set, right_set};
use state_sets::gather::gathered;

// The iteration of a leaf: the labels whose state is in its set.
fn leaf_down(leaves: &[u8], k: usize, cells: &mut [u64], v: usize)
    requires { LeafDownArgs cells.old leaves.now k v }
    ensures { cells.new ≡ leaf_down cells.old leaves.now k v }
{
    let c = cells[v] / 1048576 % 65536;
    let m = gathered(leaves, 0, 1, c, k);
    cells[v] = m;
}

// The labels that lead from p and q into the set c.
fn inner_labels(inner: &[u8], s: usize, k: usize, p: usize, a: usize, q: usize, c: u64) -> u64
    requires { SetArgs inner.now s k p a q }
    ensures { result ≡ inner_labels inner.now s k p q c }
{
    gathered(inner, p * k * s + q, s, c, k)
}

// The iteration of an inner node: the sets of its children, and its labels.
fn inner_down(inner: &[u8], s: usize, k: usize, a: usize, cells: &mut [u64], v: usize)
    requires { InnerDownArgs cells.old inner.now s k v a }
    ensures { cells.new ≡ inner_down cells.old inner.now s k v a }
{
    let c = cells[v] / 1048576 % 65536;
    let y = cells[v - 1];
    let left = v - 1 - (y % 65536) as usize;
    let x = cells[left];
    let p = (x / 65536 % 16) as usize;
    let q = (y / 65536 % 16) as usize;
    let r = right_set(inner, s, k, p, a, q, c);
    let l = left_set(inner, s, k, p, a, q, c);
    let m = inner_labels(inner, s, k, p, a, q, c);
    cells[v - 1] = y + 1048576 * r;
    cells[left] = x + 1048576 * l;
    cells[v] = m;
}

// The iteration of node v.
fn node_down(
    kinds: &[u8],
    labels: &[u8],
    leaves: &[u8],
    inner: &[u8],
    s: usize,
    k: usize,
    cells: &mut [u64],
    v: usize,
)
    requires { NodeDownArgs kinds.now labels.now leaves.now inner.now s k cells.old v }
    ensures { cells.new ≡ node_down kinds.now labels.now leaves.now inner.now
        s k cells.old v }
{
    if kinds[v] == 0 {
        leaf_down(leaves, k, cells, v);
        return;
    }
    inner_down(inner, s, k, labels[v] as usize, cells, v);
}

// Writes each node's allowed labels.
pub fn come_down(
    kinds: &[u8],
    labels: &[u8],
    leaves: &[u8],
    inner: &[u8],
    s: usize,
    k: usize,
    cells: &mut [u64],
)
    requires { DownArgs kinds.now labels.now leaves.now inner.now s k cells.old }
    ensures { (marks first : List ℕ)
        → DownWritten kinds.now labels.now leaves.now inner.now marks s k
        (length kinds.now) first cells.old
        → DownWritten kinds.now labels.now leaves.now inner.now marks s k 0 first
        cells.new }
{
    for v in (0..kinds.len()).rev() {
        node_down(kinds, labels, leaves, inner, s, k, cells, v);
    }
}
