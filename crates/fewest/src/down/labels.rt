// The pass down: each node's state goes to its children as theirs, and its label is told, in falling node number.
ghost use Rattle.std.specs.Prelude.{◌≡◌, List, ℕ, length};
ghost use Rattle.state_sets.specs.StateSets.{member};
ghost use Rattle.fewest.specs.inner.down.Down.{placed, ChoiceAt, InnerDown, LeafDown, NodeDown};
ghost use Rattle.fewest.specs.inner.down.Down.{InnerDownArgs, LeafDownArgs, NodeDownArgs, PlaceArgs, DownGiven, Down};

use crate::down::search::{Choice, choose, find_leaf_label};
use crate::passes::cells::stock;

// The turn of a leaf of label a that may take the labels of the set.
fn leaf_down(work: &mut [u32], leaves: &[u8], s: usize, k: usize, v: usize, a: usize, labels: u64)
    requires { LeafDownArgs work.old leaves.now s k v }
    ensures { LeafDown work.old leaves.now s k v a (member labels) work.new }
{
    let own = v * (s + 1);
    let j = work[own] as usize;
    let c = work[own + 1 + j];
    let b = find_leaf_label(leaves, s, k, a, labels, j, c);
    work[own] = b as u32;
}

// The way into inner node v's state.
fn choice_at(
    work: &[u32],
    inner: &[u8],
    s: usize,
    k: usize,
    v: usize,
    a: usize,
    labels: u64,
) -> Choice
    requires { InnerDownArgs work.now inner.now s k v a (member labels) }
    ensures { ChoiceAt work.now inner.now s k v a (member labels) result.left result.right result.label }
{
    let right = (v - 1) * (s + 1);
    let left = (v - 1 - work[right] as usize) * (s + 1);
    let own = v * (s + 1);
    let j = work[own] as usize;
    let c = work[own + 1 + j];
    choose(work, inner, s, k, left + 1, right + 1, a, labels, j, c)
}

// Tells the children of node v their states, and its own label.
fn place(work: &mut [u32], s: usize, v: usize, p: usize, q: usize, b: usize)
    requires { PlaceArgs work.old s v p q b }
    ensures { work.new ≡ placed s work.old v p q b }
{
    let right = (v - 1) * (s + 1);
    let left = (v - 1 - work[right] as usize) * (s + 1);
    work[right] = q as u32;
    work[left] = p as u32;
    work[v * (s + 1)] = b as u32;
}

// The turn of an inner node of label a that may take the labels of the set.
fn inner_down(work: &mut [u32], inner: &[u8], s: usize, k: usize, v: usize, a: usize, labels: u64)
    requires { InnerDownArgs work.old inner.now s k v a (member labels) }
    ensures { InnerDown work.old inner.now s k v a (member labels) work.new }
{
    let d = choice_at(work, inner, s, k, v, a, labels);
    let p = d.left;
    let q = d.right;
    let b = d.label;
    place(work, s, v, p, q, b);
}

// The turn of node v.
fn node_down(
    kinds: &[u8],
    labels: &[u8],
    leaves: &[u8],
    inner: &[u8],
    may: &[u64],
    s: usize,
    k: usize,
    work: &mut [u32],
    v: usize,
)
    requires { NodeDownArgs kinds.now labels.now leaves.now inner.now may.now s k work.old v }
    ensures { NodeDown kinds.now labels.now leaves.now inner.now may.now
        s k work.old v work.new }
{
    let a = labels[v] as usize;
    let m = stock(may, v);
    if kinds[v] == 0 {
        leaf_down(work, leaves, s, k, v, a, m);
        return;
    }
    inner_down(work, inner, s, k, v, a, m);
}

// Tells each node its label.
pub fn labels_down(
    kinds: &[u8],
    labels: &[u8],
    leaves: &[u8],
    inner: &[u8],
    may: &[u64],
    s: usize,
    k: usize,
    work: &mut [u32],
)
    requires { DownGiven kinds.now labels.now leaves.now inner.now may.now s k work.old }
    ensures { Down kinds.now labels.now leaves.now inner.now may.now s k
        0 work.old work.new }
{
    for v in (0..kinds.len()).rev() {
        node_down(kinds, labels, leaves, inner, may, s, k, work, v);
    }
}
