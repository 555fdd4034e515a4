// The pass up: each node's size and costs, in rising node number. The functions marked `#[inline(never)]`, here, in
// call.rt and in list/entries.rt, keep their variables out of the stack frame that holds the images: the whole call
// needs at most 1 KiB of stack.
ghost use Rattle.std.specs.Prelude.{◌≡◌, true, ◌-◌, ◌≤◌, length};
ghost use Rattle.state_sets.specs.StateSets.{member};
ghost use Rattle.fewest.specs.inner.Images.{ImagesFit, ImagesFor};
ghost use Rattle.fewest.specs.inner.Rows.{leaf_costs, inner_costs, Relaxed, CostRow};
ghost use Rattle.fewest.specs.inner.passes.Cells.{cost_cell, left_within, inner_size, RowDone};
ghost use Rattle.fewest.specs.inner.passes.Up.{node_size, node_costs, LeafTurnArgs, InnerTurnArgs, NodeTurnArgs, UpGiven, Up};

use crate::passes::cells::{put_row, stock};
use crate::rows::NO_WAY;
use crate::rows::images::fill_images;
use crate::rows::leaves::relax_leaf;
use crate::rows::relax::relax_left;
use formats::limits::STATE_LIMIT;

// The turn of a leaf of label a that may take the labels of the set.
#[inline(never)]
fn leaf_turn(work: &mut [u32], leaves: &[u8], s: usize, k: usize, v: usize, a: usize, labels: u64)
    requires { LeafTurnArgs work.old leaves.now s k v }
    ensures { RowDone s v 1 (leaf_costs leaves.now k a (member labels)) work.old work.new }
{
    let mut row = [NO_WAY; STATE_LIMIT];
    relax_leaf(&mut row, leaves, s, k, a, labels);
    put_row(work, s, v, 1, &row);
}

// Lowers the row by the rows of inner node v's children.
fn inner_row(
    row: &mut [u32],
    work: &[u32],
    inner: &[u8],
    images: &[u16],
    s: usize,
    k: usize,
    v: usize,
    a: usize,
    labels: u64,
)
    requires { InnerTurnArgs work.now inner.now s k v × CostRow s row.old
        × ImagesFit inner.now s k a (member labels) images.now }
    ensures { Relaxed s (inner_costs inner.now s k a (member labels)
        (cost_cell s work.now (left_within s work.now v)) (cost_cell s work.now (v - 1)))
        row.old row.new }
{
    let y = work[(v - 1) * (s + 1)] as usize;
    let l = (v - 1 - y) * (s + 1) + 1;
    let r = (v - 1) * (s + 1) + 1;
    relax_left(
        row,
        inner,
        images,
        s,
        k,
        &work[l..l + s],
        &work[r..r + s],
        a,
        labels,
    );
}

// How many nodes stand at and below inner node v.
#[inline(never)]
fn inner_size(work: &[u32], inner: &[u8], s: usize, k: usize, v: usize) -> u32
    requires { InnerTurnArgs work.now inner.now s k v }
    ensures { result ≡ inner_size s work.now v }
{
    let y = work[(v - 1) * (s + 1)];
    let l = v - 1 - y as usize;
    work[l * (s + 1)] + y + 1
}

// The turn of an inner node of label a that may take the labels of the set.
#[inline(never)]
fn inner_turn(
    work: &mut [u32],
    inner: &[u8],
    images: &[u16],
    s: usize,
    k: usize,
    v: usize,
    a: usize,
    labels: u64,
)
    requires { InnerTurnArgs work.old inner.now s k v × ImagesFit inner.now s k a (member labels) images.now }
    ensures { RowDone s v (inner_size s work.old v) (inner_costs inner.now s k a (member labels)
        (cost_cell s work.old (left_within s work.old v)) (cost_cell s work.old (v - 1)))
        work.old work.new }
{
    let mut row = [NO_WAY; STATE_LIMIT];
    inner_row(&mut row, work, inner, images, s, k, v, a, labels);
    let z = inner_size(work, inner, s, k, v);
    put_row(work, s, v, z, &row);
}

// The turn of node v.
fn node_turn(
    kinds: &[u8],
    labels: &[u8],
    leaves: &[u8],
    inner: &[u8],
    may: &[u64],
    images: &[u16],
    s: usize,
    k: usize,
    work: &mut [u32],
    v: usize,
)
    requires { NodeTurnArgs kinds.now labels.now leaves.now inner.now may.now s k work.old v
        × ImagesFor inner.now s k labels.now may.now images.now }
    ensures { RowDone s v (node_size kinds.now s work.old v)
        (node_costs kinds.now labels.now leaves.now inner.now may.now s k
        work.old v) work.old work.new }
{
    let a = labels[v] as usize;
    let m = stock(may, v);
    if kinds[v] == 0 {
        leaf_turn(work, leaves, s, k, v, a, m);
        return;
    }
    inner_turn(work, inner, images, s, k, v, a, m);
}

// Writes each node's size and costs; by images where there are some.
fn pass_up(
    kinds: &[u8],
    labels: &[u8],
    leaves: &[u8],
    inner: &[u8],
    may: &[u64],
    images: &[u16],
    s: usize,
    k: usize,
    work: &mut [u32],
)
    requires { UpGiven kinds.now labels.now leaves.now inner.now may.now s k (length work.old)
        × ImagesFor inner.now s k labels.now may.now images.now }
    ensures { Up kinds.now labels.now leaves.now inner.now may.now s k
        (length kinds.now) work.old work.new }
{
    for v in 0..kinds.len() {
        node_turn(kinds, labels, leaves, inner, may, images, s, k, work, v);
    }
}

// Whether images save time: every node may take every label, and there are more labels than states.
fn by_images(sets: usize, s: usize, k: usize) -> bool
    ensures { result ≡ true → sets ≡ 0 }
{
    if 0 < sets {
        return false;
    }
    s < k
}

// Writes each node's size and costs.
pub fn costs_up(
    kinds: &[u8],
    labels: &[u8],
    leaves: &[u8],
    inner: &[u8],
    may: &[u64],
    s: usize,
    k: usize,
    work: &mut [u32],
)
    requires { UpGiven kinds.now labels.now leaves.now inner.now may.now s k (length work.old) }
    ensures { Up kinds.now labels.now leaves.now inner.now may.now s k
        (length kinds.now) work.old work.new }
{
    let mut images = [0u16; STATE_LIMIT * STATE_LIMIT];
    if by_images(may.len(), s, k) {
        fill_images(&mut images, inner, s, k);
        pass_up(kinds, labels, leaves, inner, may, &images, s, k, work);
        return;
    }
    pass_up(kinds, labels, leaves, inner, may, &images[..0], s, k, work);
}
