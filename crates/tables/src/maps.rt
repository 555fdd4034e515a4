// The maps of a rule table's nodes, from the root down. The iteration of an inner node writes both children's maps.
ghost use Rattle.std.specs.Prelude.{◌-◌, length};
ghost use Rattle.tables.specs.node_tables.inner.UpPass.{left_of};
ghost use Rattle.tables.specs.inner.Maps.{MapArgs, Maps};
ghost use Rattle.tables.specs.inner.MapPairs.{PairRowed, right_value, left_value, PairArgs};
ghost use Rattle.tables.specs.inner.MapPairs.{BlockArgs, BlockMapped};

use crate::node_tables::blocks::{BLOCK, empty_list, list_inner};
use crate::pair_rows::{far_pair, near_pair};
use crate::rows::same_row;
use formats::layout::{JUMP, NODE_COLUMNS, SIZE};

// The maps of both children of inner node v. Whether they jump to v is one test for the two.
fn fill_pair(
    labels: &[u8],
    node_table: &[u16],
    inner: &[u8],
    s: usize,
    k: usize,
    v: usize,
    state_table: &mut [u8],
)
    requires { PairArgs labels.now node_table.now inner.now s k state_table.old v }
    ensures { PairRowed s (right_value labels.now node_table.now inner.now s k
        state_table.old v)
        (left_value labels.now node_table.now inner.now s k
        state_table.old v)
        (v - 1) (left_of node_table.now v) state_table.old state_table.new }
{
    let right = v - 1;
    let left = right - node_table[right * NODE_COLUMNS + SIZE] as usize;
    let a = labels[v] as usize;
    let x = state_table[left * (s + 1)] as usize;
    let y = state_table[right * (s + 1)] as usize;
    let row = (x * k + a) * s;
    let col = a * s + y;
    let j = node_table[v * NODE_COLUMNS + JUMP] as usize;
    if node_table[right * NODE_COLUMNS + JUMP] as usize == v {
        near_pair(state_table, s, right, left, inner, row, col, k * s);
    } else {
        far_pair(state_table, s, v, j, right, left, inner, row, col, k * s);
    }
}

// The same. The number of states is a literal where it is 2, 4 or 8, so that the compiler knows how long a row is.
fn fill_children(
    labels: &[u8],
    node_table: &[u16],
    inner: &[u8],
    s: usize,
    k: usize,
    v: usize,
    state_table: &mut [u8],
)
    requires { PairArgs labels.now node_table.now inner.now s k state_table.old v }
    ensures { PairRowed s (right_value labels.now node_table.now inner.now s k
        state_table.old v)
        (left_value labels.now node_table.now inner.now s k
        state_table.old v)
        (v - 1) (left_of node_table.now v) state_table.old state_table.new }
{
    match s {
        2 => fill_pair(labels, node_table, inner, 2, k, v, state_table),
        4 => fill_pair(labels, node_table, inner, 4, k, v, state_table),
        8 => fill_pair(labels, node_table, inner, 8, k, v, state_table),
        _ => fill_pair(labels, node_table, inner, s, k, v, state_table),
    }
}

// The maps of the children of the inner nodes b, .. e - 1, from the last one down.
fn fill_block(
    kinds: &[u8],
    labels: &[u8],
    node_table: &[u16],
    inner: &[u8],
    s: usize,
    k: usize,
    b: usize,
    e: usize,
    list: &mut [u16],
    state_table: &mut [u8],
)
    requires { BlockArgs kinds.now labels.now node_table.now inner.now s k b e (length list.old)
        state_table.old }
    ensures { BlockMapped kinds.now labels.now node_table.now inner.now s k b e
        state_table.old state_table.new }
{
    let c = list_inner(kinds, b, e, list);
    for i in (0..c).rev() {
        fill_children(
            labels,
            node_table,
            inner,
            s,
            k,
            list[i] as usize,
            state_table,
        );
    }
}

// Writes each node's map: by the nodes after the last whole block, then block by block. As there are two calls, the
// compiler does not inline fill_block, so its code is the same wherever a build is called.
pub fn fill_maps(
    kinds: &[u8],
    labels: &[u8],
    node_table: &[u16],
    inner: &[u8],
    s: usize,
    k: usize,
    state_table: &mut [u8],
)
    requires { MapArgs kinds.now labels.now node_table.now inner.now s k state_table.old }
    ensures { Maps kinds.now labels.now node_table.now inner.now s k 0
        state_table.old state_table.new }
{
    let n = kinds.len();
    same_row(state_table, s, n - 1);
    let mut list = empty_list();
    let whole = n / BLOCK;
    fill_block(
        kinds,
        labels,
        node_table,
        inner,
        s,
        k,
        whole * BLOCK,
        n,
        &mut list,
        state_table,
    );
    for i in (0..whole).rev() {
        let b = i * BLOCK;
        fill_block(
            kinds,
            labels,
            node_table,
            inner,
            s,
            k,
            b,
            b + BLOCK,
            &mut list,
            state_table,
        );
    }
}
