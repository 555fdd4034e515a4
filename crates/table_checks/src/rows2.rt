// The states and maps of a node's two children where there are two states: by arithmetic on 0 and 1, with no branch on
// near or far.
ghost use Rattle.std.specs.Prelude.{◌≡◌, cond, ◌-◌, ◌<◌, eqb};
ghost use Rattle.tables.specs.node_tables.Cells.{jump_cell};
ghost use Rattle.table_checks.specs.inner.PairNodes.{PairArgs};
ghost use Rattle.table_checks.specs.inner.PairStates.{rows_match, pair_states, RowsArgs, NodeRoom};
ghost use Rattle.table_checks.specs.inner.TwoStates.{TwoArgs, TwoMapped};

use crate::places::pair_at;
use crate::siblings::inside;
use formats::layout::{JUMP, NODE_COLUMNS};

// What node v and its jump make of the states 0 and 1 of its children; the states themselves where they are near.
#[derive(Clone, Copy)]
struct Two {
    zero: u8,
    one: u8,
}

// 0 where the right child's jump is node v, else 1.
fn far_bit(node_table: &[u16], n: usize, v: usize) -> u8
    requires { PairArgs n node_table.now v }
    ensures { result ≡ cond (eqb (jump_cell node_table.now (v - 1)) v) 0 1 }
{
    let right = v - 1;
    if node_table[right * NODE_COLUMNS + JUMP] == v as u16 {
        0
    } else {
        1
    }
}

// The map that both children's steps are composed with.
fn two_maps(node_table: &[u16], n: usize, state_table: &[u8], v: usize) -> Two
    requires { TwoArgs node_table.now n state_table.now v }
    ensures { TwoMapped node_table.now n state_table.now v result.zero result.one }
{
    let far = far_bit(node_table, n, v);
    let j = inside(node_table[v * NODE_COLUMNS + JUMP] as usize, n);
    let p = state_table[v * 3 + 1] as usize;
    let q = state_table[v * 3 + 2] as usize;
    let x = state_table[j * 3 + (1 + p)];
    let y = state_table[j * 3 + (1 + q)];
    Two {
        zero: x & far,
        one: y | (1 - far),
    }
}

// The entry for x of the map with these two entries.
fn entry_of(zero: u8, one: u8, x: u8) -> u8
    requires { (zero < 2) × (one < 2) × (x < 2) }
    ensures { result ≡ cond (eqb x 0) zero one }
{
    zero ^ (x & (zero ^ one))
}

// Where both children's maps differ from what they have to be.
fn row_differences2(
    node_table: &[u16],
    inner: &[u8],
    n: usize,
    state_table: &[u8],
    v: usize,
    left: usize,
    row: usize,
    col: usize,
    step: usize,
) -> u8
    requires { RowsArgs node_table.now inner.now 2 n state_table.now v left row col step }
    ensures { eqb result 0 ≡ rows_match node_table.now inner.now 2 n
        state_table.now v left row col step }
{
    let right = v - 1;
    let two = two_maps(node_table, n, state_table, v);
    let m0 = two.zero;
    let m1 = two.one;
    let a = state_table[right * 3 + 1] ^ entry_of(m0, m1, inner[row]);
    let b = state_table[right * 3 + 2] ^ entry_of(m0, m1, inner[row + 1]);
    let c = state_table[left * 3 + 1] ^ entry_of(m0, m1, inner[col]);
    let d = state_table[left * 3 + 2] ^ entry_of(m0, m1, inner[col + step]);
    (a | b) | (c | d)
}

// Where inner node v's state and its children's maps differ from what follows from their neighbours'; 0 nowhere.
pub fn pair_differences2(
    labels: &[u8],
    node_table: &[u16],
    leaves: &[u8],
    inner: &[u8],
    k: usize,
    n: usize,
    state_table: &[u8],
    v: usize,
) -> u8
    requires { NodeRoom labels.now node_table.now leaves.now inner.now 2 k n state_table.now v }
    ensures { eqb result 0 ≡ pair_states labels.now node_table.now inner.now 2 k n
        state_table.now v }
{
    let pair = pair_at(labels, node_table, leaves, inner, 2, k, n, state_table, v);
    let left = pair.left;
    let row = pair.row;
    let col = pair.col;
    let rows = row_differences2(node_table, inner, n, state_table, v, left, row, col, k * 2);
    pair.state | rows
}
