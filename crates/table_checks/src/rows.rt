// The states and maps of a node's two children, tested at the parent.
ghost use Rattle.std.specs.Prelude.{◌≡◌, eqb};
ghost use Rattle.table_checks.specs.inner.PairStates.{rows_match, pair_states, RowsArgs, NodeRoom};

use crate::differences::{far_differences, near_differences};
use crate::places::pair_at;
use crate::siblings::inside;
use formats::layout::{JUMP, NODE_COLUMNS};

// Where both children's maps differ from their steps to node v, composed with the maps of v and its jump where the
// right child's jump is not v.
fn row_differences(
    node_table: &[u16],
    inner: &[u8],
    s: usize,
    n: usize,
    state_table: &[u8],
    v: usize,
    left: usize,
    row: usize,
    col: usize,
    step: usize,
) -> u8
    requires { RowsArgs node_table.now inner.now s n state_table.now v left row col step }
    ensures { eqb result 0 ≡ rows_match node_table.now inner.now s n
        state_table.now v left row col step }
{
    let right = v - 1;
    if node_table[right * NODE_COLUMNS + JUMP] == v as u16 {
        let a = near_differences(state_table, s, right, inner, row, 1);
        let b = near_differences(state_table, s, left, inner, col, step);
        return a | b;
    }
    let j = inside(node_table[v * NODE_COLUMNS + JUMP] as usize, n);
    let a = far_differences(state_table, s, right, v, j, inner, row, 1);
    let b = far_differences(state_table, s, left, v, j, inner, col, step);
    a | b
}

// Where inner node v's state and its children's maps differ from what follows from their neighbours'; 0 nowhere.
pub fn pair_differences(
    labels: &[u8],
    node_table: &[u16],
    leaves: &[u8],
    inner: &[u8],
    s: usize,
    k: usize,
    n: usize,
    state_table: &[u8],
    v: usize,
) -> u8
    requires { NodeRoom labels.now node_table.now leaves.now inner.now s k n state_table.now v }
    ensures { eqb result 0 ≡ pair_states labels.now node_table.now inner.now s k n
        state_table.now v }
{
    let pair = pair_at(labels, node_table, leaves, inner, s, k, n, state_table, v);
    let left = pair.left;
    let row = pair.row;
    let col = pair.col;
    let rows = row_differences(
        node_table,
        inner,
        s,
        n,
        state_table,
        v,
        left,
        row,
        col,
        k * s,
    );
    pair.state | rows
}
