// The states and maps of a node's two children where there are 16 states: as in rows, but the compiler knows the number
// of iterations.
ghost use Rattle.std.specs.Prelude.{◌≡◌, eqb};
ghost use Rattle.table_checks.specs.inner.PairStates.{rows_match, pair_states, RowsArgs, NodeRoom};

use crate::differences::{join_maps, joined_differences, near_differences};
use crate::places::pair_at;
use crate::siblings::inside;
use formats::layout::{JUMP, NODE_COLUMNS};

// Where both children's maps differ from what they have to be.
fn row_differences16(
    node_table: &[u16],
    inner: &[u8],
    n: usize,
    state_table: &[u8],
    v: usize,
    left: usize,
    row: usize,
    col: usize,
    step: usize,
) -> u8
    requires { RowsArgs node_table.now inner.now 16 n state_table.now v left row col step }
    ensures { eqb result 0 ≡ rows_match node_table.now inner.now 16 n
        state_table.now v left row col step }
{
    let right = v - 1;
    if node_table[right * NODE_COLUMNS + JUMP] == v as u16 {
        let a = near_differences(state_table, 16, right, inner, row, 1);
        let b = near_differences(state_table, 16, left, inner, col, step);
        return a | b;
    }
    let j = inside(node_table[v * NODE_COLUMNS + JUMP] as usize, n);
    let mut joined = [0u8; 16];
    join_maps(state_table, 16, v, j, &mut joined);
    let a = joined_differences(state_table, 16, right, &joined, inner, row, 1);
    let b = joined_differences(state_table, 16, left, &joined, inner, col, step);
    a | b
}

// Where inner node v's state and its children's maps differ from what follows from their neighbours'; 0 nowhere.
pub fn pair_differences16(
    labels: &[u8],
    node_table: &[u16],
    leaves: &[u8],
    inner: &[u8],
    k: usize,
    n: usize,
    state_table: &[u8],
    v: usize,
) -> u8
    requires { NodeRoom labels.now node_table.now leaves.now inner.now 16 k n state_table.now v }
    ensures { eqb result 0 ≡ pair_states labels.now node_table.now inner.now 16 k n
        state_table.now v }
{
    let pair = pair_at(labels, node_table, leaves, inner, 16, k, n, state_table, v);
    let left = pair.left;
    let row = pair.row;
    let col = pair.col;
    let rows = row_differences16(node_table, inner, n, state_table, v, left, row, col, k * 16);
    pair.state | rows
}
