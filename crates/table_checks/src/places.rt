// Where the maps of a node's two children are compared, and the node's own state tested on the way.
ghost use Rattle.std.specs.Prelude.{◌≡◌, ◌<◌};
ghost use Rattle.tables.specs.StateCells.{state_cell};
ghost use Rattle.table_checks.specs.inner.PairStates.{StateIn, NodeRoom};
ghost use Rattle.table_checks.specs.inner.PairPlaces.{PairPlaced};

use crate::siblings::left_in;

// The left child, where the steps of both children begin in the inner states, and the state's difference.
#[derive(Clone, Copy)]
pub struct Pair {
    pub left: usize,
    pub row: usize,
    pub col: usize,
    pub state: u8,
}

// The state byte of node u.
fn state_at(state_table: &[u8], s: usize, u: usize) -> usize
    requires { StateIn s state_table.now u }
    ensures { (result ≡ state_cell s state_table.now u) × (result < 256) }
{
    state_table[u * (s + 1)] as usize
}

// The pair of inner node v's children.
pub fn pair_at(
    labels: &[u8],
    node_table: &[u16],
    leaves: &[u8],
    inner: &[u8],
    s: usize,
    k: usize,
    n: usize,
    state_table: &[u8],
    v: usize,
) -> Pair
    requires { NodeRoom labels.now node_table.now leaves.now inner.now s k n state_table.now v }
    ensures { PairPlaced labels.now node_table.now inner.now s k
        state_table.now v result.left result.row result.col result.state }
{
    let left = left_in(node_table, n, v);
    let a = labels[v] as usize;
    let p = state_at(state_table, s, left);
    let q = state_at(state_table, s, v - 1);
    let x = state_table[v * (s + 1)];
    let row = (p * k + a) * s;
    let col = a * s + q;
    let state = x ^ inner[row + q];
    Pair {
        left,
        row,
        col,
        state,
    }
}
