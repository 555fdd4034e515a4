// One node's copy: the states of its colours from those of the copy above it, and its rows in the colours' tables. The
// copies are in the bytes from `base` on, `k` bytes for each node.
ghost use Rattle.std.specs.Prelude.{◌+◌, get_or};
ghost use Rattle.colour_tables.specs.states.inner.Rows.{RowOf, above_cell, AboveArgs, PutArgs, TurnArgs};
ghost use Rattle.colour_tables.specs.states.inner.Rows.{Recoloured};

use crate::rows::turns::take_in_turn;
use tables::node_tables::moves::parent_at;

// "In the top copy .. state s has colour s+1."
const TOP: [u8; 16] = [0, 1, 2, 3, 4, 5, 6, 7, 8, 9, 10, 11, 12, 13, 14, 15];

// k bytes from `at` on.
fn row_at(bytes: &[u8], at: usize, k: usize) -> [u8; 16]
    requires { PutArgs bytes.now at k }
    ensures { RowOf k (λ c. get_or bytes.now (at + c) 0) result }
{
    let mut row = [0u8; 16];
    row[..k].copy_from_slice(&bytes[at..at + k]);
    row
}

// The copy above node v of n: its parent's, or the top copy above the root.
pub fn row_above(
    bytes: &[u8],
    numbers: &[u16],
    n: usize,
    base: usize,
    k: usize,
    v: usize,
) -> [u8; 16]
    requires { AboveArgs bytes.now numbers.now n base k v }
    ensures { RowOf k (above_cell bytes.now numbers.now n base k v) result }
{
    if v + 1 == n {
        return TOP;
    }
    let p = parent_at(numbers, v);
    row_at(bytes, base + p * k, k)
}

// Node v's copy and its rows, from the states that those of the copy above lead to.
pub fn put_copy(
    successors: [u8; 16],
    bytes: &mut [u8],
    numbers: &mut [u16],
    n: usize,
    base: usize,
    k: usize,
    v: usize,
)
    requires { TurnArgs successors bytes.old numbers.old n base k v }
    ensures { Recoloured successors n base k v bytes.old numbers.old bytes.new
        numbers.new }
{
    take_in_turn(&successors[..k], bytes, numbers, n, base + v * k, v);
}
