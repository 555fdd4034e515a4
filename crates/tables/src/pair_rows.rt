// Writing the maps of two nodes, the right and the left child of one.
ghost use Rattle.std.specs.Prelude.{ℕ, ◌+◌, ◌*◌, ◌≤◌, ◌<◌, ◌≡◌, length, get_or};
ghost use Rattle.tables.specs.inner.Rows.{far_cell};
ghost use Rattle.tables.specs.inner.MapPairs.{PairRowed, NearPairArgs, FarPairArgs};

use crate::rows::near_row;

// The maps of two nodes, from a table of states: entry q of the right one is the table's at row + q, of the left one at
// col + q * step.
fn near_rows(
    state_table: &mut [u8],
    s: usize,
    right: usize,
    left: usize,
    table: &[u8],
    row: usize,
    col: usize,
    step: usize,
)
    requires { NearPairArgs (length state_table.old) s right left (length table.now) row col step }
    ensures { PairRowed s (λ q. get_or table.now (row + q * 1) 0) (λ q. get_or table.now (col + q * step) 0)
        right left state_table.old state_table.new }
{
    near_row(state_table, s, right, table, row, 1);
    near_row(state_table, s, left, table, col, step);
}

// The 16 states of a table from `base` on.
fn sixteen(table: &[u8], base: usize) -> [u8; 16]
    requires { base + 16 ≤ length table.now }
    ensures { (length result ≡ 16)
        × ((q : ℕ) → q < 16 → get_or result q 0 ≡ get_or table.now (base + q) 0) }
{
    let mut line = [0u8; 16];
    // entry by entry: with copy_from_slice a build for 16 states takes 1.02 of the instructions
    for q in 0..16 {
        line[q] = table[base + q];
    }
    line
}

// The same as near_rows for 16 states. The right row is read whole before it is written, so that the compiler can move
// it as one.
fn near_rows16(
    state_table: &mut [u8],
    right: usize,
    left: usize,
    table: &[u8],
    row: usize,
    col: usize,
    step: usize,
)
    requires { NearPairArgs (length state_table.old) 16 right left (length table.now) row col step }
    ensures { PairRowed 16 (λ q. get_or table.now (row + q * 1) 0)
        (λ q. get_or table.now (col + q * step) 0)
        right left state_table.old state_table.new }
{
    let line = sixteen(table, row);
    near_row(state_table, 16, right, &line, 0, 1);
    near_row(state_table, 16, left, table, col, step);
}

// The maps of two nodes, from a table of states as above.
pub fn near_pair(
    state_table: &mut [u8],
    s: usize,
    right: usize,
    left: usize,
    table: &[u8],
    row: usize,
    col: usize,
    step: usize,
)
    requires { NearPairArgs (length state_table.old) s right left (length table.now) row col step }
    ensures { PairRowed s (λ q. get_or table.now (row + q * 1) 0) (λ q. get_or table.now (col + q * step) 0)
        right left state_table.old state_table.new }
{
    if s == 16 {
        near_rows16(state_table, right, left, table, row, col, step);
    } else {
        near_rows(state_table, s, right, left, table, row, col, step);
    }
}

// The same, followed by the maps of their parent v and of its jump j. Both rows in one loop, so that one is set up.
pub fn far_pair(
    state_table: &mut [u8],
    s: usize,
    v: usize,
    j: usize,
    right: usize,
    left: usize,
    table: &[u8],
    row: usize,
    col: usize,
    step: usize,
)
    requires { FarPairArgs state_table.old s v j right left table.now row col step }
    ensures { PairRowed s (far_cell s state_table.old v j table.now row 1)
        (far_cell s state_table.old v j table.now col step)
        right left state_table.old state_table.new }
{
    let a = right * (s + 1) + 1;
    let b = left * (s + 1) + 1;
    let near = v * (s + 1) + 1;
    let far = j * (s + 1) + 1;
    for q in 0..s {
        let x = table[row + q] as usize;
        let y = state_table[near + x] as usize;
        state_table[a + q] = state_table[far + y];
        let z = table[col + q * step] as usize;
        let w = state_table[near + z] as usize;
        state_table[b + q] = state_table[far + w];
    }
}
