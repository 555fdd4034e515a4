// A node's row in a colour's table, from its parent's. The first table of the numbers is the plan's own node table;
// colour c's follows after c of the same length, and its fourth numbers are the colours landed on.
ghost use Rattle.std.specs.Prelude.{◌≡◌, ◌+◌, ◌≤◌, length};
ghost use Rattle.colour_tables.specs.forests.Rows.{row_below, next_row, put_row, put_colour, BelowArgs, NextArgs};
ghost use Rattle.colour_tables.specs.forests.Rows.{ColourArgs};

use formats::layout::{DEPTH, JUMP, NODE_COLUMNS};
use tables::node_tables::down::by_distances;
use tables::node_tables::moves::{parent_at, size_at};

// A node's parent, jump and depth.
#[derive(Clone, Copy)]
pub struct Row {
    pub up: u16,
    pub jump: u16,
    pub depth: u16,
}

// The row of node v in colour c's table, below its parent p.
fn row_below(table: &[u16], c: usize, v: usize, p: usize) -> Row
    requires { BelowArgs table.now c v p }
    ensures { result ≡ row_below table.now c v p }
{
    if size_at(table, p) < c {
        let jump = by_distances(table, p);
        let depth = table[p * NODE_COLUMNS + DEPTH] + 1;
        return Row {
            up: p as u16,
            jump,
            depth,
        };
    }
    if table[p * NODE_COLUMNS + DEPTH] == 0 {
        return Row {
            up: v as u16,
            jump: v as u16,
            depth: 0,
        };
    }
    Row {
        up: table[p * NODE_COLUMNS],
        jump: table[p * NODE_COLUMNS + JUMP],
        depth: table[p * NODE_COLUMNS + DEPTH],
    }
}

// The row of node v: the root's own, or below its parent.
fn next_row(nums: &[u16], n: usize, c: usize, v: usize) -> Row
    requires { NextArgs nums.now n c v }
    ensures { result ≡ next_row nums.now n c v }
{
    if v + 1 == n {
        return Row {
            up: v as u16,
            jump: v as u16,
            depth: 0,
        };
    }
    let p = parent_at(nums, v);
    let size = n * NODE_COLUMNS;
    let from = c * size;
    row_below(&nums[from..from + size], c, v, p)
}

// Writes a row from `at` on, and behind it the colour landed on.
fn put_row(nums: &mut [u16], at: usize, row: Row, lands: u16)
    requires { at + 4 ≤ length nums.old }
    ensures { nums.new ≡ put_row nums.old at row lands }
{
    nums[at] = row.up;
    nums[at + 1] = row.jump;
    nums[at + 2] = row.depth;
    nums[at + 3] = lands;
}

// Writes the row of node v in colour c's table, and the colour landed on; the lowest colour's table is the plan's own.
pub fn put_colour(nums: &mut [u16], n: usize, c: usize, v: usize, lands: u8)
    requires { ColourArgs nums.old n c v }
    ensures { nums.new ≡ put_colour nums.old n c v lands }
{
    if c < 1 {
        return;
    }
    let row = next_row(nums, n, c, v);
    put_row(
        nums,
        c * (n * NODE_COLUMNS) + v * NODE_COLUMNS,
        row,
        lands as u16,
    );
}
