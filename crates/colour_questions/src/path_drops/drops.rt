// The next drop of one colour, by its table: four numbers for each node, the parent, jump and depth among the nodes
// where the colour falls, and the colour that it lands on at the node.
ghost use Rattle.std.specs.Prelude.{◌≡◌, ◌+◌, ◌≤◌};
ghost use Rattle.colours.specs.Descents.{seen_at, lowest_in};
ghost use Rattle.tables.specs.node_tables.Cells.{size_cell, cell_forest};
ghost use Rattle.tables.specs.node_tables.inner.MoveAnswers.{MoveArgs};
ghost use Rattle.colour_questions.specs.path_drops.inner.Drops.{NextDone};

use crate::path_drops::search::search;
use tables::node_tables::moves::{depth_at, parent_at, size_at};

// What comes next: no drop, nothing that can be found, or a drop at a node, to a colour, found by some links.
#[derive(Clone, Copy)]
pub enum Dropping {
    Done,
    Lost,
    Fell(usize, usize, u32),
}

// The number of nodes at node v or above where colour c falls.
pub fn seen_at(table: &[u16], n: usize, c: usize, v: usize) -> usize
    requires { MoveArgs n table.now v }
    ensures { (result ≡ seen_at (cell_forest n table.now) (size_cell table.now) c v)
        × (result ≤ 65536) }
{
    let d = depth_at(table, v);
    if size_at(table, v) < c {
        return 1 + d;
    }
    d
}

// The lowest of them at node v or above.
fn lowest_at(table: &[u16], n: usize, c: usize, v: usize) -> usize
    requires { MoveArgs n table.now v }
    ensures { result ≡ lowest_in (cell_forest n table.now) (size_cell table.now) c v }
{
    if size_at(table, v) < c {
        return v;
    }
    parent_at(table, v)
}

// The next drop of colour c on the way down to node l, below the first `to` of the nodes where it falls.
pub fn next_drop(table: &[u16], n: usize, c: usize, to: usize, l: usize) -> Dropping
    requires { MoveArgs n table.now l }
    ensures { NextDone n table.now c to l result }
{
    if seen_at(table, n, c, l) <= to {
        return Dropping::Done;
    }
    let v = lowest_at(table, n, c, l);
    if n <= v {
        return Dropping::Lost;
    }
    match search(table, n, v, to) {
        None => Dropping::Lost,
        Some(found) => {
            let d = size_at(table, found.node);
            if c <= d {
                return Dropping::Lost;
            }
            Dropping::Fell(found.node, d, found.links)
        }
    }
}
