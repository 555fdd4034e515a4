// One move of a climb on a table of links with any values, and single cells of such a table.
ghost use Rattle.std.specs.Prelude.{◌≡◌, ◌+◌, ◌*◌, ◌≤◌, ◌<◌, length};
ghost use Rattle.trees.specs.Climb.{next_move};
ghost use Rattle.formats.specs.Layout.{node_columns};
ghost use Rattle.tables.specs.node_tables.Cells.{parent_cell, jump_cell, depth_cell, size_cell, is_in_subtree_on, cell_forest};
ghost use Rattle.tables.specs.node_tables.inner.MoveAnswers.{next_move_of, rises_to, MoveArgs};

use formats::layout::{DEPTH, JUMP, NODE_COLUMNS, SIZE};

// Where a climb goes next: by a jump or to a parent, each with the node it leads to. Stuck where the move would leave
// the plan or not rise, which never happens on a table as built.
#[derive(Clone, Copy)]
pub enum NextMove {
    Jump(usize),
    Parent(usize),
    Stuck,
}

// The parent of node v.
pub fn parent_at(node_table: &[u16], v: usize) -> usize
    requires { v * node_columns + node_columns ≤ length node_table.now }
    ensures { result ≡ parent_cell node_table.now v }
{
    usize::from(node_table[v * NODE_COLUMNS])
}

// The jump of node v.
pub fn jump_at(node_table: &[u16], v: usize) -> usize
    requires { v * node_columns + node_columns ≤ length node_table.now }
    ensures { result ≡ jump_cell node_table.now v }
{
    usize::from(node_table[v * NODE_COLUMNS + JUMP])
}

// The depth of node v.
pub fn depth_at(node_table: &[u16], v: usize) -> usize
    requires { v * node_columns + node_columns ≤ length node_table.now }
    ensures { result ≡ depth_cell node_table.now v }
{
    usize::from(node_table[v * NODE_COLUMNS + DEPTH])
}

// The size of node v's subtree.
pub fn size_at(node_table: &[u16], v: usize) -> usize
    requires { v * node_columns + node_columns ≤ length node_table.now }
    ensures { result ≡ size_cell node_table.now v }
{
    usize::from(node_table[v * NODE_COLUMNS + SIZE])
}

// Whether node v is node c or below it: in the run of numbers that ends at c and is as long as c's size.
pub fn is_below(node_table: &[u16], c: usize, v: usize) -> bool
    requires { c * node_columns + node_columns ≤ length node_table.now }
    ensures { result ≡ is_in_subtree_on node_table.now c v }
{
    if c < v {
        return false;
    }
    c - v < size_at(node_table, c)
}

// Whether node u is one of the n nodes and less deep than node v.
fn rises_to(node_table: &[u16], n: usize, v: usize, u: usize) -> bool
    requires { MoveArgs n node_table.now v }
    ensures { result ≡ rises_to (cell_forest n node_table.now) v u }
{
    if u >= n {
        return false;
    }
    depth_at(node_table, u) < depth_at(node_table, v)
}

// The next move of a climb from node v to depth `to`, by the numbers as they are. Cells of nodes outside the
// plan are never read.
pub fn next_move(node_table: &[u16], n: usize, v: usize, to: usize) -> NextMove
    requires { MoveArgs n node_table.now v }
    ensures { result
        ≡ next_move_of (cell_forest n node_table.now) (next_move (cell_forest n node_table.now) v to) }
{
    let j = jump_at(node_table, v);
    if j >= n {
        return NextMove::Stuck;
    }
    if to <= depth_at(node_table, j) {
        if rises_to(node_table, n, v, j) {
            return NextMove::Jump(j);
        }
        return NextMove::Stuck;
    }
    let p = parent_at(node_table, v);
    if rises_to(node_table, n, v, p) {
        return NextMove::Parent(p);
    }
    NextMove::Stuck
}
