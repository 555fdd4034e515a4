// The pass down: the depth and the jump of each node, from its parent's.
ghost use Rattle.std.specs.Prelude.{◌≡◌};
ghost use Rattle.trees.specs.Tree.{Tree};
ghost use Rattle.tables.specs.node_tables.NodeCells.{Parents, DownWritten};
ghost use Rattle.tables.specs.node_tables.JumpLengths.{jump_lengths};
ghost use Rattle.tables.specs.node_tables.inner.DownPass.{by_distances, child_jump, node_iteration, JumpArgs, NodeArgs, DownArgs};

use crate::node_tables::jump_lengths::{LAST_LENGTH, LENGTH_COUNT, by_length, jump_length};
use formats::layout::{DEPTH, JUMP, NODE_COLUMNS};

// The jump of a child of node p, by the two distances: d - e is e - f where d + f is 2 e.
pub fn by_distances(node_table: &[u16], p: usize) -> u16
    requires { JumpArgs node_table.now p }
    ensures { result ≡ by_distances node_table.now p }
{
    let j = node_table[p * NODE_COLUMNS + JUMP] as usize;
    let jj = node_table[j * NODE_COLUMNS + JUMP];
    let far = jj as usize;
    let d = node_table[p * NODE_COLUMNS + DEPTH] as usize;
    let e = node_table[j * NODE_COLUMNS + DEPTH] as usize;
    let f = node_table[far * NODE_COLUMNS + DEPTH] as usize;
    if d + f == e + e { jj } else { p as u16 }
}

// The jump of a child of node p: its length by the table where the child's depth is below 1,024, else by the two distances.
pub fn child_jump(node_table: &[u16], lengths: &[u16; LENGTH_COUNT], p: usize) -> u16
    requires { JumpArgs node_table.now p × (lengths.now ≡ jump_lengths) }
    ensures { result ≡ child_jump node_table.now p }
{
    let j = node_table[p * NODE_COLUMNS + JUMP] as usize;
    let far = node_table[j * NODE_COLUMNS + JUMP];
    let d = node_table[p * NODE_COLUMNS + DEPTH];
    if d < LAST_LENGTH {
        return by_length(jump_length(lengths, d as usize + 1), p as u16, far);
    }
    by_distances(node_table, p)
}

// The iteration for node v: its jump and its depth, from its parent's.
fn write_node(node_table: &mut [u16], lengths: &[u16; LENGTH_COUNT], v: usize)
    requires { NodeArgs node_table.old v × (lengths.now ≡ jump_lengths) }
    ensures { node_table.new ≡ node_iteration node_table.old v }
{
    let p = node_table[v * NODE_COLUMNS] as usize;
    let d = node_table[p * NODE_COLUMNS + DEPTH] + 1;
    let j = child_jump(node_table, lengths, p);
    node_table[v * NODE_COLUMNS + JUMP] = j;
    node_table[v * NODE_COLUMNS + DEPTH] = d;
}

// Writes the depth and the jump of each of the n nodes, from their parents.
pub fn write_down(node_table: &mut [u16], lengths: &[u16; LENGTH_COUNT], n: usize)
    requires { DownArgs n node_table.old × (lengths.now ≡ jump_lengths) }
    ensures { (t : Tree) → Parents t n node_table.old
        → DownWritten t 0 node_table.old node_table.new }
{
    let root = n - 1;
    node_table[root * NODE_COLUMNS + JUMP] = root as u16;
    node_table[root * NODE_COLUMNS + DEPTH] = 0;
    for v in (0..root).rev() {
        write_node(node_table, lengths, v);
    }
}
