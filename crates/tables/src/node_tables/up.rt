// The pass up: the size of each node's subtree, and each inner node as its children's parent.
ghost use Rattle.std.specs.Prelude.{◌≡◌, length};
ghost use Rattle.trees.specs.Tree.{Tree, kinds_of};
ghost use Rattle.tables.specs.node_tables.Cells.{NodeTableArgs};
ghost use Rattle.tables.specs.node_tables.NodeCells.{AllUpWritten};
ghost use Rattle.tables.specs.node_tables.inner.UpPass.{left_of, inner_size, up_iteration, InnerArgs, TurnArgs};

use formats::layout::{NODE_COLUMNS, SIZE};

// The left child of inner node v: it comes just before the subtree of the right child, v - 1.
pub fn left_child(node_table: &[u16], v: usize) -> usize
    requires { InnerArgs node_table.now v }
    ensures { result ≡ left_of node_table.now v }
{
    let right = v - 1;
    right - node_table[right * NODE_COLUMNS + SIZE] as usize
}

// The size of inner node v, from its children's.
pub fn inner_size(node_table: &[u16], v: usize) -> u16
    requires { InnerArgs node_table.now v }
    ensures { result ≡ inner_size node_table.now v }
{
    let right = v - 1;
    let left = left_child(node_table, v);
    node_table[left * NODE_COLUMNS + SIZE] + node_table[right * NODE_COLUMNS + SIZE] + 1
}

// The iteration for node v of kind c: its size, and itself as its children's parent. A leaf counts as both of its own
// children, each of size 0 so far: its size comes out as 1, and its parent is written in its parent's iteration. So
// there is no branch on the kind.
fn write_up_node(node_table: &mut [u16], v: usize, c: usize)
    requires { TurnArgs node_table.old v c }
    ensures { node_table.new ≡ up_iteration node_table.old v c }
{
    node_table[v * NODE_COLUMNS + SIZE] = 0;
    let right = v - c;
    let size = node_table[right * NODE_COLUMNS + SIZE];
    node_table[right * NODE_COLUMNS] = v as u16;
    let left = right - size as usize;
    let sum = node_table[left * NODE_COLUMNS + SIZE] + size + 1;
    node_table[v * NODE_COLUMNS + SIZE] = sum;
    node_table[left * NODE_COLUMNS] = v as u16;
}

// Writes each node's parent and the size of its subtree.
pub fn write_up(kinds: &[u8], node_table: &mut [u16])
    requires { NodeTableArgs kinds.now (length node_table.old) }
    ensures { (t : Tree) → kinds_of t ≡ kinds.now
        → AllUpWritten t node_table.old node_table.new }
{
    for (v, c) in kinds.iter().enumerate() {
        write_up_node(node_table, v, *c as usize);
    }
    let root = kinds.len() - 1;
    node_table[root * NODE_COLUMNS] = root as u16;
}
