// The full check of a table of links: both passes, comparing where the build writes.
// The first difference ends it, since what comes after would be read by wrong values.
ghost use Rattle.std.specs.Prelude.{◌≡◌, length, take};
ghost use Rattle.trees.specs.Tree.{Tree, kinds_of};
ghost use Rattle.trees.specs.Tables.{node_table_of};
ghost use Rattle.list_laws.specs.Tests.{same_list};
ghost use Rattle.formats.specs.Checks.{node_table_length};
ghost use Rattle.tables.specs.node_tables.Cells.{NodeTableArgs};
ghost use Rattle.tables.specs.node_tables.NodeCells.{NodeCells, UpCells, DownFrom, Parents};
ghost use Rattle.tables.specs.node_tables.JumpLengths.{jump_lengths};
ghost use Rattle.tables.specs.node_tables.inner.UpPass.{InnerArgs};
ghost use Rattle.tables.specs.node_tables.inner.DownPass.{NodeArgs, DownArgs};
ghost use Rattle.tables.specs.node_tables.inner.CheckPass.{inner_matches, up_matches, down_matches, UpArgs, Tells};

use crate::node_tables::down::child_jump;
use crate::node_tables::jump_lengths::{LENGTH_COUNT, jump_lengths};
use crate::node_tables::up::{inner_size, left_child};
use formats::layout::{DEPTH, JUMP, NODE_COLUMNS, SIZE};

// Whether inner node v has its size, and is its children's parent.
fn inner_matches(node_table: &[u16], v: usize) -> bool
    requires { InnerArgs node_table.now v }
    ensures { result ≡ inner_matches node_table.now v }
{
    if node_table[v * NODE_COLUMNS + SIZE] != inner_size(node_table, v) {
        return false;
    }
    let right = v - 1;
    if node_table[right * NODE_COLUMNS] as usize != v {
        return false;
    }
    let left = left_child(node_table, v);
    node_table[left * NODE_COLUMNS] as usize == v
}

// The same of any node: a leaf has size 1 and is nobody's parent.
fn up_matches(kinds: &[u8], node_table: &[u16], v: usize) -> bool
    requires { UpArgs kinds.now node_table.now v }
    ensures { result ≡ up_matches kinds.now node_table.now v }
{
    if kinds[v] == 0 {
        return node_table[v * NODE_COLUMNS + SIZE] == 1;
    }
    inner_matches(node_table, v)
}

// Compares each node's parent and the size of its subtree.
fn check_up(kinds: &[u8], node_table: &[u16]) -> bool
    requires { NodeTableArgs kinds.now (length node_table.now) }
    ensures { (t : Tree) → kinds_of t ≡ kinds.now
        → Tells result (UpCells t node_table.now) (NodeCells t node_table.now) }
{
    let n = kinds.len();
    for v in 0..n {
        if !up_matches(kinds, node_table, v) {
            return false;
        }
    }
    let root = n - 1;
    node_table[root * NODE_COLUMNS] as usize == root
}

// Whether node v has the depth and the jump that its parent's give.
fn down_matches(node_table: &[u16], lengths: &[u16; LENGTH_COUNT], v: usize) -> bool
    requires { NodeArgs node_table.now v × (lengths.now ≡ jump_lengths) }
    ensures { result ≡ down_matches node_table.now v }
{
    let p = node_table[v * NODE_COLUMNS] as usize;
    if node_table[v * NODE_COLUMNS + DEPTH] != node_table[p * NODE_COLUMNS + DEPTH] + 1 {
        return false;
    }
    node_table[v * NODE_COLUMNS + JUMP] == child_jump(node_table, lengths, p)
}

// Compares the depth and the jump of each of the n nodes.
fn check_down(node_table: &[u16], lengths: &[u16; LENGTH_COUNT], n: usize) -> bool
    requires { DownArgs n node_table.now × (lengths.now ≡ jump_lengths) }
    ensures { (t : Tree) → Parents t n node_table.now
        → Tells result (DownFrom t 0 node_table.now) (NodeCells t node_table.now) }
{
    let root = n - 1;
    if node_table[root * NODE_COLUMNS + JUMP] as usize != root {
        return false;
    }
    if node_table[root * NODE_COLUMNS + DEPTH] != 0 {
        return false;
    }
    for v in (0..root).rev() {
        if !down_matches(node_table, lengths, v) {
            return false;
        }
    }
    true
}

// Whether the buffer begins with the table of links of the tree with these kinds.
pub fn check_node_table(kinds: &[u8], node_table: &[u16]) -> bool
    requires { NodeTableArgs kinds.now (length node_table.now) }
    ensures { (t : Tree) → kinds_of t ≡ kinds.now
        → result ≡ same_list (take (node_table_length (length kinds.now)) node_table.now) (node_table_of t) }
{
    if !check_up(kinds, node_table) {
        return false;
    }
    let lengths = jump_lengths();
    check_down(node_table, &lengths, kinds.len())
}
