// The node table's numbers of a node's two children, tested at their parent. No table value can lead to a read out of
// range, so the nodes may be tested in any order and no test has to end the pass.
ghost use Rattle.std.specs.Prelude.{◌≡◌, ◌<◌, eqb};
ghost use Rattle.tables.specs.node_tables.JumpLengths.{jump_lengths};
ghost use Rattle.tables.specs.node_tables.inner.UpPass.{left_of};
ghost use Rattle.table_checks.specs.inner.PairNodes.{within, pair_by_distances, pair_jump, pair_nodes};
ghost use Rattle.table_checks.specs.inner.PairNodes.{numbers_cell, root_node, PairArgs, RootArgs};

use formats::layout::{DEPTH, JUMP, NODE_COLUMNS, SIZE};
use tables::node_tables::jump_lengths::{LAST_LENGTH, LENGTH_COUNT, by_length, jump_length};

// What the jump counts in the four numbers of a node as one; the parent counts 1, the depth and the size as below.
const JUMP_UNIT: u64 = 65536;

const DEPTH_UNIT: u64 = JUMP_UNIT * JUMP_UNIT;

const SIZE_UNIT: u64 = JUMP_UNIT * DEPTH_UNIT;

// The number itself where it is below n, else 0.
pub fn inside(x: usize, n: usize) -> usize
    requires { 0 < n }
    ensures { (result ≡ within n x) × (result < n) }
{
    if x < n { x } else { 0 }
}

// The left child of inner node v by the table's sizes; node 0 where they are out of range.
pub fn left_in(node_table: &[u16], n: usize, v: usize) -> usize
    requires { PairArgs n node_table.now v }
    ensures { result ≡ left_of node_table.now v }
{
    let right = v - 1;
    let size = node_table[right * NODE_COLUMNS + SIZE] as usize;
    if size <= right { right - size } else { 0 }
}

// The jump of a child of node v, by the two distances: d - e is e - f where d + f is 2 e.
fn pair_by_distances(node_table: &[u16], n: usize, v: usize) -> u16
    requires { PairArgs n node_table.now v }
    ensures { result ≡ pair_by_distances n node_table.now v }
{
    let j = inside(node_table[v * NODE_COLUMNS + JUMP] as usize, n);
    let jj = node_table[j * NODE_COLUMNS + JUMP];
    let far = inside(jj as usize, n);
    let d = node_table[v * NODE_COLUMNS + DEPTH] as usize;
    let e = node_table[j * NODE_COLUMNS + DEPTH] as usize;
    let f = node_table[far * NODE_COLUMNS + DEPTH] as usize;
    if d + f == e + e { jj } else { v as u16 }
}

// The jump of a child of node v: its length by the table where the child's depth is below 1,024, else by the two
// distances.
fn pair_jump(node_table: &[u16], lengths: &[u16; LENGTH_COUNT], n: usize, v: usize) -> u16
    requires { PairArgs n node_table.now v × (lengths.now ≡ jump_lengths) }
    ensures { result ≡ pair_jump n node_table.now v }
{
    let j = inside(node_table[v * NODE_COLUMNS + JUMP] as usize, n);
    let far = node_table[j * NODE_COLUMNS + JUMP];
    let d = node_table[v * NODE_COLUMNS + DEPTH];
    if d < LAST_LENGTH {
        return by_length(jump_length(lengths, d as usize + 1), v as u16, far);
    }
    pair_by_distances(node_table, n, v)
}

// The four numbers of node v as one, so that they are read as one.
fn numbers_of(node_table: &[u16], v: usize) -> u64
    requires { RootArgs node_table.now v }
    ensures { result ≡ numbers_cell node_table.now v }
{
    let parent = node_table[v * NODE_COLUMNS] as u64;
    let jump = node_table[v * NODE_COLUMNS + JUMP] as u64;
    let depth = node_table[v * NODE_COLUMNS + DEPTH] as u64;
    let size = node_table[v * NODE_COLUMNS + SIZE] as u64;
    size * SIZE_UNIT + (depth * DEPTH_UNIT + (jump * JUMP_UNIT + parent))
}

// Where inner node v's size and its children's parents, jumps and depths differ from what follows from their
// neighbours'; 0 nowhere. The children's sizes are taken off their numbers.
pub fn pair_node_differences(
    node_table: &[u16],
    lengths: &[u16; LENGTH_COUNT],
    n: usize,
    v: usize,
) -> u64
    requires { PairArgs n node_table.now v × (lengths.now ≡ jump_lengths) }
    ensures { eqb result 0 ≡ pair_nodes n node_table.now v }
{
    let right = v - 1;
    let left = left_in(node_table, n, v);
    let to = pair_jump(node_table, lengths, n, v);
    let depth = node_table[v * NODE_COLUMNS + DEPTH] as u64 + 1;
    let want = depth * DEPTH_UNIT + (to as u64 * JUMP_UNIT + v as u64);
    let below = node_table[left * NODE_COLUMNS + SIZE] as u64
        + node_table[right * NODE_COLUMNS + SIZE] as u64
        + 1;
    let sizes = (node_table[v * NODE_COLUMNS + SIZE] as u64) ^ below;
    let a = numbers_of(node_table, right) % SIZE_UNIT;
    let b = numbers_of(node_table, left) % SIZE_UNIT;
    sizes | ((a ^ want) | (b ^ want))
}

// Whether node v has the root's parent, jump and depth.
pub fn root_node_is(node_table: &[u16], v: usize) -> bool
    requires { RootArgs node_table.now v }
    ensures { result ≡ root_node node_table.now v }
{
    let up = v as u16;
    let parent = node_table[v * NODE_COLUMNS] == up;
    let jump = node_table[v * NODE_COLUMNS + JUMP] == up;
    let depth = node_table[v * NODE_COLUMNS + DEPTH] == 0;
    parent & (jump & depth)
}
