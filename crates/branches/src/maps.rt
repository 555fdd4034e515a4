// The maps of a branch table's build: from the state after the jump's label to the state after the node's.
ghost use Rattle.std.specs.Prelude.{length};
ghost use Rattle.tables.specs.inner.Rows.{Rowed};
ghost use Rattle.branches.specs.inner.BranchGiven.{BranchArgs};
ghost use Rattle.branches.specs.inner.Maps.{step_cell, node_map, StepRowArgs, NodeArgs, Mapped};

use formats::layout::{JUMP, NODE_COLUMNS};
use tables::rows::{near_row, same_row};

// Node v's map: the map of j, then that of p, and then a step by label a.
fn step_row(
    state_table: &mut [u8],
    s: usize,
    v: usize,
    p: usize,
    j: usize,
    steps: &[u8],
    k: usize,
    a: usize,
)
    requires { StepRowArgs state_table.old s v p j (length steps.now) k a }
    ensures { Rowed s (step_cell s state_table.old p j steps.now k a) v state_table.old
        state_table.new }
{
    let at = v * (s + 1);
    let near = p * (s + 1);
    let far = j * (s + 1);
    for q in 0..s {
        let x = state_table[far + (1 + q)] as usize;
        let y = state_table[near + (1 + x)] as usize;
        state_table[at + (1 + q)] = steps[y * k + a];
    }
}

// Node v's map, from its label and the maps above it.
fn label_map(
    labels: &[u8],
    node_table: &[u16],
    steps: &[u8],
    s: usize,
    k: usize,
    v: usize,
    state_table: &mut [u8],
)
    requires { NodeArgs labels.now node_table.now steps.now s k state_table.old v }
    ensures { Rowed s
        (node_map labels.now node_table.now steps.now s k state_table.old v) v
        state_table.old state_table.new }
{
    let a = labels[v] as usize;
    let p = node_table[v * NODE_COLUMNS] as usize;
    let j = node_table[v * NODE_COLUMNS + JUMP] as usize;
    if j == p {
        near_row(state_table, s, v, steps, a, k);
    } else {
        let far = node_table[p * NODE_COLUMNS + JUMP] as usize;
        step_row(state_table, s, v, p, far, steps, k, a);
    }
}

// The same. The number of states is a literal where it is 2, 4 or 16, so that the compiler knows how long a row is.
fn node_map(
    labels: &[u8],
    node_table: &[u16],
    steps: &[u8],
    s: usize,
    k: usize,
    v: usize,
    state_table: &mut [u8],
)
    requires { NodeArgs labels.now node_table.now steps.now s k state_table.old v }
    ensures { Rowed s
        (node_map labels.now node_table.now steps.now s k state_table.old v) v
        state_table.old state_table.new }
{
    if s == 2 {
        label_map(labels, node_table, steps, 2, k, v, state_table);
        return;
    }
    if s == 4 {
        label_map(labels, node_table, steps, 4, k, v, state_table);
        return;
    }
    if s == 16 {
        label_map(labels, node_table, steps, 16, k, v, state_table);
        return;
    }
    label_map(labels, node_table, steps, s, k, v, state_table);
}

// Writes the map of each of the n nodes, the root's first.
pub fn fill_maps(
    labels: &[u8],
    node_table: &[u16],
    steps: &[u8],
    s: usize,
    k: usize,
    n: usize,
    state_table: &mut [u8],
)
    requires { BranchArgs labels.now node_table.now steps.now s k n (length state_table.old) }
    ensures { Mapped labels.now node_table.now steps.now s k n 0
        state_table.old state_table.new }
{
    let root = n - 1;
    same_row(state_table, s, root);
    for v in (0..root).rev() {
        node_map(labels, node_table, steps, s, k, v, state_table);
    }
}
