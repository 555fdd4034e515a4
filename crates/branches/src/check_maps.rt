// The maps of the caller's table compared with those of a branch table's build, from the root down.
ghost use Rattle.std.specs.Prelude.{◌≡◌, length};
ghost use Rattle.tables.specs.inner.Compare.{row_equals};
ghost use Rattle.branches.specs.inner.BranchGiven.{BranchArgs};
ghost use Rattle.branches.specs.inner.Maps.{step_cell, node_map, StepRowArgs, NodeArgs};
ghost use Rattle.branches.specs.inner.BranchTests.{MapsTested};

use formats::layout::{JUMP, NODE_COLUMNS};
use tables::compare::{near_row_is, root_row_is};

// Whether node v's map is the map of j, then that of p, and then a step by label a.
fn step_row_is(
    state_table: &[u8],
    s: usize,
    v: usize,
    p: usize,
    j: usize,
    steps: &[u8],
    k: usize,
    a: usize,
) -> bool
    requires { StepRowArgs state_table.now s v p j (length steps.now) k a }
    ensures { result ≡ row_equals s state_table.now v
        (step_cell s state_table.now p j steps.now k a) }
{
    let at = v * (s + 1);
    let near = p * (s + 1);
    let far = j * (s + 1);
    let mut same = true;
    for q in 0..s {
        let x = state_table[at + (1 + q)];
        let y = state_table[far + (1 + q)] as usize;
        let z = state_table[near + (1 + y)] as usize;
        let next = steps[z * k + a];
        if x != next {
            same = false;
        }
    }
    same
}

// Whether node v's map is what the build would write from its label and the maps above it.
fn node_map_is(
    labels: &[u8],
    node_table: &[u16],
    steps: &[u8],
    s: usize,
    k: usize,
    v: usize,
    state_table: &[u8],
) -> bool
    requires { NodeArgs labels.now node_table.now steps.now s k state_table.now v }
    ensures { result ≡ row_equals s state_table.now v
        (node_map labels.now node_table.now steps.now s k state_table.now v) }
{
    let a = labels[v] as usize;
    let p = node_table[v * NODE_COLUMNS] as usize;
    let j = node_table[v * NODE_COLUMNS + JUMP] as usize;
    if j == p {
        return near_row_is(state_table, s, v, steps, a, k);
    }
    let far = node_table[p * NODE_COLUMNS + JUMP] as usize;
    step_row_is(state_table, s, v, p, far, steps, k, a)
}

// Whether each of the n nodes has the map of the build. Where one has not, those below it are not looked at: they
// would be read from it.
pub fn check_maps(
    labels: &[u8],
    node_table: &[u16],
    steps: &[u8],
    s: usize,
    k: usize,
    n: usize,
    state_table: &[u8],
) -> bool
    requires { BranchArgs labels.now node_table.now steps.now s k n (length state_table.now) }
    ensures { MapsTested labels.now node_table.now steps.now s k n
        state_table.now result }
{
    let root = n - 1;
    if !root_row_is(state_table, s, root) {
        return false;
    }
    for v in (0..root).rev() {
        if !node_map_is(labels, node_table, steps, s, k, v, state_table) {
            return false;
        }
    }
    true
}
