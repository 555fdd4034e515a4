// The state bytes of the caller's table compared with those of a branch table's build, from the root down.
ghost use Rattle.std.specs.Prelude.{length};
ghost use Rattle.branches.specs.inner.BranchGiven.{BranchArgs};
ghost use Rattle.branches.specs.inner.BranchTests.{StepsTested};

use crate::steps::START;
use formats::layout::NODE_COLUMNS;

// Whether each of the n nodes has the state of the build. Where one has not, those below it are not looked at: they
// would be read from it.
pub fn check_steps(
    labels: &[u8],
    node_table: &[u16],
    steps: &[u8],
    s: usize,
    k: usize,
    n: usize,
    state_table: &[u8],
) -> bool
    requires { BranchArgs labels.now node_table.now steps.now s k n (length state_table.now) }
    ensures { StepsTested labels.now node_table.now steps.now s k n
        state_table.now result }
{
    let w = s + 1;
    let root = n - 1;
    let first = labels[root] as usize;
    let x = steps[START * k + first];
    let y = state_table[root * w];
    if y != x {
        return false;
    }
    for v in (0..root).rev() {
        let p = node_table[v * NODE_COLUMNS] as usize;
        let q = state_table[p * w] as usize;
        let a = labels[v] as usize;
        let x = steps[q * k + a];
        let y = state_table[v * w];
        if y != x {
            return false;
        }
    }
    true
}
