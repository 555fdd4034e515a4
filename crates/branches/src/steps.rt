// The state bytes of a branch table's build: the state after each node's label on the word from the root.
ghost use Rattle.std.specs.Prelude.{length};
ghost use Rattle.branches.specs.inner.BranchGiven.{BranchArgs, Stepped};

use formats::layout::NODE_COLUMNS;

// "State 0 is the start."
pub const START: usize = 0;

// Writes the state of each of the n nodes, the root's first.
pub fn fill_steps(
    labels: &[u8],
    node_table: &[u16],
    steps: &[u8],
    s: usize,
    k: usize,
    n: usize,
    state_table: &mut [u8],
)
    requires { BranchArgs labels.now node_table.now steps.now s k n (length state_table.old) }
    ensures { Stepped labels.now node_table.now steps.now s k n 0
        state_table.old state_table.new }
{
    let w = s + 1;
    let root = n - 1;
    let first = labels[root] as usize;
    state_table[root * w] = steps[START * k + first];
    for v in (0..root).rev() {
        let p = node_table[v * NODE_COLUMNS] as usize;
        let q = state_table[p * w] as usize;
        let a = labels[v] as usize;
        state_table[v * w] = steps[q * k + a];
    }
}
