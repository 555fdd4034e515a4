// The pass for words: a step reads the label of the node.
ghost use Rattle.std.specs.Prelude.{◌+◌, ◌*◌, get_or};
ghost use Rattle.trees.specs.Tree.{Tree};
ghost use Rattle.colour_tables.specs.states.inner.Rows.{RowOf};
ghost use Rattle.colour_tables.specs.states.inner.WordPass.{LedArgs, WordArgs, WordGiven, WordsFrom};

use crate::states::copies::{put_copy, row_above};

// The states after those of a row read label a.
fn successors_by_word(row: [u8; 16], steps: &[u8], s: usize, k: usize, a: usize) -> [u8; 16]
    requires { LedArgs row steps.now s k a }
    ensures { RowOf s (λ c. get_or steps.now (get_or row c 0 * k + a) 0) result }
{
    let mut successors = [0u8; 16];
    for c in 0..s {
        let q = row[c] as usize;
        successors[c] = steps[q * k + a];
    }
    successors
}

// Writes the copy of each of the n nodes, the root's first, and what its colours land on.
pub fn write_words(
    labels: &[u8],
    steps: &[u8],
    s: usize,
    k: usize,
    numbers: &mut [u16],
    bytes: &mut [u8],
)
    requires { WordArgs labels.now steps.now s k numbers.old bytes.old }
    ensures { (t : Tree) → WordGiven labels.now numbers.old t
        → WordsFrom s k steps.now t 0 bytes.old numbers.old bytes.new
        numbers.new }
{
    let n = labels.len();
    for v in (0..n).rev() {
        let above = row_above(bytes, numbers, n, 0, s, v);
        let a = labels[v] as usize;
        let successors = successors_by_word(above, steps, s, k, a);
        put_copy(successors, bytes, numbers, n, 0, s, v);
    }
}
