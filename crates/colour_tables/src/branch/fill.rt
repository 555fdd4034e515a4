// The tables of colours of a plan and a branch table: the plan's node table, then in one pass the states of the colours
// and each colour's own table.
ghost use Rattle.std.specs.Prelude.{length};
ghost use Rattle.colour_tables.specs.branch.inner.Filled.{FillArgs, Filled, PartArgs, ColoursWritten};

use crate::states::words::write_words;
use formats::layout::{BRANCH_HEAD, PLAN_HEAD};
use tables::node_tables::build::build_node_table;

// Writes both buffers, once all checks have passed. The excess of a longer buffer is untouched.
fn fill_colours(
    labels: &[u8],
    kinds: &[u8],
    steps: &[u8],
    s: usize,
    k: usize,
    numbers: &mut [u16],
    bytes: &mut [u8],
)
    requires { FillArgs labels.now kinds.now steps.now s k (length numbers.old) (length bytes.old) }
    ensures { Filled labels.now kinds.now steps.now s k numbers.old
        bytes.old numbers.new bytes.new }
{
    build_node_table(kinds, numbers);
    write_words(labels, steps, s, k, numbers, bytes);
}

// The same from a plan of n nodes and a branch table of s states and k labels: labels, kinds and steps are handed on
// as parts.
pub fn write_branch_colours(
    plan: &[u8],
    branch: &[u8],
    n: usize,
    s: usize,
    k: usize,
    numbers: &mut [u16],
    bytes: &mut [u8],
)
    requires { PartArgs plan.now branch.now n s k (length numbers.old) (length bytes.old) }
    ensures { ColoursWritten plan.now branch.now numbers.old
        bytes.old
        numbers.new bytes.new }
{
    fill_colours(
        &plan[PLAN_HEAD..PLAN_HEAD + n],
        &plan[PLAN_HEAD + n..],
        &branch[BRANCH_HEAD..BRANCH_HEAD + s * k],
        s,
        k,
        numbers,
        bytes,
    );
}
