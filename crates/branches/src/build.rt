// The build of the tables for a branch table.
ghost use Rattle.std.specs.Prelude.{length};
ghost use Rattle.formats.specs.Checks.{first_no, branch_build_checks};
ghost use Rattle.formats.specs.Built.{built_node_table, built_branch_table};
ghost use Rattle.tables.specs.Answers.{BuildDone};
ghost use Rattle.branches.specs.inner.Filled.{FillArgs, BranchFilled, PartArgs, BranchWritten};

use crate::maps::fill_maps;
use crate::steps::fill_steps;
use formats::bytes::read32;
use formats::inputs::check_branch_build;
use formats::layout::{BRANCH_HEAD, LABEL_COUNT_AT, PLAN_HEAD};
use formats::refusals::Refusal;
use tables::node_tables::build::build_node_table;

// Writes both tables, once all checks have passed. The excess of a longer buffer is untouched.
fn fill_branch(
    labels: &[u8],
    kinds: &[u8],
    steps: &[u8],
    s: usize,
    k: usize,
    node_table: &mut [u16],
    state_table: &mut [u8],
)
    requires { FillArgs labels.now kinds.now steps.now s k (length labels.now) (length node_table.old)
        (length state_table.old) }
    ensures { BranchFilled labels.now kinds.now steps.now s k
        node_table.old state_table.old node_table.new state_table.new }
{
    let n = labels.len();
    build_node_table(kinds, node_table);
    fill_steps(labels, node_table, steps, s, k, n, state_table);
    fill_maps(labels, node_table, steps, s, k, n, state_table);
}

// The same from a plan of n nodes and a branch table of s states and k labels: labels, kinds and steps are handed on
// as parts.
fn write_branch(
    plan: &[u8],
    branch: &[u8],
    n: usize,
    s: usize,
    k: usize,
    node_table: &mut [u16],
    state_table: &mut [u8],
)
    requires { PartArgs plan.now branch.now n s k (length node_table.old) (length state_table.old) }
    ensures { BranchWritten plan.now branch.now node_table.old
        state_table.old node_table.new state_table.new }
{
    fill_branch(
        &plan[PLAN_HEAD..PLAN_HEAD + n],
        &plan[PLAN_HEAD + n..],
        &branch[BRANCH_HEAD..BRANCH_HEAD + s * k],
        s,
        k,
        node_table,
        state_table,
    );
}

// Writes the tables of a plan and a branch table, or refuses, by the first check of 2 to 11 that fails, and alters
// nothing.
pub fn build_branch_tables(
    plan: &[u8],
    branch: &[u8],
    node_table: &mut [u16],
    state_table: &mut [u8],
) -> Result<(), Refusal>
    ensures { BuildDone
        (first_no (branch_build_checks plan.now branch.now (length node_table.old)
        (length state_table.old)))
        (built_node_table plan.now) (built_branch_table plan.now branch.now)
        node_table.old state_table.old result node_table.new state_table.new }
{
    check_branch_build(plan, branch, node_table.len(), state_table.len())?;
    let n = read32(plan, 0);
    let s = read32(branch, 0);
    let k = read32(branch, LABEL_COUNT_AT);
    write_branch(plan, branch, n, s, k, node_table, state_table);
    Ok(())
}
