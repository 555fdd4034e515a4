// The full check of the caller's tables for a plan and a branch table.
ghost use Rattle.std.specs.Prelude.{◌≡◌, length};
ghost use Rattle.formats.specs.Checks.{first_no, branch_build_checks};
ghost use Rattle.formats.specs.Built.{built_node_table, built_branch_table};
ghost use Rattle.tables.specs.Answers.{same_tables, CheckDone};
ghost use Rattle.branches.specs.inner.Filled.{FillArgs, PartArgs};
ghost use Rattle.branches.specs.inner.BranchTests.{TablesTested};

use crate::check_maps::check_maps;
use crate::check_steps::check_steps;
use formats::bytes::read32;
use formats::inputs::check_branch_build;
use formats::layout::{BRANCH_HEAD, LABEL_COUNT_AT, PLAN_HEAD};
use formats::refusals::Refusal;
use tables::node_tables::check::check_node_table;

// Whether both buffers begin with the tables of the tree with these labels and kinds: the links first, since the rest
// is read by them.
fn tables_match(
    labels: &[u8],
    kinds: &[u8],
    steps: &[u8],
    s: usize,
    k: usize,
    node_table: &[u16],
    state_table: &[u8],
) -> bool
    requires { FillArgs labels.now kinds.now steps.now s k (length labels.now) (length node_table.now)
        (length state_table.now) }
    ensures { TablesTested labels.now kinds.now steps.now s k
        node_table.now state_table.now result }
{
    if !check_node_table(kinds, node_table) {
        return false;
    }
    let n = labels.len();
    if !check_steps(labels, node_table, steps, s, k, n, state_table) {
        return false;
    }
    check_maps(labels, node_table, steps, s, k, n, state_table)
}

// The same from a plan of n nodes and a branch table of s states and k labels: labels, kinds and steps are handed on
// as parts.
fn branch_matches(
    plan: &[u8],
    branch: &[u8],
    n: usize,
    s: usize,
    k: usize,
    node_table: &[u16],
    state_table: &[u8],
) -> bool
    requires { PartArgs plan.now branch.now n s k (length node_table.now) (length state_table.now) }
    ensures { result ≡ same_tables (built_node_table plan.now)
        (built_branch_table plan.now branch.now) node_table.now state_table.now }
{
    tables_match(
        &plan[PLAN_HEAD..PLAN_HEAD + n],
        &plan[PLAN_HEAD + n..],
        &branch[BRANCH_HEAD..BRANCH_HEAD + s * k],
        s,
        k,
        node_table,
        state_table,
    )
}

// Whether the caller's tables are what the build writes, or the refusal of the first check of 2 to 11 that fails.
pub fn check_branch_tables(
    plan: &[u8],
    branch: &[u8],
    node_table: &[u16],
    state_table: &[u8],
) -> Result<bool, Refusal>
    ensures { CheckDone
        (first_no (branch_build_checks plan.now branch.now (length node_table.now)
        (length state_table.now)))
        (built_node_table plan.now) (built_branch_table plan.now branch.now)
        node_table.now state_table.now result }
{
    check_branch_build(plan, branch, node_table.len(), state_table.len())?;
    let n = read32(plan, 0);
    let s = read32(branch, 0);
    let k = read32(branch, LABEL_COUNT_AT);
    Ok(branch_matches(plan, branch, n, s, k, node_table, state_table))
}
