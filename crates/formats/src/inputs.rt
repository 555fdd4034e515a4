// The checks of whole calls: of plan and table, of room for the tables, of a fresh run.
ghost use Rattle.std.specs.Prelude.{◌≡◌};
ghost use Rattle.list_laws.specs.Tests.{all_below};
ghost use Rattle.formats.specs.Plan.{labels_within};
ghost use Rattle.formats.specs.Checks.{first_no, rule_table_checks, branch_table_checks, build_checks, branch_build_checks, fresh_run_checks};
ghost use Rattle.formats.specs.Refusals.{answer_number};
ghost use Rattle.formats.specs.inner.InnerChecks.{Labelled, Sizes, room_fits};

use crate::branch::check_branch_bytes;
use crate::bytes::read32;
use crate::layout::{LABEL_COUNT_AT, NODE_COLUMNS, PLAN_HEAD};
use crate::lists::check_list;
use crate::plan::check_plan;
use crate::refusals::Refusal;
use crate::rules::{all_below, check_rule_bytes};

// Check 10: every label of the plan below k.
fn plan_labels_below(plan: &[u8], k: usize) -> bool
    requires { Labelled plan.now k }
    ensures { result ≡ all_below k (labels_within plan.now) }
{
    let n = read32(plan, 0);
    all_below(&plan[PLAN_HEAD..PLAN_HEAD + n], k as u8)
}

// Check 11: both table buffers long enough for n nodes and s states.
pub fn room_fits(n: usize, s: usize, node_table: usize, state_table: usize) -> bool
    requires { Sizes n s }
    ensures { result ≡ room_fits n s node_table state_table }
{
    if node_table < n * NODE_COLUMNS {
        return false;
    }
    n * (s + 1) <= state_table
}

// Checks 2 to 10 for a rule table.
pub fn check_rule_inputs(plan: &[u8], rules: &[u8]) -> Result<(), Refusal>
    ensures { answer_number result ≡ first_no (rule_table_checks plan.now rules.now) }
{
    check_plan(plan)?;
    check_rule_bytes(rules)?;
    let k = read32(rules, LABEL_COUNT_AT);
    if !plan_labels_below(plan, k) {
        return Err(Refusal::PlanLabel);
    }
    Ok(())
}

// Checks 2 to 10 for a branch table.
pub fn check_branch_inputs(plan: &[u8], branch: &[u8]) -> Result<(), Refusal>
    ensures { answer_number result ≡ first_no (branch_table_checks plan.now branch.now) }
{
    check_plan(plan)?;
    check_branch_bytes(branch)?;
    let k = read32(branch, LABEL_COUNT_AT);
    if !plan_labels_below(plan, k) {
        return Err(Refusal::PlanLabel);
    }
    Ok(())
}

// Checks 2 to 11: of the build and of the full check. The last two are the lengths of the table buffers.
pub fn check_build(
    plan: &[u8],
    rules: &[u8],
    node_table: usize,
    state_table: usize,
) -> Result<(), Refusal>
    ensures { answer_number result ≡ first_no (build_checks plan.now rules.now node_table state_table) }
{
    check_rule_inputs(plan, rules)?;
    let n = read32(plan, 0);
    let s = read32(rules, 0);
    if !room_fits(n, s, node_table, state_table) {
        return Err(Refusal::BufferShort);
    }
    Ok(())
}

// Checks 2 to 11 for a branch table.
pub fn check_branch_build(
    plan: &[u8],
    branch: &[u8],
    node_table: usize,
    state_table: usize,
) -> Result<(), Refusal>
    ensures { answer_number result ≡ first_no (branch_build_checks plan.now branch.now node_table state_table) }
{
    check_branch_inputs(plan, branch)?;
    let n = read32(plan, 0);
    let s = read32(branch, 0);
    if !room_fits(n, s, node_table, state_table) {
        return Err(Refusal::BufferShort);
    }
    Ok(())
}

// Checks 2 to 10, then 12 to 14: of a fresh run.
pub fn check_fresh_run(
    plan: &[u8],
    rules: &[u8],
    nodes: &[u16],
    labels: &[u8],
) -> Result<(), Refusal>
    ensures { answer_number result ≡ first_no (fresh_run_checks plan.now rules.now nodes.now labels.now) }
{
    check_rule_inputs(plan, rules)?;
    let n = read32(plan, 0);
    let k = read32(rules, LABEL_COUNT_AT);
    check_list(n, k, nodes, labels)
}
