// The full check of rule tables by pairs.
ghost use Rattle.std.specs.Prelude.{◌≡◌, length};
ghost use Rattle.formats.specs.Checks.{first_no, build_checks};
ghost use Rattle.formats.specs.Built.{built_node_table, built_state_table};
ghost use Rattle.tables.specs.Answers.{same_tables, CheckDone};
ghost use Rattle.tables.specs.inner.Written.{BuildArgs};

use crate::compare::tables_match;
use formats::bytes::read32;
use formats::inputs::check_build;
use formats::layout::{LABEL_COUNT_AT, PLAN_HEAD, RULES_HEAD};
use formats::refusals::Refusal;
use formats::rules::inner_count;

// Whether both buffers begin with the tables of a plan and a rule table that pass their checks. Labels, kinds and
// states are handed on as parts.
fn both_match(
    plan: &[u8],
    rules: &[u8],
    n: usize,
    s: usize,
    k: usize,
    node_table: &[u16],
    state_table: &[u8],
) -> bool
    requires { BuildArgs plan.now rules.now n s k node_table.now state_table.now }
    ensures { result ≡ same_tables (built_node_table plan.now)
        (built_state_table plan.now rules.now) node_table.now
        state_table.now }
{
    let end = RULES_HEAD + k + inner_count(s, k);
    tables_match(
        &plan[PLAN_HEAD + n..],
        &plan[PLAN_HEAD..PLAN_HEAD + n],
        node_table,
        &rules[RULES_HEAD..RULES_HEAD + k],
        &rules[RULES_HEAD + k..end],
        s,
        k,
        state_table,
    )
}

// The full check: 2 to 11, then whether the tables are what the build writes. Nothing is written.
pub fn check_tables(
    plan: &[u8],
    rules: &[u8],
    node_table: &[u16],
    state_table: &[u8],
) -> Result<bool, Refusal>
    ensures { CheckDone (first_no
        (build_checks plan.now rules.now (length node_table.now)
        (length state_table.now))) (built_node_table plan.now)
        (built_state_table plan.now rules.now) node_table.now
        state_table.now result }
{
    check_build(plan, rules, node_table.len(), state_table.len())?;
    let n = read32(plan, 0);
    let s = read32(rules, 0);
    let k = read32(rules, LABEL_COUNT_AT);
    Ok(both_match(plan, rules, n, s, k, node_table, state_table))
}
