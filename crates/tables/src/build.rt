// The build: both tables of a plan and a rule table.
ghost use Rattle.std.specs.Prelude.{length};
ghost use Rattle.formats.specs.Checks.{first_no, build_checks};
ghost use Rattle.formats.specs.Built.{built_node_table, built_state_table};
ghost use Rattle.tables.specs.Answers.{BuildDone};
ghost use Rattle.tables.specs.inner.Written.{BuildArgs, BothWritten};

use crate::node_tables::build::build_node_table;
use crate::tables::write_states;
use formats::bytes::read32;
use formats::inputs::check_build;
use formats::layout::{LABEL_COUNT_AT, PLAN_HEAD, RULES_HEAD};
use formats::refusals::Refusal;
use formats::rules::inner_count;

// Writes both tables of a plan of n nodes and a rule table of s states and k labels that pass their checks.
// Labels, kinds and states are handed on as parts.
pub fn write_tables(
    plan: &[u8],
    rules: &[u8],
    n: usize,
    s: usize,
    k: usize,
    node_table: &mut [u16],
    state_table: &mut [u8],
)
    requires { BuildArgs plan.now rules.now n s k node_table.old state_table.old }
    ensures { BothWritten plan.now rules.now node_table.old state_table.old
        node_table.new state_table.new }
{
    let end = RULES_HEAD + k + inner_count(s, k);
    build_node_table(&plan[PLAN_HEAD + n..], node_table);
    write_states(
        &plan[PLAN_HEAD + n..],
        &plan[PLAN_HEAD..PLAN_HEAD + n],
        node_table,
        &rules[RULES_HEAD..RULES_HEAD + k],
        &rules[RULES_HEAD + k..end],
        s,
        k,
        state_table,
    );
}

// Builds the tables of a plan and a rule table into the caller's buffers, or refuses and alters nothing.
pub fn build_tables(
    plan: &[u8],
    rules: &[u8],
    node_table: &mut [u16],
    state_table: &mut [u8],
) -> Result<(), Refusal>
    ensures { BuildDone
        (first_no (build_checks plan.now rules.now
        (length node_table.old) (length state_table.old)))
        (built_node_table plan.now) (built_state_table plan.now rules.now)
        node_table.old state_table.old result node_table.new state_table.new }
{
    check_build(plan, rules, node_table.len(), state_table.len())?;
    let n = read32(plan, 0);
    let s = read32(rules, 0);
    let k = read32(rules, LABEL_COUNT_AT);
    write_tables(plan, rules, n, s, k, node_table, state_table);
    Ok(())
}
