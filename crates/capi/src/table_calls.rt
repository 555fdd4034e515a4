// The tables' calls: build, full check and the fresh run.
ghost use Rattle.std.specs.Prelude.{length};
ghost use Rattle.formats.specs.Checks.{first_no, build_checks};
ghost use Rattle.formats.specs.Built.{built_node_table, built_state_table};
ghost use Rattle.capi.specs.numbers.Numbers.{BuildExported, CheckExported};
ghost use Rattle.capi.specs.table_calls.RunExported.{RunNumber, RunExported};

use crate::numbers::{bit, check_number, number};
use formats::refusals::Refusal;
use runs::answer::Verdict;
use runs::fresh::fresh_run;
use table_checks::check::check_tables;
use tables::build::build_tables;

// Builds the tables of a plan for a rule table.
pub fn whatif_build(
    plan: &[u8],
    rules: &[u8],
    node_table: &mut [u16],
    state_table: &mut [u8],
) -> u32
    ensures { BuildExported
        (first_no (build_checks plan.now rules.now (length node_table.old) (length state_table.old)))
        (built_node_table plan.now) (built_state_table plan.now rules.now)
        node_table.old state_table.old result node_table.new state_table.new }
{
    let answer = build_tables(plan, rules, node_table, state_table);
    number(answer)
}

// Whether the tables are what the build writes for the plan and the rule table.
pub fn whatif_check(
    plan: &[u8],
    rules: &[u8],
    node_table: &[u16],
    state_table: &[u8],
    yes: &mut u32,
) -> u32
    ensures { CheckExported
        (first_no (build_checks plan.now rules.now (length node_table.now) (length state_table.now)))
        (built_node_table plan.now) (built_state_table plan.now rules.now)
        node_table.now state_table.now result yes.old yes.new }
{
    let answer = check_tables(plan, rules, node_table, state_table);
    check_number(answer, yes)
}

// The number of a fresh run's answer; its state and whether it is marked go to `state` and `yes`.
fn run_number(answer: Result<Verdict, Refusal>, state: &mut u32, yes: &mut u32) -> u32
    ensures { RunNumber answer state.old yes.old result state.new yes.new }
{
    match answer {
        Ok(verdict) => {
            *state = verdict.state as u32;
            *yes = bit(verdict.accepted);
            0
        }
        Err(refusal) => refusal.number() as u32,
    }
}

// The run of the plan with the listed labels changed, without tables.
pub fn whatif_fresh_run(
    plan: &[u8],
    rules: &[u8],
    nodes: &[u16],
    labels: &[u8],
    state: &mut u32,
    yes: &mut u32,
) -> u32
    ensures { RunExported plan.now rules.now nodes.now labels.now
        result state.old yes.old state.new yes.new }
{
    let answer = fresh_run(plan, rules, nodes, labels);
    run_number(answer, state, yes)
}
