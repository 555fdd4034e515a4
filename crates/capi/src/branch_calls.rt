// The branches' calls: build, full check and the question in its plain reading. Its other reading is crate
// capi_branch_upper.
ghost use Rattle.std.specs.Prelude.{length};
ghost use Rattle.formats.specs.Checks.{first_no, branch_build_checks};
ghost use Rattle.formats.specs.Built.{built_node_table, built_branch_table};
ghost use Rattle.branches.specs.declared.answers.Reading.TheVariants.{BelowUpper};
ghost use Rattle.capi.specs.numbers.Numbers.{BuildExported, CheckExported};
ghost use Rattle.capi.specs.branch_calls.BranchExported.{AskNumber, AskExported};

use crate::numbers::{bit, check_number, number};
use branches::answers::Branched;
use branches::ask::ask_branch;
use branches::build::build_branch_tables;
use branches::check::check_branch_tables;
use formats::refusals::HasNumber;

// Builds the tables of a plan for a branch table.
pub fn whatif_branch_build(
    plan: &[u8],
    branch: &[u8],
    node_table: &mut [u16],
    state_table: &mut [u8],
) -> u32
    ensures { BuildExported
        (first_no (branch_build_checks plan.now branch.now (length node_table.old) (length state_table.old)))
        (built_node_table plan.now) (built_branch_table plan.now branch.now)
        node_table.old state_table.old result node_table.new state_table.new }
{
    let answer = build_branch_tables(plan, branch, node_table, state_table);
    number(answer)
}

// Whether the tables are what the build writes for the plan and the branch table.
pub fn whatif_branch_check(
    plan: &[u8],
    branch: &[u8],
    node_table: &[u16],
    state_table: &[u8],
    yes: &mut u32,
) -> u32
    ensures { CheckExported
        (first_no (branch_build_checks plan.now branch.now (length node_table.now) (length state_table.now)))
        (built_node_table plan.now) (built_branch_table plan.now branch.now)
        node_table.now state_table.now result yes.old yes.new }
{
    let answer = check_branch_tables(plan, branch, node_table, state_table);
    check_number(answer, yes)
}

// The number of a branch question's answer; its state, whether it is marked, its links and the nodes passed over go to
// `state`, `yes`, `links` and `passed`.
pub fn ask_number<E: HasNumber>(
    answer: Result<Branched, E>,
    state: &mut u32,
    yes: &mut u32,
    links: &mut u32,
    passed: &mut u32,
) -> u32
    ensures { AskNumber E.number_in answer state.old yes.old links.old passed.old
        result state.new yes.new links.new passed.new }
{
    match answer {
        Ok(b) => {
            *state = b.state as u32;
            *yes = bit(b.marked);
            *links = b.links;
            *passed = b.passed;
            0
        }
        Err(refusal) => refusal.number_of() as u32,
    }
}

// The branch question: the word from below node `upper` down to node `lower`.
pub fn whatif_branch(
    plan: &[u8],
    branch: &[u8],
    node_table: &[u16],
    state_table: &[u8],
    upper: u32,
    lower: u32,
    state: &mut u32,
    yes: &mut u32,
    links: &mut u32,
    passed: &mut u32,
) -> u32
    ensures { AskExported BelowUpper plan.now branch.now node_table.now state_table.now upper lower
        result state.old yes.old links.old passed.old
        state.new yes.new links.new passed.new }
{
    let answer = ask_branch(plan, branch, node_table, state_table, upper, lower);
    ask_number(answer, state, yes, links, passed)
}
