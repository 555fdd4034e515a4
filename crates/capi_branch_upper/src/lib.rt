// The branch question with the upper node's label, as C and Rust call it: the other reading of `whatif_branch` (capi's
// branch_calls). Crate capi_branch_upper_c exports it.
//     whatif_branch_with_upper   the word from the upper node down to the lower, both included
#![tactic(auto)]

ghost use Rattle.branches.specs.declared.answers.Reading.TheVariants.{WithUpper};
ghost use Rattle.capi.specs.branch_calls.BranchExported.{AskExported};

use branches::ask::ask_branch_with_upper;
use capi::branch_calls::ask_number;

// The branch question with the upper node's label: the word from node `upper` down to node `lower`, both included.
pub fn whatif_branch_with_upper(
    plan: &[u8],
    branch: &[u8],
    node_table: &[u16],
    state_table: &[u8],
    upper: u32,
    lower: u32,
    state: &mut u32,
    yes: &mut u32,
    links: &mut u32,
    passed: &mut u32,
) -> u32
    ensures { AskExported WithUpper plan.now branch.now node_table.now
        state_table.now upper lower
        result state.old yes.old links.old passed.old
        state.new yes.new links.new passed.new }
{
    let answer = ask_branch_with_upper(plan, branch, node_table, state_table, upper, lower);
    ask_number(answer, state, yes, links, passed)
}
