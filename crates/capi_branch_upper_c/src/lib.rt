// What C calls of branch questions with the upper node's label: an export for the function of crate capi_branch_upper,
// with the same clauses. It has an object of its own, so that the compiler inlines each reading's question: in one object
// both would call one copy of it, with all arguments and results passed through memory.
#![tactic(auto)]

ghost use Rattle.branches.specs.declared.answers.Reading.TheVariants.{WithUpper};
ghost use Rattle.capi.specs.branch_calls.BranchExported.{AskExported};

// The branch question with the upper node's label: the word from node `upper` down to node `lower`, both included.
#[unsafe(no_mangle)]
pub extern "C" fn whatif_branch_with_upper(
    plan: &[u8],
    branch: &[u8],
    node_table: &[u16],
    state_table: &[u8],
    upper: u32,
    lower: u32,
    state: &mut u32,
    yes: &mut u32,
    links: &mut u32,
    passed: &mut u32,
) -> u32
    ensures { AskExported WithUpper plan.now branch.now node_table.now
        state_table.now upper lower
        result state.old yes.old links.old passed.old
        state.new yes.new links.new passed.new }
{
    capi_branch_upper::whatif_branch_with_upper(
        plan,
        branch,
        node_table,
        state_table,
        upper,
        lower,
        state,
        yes,
        links,
        passed,
    )
}
