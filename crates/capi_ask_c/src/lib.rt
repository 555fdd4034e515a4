// What C calls of whole questions outside the session: an export for the function of crate capi_ask, with the same
// clauses. In an object of its own the compiler inlines the roots of its parts: in that of capi_c the count would share one
// copy.
#![tactic(auto)]

ghost use Rattle.capi_ask.specs.WholeExported.{WholeExported};

// The whole question: the plan with the listed labels changed, a node named several times by its last entry.
#[unsafe(no_mangle)]
pub extern "C" fn whatif_ask(
    plan: &[u8],
    rules: &[u8],
    node_table: &[u16],
    state_table: &[u8],
    nodes: &[u16],
    labels: &[u8],
    state: &mut u32,
    yes: &mut u32,
    parts: &mut u32,
    links: &mut u32,
    passed: &mut u32,
) -> u32
    ensures { WholeExported plan.now rules.now node_table.now state_table.now
        nodes.now labels.now
        result state.old yes.old parts.old links.old passed.old
        state.new yes.new parts.new links.new passed.new }
{
    capi_ask::whatif_ask(
        plan,
        rules,
        node_table,
        state_table,
        nodes,
        labels,
        state,
        yes,
        parts,
        links,
        passed,
    )
}
