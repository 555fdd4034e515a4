// The rule question by colours.
ghost use Rattle.capi_colours.specs.rule_calls.RuleExported.{RuleExported};

// The rule question by colours: the plan with the listed labels changed, a node named several times by its last
// entry. It has six buffers of the table's, the list's two and five outputs, each as C passes it.
#[unsafe(no_mangle)]
pub extern "C" fn whatif_colour_ask(
    plan: &[u8],
    rules: &[u8],
    node_table: &[u16],
    state_table: &[u8],
    colour_numbers: &[u16],
    colour_bytes: &[u8],
    nodes: &[u16],
    labels: &[u8],
    state: &mut u32,
    yes: &mut u32,
    drops: &mut u32,
    links: &mut u32,
    parts: &mut u32,
) -> u32
    ensures { RuleExported plan.now rules.now node_table.now state_table.now
        colour_numbers.now colour_bytes.now nodes.now labels.now
        result state.old yes.old drops.old links.old parts.old
        state.new yes.new drops.new links.new parts.new }
{
    capi_colours::rule_calls::ask::whatif_colour_ask(
        plan,
        rules,
        node_table,
        state_table,
        colour_numbers,
        colour_bytes,
        nodes,
        labels,
        state,
        yes,
        drops,
        links,
        parts,
    )
}
