// The count of choices.
ghost use Rattle.capi.specs.choice_calls.CountExported.{CountExported};

// How many choices of labels for the nodes end in each state: the counts go to the front of `counts`, parts and links
// to their output parameters.
#[unsafe(no_mangle)]
pub extern "C" fn whatif_count(
    plan: &[u8],
    rules: &[u8],
    node_table: &[u16],
    state_table: &[u8],
    nodes: &[u16],
    counts: &mut [u64],
    parts: &mut u32,
    links: &mut u32,
) -> u32
    ensures { CountExported plan.now rules.now node_table.now state_table.now
        nodes.now counts.old parts.old links.old result counts.new
        parts.new links.new }
{
    capi::choice_calls::whatif_count(
        plan,
        rules,
        node_table,
        state_table,
        nodes,
        counts,
        parts,
        links,
    )
}
