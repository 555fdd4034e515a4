// The session's five calls on record bytes.
ghost use Rattle.model.specs.Calls as calls;
ghost use Rattle.formats.specs.Inputs.{inputs_of};
ghost use Rattle.capi_session.specs.SessionExported.{CallExported, LoadExported, StartExported, AdvanceExported, ReadExported};
ghost use Rattle.capi_session.specs.Stored.{places};

// Load: a plan and rules for the session, and their tables.
#[unsafe(no_mangle)]
pub extern "C" fn whatif_load(
    rec: &mut [u8],
    plan: &[u8],
    rules: &[u8],
    node_table: &mut [u16],
    state_table: &mut [u8],
) -> u32
    ensures { LoadExported rec.old
        (inputs_of plan.now rules.now node_table.old state_table.old)
        result rec.new node_table.new state_table.new }
{
    capi_session::calls::whatif_load(rec, plan, rules, node_table, state_table)
}

// Cancel: the question is forgotten, the last finished answer kept.
#[unsafe(no_mangle)]
pub extern "C" fn whatif_cancel(rec: &mut [u8]) -> u32
    ensures { CallExported rec.old calls.cancel result rec.new }
{
    capi_session::calls::whatif_cancel(rec)
}

// Start: a question about a list of changes.
#[unsafe(no_mangle)]
pub extern "C" fn whatif_start(
    rec: &mut [u8],
    plan: &[u8],
    rules: &[u8],
    node_table: &[u16],
    state_table: &[u8],
    nodes: &[u16],
    labels: &[u8],
    parts: &mut u32,
) -> u32
    ensures { StartExported rec.old
        (calls.start (inputs_of plan.now rules.now node_table.now state_table.now)
        nodes.now labels.now)
        result rec.new parts.old parts.new }
{
    capi_session::calls::whatif_start(
        rec,
        plan,
        rules,
        node_table,
        state_table,
        nodes,
        labels,
        parts,
    )
}

// Advance: one more part.
#[unsafe(no_mangle)]
pub extern "C" fn whatif_advance(
    rec: &mut [u8],
    plan: &[u8],
    rules: &[u8],
    node_table: &[u16],
    state_table: &[u8],
    finished: &mut u32,
) -> u32
    ensures { AdvanceExported rec.old
        (calls.advance (inputs_of plan.now rules.now node_table.now state_table.now))
        result rec.new finished.old finished.new }
{
    capi_session::calls::whatif_advance(rec, plan, rules, node_table, state_table, finished)
}

// Read: the last finished answer.
#[unsafe(no_mangle)]
pub extern "C" fn whatif_read(
    rec: &[u8],
    state: &mut u32,
    yes: &mut u32,
    parts: &mut u32,
    links: &mut u32,
    passed: &mut u32,
) -> u32
    ensures { ReadExported rec.now result
        (places state.old yes.old parts.old links.old passed.old)
        (places state.new yes.new parts.new links.new passed.new) }
{
    capi_session::calls::whatif_read(rec, state, yes, parts, links, passed)
}
