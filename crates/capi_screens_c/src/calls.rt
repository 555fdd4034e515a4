// Start, Cancel, Read and the deal of eight screens.
ghost use Rattle.formats.specs.Inputs.{inputs_of};
ghost use Rattle.screens.specs.ScreenCalls as screens;
ghost use Rattle.capi_session.specs.Stored.{places};
ghost use Rattle.capi_screens.specs.ScreensExported.{ScreensCallExported, ScreensStartExported};
ghost use Rattle.capi_screens.specs.ScreensExported.{ScreensDealExported, ScreensReadExported};

// Cancel of one screen: its question is forgotten, its last finished answer kept.
#[unsafe(no_mangle)]
pub extern "C" fn whatif_screens_cancel(records: &mut [u8], screen: u32) -> u32
    ensures { ScreensCallExported records.old (screens.cancel_on screen) result records.new }
{
    capi_screens::calls::whatif_screens_cancel(records, screen)
}

// Start on one screen: a question about a list of changes.
#[unsafe(no_mangle)]
pub extern "C" fn whatif_screens_start(
    records: &mut [u8],
    screen: u32,
    plan: &[u8],
    rules: &[u8],
    node_table: &[u16],
    state_table: &[u8],
    nodes: &[u16],
    labels: &[u8],
    parts: &mut u32,
) -> u32
    ensures { ScreensStartExported records.old
        (screens.start_on screen
        (inputs_of plan.now rules.now node_table.now state_table.now)
        nodes.now labels.now)
        result records.new parts.old parts.new }
{
    capi_screens::calls::whatif_screens_start(
        records,
        screen,
        plan,
        rules,
        node_table,
        state_table,
        nodes,
        labels,
        parts,
    )
}

// Read of one screen: its last finished answer.
#[unsafe(no_mangle)]
pub extern "C" fn whatif_screens_read(
    records: &[u8],
    screen: u32,
    state: &mut u32,
    yes: &mut u32,
    parts: &mut u32,
    links: &mut u32,
    passed: &mut u32,
) -> u32
    ensures { ScreensReadExported records.now screen result
        (places state.old yes.old parts.old links.old passed.old)
        (places state.new yes.new parts.new links.new passed.new) }
{
    capi_screens::calls::whatif_screens_read(records, screen, state, yes, parts, links, passed)
}

// A deal: one advance for the next running screen; reports the screen to try first next time, and whether it finished.
#[unsafe(no_mangle)]
pub extern "C" fn whatif_screens_deal(
    records: &mut [u8],
    first: u32,
    plan: &[u8],
    rules: &[u8],
    node_table: &[u16],
    state_table: &[u8],
    next: &mut u32,
    finished: &mut u32,
) -> u32
    ensures { ScreensDealExported records.old
        (screens.deal first
        (inputs_of plan.now rules.now node_table.now state_table.now))
        result records.new next.old next.new
        finished.old finished.new }
{
    capi_screens::calls::whatif_screens_deal(
        records,
        first,
        plan,
        rules,
        node_table,
        state_table,
        next,
        finished,
    )
}
