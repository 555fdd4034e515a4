// Load of eight screens.
ghost use Rattle.formats.specs.Inputs.{inputs_of};
ghost use Rattle.capi_screens.specs.ScreensExported.{ScreensLoadExported};

// Load: a plan and rules for the eight screens, and their tables; tells 0, the screen to try first.
#[unsafe(no_mangle)]
pub extern "C" fn whatif_screens_load(
    records: &mut [u8],
    plan: &[u8],
    rules: &[u8],
    node_table: &mut [u16],
    state_table: &mut [u8],
    next: &mut u32,
) -> u32
    ensures { ScreensLoadExported records.old
        (inputs_of plan.now rules.now node_table.old state_table.old)
        result records.new node_table.new state_table.new next.old
        next.new }
{
    capi_screens::load::whatif_screens_load(records, plan, rules, node_table, state_table, next)
}
