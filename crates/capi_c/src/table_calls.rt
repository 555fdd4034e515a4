// The tables' calls: build, full check and the fresh run.
ghost use Rattle.std.specs.Prelude.{length};
ghost use Rattle.formats.specs.Checks.{first_no, build_checks};
ghost use Rattle.formats.specs.Built.{built_node_table, built_state_table};
ghost use Rattle.capi.specs.numbers.Numbers.{BuildExported, CheckExported};
ghost use Rattle.capi.specs.table_calls.RunExported.{RunExported};

// Builds the tables of a plan for a rule table.
#[unsafe(no_mangle)]
pub extern "C" fn whatif_build(
    plan: &[u8],
    rules: &[u8],
    node_table: &mut [u16],
    state_table: &mut [u8],
) -> u32
    ensures { BuildExported
        (first_no (build_checks plan.now rules.now (length node_table.old) (length state_table.old)))
        (built_node_table plan.now) (built_state_table plan.now rules.now)
        node_table.old state_table.old result node_table.new state_table.new }
{
    capi::table_calls::whatif_build(plan, rules, node_table, state_table)
}

// Whether the tables are what the build writes for the plan and the rule table.
#[unsafe(no_mangle)]
pub extern "C" fn whatif_check(
    plan: &[u8],
    rules: &[u8],
    node_table: &[u16],
    state_table: &[u8],
    yes: &mut u32,
) -> u32
    ensures { CheckExported
        (first_no (build_checks plan.now rules.now (length node_table.now) (length state_table.now)))
        (built_node_table plan.now) (built_state_table plan.now rules.now)
        node_table.now state_table.now result yes.old yes.new }
{
    capi::table_calls::whatif_check(plan, rules, node_table, state_table, yes)
}

// The run of the plan with the listed labels changed, without tables.
#[unsafe(no_mangle)]
pub extern "C" fn whatif_fresh_run(
    plan: &[u8],
    rules: &[u8],
    nodes: &[u16],
    labels: &[u8],
    state: &mut u32,
    yes: &mut u32,
) -> u32
    ensures { RunExported plan.now rules.now nodes.now labels.now
        result state.old yes.old state.new yes.new }
{
    capi::table_calls::whatif_fresh_run(plan, rules, nodes, labels, state, yes)
}
