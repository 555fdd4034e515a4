// Branch questions by colours: the build of their tables, and the question in its two readings.
ghost use Rattle.std.specs.Prelude.{length};
ghost use Rattle.formats.specs.Checks.{first_no};
ghost use Rattle.colour_tables.specs.branch.Build.{branch_colour_checks, built_colour_numbers, built_copies};
ghost use Rattle.branches.specs.declared.answers.Reading.TheVariants.{WithUpper, BelowUpper};
ghost use Rattle.capi.specs.numbers.Numbers.{BuildExported};
ghost use Rattle.capi_colours.specs.branch_calls.DescentExported.{DescentExported};

// Builds the tables of colours of a plan for a branch table.
#[unsafe(no_mangle)]
pub extern "C" fn whatif_colour_branch_build(
    plan: &[u8],
    branch: &[u8],
    colour_numbers: &mut [u16],
    colour_bytes: &mut [u8],
) -> u32
    ensures { BuildExported
        (first_no (branch_colour_checks plan.now branch.now (length colour_numbers.old)
        (length colour_bytes.old)))
        (built_colour_numbers plan.now branch.now)
        (built_copies plan.now branch.now)
        colour_numbers.old colour_bytes.old result colour_numbers.new
        colour_bytes.new }
{
    capi_colours::branch_calls::whatif_colour_branch_build(
        plan,
        branch,
        colour_numbers,
        colour_bytes,
    )
}

// The branch question by colours: the word from below node `upper` down to node `lower`.
#[unsafe(no_mangle)]
pub extern "C" fn whatif_colour_branch(
    plan: &[u8],
    branch: &[u8],
    node_table: &[u16],
    colour_numbers: &[u16],
    colour_bytes: &[u8],
    upper: u32,
    lower: u32,
    state: &mut u32,
    yes: &mut u32,
    drops: &mut u32,
    links: &mut u32,
) -> u32
    ensures { DescentExported BelowUpper plan.now branch.now node_table.now
        colour_numbers.now colour_bytes.now upper lower
        result state.old yes.old drops.old links.old
        state.new yes.new drops.new links.new }
{
    capi_colours::branch_calls::whatif_colour_branch(
        plan,
        branch,
        node_table,
        colour_numbers,
        colour_bytes,
        upper,
        lower,
        state,
        yes,
        drops,
        links,
    )
}

// The same with the upper node's label: the word from node `upper` down to node `lower`, both included.
#[unsafe(no_mangle)]
pub extern "C" fn whatif_colour_branch_with_upper(
    plan: &[u8],
    branch: &[u8],
    node_table: &[u16],
    colour_numbers: &[u16],
    colour_bytes: &[u8],
    upper: u32,
    lower: u32,
    state: &mut u32,
    yes: &mut u32,
    drops: &mut u32,
    links: &mut u32,
) -> u32
    ensures { DescentExported WithUpper plan.now branch.now node_table.now
        colour_numbers.now colour_bytes.now upper lower
        result state.old yes.old drops.old links.old
        state.new yes.new drops.new links.new }
{
    capi_colours::branch_calls::whatif_colour_branch_with_upper(
        plan,
        branch,
        node_table,
        colour_numbers,
        colour_bytes,
        upper,
        lower,
        state,
        yes,
        drops,
        links,
    )
}
