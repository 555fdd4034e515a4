// The calls of branch questions by colours: the build of the tables of colours, and the question in its two readings.
ghost use Rattle.std.specs.Prelude.{length};
ghost use Rattle.formats.specs.Checks.{first_no};
ghost use Rattle.colour_tables.specs.branch.Build.{branch_colour_checks, built_colour_numbers, built_copies};
ghost use Rattle.branches.specs.declared.answers.Reading.TheVariants.{WithUpper, BelowUpper};
ghost use Rattle.capi.specs.numbers.Numbers.{BuildExported};
ghost use Rattle.capi_colours.specs.branch_calls.DescentExported.{DescentNumber, DescentExported};

use capi::numbers::{bit, number};
use colour_questions::branch::answers::ColourAsked;
use colour_questions::branch::ask::{ask_colours, ask_colours_with_upper};
use colour_tables::branch::build::build_branch_colours;
use formats::refusals::Refusal;

// Builds the tables of colours of a plan for a branch table.
pub fn whatif_colour_branch_build(
    plan: &[u8],
    branch: &[u8],
    colour_numbers: &mut [u16],
    colour_bytes: &mut [u8],
) -> u32
    ensures { BuildExported
        (first_no (branch_colour_checks plan.now branch.now (length colour_numbers.old)
        (length colour_bytes.old)))
        (built_colour_numbers plan.now branch.now)
        (built_copies plan.now branch.now)
        colour_numbers.old colour_bytes.old result colour_numbers.new
        colour_bytes.new }
{
    let answer = build_branch_colours(plan, branch, colour_numbers, colour_bytes);
    number(answer)
}

// The number of a branch question's answer by colours; its state, whether it is marked, its drops and its links go to
// `state`, `yes`, `drops` and `links`.
fn descent_number(
    answer: Result<ColourAsked, Refusal>,
    state: &mut u32,
    yes: &mut u32,
    drops: &mut u32,
    links: &mut u32,
) -> u32
    ensures { DescentNumber answer state.old yes.old drops.old links.old
        result state.new yes.new drops.new links.new }
{
    match answer {
        Ok(asked) => {
            *state = asked.state as u32;
            *yes = bit(asked.marked);
            *drops = asked.drops;
            *links = asked.links;
            0
        }
        Err(refusal) => refusal.number() as u32,
    }
}

// The branch question by colours: the word from below node `upper` down to node `lower`.
pub fn whatif_colour_branch(
    plan: &[u8],
    branch: &[u8],
    node_table: &[u16],
    colour_numbers: &[u16],
    colour_bytes: &[u8],
    upper: u32,
    lower: u32,
    state: &mut u32,
    yes: &mut u32,
    drops: &mut u32,
    links: &mut u32,
) -> u32
    ensures { DescentExported BelowUpper plan.now branch.now node_table.now
        colour_numbers.now colour_bytes.now upper lower
        result state.old yes.old drops.old links.old
        state.new yes.new drops.new links.new }
{
    let answer = ask_colours(
        plan,
        branch,
        node_table,
        colour_numbers,
        colour_bytes,
        upper,
        lower,
    );
    descent_number(answer, state, yes, drops, links)
}

// The same with the upper node's label: the word from node `upper` down to node `lower`, both included.
pub fn whatif_colour_branch_with_upper(
    plan: &[u8],
    branch: &[u8],
    node_table: &[u16],
    colour_numbers: &[u16],
    colour_bytes: &[u8],
    upper: u32,
    lower: u32,
    state: &mut u32,
    yes: &mut u32,
    drops: &mut u32,
    links: &mut u32,
) -> u32
    ensures { DescentExported WithUpper plan.now branch.now node_table.now
        colour_numbers.now colour_bytes.now upper lower
        result state.old yes.old drops.old links.old
        state.new yes.new drops.new links.new }
{
    let answer = ask_colours_with_upper(
        plan,
        branch,
        node_table,
        colour_numbers,
        colour_bytes,
        upper,
        lower,
    );
    descent_number(answer, state, yes, drops, links)
}
