// The build of the tables of colours for a branch table.
ghost use Rattle.std.specs.Prelude.{◌≡◌, length};
ghost use Rattle.formats.specs.Checks.{first_no};
ghost use Rattle.formats.specs.Refusals.{answer_number};
ghost use Rattle.formats.specs.inner.InnerChecks.{Sizes};
ghost use Rattle.tables.specs.Answers.{BuildDone};
ghost use Rattle.colour_tables.specs.branch.Build.{colours_fit, branch_colour_checks, built_colour_numbers, built_copies};

use crate::branch::fill::write_branch_colours;
use formats::bytes::read32;
use formats::inputs::check_branch_inputs;
use formats::layout::{LABEL_COUNT_AT, NODE_COLUMNS};
use formats::refusals::Refusal;

// Check 11: both buffers long enough for n nodes and s colours.
pub fn colours_fit(n: usize, s: usize, numbers: usize, bytes: usize) -> bool
    requires { Sizes n s }
    ensures { result ≡ colours_fit n s numbers bytes }
{
    if numbers < s * (n * NODE_COLUMNS) {
        return false;
    }
    n * s <= bytes
}

// Checks 2 to 11. The last two are the lengths of the buffers.
fn check_branch_colours(
    plan: &[u8],
    branch: &[u8],
    numbers: usize,
    bytes: usize,
) -> Result<(), Refusal>
    ensures { answer_number result ≡ first_no (branch_colour_checks plan.now branch.now numbers bytes) }
{
    check_branch_inputs(plan, branch)?;
    let n = read32(plan, 0);
    let s = read32(branch, 0);
    if !colours_fit(n, s, numbers, bytes) {
        return Err(Refusal::BufferShort);
    }
    Ok(())
}

// Writes the tables of colours of a plan and a branch table, or refuses, by the first check of 2 to 11 that fails, and
// alters nothing.
pub fn build_branch_colours(
    plan: &[u8],
    branch: &[u8],
    numbers: &mut [u16],
    bytes: &mut [u8],
) -> Result<(), Refusal>
    ensures { BuildDone
        (first_no (branch_colour_checks plan.now branch.now (length numbers.old)
        (length bytes.old)))
        (built_colour_numbers plan.now branch.now)
        (built_copies plan.now branch.now)
        numbers.old bytes.old result numbers.new bytes.new }
{
    check_branch_colours(plan, branch, numbers.len(), bytes.len())?;
    let n = read32(plan, 0);
    let s = read32(branch, 0);
    let k = read32(branch, LABEL_COUNT_AT);
    write_branch_colours(plan, branch, n, s, k, numbers, bytes);
    Ok(())
}
