// The build of the tables of colours for a rule table of at most four states.
ghost use Rattle.std.specs.Prelude.{◌≡◌, length};
ghost use Rattle.formats.specs.Checks.{first_no};
ghost use Rattle.formats.specs.Refusals.{answer_number};
ghost use Rattle.tables.specs.Answers.{BuildDone};
ghost use Rattle.colour_tables.specs.rule.Build.{set_colours_fit, rule_colour_checks, built_set_numbers, built_set_bytes};
ghost use Rattle.colour_tables.specs.rule.inner.Filled.{SetSizes};

use crate::rule::fill::write_rule_colours;
use crate::set_states::sets::set_count;
use formats::bytes::read32;
use formats::layout::{LABEL_COUNT_AT, NODE_COLUMNS, PLAN_HEAD};
use formats::plan::check_plan;
use formats::refusals::Refusal;
use formats::rules::{all_below, check_rule_bytes};

// Check 11: both buffers long enough for n nodes and s states.
pub fn set_colours_fit(n: usize, s: usize, numbers: usize, bytes: usize) -> bool
    requires { SetSizes n s }
    ensures { result ≡ set_colours_fit n s numbers bytes }
{
    let count = set_count(s);
    if numbers < count * (n * NODE_COLUMNS) {
        return false;
    }
    n * (s + 1) + n * count <= bytes
}

// Checks 2 to 9, 27, 10 and 11. The last two are the lengths of the buffers.
fn check_rule_colours(
    plan: &[u8],
    rules: &[u8],
    numbers: usize,
    bytes: usize,
) -> Result<(), Refusal>
    ensures { answer_number result ≡ first_no (rule_colour_checks plan.now rules.now numbers bytes) }
{
    check_plan(plan)?;
    check_rule_bytes(rules)?;
    let n = read32(plan, 0);
    let s = read32(rules, 0);
    let k = read32(rules, LABEL_COUNT_AT);
    if 4 < s {
        return Err(Refusal::ColourStates);
    }
    if !all_below(&plan[PLAN_HEAD..PLAN_HEAD + n], k as u8) {
        return Err(Refusal::PlanLabel);
    }
    if !set_colours_fit(n, s, numbers, bytes) {
        return Err(Refusal::BufferShort);
    }
    Ok(())
}

// Writes the tables of colours of a plan and a rule table, or refuses, by the first check of 2 to 9, 27, 10 and 11
// that fails, and alters nothing.
pub fn build_rule_colours(
    plan: &[u8],
    rules: &[u8],
    numbers: &mut [u16],
    bytes: &mut [u8],
) -> Result<(), Refusal>
    ensures { BuildDone
        (first_no (rule_colour_checks plan.now rules.now (length numbers.old)
        (length bytes.old)))
        (built_set_numbers plan.now rules.now)
        (built_set_bytes plan.now rules.now)
        numbers.old bytes.old result numbers.new bytes.new }
{
    check_rule_colours(plan, rules, numbers.len(), bytes.len())?;
    let n = read32(plan, 0);
    let s = read32(rules, 0);
    let k = read32(rules, LABEL_COUNT_AT);
    write_rule_colours(plan, rules, n, s, k, numbers, bytes);
    Ok(())
}
