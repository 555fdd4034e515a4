// The build of the tables of colours for a rule table.
ghost use Rattle.std.specs.Prelude.{length};
ghost use Rattle.formats.specs.Checks.{first_no};
ghost use Rattle.colour_tables.specs.rule.Build.{rule_colour_checks, built_set_numbers, built_set_bytes};
ghost use Rattle.capi.specs.numbers.Numbers.{BuildExported};

use capi::numbers::number;
use colour_tables::rule::build::build_rule_colours;

// Builds the tables of colours of a plan for a rule table.
pub fn whatif_colour_build(
    plan: &[u8],
    rules: &[u8],
    colour_numbers: &mut [u16],
    colour_bytes: &mut [u8],
) -> u32
    ensures { BuildExported
        (first_no (rule_colour_checks plan.now rules.now (length colour_numbers.old)
        (length colour_bytes.old)))
        (built_set_numbers plan.now rules.now)
        (built_set_bytes plan.now rules.now)
        colour_numbers.old colour_bytes.old result colour_numbers.new
        colour_bytes.new }
{
    let answer = build_rule_colours(plan, rules, colour_numbers, colour_bytes);
    number(answer)
}
