// The checks of a rule question by colours before the last: 17, 27, 12, 13 and 14.
ghost use Rattle.std.specs.Prelude.{◌≡◌};
ghost use Rattle.formats.specs.Checks.{first_no};
ghost use Rattle.formats.specs.Refusals.{answer_number};
ghost use Rattle.colour_questions.specs.rule.Question.{rule_colours_fit, asked_checks};

use colour_tables::rule::build::set_colours_fit;
use formats::buffers::{headers_fit, rule_buffers_fit};
use formats::bytes::read32;
use formats::layout::{LABEL_COUNT_AT, RULES_HEAD};
use formats::lists::check_list;
use formats::refusals::Refusal;

// Check 17: N, S and K are those of the headers; the last four are lengths. Where S is above 4 those of the colours'
// tables are not checked.
fn tables_fit(
    plan: &[u8],
    rules: &[u8],
    node_table: usize,
    state_table: usize,
    numbers: usize,
    bytes: usize,
) -> bool
    ensures { result ≡ rule_colours_fit plan.now rules.now node_table state_table numbers
        bytes }
{
    if !headers_fit(plan, rules, RULES_HEAD) {
        return false;
    }
    let n = read32(plan, 0);
    let s = read32(rules, 0);
    let k = read32(rules, LABEL_COUNT_AT);
    if !rule_buffers_fit(n, s, k, plan.len(), rules.len(), node_table, state_table) {
        return false;
    }
    if 4 < s {
        return true;
    }
    set_colours_fit(n, s, numbers, bytes)
}

// The first of 17, 27, 12, 13 and 14 that fails. The four numbers are lengths.
pub fn check_asked(
    plan: &[u8],
    rules: &[u8],
    node_table: usize,
    state_table: usize,
    numbers: usize,
    bytes: usize,
    nodes: &[u16],
    labels: &[u8],
) -> Result<(), Refusal>
    ensures { answer_number result ≡ first_no (asked_checks plan.now rules.now node_table state_table
        numbers
        bytes nodes.now labels.now) }
{
    if !tables_fit(plan, rules, node_table, state_table, numbers, bytes) {
        return Err(Refusal::LentLength);
    }
    let n = read32(plan, 0);
    let s = read32(rules, 0);
    let k = read32(rules, LABEL_COUNT_AT);
    if 4 < s {
        return Err(Refusal::ColourStates);
    }
    check_list(n, k, nodes, labels)
}
