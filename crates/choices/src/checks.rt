// The checks of a count before the last: 17, 12, 13, 15 and 26.
ghost use Rattle.std.specs.Prelude.{◌≡◌, length};
ghost use Rattle.formats.specs.Checks.{first_no};
ghost use Rattle.formats.specs.Refusals.{answer_number};
ghost use Rattle.formats.specs.Buffers.{headed_buffers_fit, rule_tables};
ghost use Rattle.choices.specs.question_counts.CountOn.{listed_checks};

use crate::part_steps::limit::assignments_fit;
use formats::buffers::{headers_fit, rule_buffers_fit};
use formats::bytes::read32;
use formats::layout::{LABEL_COUNT_AT, RULES_HEAD};
use formats::limits::CHANGE_LIMIT;
use formats::lists::{all_distinct, nodes_below};
use formats::refusals::Refusal;

// Check 17 of a rule table, where N, S and K are those of the headers.
pub fn rule_headers_fit(plan: &[u8], rules: &[u8], node_table: &[u16], state_table: &[u8]) -> bool
    ensures { result
        ≡ headed_buffers_fit rule_tables plan.now rules.now (length node_table.now)
        (length state_table.now) }
{
    if !headers_fit(plan, rules, RULES_HEAD) {
        return false;
    }
    let n = read32(plan, 0);
    let s = read32(rules, 0);
    let k = read32(rules, LABEL_COUNT_AT);
    rule_buffers_fit(
        n,
        s,
        k,
        plan.len(),
        rules.len(),
        node_table.len(),
        state_table.len(),
    )
}

// Checks 17, 12, 13, 15 and 26.
pub fn check_count(
    plan: &[u8],
    rules: &[u8],
    node_table: &[u16],
    state_table: &[u8],
    nodes: &[u16],
) -> Result<(), Refusal>
    ensures { answer_number result ≡ first_no (listed_checks plan.now rules.now
        (length node_table.now) (length state_table.now) nodes.now) }
{
    if !rule_headers_fit(plan, rules, node_table, state_table) {
        return Err(Refusal::LentLength);
    }
    if CHANGE_LIMIT < nodes.len() {
        return Err(Refusal::ListLength);
    }
    if !nodes_below(nodes, read32(plan, 0)) {
        return Err(Refusal::Node);
    }
    if !all_distinct(nodes) {
        return Err(Refusal::NodeTwice);
    }
    if !assignments_fit(read32(rules, LABEL_COUNT_AT) as u64, nodes.len()) {
        return Err(Refusal::Assignments);
    }
    Ok(())
}
