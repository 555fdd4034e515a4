// The checks of a whole question before the last: 17, 12, 13 and 14.
ghost use Rattle.std.specs.Prelude.{◌≡◌};
ghost use Rattle.formats.specs.Checks.{first_no};
ghost use Rattle.formats.specs.Refusals.{answer_number};
ghost use Rattle.whole_questions.specs.Question.{listed_checks};

use formats::buffers::{headers_fit, rule_buffers_fit};
use formats::bytes::read32;
use formats::lists::check_list;
use formats::refusals::Refusal;

// The first of 17, 12, 13 and 14 that fails. N, S and K are those of the headers; the two numbers are
// the lengths of the tables.
pub fn check_asked(
    plan: &[u8],
    rules: &[u8],
    node_table: usize,
    state_table: usize,
    nodes: &[u16],
    labels: &[u8],
) -> Result<(), Refusal>
    ensures { answer_number result ≡ first_no (listed_checks plan.now rules.now node_table state_table
        nodes.now labels.now) }
{
    if !headers_fit(plan, rules, 20) {
        return Err(Refusal::LentLength);
    }
    let n = read32(plan, 0);
    let s = read32(rules, 0);
    let k = read32(rules, 4);
    if !rule_buffers_fit(n, s, k, plan.len(), rules.len(), node_table, state_table) {
        return Err(Refusal::LentLength);
    }
    check_list(n, k, nodes, labels)
}
