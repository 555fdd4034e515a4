// The tables of colours of a plan and a rule table: the tables of a Load, then in one pass the sets of the colours and
// each colour's own table.
ghost use Rattle.std.specs.Prelude.{length};
ghost use Rattle.colour_tables.specs.rule.inner.Filled.{SetFillArgs, AllFilled, PartArgs, SetColoursWritten};

use crate::set_states::sets::{set_count, write_sets};
use formats::layout::{PLAN_HEAD, RULES_HEAD};
use formats::rules::inner_count;
use tables::build::write_tables;

// The sets and the colours' tables, where the buffers already begin with the node table and the state table.
fn fill_set_colours(
    labels: &[u8],
    inner: &[u8],
    s: usize,
    k: usize,
    numbers: &mut [u16],
    bytes: &mut [u8],
)
    requires { SetFillArgs labels.now inner.now s k numbers.old bytes.old }
    ensures { AllFilled labels.now inner.now s k numbers.old
        bytes.old numbers.new bytes.new }
{
    let n = labels.len();
    let count = set_count(s);
    let base = n * (s + 1);
    write_sets(labels, inner, s, k, count, base, numbers, bytes);
}

// Writes both buffers, once all checks have passed. The excess of a longer buffer is untouched.
pub fn write_rule_colours(
    plan: &[u8],
    rules: &[u8],
    n: usize,
    s: usize,
    k: usize,
    numbers: &mut [u16],
    bytes: &mut [u8],
)
    requires { PartArgs plan.now rules.now n s k (length numbers.old) (length bytes.old) }
    ensures { SetColoursWritten plan.now rules.now numbers.old
        bytes.old numbers.new bytes.new }
{
    write_tables(plan, rules, n, s, k, numbers, bytes);
    let end = RULES_HEAD + k + inner_count(s, k);
    fill_set_colours(
        &plan[PLAN_HEAD..PLAN_HEAD + n],
        &rules[RULES_HEAD + k..end],
        s,
        k,
        numbers,
        bytes,
    );
}
