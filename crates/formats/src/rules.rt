// Rule tables: checks 6 to 9, and the lookup of a rule.
ghost use Rattle.std.specs.Prelude.{◌≡◌, ◌+◌, ◌*◌, get_or};
ghost use Rattle.list_laws.specs.Tests.{all_below};
ghost use Rattle.formats.specs.Checks.{first_no, rule_checks};
ghost use Rattle.formats.specs.Refusals.{answer_number};
ghost use Rattle.formats.specs.inner.InnerChecks.{Counts, Headed, RuleSized, RuleArgs, Product, counts_fit, rule_shape, rule_values};

use crate::bytes::read32;
use crate::layout::{LABEL_COUNT_AT, RULES_HEAD};
use crate::limits::{LABEL_LIMIT, STATE_LIMIT};
use crate::refusals::Refusal;

// Whether every byte is below the bound. There is no early exit: the loop can be done many bytes at a time.
pub fn all_below(xs: &[u8], bound: u8) -> bool
    ensures { result ≡ all_below bound xs.now }
{
    let mut ok = true;
    for x in xs {
        ok = ok & (*x < bound);
    }
    ok
}

// Check 7: S and K in their limits.
pub fn counts_fit(s: usize, k: usize) -> bool
    ensures { result ≡ counts_fit s k }
{
    if s < 1 {
        return false;
    }
    if STATE_LIMIT < s {
        return false;
    }
    if k < 1 {
        return false;
    }
    k <= LABEL_LIMIT
}

// How many inner states a rule table has.
pub fn inner_count(s: usize, k: usize) -> usize
    requires { Counts s k }
    ensures { Product (s * k * s) 16384 result }
{
    s * k * s
}

// The state for left state p, label a and right state q.
pub fn rule(inner: &[u8], s: usize, k: usize, p: usize, a: usize, q: usize) -> u8
    requires { RuleArgs inner.now s k p a q }
    ensures { result ≡ get_or inner.now ((p * k + a) * s + q) 0 }
{
    inner[(p * k + a) * s + q]
}

// Check 8: the three offsets and the length.
fn rule_shape(rules: &[u8], s: usize, k: usize) -> bool
    requires { Headed rules.now 20 s k }
    ensures { result ≡ rule_shape rules.now s k }
{
    let marks = RULES_HEAD + k + inner_count(s, k);
    if read32(rules, 8) != RULES_HEAD {
        return false;
    }
    if read32(rules, 12) != RULES_HEAD + k {
        return false;
    }
    if read32(rules, 16) != marks {
        return false;
    }
    rules.len() == marks + s
}

// Check 9: every state below S, every mark 0 or 1.
fn rule_values(rules: &[u8], s: usize, k: usize) -> bool
    requires { RuleSized rules.now s k }
    ensures { result ≡ rule_values rules.now s k }
{
    let marks = RULES_HEAD + k + inner_count(s, k);
    if !all_below(&rules[RULES_HEAD..RULES_HEAD + k], s as u8) {
        return false;
    }
    if !all_below(&rules[RULES_HEAD + k..marks], s as u8) {
        return false;
    }
    all_below(&rules[marks..], 2)
}

// Checks 6 to 9. No product of S and K is made before check 7 has passed.
pub fn check_rule_bytes(rules: &[u8]) -> Result<(), Refusal>
    ensures { answer_number result ≡ first_no (rule_checks rules.now) }
{
    if rules.len() < RULES_HEAD {
        return Err(Refusal::TableShort);
    }
    let s = read32(rules, 0);
    let k = read32(rules, LABEL_COUNT_AT);
    if !counts_fit(s, k) {
        return Err(Refusal::TableCounts);
    }
    if !rule_shape(rules, s, k) {
        return Err(Refusal::TableLayout);
    }
    if !rule_values(rules, s, k) {
        return Err(Refusal::TableEntry);
    }
    Ok(())
}
