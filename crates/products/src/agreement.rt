// Whether two rule tables agree (document 02, S-13), by value.
//     Agreement   the reply
//     agree       the call
// When two rule tables agree and what the lines mean is defined in specs/agreement; the search is in reachable.
pub mod reachable;

ghost use Rattle.std.specs.Prelude.{◌≡◌};
ghost use Rattle.products.specs.agreement.reachable.SearchRecord.{lines_to};
ghost use Rattle.products.specs.agreement.Reply.{reply_of, shown_reply, FrontArgs, Front, CutArgs, AnswerArgs, AgreeDone};

use crate::agreement::reachable::{
    PAIR_LIMIT, Search, empty_search, first_differing, over_leaves, searched,
};
use formats::bytes::read32;
use formats::layout::{LABEL_COUNT_AT, RULES_HEAD};
use formats::refusals::Refusal;
use formats::rules::{check_rule_bytes, inner_count};

// How many lines are shown, 0 where the tables agree; the lines. Line i is a leaf (kind 0) with label labels[i], or an inner node
// (kind 1) over the earlier lines lefts[i] and rights[i]; the last line is the root. What no line uses is 0.
#[derive(Clone, Copy)]
pub struct Agreement {
    pub count: usize,
    pub kinds: [u8; PAIR_LIMIT],
    pub labels: [u8; PAIR_LIMIT],
    pub lefts: [u8; PAIR_LIMIT],
    pub rights: [u8; PAIR_LIMIT],
}

// The first n entries, then zeros.
fn front(a: &[u8; PAIR_LIMIT], n: usize) -> [u8; PAIR_LIMIT]
    requires { FrontArgs a.now n }
    ensures { Front n a.now result }
{
    let mut r = [0u8; PAIR_LIMIT];
    r[..n].copy_from_slice(&a[..n]);
    r
}

// The first n lines that were found.
fn cut(t: &Search, s1: usize, s2: usize, n: usize) -> Agreement
    requires { CutArgs s1 s2 t.now n }
    ensures { result ≡ reply_of (lines_to t.now n) }
{
    Agreement {
        count: n,
        kinds: front(&t.kinds, n),
        labels: front(&t.labels, n),
        lefts: front(&t.lefts, n),
        rights: front(&t.rights, n),
    }
}

// The reply for two tables that pass their checks.
fn answered(first: &[u8], second: &[u8], s1: usize, s2: usize, k: usize) -> Agreement
    requires { AnswerArgs first.now second.now s1 s2 k }
    ensures { result ≡ reply_of (shown_reply first.now second.now) }
{
    let i = RULES_HEAD + k;
    let m1 = i + inner_count(s1, k);
    let m2 = i + inner_count(s2, k);
    let e = empty_search();
    let l = over_leaves(&first[RULES_HEAD..i], &second[RULES_HEAD..i], s1, s2, k, e);
    let t = searched(
        &first[i..m1],
        &second[i..m2],
        &first[m1..],
        &second[m2..],
        s1,
        s2,
        k,
        l,
    );
    let n = first_differing(&first[m1..], &second[m2..], s2, t, 0);
    cut(&t, s1, s2, n)
}

// Whether two rule tables agree: 6 to 9 for each in turn, then 23.
pub fn agree(first: &[u8], second: &[u8]) -> Result<Agreement, Refusal>
    ensures { AgreeDone first.now second.now result }
{
    check_rule_bytes(first)?;
    check_rule_bytes(second)?;
    let k = read32(first, LABEL_COUNT_AT);
    if read32(second, LABEL_COUNT_AT) != k {
        return Err(Refusal::LabelCounts);
    }
    Ok(answered(first, second, read32(first, 0), read32(second, 0), k))
}
