// Lists of changes: checks 12 to 14; and 15, which a count of choices alone asks (S-10).
ghost use Rattle.std.specs.Prelude.{◌≡◌};
ghost use Rattle.list_laws.specs.Tests.{all_below, holds, distinct};
ghost use Rattle.formats.specs.Checks.{first_no, list_checks};
ghost use Rattle.formats.specs.Refusals.{answer_number};
ghost use Rattle.formats.specs.inner.InnerChecks.{lists_fit};

use crate::limits::CHANGE_LIMIT;
use crate::refusals::Refusal;
use crate::rules::all_below;

// Check 12: both lists of one length, at most the limit.
pub fn lists_fit(nodes: &[u16], labels: &[u8]) -> bool
    ensures { result ≡ lists_fit nodes.now labels.now }
{
    if nodes.len() != labels.len() {
        return false;
    }
    nodes.len() <= CHANGE_LIMIT
}

// Check 13: every node below N.
pub fn nodes_below(nodes: &[u16], n: usize) -> bool
    ensures { result ≡ all_below n nodes.now }
{
    let mut ok = true;
    for v in nodes {
        ok = ok & ((*v as usize) < n);
    }
    ok
}

// Check 14: every label below K. Every byte is below a K above 255.
pub fn labels_below(labels: &[u8], k: usize) -> bool
    ensures { result ≡ all_below k labels.now }
{
    if 255 < k {
        return true;
    }
    all_below(labels, k as u8)
}

// Whether v is among the nodes.
pub fn is_listed(v: u16, nodes: &[u16]) -> bool
    ensures { result ≡ holds v nodes.now }
{
    let mut found = false;
    for u in nodes {
        found = found | (v == *u);
    }
    found
}

// Check 15: no node twice. A count asks it (S-10), check_list does not (S-4).
pub fn all_distinct(nodes: &[u16]) -> bool
    ensures { result ≡ distinct nodes.now }
{
    for (i, v) in nodes.iter().enumerate() {
        if is_listed(*v, &nodes[i + 1..]) {
            return false;
        }
    }
    true
}

// Checks 12 to 14 for a plan of n nodes and a table of k labels.
pub fn check_list(n: usize, k: usize, nodes: &[u16], labels: &[u8]) -> Result<(), Refusal>
    ensures { answer_number result ≡ first_no (list_checks n k nodes.now labels.now) }
{
    if !lists_fit(nodes, labels) {
        return Err(Refusal::ListLength);
    }
    if !nodes_below(nodes, n) {
        return Err(Refusal::Node);
    }
    if !labels_below(labels, k) {
        return Err(Refusal::Label);
    }
    Ok(())
}
