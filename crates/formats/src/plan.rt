// Plans: checks 2 to 5.
ghost use Rattle.std.specs.Prelude.{◌≡◌, ◌≤◌, length, drop};
ghost use Rattle.trees.specs.Postorder.{is_postorder, is_single, waiting as trees_waiting};
ghost use Rattle.formats.specs.Checks.{first_no, plan_checks};
ghost use Rattle.formats.specs.Refusals.{answer_number};

use crate::bytes::read32;
use crate::eight::{are_kinds, eight_kinds, sums_so_far, trees_suffice};
use crate::layout::PLAN_HEAD;
use crate::limits::NODE_LIMIT;
use crate::refusals::Refusal;

// The same of the kinds from `from` on, where `waiting` trees wait before them.
// A leaf is one tree more and an inner node one less; after either at least one waits. The count starts at the number of kinds, so
// that it never falls below 0. There is no branch on a kind and no early exit.
fn rest_in_postorder(kinds: &[u8], from: usize, waiting: usize) -> bool
    requires { (from ≤ length kinds.now) × (waiting ≤ from) }
    ensures { result ≡ is_single (trees_waiting (drop from kinds.now) waiting) }
{
    let none = kinds.len();
    let mut trees = none + waiting;
    let mut ok = true;
    for kind in &kinds[from..] {
        let k = *kind as usize;
        trees = trees + 1 - 2 * (k % 2);
        ok = ok & (k < 2) & (none < trees);
    }
    ok & (trees == none + 1)
}

// Whether kinds are 0 or 1, two trees wait at each inner node and one at the end: eight kinds at a time, then the rest.
pub fn is_postorder(kinds: &[u8]) -> bool
    ensures { result ≡ is_postorder kinds.now }
{
    let mut waiting = 0;
    for block in 0..kinds.len() / 8 {
        let word = eight_kinds(kinds, 8 * block);
        if !are_kinds(word) {
            return false;
        }
        let twice = sums_so_far(2 * word);
        if !trees_suffice(twice, waiting) {
            return false;
        }
        waiting = waiting + 8 - (twice >> 56);
    }
    rest_in_postorder(kinds, kinds.len() - kinds.len() % 8, waiting)
}

// Checks 2 to 5. The kinds are the rest of the plan, where its length is exact.
pub fn check_plan(plan: &[u8]) -> Result<(), Refusal>
    ensures { answer_number result ≡ first_no (plan_checks plan.now) }
{
    if plan.len() < PLAN_HEAD {
        return Err(Refusal::PlanShort);
    }
    let n = read32(plan, 0);
    if n < 1 {
        return Err(Refusal::NodeCount);
    }
    if NODE_LIMIT < n {
        return Err(Refusal::NodeCount);
    }
    if read32(plan, 4) != PLAN_HEAD {
        return Err(Refusal::PlanLayout);
    }
    if read32(plan, 8) != PLAN_HEAD + n {
        return Err(Refusal::PlanLayout);
    }
    if plan.len() != PLAN_HEAD + 2 * n {
        return Err(Refusal::PlanLayout);
    }
    if !is_postorder(&plan[PLAN_HEAD + n..]) {
        return Err(Refusal::PlanTree);
    }
    Ok(())
}
