// The checks 19 to 21 of a planner's file that goes out.
ghost use Rattle.std.specs.Prelude.{◌≡◌};
ghost use Rattle.formats.specs.Checks.{first_no};
ghost use Rattle.formats.specs.Refusals.{answer_number};
ghost use Rattle.planner.specs.File.{is_preorder, well_formed, out_room, out_checks};

use crate::{EMPTY_LABEL, FILE_LIMIT};
use formats::bytes::read32;
use formats::layout::PLAN_HEAD;
use formats::refusals::Refusal;
use formats::rules::all_below;

// Whether these are the child counts of one tree in pre-order. As many nodes may wait as there are still counts to
// read, at most.
fn is_preorder(counts: &[u8]) -> bool
    ensures { result ≡ is_preorder counts.now }
{
    let mut wait: usize = 1;
    for (i, count) in counts.iter().enumerate() {
        if wait < 1 {
            return false;
        }
        if counts.len() - i < wait {
            return false;
        }
        wait = wait - 1 + *count as usize;
    }
    wait == 0
}

// Check 19: header, length and counts.
fn well_formed(file: &[u8]) -> bool
    ensures { result ≡ well_formed file.now }
{
    if file.len() < PLAN_HEAD {
        return false;
    }
    let n = read32(file, 0);
    if n < 1 {
        return false;
    }
    if file.len() - PLAN_HEAD < n {
        return false;
    }
    if read32(file, 4) != PLAN_HEAD {
        return false;
    }
    if read32(file, 8) != PLAN_HEAD + n {
        return false;
    }
    if file.len() != PLAN_HEAD + 2 * n {
        return false;
    }
    is_preorder(&file[PLAN_HEAD + n..])
}

// Check 21: n in its limit, and both outputs, of these lengths, long enough.
fn room_fits(n: usize, plan: usize, places: usize) -> bool
    ensures { result ≡ out_room n plan places }
{
    if FILE_LIMIT < n {
        return false;
    }
    if plan < PLAN_HEAD + 2 * (2 * n + 1) {
        return false;
    }
    n <= places
}

// The checks 19, 20 and 21, in this order.
pub fn check_out(file: &[u8], plan: usize, places: usize) -> Result<(), Refusal>
    ensures { answer_number result ≡ first_no (out_checks file.now plan places) }
{
    if !well_formed(file) {
        return Err(Refusal::PlannerFile);
    }
    let n = read32(file, 0);
    if !all_below(&file[PLAN_HEAD..PLAN_HEAD + n], EMPTY_LABEL) {
        return Err(Refusal::PlannerLabel);
    }
    if !room_fits(n, plan, places) {
        return Err(Refusal::PlannerRoom);
    }
    Ok(())
}
