// Branch tables: checks 6 to 9.
ghost use Rattle.std.specs.Prelude.{◌≡◌, ◌*◌};
ghost use Rattle.formats.specs.Checks.{first_no, branch_checks};
ghost use Rattle.formats.specs.Refusals.{answer_number};
ghost use Rattle.formats.specs.inner.InnerChecks.{Counts, Headed, BranchSized, Product, branch_shape, branch_values};

use crate::bytes::read32;
use crate::layout::{BRANCH_HEAD, LABEL_COUNT_AT};
use crate::refusals::Refusal;
use crate::rules::{all_below, counts_fit};

// How many steps a branch table has.
pub fn step_count(s: usize, k: usize) -> usize
    requires { Counts s k }
    ensures { Product (s * k) 1024 result }
{
    s * k
}

// Check 8: the two offsets and the length.
fn branch_shape(branch: &[u8], s: usize, k: usize) -> bool
    requires { Headed branch.now 16 s k }
    ensures { result ≡ branch_shape branch.now s k }
{
    let marks = BRANCH_HEAD + step_count(s, k);
    if read32(branch, 8) != BRANCH_HEAD {
        return false;
    }
    if read32(branch, 12) != marks {
        return false;
    }
    branch.len() == marks + s
}

// Check 9: every state below S, every mark 0 or 1.
fn branch_values(branch: &[u8], s: usize, k: usize) -> bool
    requires { BranchSized branch.now s k }
    ensures { result ≡ branch_values branch.now s k }
{
    let marks = BRANCH_HEAD + step_count(s, k);
    if !all_below(&branch[BRANCH_HEAD..marks], s as u8) {
        return false;
    }
    all_below(&branch[marks..], 2)
}

// Checks 6 to 9. No product of S and K is made before check 7 has passed.
pub fn check_branch_bytes(branch: &[u8]) -> Result<(), Refusal>
    ensures { answer_number result ≡ first_no (branch_checks branch.now) }
{
    if branch.len() < BRANCH_HEAD {
        return Err(Refusal::TableShort);
    }
    let s = read32(branch, 0);
    let k = read32(branch, LABEL_COUNT_AT);
    if !counts_fit(s, k) {
        return Err(Refusal::TableCounts);
    }
    if !branch_shape(branch, s, k) {
        return Err(Refusal::TableLayout);
    }
    if !branch_values(branch, s, k) {
        return Err(Refusal::TableEntry);
    }
    Ok(())
}
