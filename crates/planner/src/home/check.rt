// The checks 19 and 21 of a plan that goes home.
ghost use Rattle.std.specs.Prelude.{◌≡◌, ◌<◌, length};
ghost use Rattle.formats.specs.Checks.{first_no};
ghost use Rattle.formats.specs.Refusals.{answer_number};
ghost use Rattle.planner.specs.File.{comes_from_file, home_checks};
ghost use Rattle.planner.specs.inner.ImageTests.{label_fits, labels_fit, all_runs_fit, one_top};
ghost use Rattle.planner.specs.home.inner.Runs.{run_after};

use crate::EMPTY_LABEL;
use formats::bytes::read32;
use formats::layout::PLAN_HEAD;
use formats::plan::check_plan;
use formats::refusals::Refusal;

// Label 63 at a leaf, a label below 63 at an inner node.
fn label_fits(label: u8, kind: u8) -> bool
    ensures { result ≡ label_fits label kind }
{
    if kind == 0 {
        return label == EMPTY_LABEL;
    }
    label < EMPTY_LABEL
}

// The same for all nodes.
fn labels_fit(labels: &[u8], kinds: &[u8]) -> bool
    requires { length labels.now ≡ length kinds.now }
    ensures { result ≡ labels_fit labels.now kinds.now }
{
    for (i, label) in labels.iter().enumerate() {
        if !label_fits(*label, kinds[i]) {
            return false;
        }
    }
    true
}

// How many inner nodes are in a row, after one node more.
fn run_after(kind: u8, run: usize) -> usize
    requires { run < 256 }
    ensures { result ≡ run_after kind run }
{
    if kind == 0 {
        return 0;
    }
    run + 1
}

// No 256 inner nodes in a row: no list of siblings has more than 255.
fn runs_fit(kinds: &[u8]) -> bool
    ensures { result ≡ all_runs_fit 256 kinds.now 0 }
{
    let mut run: usize = 0;
    for kind in kinds {
        run = run_after(*kind, run);
        if 255 < run {
            return false;
        }
    }
    true
}

// One tree at the top: the node before the last is a leaf.
fn one_top(kinds: &[u8]) -> bool
    ensures { result ≡ one_top kinds.now }
{
    if kinds.len() < 2 {
        return false;
    }
    kinds[kinds.len() - 2] == 0
}

// Check 19: a plan, and of a planner's file.
fn comes_from_file(plan: &[u8]) -> bool
    ensures { result ≡ comes_from_file plan.now }
{
    if check_plan(plan).is_err() {
        return false;
    }
    let n = read32(plan, 0);
    if !labels_fit(&plan[PLAN_HEAD..PLAN_HEAD + n], &plan[PLAN_HEAD + n..]) {
        return false;
    }
    if !one_top(&plan[PLAN_HEAD + n..]) {
        return false;
    }
    runs_fit(&plan[PLAN_HEAD + n..])
}

// The checks 19 and 21, in this order: N nodes are a file of (N - 1) / 2 nodes.
pub fn check_home(plan: &[u8], file: usize) -> Result<(), Refusal>
    ensures { answer_number result ≡ first_no (home_checks plan.now file) }
{
    if !comes_from_file(plan) {
        return Err(Refusal::PlannerFile);
    }
    if file < 11 + read32(plan, 0) {
        return Err(Refusal::PlannerRoom);
    }
    Ok(())
}
