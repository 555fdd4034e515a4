// The call: the fewest changes that clear a plan, or that make it no longer cleared, from plan and rules alone.
ghost use Rattle.std.specs.Prelude.{◌≡◌, length};
ghost use Rattle.formats.specs.Plan.{plan_tree};
ghost use Rattle.formats.specs.Rules.{state_count};
ghost use Rattle.formats.specs.Checks.{first_no};
ghost use Rattle.formats.specs.Refusals.{answer_number};
ghost use Rattle.formats.specs.inner.InnerChecks.{Sizes};
ghost use Rattle.allowed.specs.inner.Inputs.{CallArgs};
ghost use Rattle.fewest.specs.inner.list.Written.{FewestShown};
ghost use Rattle.fewest.specs.Answers.{wanted_mark, may_fits, fewest_room, fewest_checks, FewestTold};
ghost use Rattle.fewest.specs.inner.Marked.{PlanMarked};
ghost use Rattle.fewest.specs.inner.Parts.{parts_problem, PlanArgs};

use crate::list::shown::write_fewest;
use crate::run::root_mark;
use formats::bytes::read32;
use formats::inputs::check_rule_inputs;
use formats::layout::{LABEL_COUNT_AT, PLAN_HEAD, RULES_HEAD};
use formats::limits::CHANGE_LIMIT;
use formats::refusals::Refusal;
use formats::rules::inner_count;

// The mark that is wanted at the root: 0 for want 0, else 1.
fn wanted_mark(want: u32) -> u8
    ensures { result ≡ wanted_mark want }
{
    if want == 0 {
        return 0;
    }
    1
}

// Check 17: no sets of labels, or one for each of n nodes.
fn may_fits(m: usize, n: usize) -> bool
    ensures { result ≡ may_fits m n }
{
    if m == 0 {
        return true;
    }
    m == n
}

// Check 11: room for the rows of n nodes, and for 64 changes.
fn room_fits(n: usize, s: usize, work: usize, nodes: usize, labels: usize) -> bool
    requires { Sizes n s }
    ensures { result ≡ fewest_room n s work nodes labels }
{
    if work < n * (s + 1) {
        return false;
    }
    if nodes < CHANGE_LIMIT {
        return false;
    }
    CHANGE_LIMIT <= labels
}

// Checks 2 to 10, then 17, then 11.
#[inline(never)]
fn check_fewest(
    plan: &[u8],
    rules: &[u8],
    may: usize,
    work: usize,
    nodes: usize,
    labels: usize,
) -> Result<(), Refusal>
    ensures { answer_number result ≡ first_no (fewest_checks plan.now rules.now may work nodes labels) }
{
    check_rule_inputs(plan, rules)?;
    let n = read32(plan, 0);
    let s = read32(rules, 0);
    if !may_fits(may, n) {
        return Err(Refusal::LentLength);
    }
    if !room_fits(n, s, work, nodes, labels) {
        return Err(Refusal::BufferShort);
    }
    Ok(())
}

// The mark of the root's state in the run over the plan as it is, of a plan and rules that pass their checks. The first
// numbers of the work space are written, one for each node.
fn plan_mark(plan: &[u8], rules: &[u8], n: usize, s: usize, k: usize, work: &mut [u32]) -> u8
    requires { CallArgs plan.now rules.now n s k (length work.old) }
    ensures { PlanMarked plan.now rules.now work.old result work.new }
{
    let end = RULES_HEAD + k + inner_count(s, k);
    root_mark(
        &plan[PLAN_HEAD + n..],
        &plan[PLAN_HEAD..PLAN_HEAD + n],
        &rules[RULES_HEAD..RULES_HEAD + k],
        &rules[RULES_HEAD + k..end],
        &rules[end..],
        s,
        k,
        work,
    )
}

// The fewest changes of a plan and rules that pass their checks. Labels, kinds and states are handed on as parts.
fn write_plan(
    plan: &[u8],
    rules: &[u8],
    may: &[u64],
    n: usize,
    s: usize,
    k: usize,
    mark: u8,
    work: &mut [u32],
    nodes: &mut [u16],
    labels: &mut [u8],
    least: &mut u32,
) -> u32
    requires { PlanArgs plan.now rules.now may.now n s k (length work.old) (length nodes.old) (length labels.old) }
    ensures { FewestShown (parts_problem rules.now may.now mark) (plan_tree plan.now)
        (state_count rules.now) work.old nodes.old labels.old result work.new
        nodes.new labels.new least.new }
{
    let end = RULES_HEAD + k + inner_count(s, k);
    write_fewest(
        &plan[PLAN_HEAD + n..],
        &plan[PLAN_HEAD..PLAN_HEAD + n],
        &rules[RULES_HEAD..RULES_HEAD + k],
        &rules[RULES_HEAD + k..end],
        &rules[end..],
        may,
        s,
        k,
        mark,
        work,
        nodes,
        labels,
        least,
    )
}

// The least number of nodes that must be relabelled so that the plan is cleared (want 1) or no longer is (want 0), and
// the changes where they are at most 64. Where the plan is as wanted already, the run over it is the whole work. It
// asks 2 to 10, then 17, then 11; refused, nothing is written.
pub fn fewest_changes(
    plan: &[u8],
    rules: &[u8],
    may: &[u64],
    want: u32,
    work: &mut [u32],
    nodes: &mut [u16],
    labels: &mut [u8],
    least: &mut u32,
    count: &mut u32,
) -> Result<(), Refusal>
    ensures { FewestTold plan.now rules.now may.now want work.old nodes.old
        labels.old least.old count.old (answer_number result) work.new nodes.new
        labels.new least.new count.new }
{
    check_fewest(
        plan,
        rules,
        may.len(),
        work.len(),
        nodes.len(),
        labels.len(),
    )?;
    let n = read32(plan, 0);
    let s = read32(rules, 0);
    let k = read32(rules, LABEL_COUNT_AT);
    let mark = wanted_mark(want);
    if plan_mark(plan, rules, n, s, k, work) == mark {
        *least = 0;
        *count = 0;
        return Ok(());
    }
    let c = write_plan(plan, rules, may, n, s, k, mark, work, nodes, labels, least);
    *count = c;
    Ok(())
}
