ghost use Rattle.std.specs.Prelude.{◌≡◌};
ghost use Rattle.runs.specs.inner.Pass.{RunArgs};
ghost use Rattle.runs.specs.FreshRun.{verdict, FreshRunDone};

use crate::answer::Verdict;
use crate::pass::pass;
use formats::bytes::read32;
use formats::inputs::check_fresh_run;
use formats::layout::{LABEL_COUNT_AT, PLAN_HEAD, RULES_HEAD};
use formats::refusals::Refusal;

// The run over plan, rules and list that pass their checks. Labels, kinds and states are handed on as parts of the
// inputs, never copied.
fn run_passed(
    plan: &[u8],
    rules: &[u8],
    nodes: &[u16],
    labels: &[u8],
    n: usize,
    s: usize,
    k: usize,
) -> Verdict
    requires { RunArgs plan.now rules.now nodes.now labels.now n s k }
    ensures { result ≡ verdict plan.now rules.now nodes.now labels.now }
{
    let marks = RULES_HEAD + k + s * k * s;
    let q = pass(
        &plan[PLAN_HEAD + n..],
        &plan[PLAN_HEAD..PLAN_HEAD + n],
        nodes,
        labels,
        &rules[RULES_HEAD..RULES_HEAD + k],
        &rules[RULES_HEAD + k..marks],
        s,
        k,
    );
    Verdict {
        state: q,
        accepted: rules[marks + q as usize] == 1,
    }
}

// A fresh run without tables: of the rules over the plan with the listed labels changed. It returns the root's state
// and yes or no, or the first refusal of 2 to 10 and 12 to 14.
pub fn fresh_run(
    plan: &[u8],
    rules: &[u8],
    nodes: &[u16],
    labels: &[u8],
) -> Result<Verdict, Refusal>
    ensures { FreshRunDone plan.now rules.now nodes.now labels.now result }
{
    check_fresh_run(plan, rules, nodes, labels)?;
    let n = read32(plan, 0);
    let s = read32(rules, 0);
    let k = read32(rules, LABEL_COUNT_AT);
    Ok(run_passed(plan, rules, nodes, labels, n, s, k))
}
