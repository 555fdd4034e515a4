// The rule question by colours: the state of the plan's root with the listed labels changed, whether it is marked, the
// drops of the trials, their links, and the parts.
ghost use Rattle.std.specs.Prelude.{◌≡◌};
ghost use Rattle.formats.specs.Refusals.{told};
ghost use Rattle.colour_questions.specs.rule.Promise.{links_kept, RuleAskDone};
ghost use Rattle.colour_questions.specs.rule.inner.Args.{RootArgs, LentArgs, answered_for, answered_on};

use crate::rule::answers::RuleAsked;
use crate::rule::checks::check_asked;
use crate::rule::parts::all_by_colours;
use colour_tables::set_states::sets::set_count;
use formats::bytes::read32;
use formats::layout::{LABEL_COUNT_AT, NODE_COLUMNS, PLAN_HEAD, RULES_HEAD};
use formats::refusals::Refusal;
use questions::changed_roots::roots_left;

// The answer for these roots: the runs of plan and rules, the tables without their excess and the copies of the colours
// are handed on as parts.
fn answer_roots(
    plan: &[u8],
    rules: &[u8],
    node_table: &[u16],
    state_table: &[u8],
    numbers: &[u16],
    bytes: &[u8],
    n: usize,
    s: usize,
    k: usize,
    roots: &[u16],
    nodes: &[u16],
    labels: &[u8],
) -> Result<RuleAsked, Refusal>
    requires { RootArgs n s k plan.now rules.now node_table.now state_table.now numbers.now bytes.now
        nodes.now labels.now roots.now }
    ensures { (told result ≡ answered_for n s k plan.now rules.now node_table.now
        state_table.now numbers.now bytes.now nodes.now
        labels.now roots.now) × links_kept result }
{
    let m = set_count(s);
    let t = all_by_colours(
        &plan[PLAN_HEAD..PLAN_HEAD + n],
        &plan[PLAN_HEAD + n..],
        &rules[RULES_HEAD..RULES_HEAD + k],
        &rules[RULES_HEAD + k..RULES_HEAD + k + s * k * s],
        &node_table[..n * NODE_COLUMNS],
        &state_table[..n * (s + 1)],
        numbers,
        &bytes[n * (s + 1)..],
        n,
        s,
        k,
        m,
        roots,
        nodes,
        labels,
    );
    match t {
        None => Err(Refusal::LentValue),
        Some(trial) => {
            let yes = rules[RULES_HEAD + k + s * k * s + trial.state as usize] == 1;
            Ok(RuleAsked {
                state: trial.state,
                marked: yes,
                drops: trial.drops,
                links: trial.links,
                parts: roots.len() as u32,
            })
        }
    }
}

// The answer where 17, 27, 12, 13 and 14 pass.
fn answer_lent(
    plan: &[u8],
    rules: &[u8],
    node_table: &[u16],
    state_table: &[u8],
    numbers: &[u16],
    bytes: &[u8],
    nodes: &[u16],
    labels: &[u8],
) -> Result<RuleAsked, Refusal>
    requires { LentArgs plan.now rules.now node_table.now state_table.now numbers.now bytes.now
        nodes.now labels.now }
    ensures { (told result ≡ answered_on plan.now rules.now node_table.now
        state_table.now numbers.now bytes.now nodes.now
        labels.now) × links_kept result }
{
    let n = read32(plan, 0);
    let s = read32(rules, 0);
    let k = read32(rules, LABEL_COUNT_AT);
    let found = roots_left(n, plan, node_table, nodes, labels);
    if !found.ok {
        return Err(Refusal::LentValue);
    }
    let p = found.count;
    let list = found.nodes;
    answer_roots(
        plan,
        rules,
        node_table,
        state_table,
        numbers,
        bytes,
        n,
        s,
        k,
        &list[..p],
        nodes,
        labels,
    )
}

// A rule question by colours, outside the session: N, S and K are those of the headers. Makes the checks 17, 27, 12,
// 13, 14 and 18 in this order; of two entries for a node the last holds, and one that changes nothing is none.
pub fn ask_rule_colours(
    plan: &[u8],
    rules: &[u8],
    node_table: &[u16],
    state_table: &[u8],
    numbers: &[u16],
    bytes: &[u8],
    nodes: &[u16],
    labels: &[u8],
) -> Result<RuleAsked, Refusal>
    ensures { RuleAskDone plan.now rules.now node_table.now
        state_table.now numbers.now bytes.now nodes.now
        labels.now result }
{
    check_asked(
        plan,
        rules,
        node_table.len(),
        state_table.len(),
        numbers.len(),
        bytes.len(),
        nodes,
        labels,
    )?;
    answer_lent(
        plan,
        rules,
        node_table,
        state_table,
        numbers,
        bytes,
        nodes,
        labels,
    )
}
