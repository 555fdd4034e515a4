// The whole question: the state of the plan's root with the listed labels changed, whether it is marked, the parts,
// their links and the nodes that these passed over.
ghost use Rattle.std.specs.Prelude.{◌≡◌};
ghost use Rattle.formats.specs.Refusals.{told};
ghost use Rattle.whole_questions.specs.Promise.{AskDone};
ghost use Rattle.whole_questions.specs.inner.Args.{RootArgs, LentArgs, answered_for, answered_on};

use crate::answers::Asked;
use crate::checks::check_asked;
use crate::parts::all_parts;
use formats::bytes::read32;
use formats::refusals::Refusal;
use formats::rules::inner_count;
use questions::changed_roots::roots_left;
use tables::answers::Climbed;

// The answer for these roots.
fn answer_roots(
    n: usize,
    s: usize,
    k: usize,
    plan: &[u8],
    rules: &[u8],
    node_table: &[u16],
    state_table: &[u8],
    roots: &[u16],
    nodes: &[u16],
    labels: &[u8],
) -> Result<Asked, Refusal>
    requires { RootArgs n s k plan.now rules.now node_table.now state_table.now roots.now nodes.now
        labels.now }
    ensures { told result ≡ answered_for n s k plan.now rules.now node_table.now
        state_table.now roots.now nodes.now labels.now }
{
    match all_parts(
        n,
        s,
        k,
        plan,
        rules,
        node_table,
        state_table,
        roots,
        nodes,
        labels,
    ) {
        Climbed::Reached(x) => {
            let q = x.state;
            let yes = rules[20 + k + inner_count(s, k) + q as usize] == 1;
            return Ok(Asked {
                state: q,
                marked: yes,
                parts: roots.len() as u32,
                links: x.links,
                passed: x.passed,
            });
        }
        Climbed::OutOfRange => {
            return Err(Refusal::LentValue);
        }
    }
}

// The answer where 17, 12, 13 and 14 pass.
fn answer_lent(
    plan: &[u8],
    rules: &[u8],
    node_table: &[u16],
    state_table: &[u8],
    nodes: &[u16],
    labels: &[u8],
) -> Result<Asked, Refusal>
    requires { LentArgs plan.now rules.now node_table.now state_table.now nodes.now labels.now }
    ensures { told result ≡ answered_on plan.now rules.now node_table.now
        state_table.now nodes.now labels.now }
{
    let n = read32(plan, 0);
    let s = read32(rules, 0);
    let k = read32(rules, 4);
    let found = roots_left(n, plan, node_table, nodes, labels);
    if !found.ok {
        return Err(Refusal::LentValue);
    }
    let p = found.count;
    let list = found.nodes;
    answer_roots(
        n,
        s,
        k,
        plan,
        rules,
        node_table,
        state_table,
        &list[..p],
        nodes,
        labels,
    )
}

// A whole question, outside the session: N, S and K are those of the headers. Makes the checks 17, 12, 13, 14 and 18 in
// this order; of two entries for a node the last holds, and one that changes nothing is none.
pub fn ask(
    plan: &[u8],
    rules: &[u8],
    node_table: &[u16],
    state_table: &[u8],
    nodes: &[u16],
    labels: &[u8],
) -> Result<Asked, Refusal>
    ensures { AskDone plan.now rules.now node_table.now
        state_table.now nodes.now labels.now result }
{
    check_asked(
        plan,
        rules,
        node_table.len(),
        state_table.len(),
        nodes,
        labels,
    )?;
    answer_lent(plan, rules, node_table, state_table, nodes, labels)
}
