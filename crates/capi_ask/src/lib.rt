// The whole question as C and Rust call it, outside the session: one call on tables that the caller has. Crate capi_ask_c
// exports it.
//     whatif_ask   state, yes or no, parts, links and nodes passed over of a list of changes
#![tactic(auto)]

ghost use Rattle.capi_ask.specs.WholeExported.{WholeNumber, WholeExported};

use capi::numbers::bit;
use formats::refusals::Refusal;
use whole_questions::answers::Asked;
use whole_questions::ask::ask;

// The number of a whole question's answer; its state, whether it is marked, its parts, its links and its nodes passed
// over go to `state`, `yes`, `parts`, `links` and `passed`.
fn ask_number(
    answer: Result<Asked, Refusal>,
    state: &mut u32,
    yes: &mut u32,
    parts: &mut u32,
    links: &mut u32,
    passed: &mut u32,
) -> u32
    ensures { WholeNumber answer state.old yes.old parts.old links.old
        passed.old result state.new yes.new parts.new links.new
        passed.new }
{
    match answer {
        Ok(asked) => {
            *state = asked.state as u32;
            *yes = bit(asked.marked);
            *parts = asked.parts;
            *links = asked.links;
            *passed = asked.passed;
            0
        }
        Err(refusal) => refusal.number() as u32,
    }
}

// The whole question: the plan with the listed labels changed, a node named several times by its last entry.
pub fn whatif_ask(
    plan: &[u8],
    rules: &[u8],
    node_table: &[u16],
    state_table: &[u8],
    nodes: &[u16],
    labels: &[u8],
    state: &mut u32,
    yes: &mut u32,
    parts: &mut u32,
    links: &mut u32,
    passed: &mut u32,
) -> u32
    ensures { WholeExported plan.now rules.now node_table.now state_table.now
        nodes.now labels.now
        result state.old yes.old parts.old links.old passed.old
        state.new yes.new parts.new links.new passed.new }
{
    let answer = ask(plan, rules, node_table, state_table, nodes, labels);
    ask_number(answer, state, yes, parts, links, passed)
}
