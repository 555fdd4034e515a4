// The rule question by colours.
ghost use Rattle.capi_colours.specs.rule_calls.RuleExported.{RuleNumber, RuleExported};

use capi::numbers::bit;
use colour_questions::rule::answers::RuleAsked;
use colour_questions::rule::ask::ask_rule_colours;
use formats::refusals::Refusal;

// The number of a rule question's answer by colours; its state, whether it is marked, its drops, its links and its
// parts go to `state`, `yes`, `drops`, `links` and `parts`.
fn rule_number(
    answer: Result<RuleAsked, Refusal>,
    state: &mut u32,
    yes: &mut u32,
    drops: &mut u32,
    links: &mut u32,
    parts: &mut u32,
) -> u32
    ensures { RuleNumber answer state.old yes.old drops.old links.old
        parts.old result state.new yes.new drops.new links.new
        parts.new }
{
    match answer {
        Ok(asked) => {
            *state = asked.state as u32;
            *yes = bit(asked.marked);
            *drops = asked.drops;
            *links = asked.links;
            *parts = asked.parts;
            0
        }
        Err(refusal) => refusal.number() as u32,
    }
}

// The rule question by colours: the plan with the listed labels changed, a node named several times by its last
// entry. It has six buffers of the table's, the list's two and five outputs, each as C passes it.
pub fn whatif_colour_ask(
    plan: &[u8],
    rules: &[u8],
    node_table: &[u16],
    state_table: &[u8],
    colour_numbers: &[u16],
    colour_bytes: &[u8],
    nodes: &[u16],
    labels: &[u8],
    state: &mut u32,
    yes: &mut u32,
    drops: &mut u32,
    links: &mut u32,
    parts: &mut u32,
) -> u32
    ensures { RuleExported plan.now rules.now node_table.now state_table.now
        colour_numbers.now colour_bytes.now nodes.now labels.now
        result state.old yes.old drops.old links.old parts.old
        state.new yes.new drops.new links.new parts.new }
{
    let answer = ask_rule_colours(
        plan,
        rules,
        node_table,
        state_table,
        colour_numbers,
        colour_bytes,
        nodes,
        labels,
    );
    rule_number(answer, state, yes, drops, links, parts)
}
