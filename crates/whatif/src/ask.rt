// A question asked of the session: Start, advances until finished, Read.
ghost use Rattle.std.specs.Prelude.{◌≡◌};
ghost use Rattle.session.specs.Answers.{read_answer};
ghost use Rattle.formats.specs.Inputs.{inputs_of};
ghost use Rattle.whatif.specs.Asked.{most_parts, finished_in, asked_on};

use formats::refusals::Refusal;
use session::answers::{Outcome, Progress};
use session::state::Session;

// Advances until finished, and reads.
fn finish(
    started: Session,
    plan: &[u8],
    rules: &[u8],
    node_table: &[u16],
    state_table: &[u8],
) -> Result<Outcome, Refusal>
    ensures { read_answer result
        ≡ finished_in most_parts started (inputs_of plan.now rules.now node_table.now state_table.now) }
{
    let mut rec = started;
    for _parts in 0..254u8 {
        let next = rec.advance(plan, rules, node_table, state_table);
        rec = next.session;
        let progress = next.answer?;
        match progress {
            Progress::More => {}
            Progress::Finished => return rec.read(),
        }
    }
    rec.read()
}

// The answer to a list of changes, from a loaded session: each question starts from the same record.
pub fn ask(
    loaded: Session,
    plan: &[u8],
    rules: &[u8],
    node_table: &[u16],
    state_table: &[u8],
    nodes: &[u16],
    labels: &[u8],
) -> Result<Outcome, Refusal>
    ensures { read_answer result
        ≡ asked_on loaded (inputs_of plan.now rules.now node_table.now state_table.now)
        nodes.now labels.now }
{
    let started = loaded.start(plan, rules, node_table, state_table, nodes, labels);
    started.answer?;
    finish(started.session, plan, rules, node_table, state_table)
}
