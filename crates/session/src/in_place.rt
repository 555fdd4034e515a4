// The session in place: "the session record is lent by the panel and altered where it is" (document 01).
// Each call is thin: it makes the call by value (crate session) on a copy, stores the returned record where the old one
// was, and returns the answer. So it promises what that call promises, of the record at entry and at exit.
ghost use Rattle.std.specs.Prelude.{◌≡◌};
ghost use Rattle.model.specs.Calls as calls;
ghost use Rattle.session.specs.Answers.{call_answer, start_answer, advance_answer, read_answer};
ghost use Rattle.session.specs.Promises.{CallDone, LoadDone, answer_on};
ghost use Rattle.formats.specs.Inputs.{inputs_of};

use crate::answers::{Outcome, Progress};
use crate::state::Session;
use formats::refusals::Refusal;

// Builds the tables of a plan and rules into the caller's buffers.
pub fn load(
    s: &mut Session,
    plan: &[u8],
    rules: &[u8],
    node_table: &mut [u16],
    state_table: &mut [u8],
) -> Result<(), Refusal>
    ensures { LoadDone s.old
        (inputs_of plan.now rules.now node_table.old state_table.old)
        (call_answer result) s.new node_table.new state_table.new }
{
    let old = *s;
    let out = old.load(plan, rules, node_table, state_table);
    *s = out.session;
    out.answer
}

// Asks a question: returns the number of its parts.
pub fn start(
    s: &mut Session,
    plan: &[u8],
    rules: &[u8],
    node_table: &[u16],
    state_table: &[u8],
    nodes: &[u16],
    labels: &[u8],
) -> Result<u8, Refusal>
    ensures { CallDone s.old
        (calls.start (inputs_of plan.now rules.now node_table.now state_table.now)
        nodes.now labels.now)
        (start_answer result) s.new }
{
    let old = *s;
    let out = old.start(plan, rules, node_table, state_table, nodes, labels);
    *s = out.session;
    out.answer
}

// Handles the next part.
pub fn advance(
    s: &mut Session,
    plan: &[u8],
    rules: &[u8],
    node_table: &[u16],
    state_table: &[u8],
) -> Result<Progress, Refusal>
    ensures { CallDone s.old
        (calls.advance (inputs_of plan.now rules.now node_table.now state_table.now))
        (advance_answer result) s.new }
{
    let old = *s;
    let out = old.advance(plan, rules, node_table, state_table);
    *s = out.session;
    out.answer
}

// Ends a question: the record is as after a first Load, but for the last finished answer, which is kept.
pub fn cancel(s: &mut Session) -> Result<(), Refusal>
    ensures { CallDone s.old calls.cancel (call_answer result) s.new }
{
    let old = *s;
    let out = old.cancel();
    *s = out.session;
    out.answer
}

// Returns the last finished answer: the root's state, the yes or no, the parts, the links and the nodes passed over.
pub fn read(s: &Session) -> Result<Outcome, Refusal>
    ensures { read_answer result ≡ answer_on s.now calls.read }
{
    let rec = *s;
    rec.read()
}
