// The calls in place, run: each function's own record is borrowed by `&mut` (session/in_place) and returned with the
// answer. So these functions have the promises of the calls by value (crate session), and what they return can be
// compared with those.
ghost use Rattle.std.specs.Prelude.{◌≡◌};
ghost use Rattle.model.specs.Calls as calls;
ghost use Rattle.session.specs.Answers.{call_answer, start_answer, advance_answer, read_answer};
ghost use Rattle.session.specs.Promises.{CallDone, LoadDone, answer_on};
ghost use Rattle.formats.specs.Inputs.{inputs_of};

use formats::refusals::Refusal;
use session::answers::{Advanced, Called, Outcome, Started};
use session::state::Session;

// Load.
pub fn load_at(
    s: Session,
    plan: &[u8],
    rules: &[u8],
    node_table: &mut [u16],
    state_table: &mut [u8],
) -> Called
    ensures { LoadDone s
        (inputs_of plan.now rules.now node_table.old state_table.old)
        (call_answer result.answer) result.session node_table.new state_table.new }
{
    let mut t = s;
    let answer = session::in_place::load(&mut t, plan, rules, node_table, state_table);
    Called { answer, session: t }
}

// Start.
pub fn start_at(
    s: Session,
    plan: &[u8],
    rules: &[u8],
    node_table: &[u16],
    state_table: &[u8],
    nodes: &[u16],
    labels: &[u8],
) -> Started
    ensures { CallDone s
        (calls.start (inputs_of plan.now rules.now node_table.now state_table.now)
        nodes.now labels.now)
        (start_answer result.answer) result.session }
{
    let mut t = s;
    let answer = session::in_place::start(
        &mut t,
        plan,
        rules,
        node_table,
        state_table,
        nodes,
        labels,
    );
    Started { answer, session: t }
}

// Advance.
pub fn advance_at(
    s: Session,
    plan: &[u8],
    rules: &[u8],
    node_table: &[u16],
    state_table: &[u8],
) -> Advanced
    ensures { CallDone s
        (calls.advance (inputs_of plan.now rules.now node_table.now state_table.now))
        (advance_answer result.answer) result.session }
{
    let mut t = s;
    let answer = session::in_place::advance(&mut t, plan, rules, node_table, state_table);
    Advanced { answer, session: t }
}

// Cancel.
pub fn cancel_at(s: Session) -> Called
    ensures { CallDone s calls.cancel (call_answer result.answer) result.session }
{
    let mut t = s;
    let answer = session::in_place::cancel(&mut t);
    Called { answer, session: t }
}

// Read.
pub fn read_at(s: Session) -> Result<Outcome, Refusal>
    ensures { read_answer result ≡ answer_on s calls.read }
{
    session::in_place::read(&s)
}
