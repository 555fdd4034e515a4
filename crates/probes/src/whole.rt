// Start, advances, a whole question and a whole life of a session in place, without the record's bytes.
ghost use Rattle.std.specs.Prelude.{◌≡◌};
ghost use Rattle.model.specs.Calls.{parts};
ghost use Rattle.formats.specs.Inputs.{inputs_of};
ghost use Rattle.probes.specs.Probed.{loaded_with, answer_by, outcome_in, accepted_in, parts_in, advanced, steps_in, read_in, question_in, call_number, life_in};

use crate::places::{advance_at, cancel_at, load_at, read_at, start_at};
use formats::refusals::HasNumber;
use session::answers::Outcome;
use session::state::{Phase, Session, Sizes, idle, no_last};

// A question's parts, and its links so far.
#[repr(C)]
#[derive(Clone, Copy)]
pub struct Steps {
    pub parts: u32,
    pub links: u32,
}

// What Read returns.
#[repr(C)]
#[derive(Clone, Copy)]
pub struct Question {
    pub state: u32,
    pub yes: bool,
    pub parts: u32,
    pub links: u32,
}

// A loaded session of N, S and K.
pub fn loaded(n: u16, s: u8, k: u8) -> Session
    ensures { result ≡ loaded_with n s k }
{
    let sizes = Sizes { n, s, k };
    let last = no_last();
    idle(Phase::Loaded, sizes, last)
}

// The number of parts that Start returns; 0 where it is refused.
pub fn parts_in<E: HasNumber>(answer: Result<u8, E>) -> u32
    ensures { result ≡ parts_in (answer_by E.number_in parts answer) }
{
    match answer {
        Ok(p) => p as u32,
        Err(_) => 0,
    }
}

// A session after some advances, accepted or not.
fn advance_by(
    count: u32,
    s: Session,
    plan: &[u8],
    rules: &[u8],
    node_table: &[u16],
    state_table: &[u8],
) -> Session
    ensures { result
        ≡ advanced count (inputs_of plan.now rules.now node_table.now state_table.now) s }
{
    let mut u = s;
    for _ in 0..count {
        let out = advance_at(u, plan, rules, node_table, state_table);
        u = out.session;
    }
    u
}

// Start on a loaded session of N, S and K, then some advances.
pub fn probe_steps(
    n: u16,
    s: u8,
    k: u8,
    plan: &[u8],
    rules: &[u8],
    node_table: &[u16],
    state_table: &[u8],
    nodes: &[u16],
    labels: &[u8],
    count: u32,
) -> Steps
    ensures { result
        ≡ steps_in (inputs_of plan.now rules.now node_table.now state_table.now)
        nodes.now labels.now count (loaded_with n s k) }
{
    let before = loaded(n, s, k);
    let out = start_at(before, plan, rules, node_table, state_table, nodes, labels);
    let answer = out.answer;
    let put = out.session;
    let parts = parts_in(answer);
    let end = advance_by(count, put, plan, rules, node_table, state_table);
    Steps {
        parts,
        links: end.head.links,
    }
}

// What Read returns; state 16 where it is refused.
pub fn read_in<E: HasNumber>(answer: Result<Outcome, E>) -> Question
    ensures { result ≡ read_in (answer_by E.number_in outcome_in answer) }
{
    match answer {
        Ok(o) => Question {
            state: o.state as u32,
            yes: o.yes,
            parts: o.parts as u32,
            links: o.links,
        },
        Err(_) => Question {
            state: 16,
            yes: false,
            parts: 0,
            links: 0,
        },
    }
}

// A whole question on a session: Start, an advance for each part, Read.
fn question_on(
    before: Session,
    plan: &[u8],
    rules: &[u8],
    node_table: &[u16],
    state_table: &[u8],
    nodes: &[u16],
    labels: &[u8],
) -> Question
    ensures { result
        ≡ question_in (inputs_of plan.now rules.now node_table.now state_table.now)
        nodes.now labels.now before }
{
    let out = start_at(before, plan, rules, node_table, state_table, nodes, labels);
    let answer = out.answer;
    let put = out.session;
    let end = advance_by(parts_in(answer), put, plan, rules, node_table, state_table);
    let outcome = read_at(end);
    read_in(outcome)
}

// The same on a loaded session of N, S and K.
pub fn probe_question(
    n: u16,
    s: u8,
    k: u8,
    plan: &[u8],
    rules: &[u8],
    node_table: &[u16],
    state_table: &[u8],
    nodes: &[u16],
    labels: &[u8],
) -> Question
    ensures { result
        ≡ question_in (inputs_of plan.now rules.now node_table.now state_table.now)
        nodes.now labels.now (loaded_with n s k) }
{
    let before = loaded(n, s, k);
    question_on(before, plan, rules, node_table, state_table, nodes, labels)
}

// The numbers of Load and Cancel, the parts that the first Start returns, and what Read returns for the question asked
// again.
#[repr(C)]
#[derive(Clone, Copy)]
pub struct Life {
    pub load: u32,
    pub parts: u32,
    pub cancel: u32,
    pub again: Question,
}

// The number of an answer to Load or Cancel: 0 where it is accepted.
pub fn call_number<E: HasNumber>(answer: Result<(), E>) -> u32
    ensures { result ≡ call_number (answer_by E.number_in accepted_in answer) }
{
    match answer {
        Ok(()) => 0,
        Err(refusal) => refusal.number_of() as u32,
    }
}

// A life of a session, each call in place: fresh, Load, Start, Cancel, and the question asked again, with an advance
// for each part, Read.
pub fn probe_life(
    plan: &[u8],
    rules: &[u8],
    node_table: &mut [u16],
    state_table: &mut [u8],
    nodes: &[u16],
    labels: &[u8],
) -> Life
    ensures { result
        ≡ life_in (inputs_of plan.now rules.now node_table.old state_table.old)
        (inputs_of plan.now rules.now node_table.new state_table.new)
        nodes.now labels.now }
{
    let fresh = Session::fresh();
    let out = load_at(fresh, plan, rules, node_table, state_table);
    let a = out.answer;
    let loaded = out.session;
    let load = call_number(a);
    let put = start_at(loaded, plan, rules, node_table, state_table, nodes, labels);
    let b = put.answer;
    let running = put.session;
    let parts = parts_in(b);
    let ended = cancel_at(running);
    let c = ended.answer;
    let idle = ended.session;
    let cancel = call_number(c);
    let again = question_on(idle, plan, rules, node_table, state_table, nodes, labels);
    Life {
        load,
        parts,
        cancel,
        again,
    }
}
