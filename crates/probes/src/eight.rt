// The calls on eight screens in place, run: each function's own run of eight records is borrowed (screens/in_place) and
// returned with the answer. So these functions have the promises of those calls, and a life of eight screens made of
// them can be compared with the calls on bytes.
ghost use Rattle.std.specs.Prelude.{◌≡◌};
ghost use Rattle.session.specs.Answers.{call_answer, start_answer, read_answer};
ghost use Rattle.screens.specs.ScreenCalls as screens;
ghost use Rattle.screens.specs.in_place.OnStructs.{deal_answer, answer_all, ScreenDone};
ghost use Rattle.formats.specs.Inputs.{inputs_of};
ghost use Rattle.probes.specs.Probed.{loaded_with};
ghost use Rattle.probes.specs.EightProbed.{next_in, dealt_all, dealt_next, eight_in};

use crate::whole::{Question, call_number, loaded, parts_in, read_in};
use formats::refusals::Refusal;
use session::answers::Outcome;
use session::state::Session;

// An answer to Start, to Cancel and to a deal, with the eight records that it leaves.
#[derive(Clone, Copy)]
pub struct StartedOn {
    pub answer: Result<u8, Refusal>,
    pub all: [Session; 8],
}

#[derive(Clone, Copy)]
pub struct CalledOn {
    pub answer: Result<(), Refusal>,
    pub all: [Session; 8],
}

#[derive(Clone, Copy)]
pub struct DealtOn {
    pub answer: Result<screens::in_place::Dealt, Refusal>,
    pub all: [Session; 8],
}

// Start on one screen.
pub fn start_on(
    all: [Session; 8],
    screen: usize,
    plan: &[u8],
    rules: &[u8],
    node_table: &[u16],
    state_table: &[u8],
    nodes: &[u16],
    labels: &[u8],
) -> StartedOn
    ensures { ScreenDone all
        (screens.start_on screen
        (inputs_of plan.now rules.now node_table.now state_table.now)
        nodes.now labels.now)
        (screens.one (start_answer result.answer)) result.all }
{
    let mut t = all;
    let answer = screens::in_place::start(
        &mut t,
        screen,
        plan,
        rules,
        node_table,
        state_table,
        nodes,
        labels,
    );
    StartedOn { answer, all: t }
}

// Cancel on one screen.
pub fn cancel_on(all: [Session; 8], screen: usize) -> CalledOn
    ensures { ScreenDone all (screens.cancel_on screen) (screens.one (call_answer result.answer)) result.all }
{
    let mut t = all;
    let answer = screens::in_place::cancel(&mut t, screen);
    CalledOn { answer, all: t }
}

// A deal.
pub fn deal_on(
    all: [Session; 8],
    first: usize,
    plan: &[u8],
    rules: &[u8],
    node_table: &[u16],
    state_table: &[u8],
) -> DealtOn
    ensures { ScreenDone all
        (screens.deal first
        (inputs_of plan.now rules.now node_table.now state_table.now))
        (deal_answer result.answer) result.all }
{
    let mut t = all;
    let answer = screens::in_place::deal(&mut t, first, plan, rules, node_table, state_table);
    DealtOn { answer, all: t }
}

// Read of one screen.
pub fn read_on(all: [Session; 8], screen: usize) -> Result<Outcome, Refusal>
    ensures { screens.one (read_answer result) ≡ answer_all all (screens.read_on screen) }
{
    screens::in_place::read(&all, screen)
}

// The screen to try first after a deal that began with first; that one again where it is refused.
fn next_after(answer: Result<screens::in_place::Dealt, Refusal>, first: usize) -> usize
    ensures { result ≡ next_in (deal_answer answer) first }
{
    match answer {
        Ok(dealt) => dealt.next as usize,
        Err(_) => first,
    }
}

// Eight records after some deals, and the screen to try first next.
#[derive(Clone, Copy)]
pub struct Dealt {
    pub all: [Session; 8],
    pub next: usize,
}

// Some deals, accepted or not.
fn deal_by(
    count: u32,
    all: [Session; 8],
    first: usize,
    plan: &[u8],
    rules: &[u8],
    node_table: &[u16],
    state_table: &[u8],
) -> Dealt
    ensures { (result.all
        ≡ dealt_all count (inputs_of plan.now rules.now node_table.now state_table.now)
        first all)
        × (result.next
        ≡ dealt_next count (inputs_of plan.now rules.now node_table.now state_table.now)
        first all) }
{
    let mut u = all;
    let mut at = first;
    for _ in 0..count {
        let out = deal_on(u, at, plan, rules, node_table, state_table);
        let answer = out.answer;
        u = out.all;
        at = next_after(answer, at);
    }
    Dealt { all: u, next: at }
}

// The parts that Start returns on two screens, the screen to try first after the deals, the number of Cancel of the
// second, and what Read returns of the first.
#[repr(C)]
#[derive(Clone, Copy)]
pub struct Eight {
    pub parts: u32,
    pub others: u32,
    pub next: usize,
    pub cancel: u32,
    pub read: Question,
}

// Eight screens loaded with N, S and K: Start on two of them, some deals from a first screen on, Cancel of the second
// and Read of the first.
pub fn probe_screens(
    n: u16,
    s: u8,
    k: u8,
    plan: &[u8],
    rules: &[u8],
    node_table: &[u16],
    state_table: &[u8],
    nodes: &[u16],
    labels: &[u8],
    screen: usize,
    other: usize,
    first: usize,
    count: u32,
) -> Eight
    ensures { result
        ≡ eight_in (inputs_of plan.now rules.now node_table.now state_table.now)
        nodes.now labels.now screen other first count (loaded_with n s k) }
{
    let one = loaded(n, s, k);
    let started = start_on(
        [one; 8],
        screen,
        plan,
        rules,
        node_table,
        state_table,
        nodes,
        labels,
    );
    let a = started.answer;
    let put = started.all;
    let parts = parts_in(a);
    let second = start_on(
        put,
        other,
        plan,
        rules,
        node_table,
        state_table,
        nodes,
        labels,
    );
    let b = second.answer;
    let running = second.all;
    let others = parts_in(b);
    let dealt = deal_by(count, running, first, plan, rules, node_table, state_table);
    let after = dealt.all;
    let ended = cancel_on(after, other);
    let c = ended.answer;
    let rest = ended.all;
    let cancel = call_number(c);
    let outcome = read_on(rest, screen);
    let read = read_in(outcome);
    Eight {
        parts,
        others,
        next: dealt.next,
        cancel,
        read,
    }
}
