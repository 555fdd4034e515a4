// Eight screens in place: "Deal takes &mut [Session], picks the next running one, hands it to the by-value advance"
// (document 01). Start, Cancel and Read of one screen go the same way. Load over eight takes and returns them by value.
pub mod load;

ghost use Rattle.std.specs.Prelude.{◌≡◌, [], ◌∷◌, ◌<◌};
ghost use Rattle.formats.specs.Inputs.{inputs_of};
ghost use Rattle.model.specs.Calls.{is_running};
ghost use Rattle.screens.specs.ScreenCalls.{found, turn_answer};
ghost use Rattle.screens.specs.ScreenCalls as screens;
ghost use Rattle.session.specs.Records.{phase_of};
ghost use Rattle.session.specs.Answers.{advance_answer, call_answer, start_answer, read_answer};
ghost use Rattle.screens.specs.in_place.OnStructs.{runs_in, deal_answer, answer_all, ScreenDone};

use crate::{LAST_SCREEN, SCREENS, one_past};
use formats::refusals::Refusal;
use session::answers::{Outcome, Progress};
use session::state::{Phase, Session};

// What a deal tells: whether there is more on the screen served, and the screen to try first next time.
#[derive(Clone, Copy)]
pub struct Dealt {
    pub progress: Progress,
    pub next: u8,
}

// Whether a screen in this state runs.
#[tactic(auto, unfolding(session::specs::Records::phase_of, model::specs::Calls::is_running))]
pub fn is_running(p: Phase) -> bool
    ensures { result ≡ is_running (phase_of p) }
{
    matches!(p, Phase::Running)
}

// The next running screen from the first on, going from 7 back to 0; 8 where none runs, 9 where there is no such screen
// to try first.
fn next_running(
    p0: Phase,
    p1: Phase,
    p2: Phase,
    p3: Phase,
    p4: Phase,
    p5: Phase,
    p6: Phase,
    p7: Phase,
    first: usize,
) -> usize
    ensures { result ≡ found (runs_in (p0 ∷ p1 ∷ p2 ∷ p3 ∷ p4 ∷ p5 ∷ p6 ∷ p7 ∷ [])) first }
{
    if first > LAST_SCREEN {
        return 9;
    }
    let phases = [p0, p1, p2, p3, p4, p5, p6, p7];
    let mut at = first;
    for _ in 0..SCREENS {
        if is_running(phases[at]) {
            return at;
        }
        at = one_past(at);
    }
    SCREENS
}

// The answer of a deal, from that of the advance of screen i.
fn deal_answer(answer: Result<Progress, Refusal>, i: usize) -> Result<Dealt, Refusal>
    ensures { deal_answer result ≡ turn_answer i (advance_answer answer) }
{
    let progress = answer?;
    let next = one_past(i) as u8;
    Ok(Dealt { progress, next })
}

// Gives one advance to the next running screen.
pub fn deal(
    all: &mut [Session],
    first: usize,
    plan: &[u8],
    rules: &[u8],
    node_table: &[u16],
    state_table: &[u8],
) -> Result<Dealt, Refusal>
    ensures { ScreenDone all.old
        (screens.deal first
        (inputs_of plan.now rules.now node_table.now state_table.now))
        (deal_answer result) all.new }
{
    if all.len() != SCREENS {
        return Err(Refusal::Screen);
    }
    if first > LAST_SCREEN {
        return Err(Refusal::Screen);
    }
    let at = next_running(
        all[0].head.phase,
        all[1].head.phase,
        all[2].head.phase,
        all[3].head.phase,
        all[4].head.phase,
        all[5].head.phase,
        all[6].head.phase,
        all[7].head.phase,
        first,
    );
    if at > LAST_SCREEN {
        return Err(Refusal::SessionState);
    }
    let old = all[at];
    let out = old.advance(plan, rules, node_table, state_table);
    all[at] = out.session;
    deal_answer(out.answer, at)
}

// Asks a question on one screen.
pub fn start(
    all: &mut [Session],
    screen: usize,
    plan: &[u8],
    rules: &[u8],
    node_table: &[u16],
    state_table: &[u8],
    nodes: &[u16],
    labels: &[u8],
) -> Result<u8, Refusal>
    ensures { ScreenDone all.old
        (screens.start_on screen
        (inputs_of plan.now rules.now node_table.now state_table.now)
        nodes.now labels.now)
        (screens.one (start_answer result)) all.new }
{
    if all.len() != SCREENS {
        return Err(Refusal::Screen);
    }
    if screen > LAST_SCREEN {
        return Err(Refusal::Screen);
    }
    let old = all[screen];
    let out = old.start(plan, rules, node_table, state_table, nodes, labels);
    all[screen] = out.session;
    out.answer
}

// Ends the question of one screen.
pub fn cancel(all: &mut [Session], screen: usize) -> Result<(), Refusal>
    ensures { ScreenDone all.old (screens.cancel_on screen) (screens.one (call_answer result)) all.new }
{
    if all.len() != SCREENS {
        return Err(Refusal::Screen);
    }
    if screen > LAST_SCREEN {
        return Err(Refusal::Screen);
    }
    let old = all[screen];
    let out = old.cancel();
    all[screen] = out.session;
    out.answer
}

// Returns the last finished answer of one screen.
pub fn read(all: &[Session], screen: usize) -> Result<Outcome, Refusal>
    ensures { screens.one (read_answer result) ≡ answer_all all.now (screens.read_on screen) }
{
    if all.len() != SCREENS {
        return Err(Refusal::Screen);
    }
    if screen > LAST_SCREEN {
        return Err(Refusal::Screen);
    }
    let rec = all[screen];
    rec.read()
}
