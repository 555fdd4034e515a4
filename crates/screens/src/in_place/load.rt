// Load over eight screens, by value: refused where any runs or is no record; else the build with its checks, and
// all eight are as after a first Load of that plan.
ghost use Rattle.std.specs.Prelude.{◌≡◌};
ghost use Rattle.formats.specs.Inputs.{inputs_of};
ghost use Rattle.screens.specs.ScreenCalls.{any_runs};
ghost use Rattle.screens.specs.in_place.OnStructs.{is_busy, busy};
ghost use Rattle.screens.specs.in_place.LoadAll.{LoadAllDone, load_answer};

use crate::SCREENS;
use crate::in_place::is_running;
use formats::refusals::Refusal;
use session::state::Session;

// A Load's answer, with the eight records that it leaves.
#[derive(Clone, Copy)]
pub struct LoadedAll {
    pub answer: Result<(), Refusal>,
    pub all: [Session; SCREENS],
}

// Whether a screen may not be loaded: it runs, or its struct is no record.
fn is_busy(s: Session) -> bool
    ensures { result ≡ is_busy s }
{
    if !s.valid() {
        return true;
    }
    let h = s.head;
    let p = h.phase;
    is_running(p)
}

// Whether any of the eight is busy.
fn any_busy(all: [Session; SCREENS]) -> bool
    ensures { result ≡ any_runs 8 (busy all) }
{
    for i in (0..SCREENS).rev() {
        if is_busy(all[i]) {
            return true;
        }
    }
    false
}

// Builds the tables of a plan and rules into the caller's buffers, and clears the eight.
pub fn load(
    all: [Session; SCREENS],
    plan: &[u8],
    rules: &[u8],
    node_table: &mut [u16],
    state_table: &mut [u8],
) -> LoadedAll
    ensures { LoadAllDone all
        (inputs_of plan.now rules.now node_table.old state_table.old)
        (load_answer result.answer) result.all node_table.new state_table.new }
{
    if any_busy(all) {
        return LoadedAll {
            answer: Err(Refusal::SessionState),
            all,
        };
    }
    let first = all[0];
    let out = first.load(plan, rules, node_table, state_table);
    let answer = out.answer;
    match answer {
        Ok(()) => {
            let s = out.session;
            LoadedAll {
                answer: Ok(()),
                all: [s; SCREENS],
            }
        }
        Err(refusal) => LoadedAll {
            answer: Err(refusal),
            all,
        },
    }
}
