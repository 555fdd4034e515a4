// Start, Cancel, Read and the deal of eight screens, on a run of 8 x 983 record bytes. A run of another length and a
// number above 7 are refused before all else, the number compared before it is cast.
ghost use Rattle.std.specs.Prelude.{◌≡◌, ◌<◌, length};
ghost use Rattle.formats.specs.Inputs.{inputs_of};
ghost use Rattle.screens.specs.ScreenCalls.{found};
ghost use Rattle.screens.specs.ScreenCalls as screens;
ghost use Rattle.capi_session.specs.Stored.{places};
ghost use Rattle.capi_screens.specs.RunLayout.{run_length, runs};
ghost use Rattle.capi_screens.specs.ScreensExported.{ScreensCallExported, ScreensStartExported};
ghost use Rattle.capi_screens.specs.ScreensExported.{ScreensDealExported, ScreensReadExported};

use capi_session::calls::{whatif_advance, whatif_cancel, whatif_read, whatif_start};
use formats::refusals::Refusal;
use records::layout::RECORD_BYTES;
use screens::{LAST_SCREEN, SCREENS, one_past};

// The bytes of a run: the records of all screens.
pub const RUN_BYTES: usize = SCREENS * RECORD_BYTES;

// The last screen's number, as the calls take it.
const LAST: u32 = LAST_SCREEN as u32;

// Cancel of one screen: its question is forgotten, its last finished answer kept.
pub fn whatif_screens_cancel(records: &mut [u8], screen: u32) -> u32
    ensures { ScreensCallExported records.old (screens.cancel_on screen) result records.new }
{
    if records.len() != RUN_BYTES {
        return Refusal::Screen.number() as u32;
    }
    if screen > LAST {
        return Refusal::Screen.number() as u32;
    }
    let i = screen as usize;
    whatif_cancel(&mut records[RECORD_BYTES * i..RECORD_BYTES * i + RECORD_BYTES])
}

// Start on one screen: a question about a list of changes.
pub fn whatif_screens_start(
    records: &mut [u8],
    screen: u32,
    plan: &[u8],
    rules: &[u8],
    node_table: &[u16],
    state_table: &[u8],
    nodes: &[u16],
    labels: &[u8],
    parts: &mut u32,
) -> u32
    ensures { ScreensStartExported records.old
        (screens.start_on screen
        (inputs_of plan.now rules.now node_table.now state_table.now)
        nodes.now labels.now)
        result records.new parts.old parts.new }
{
    if records.len() != RUN_BYTES {
        return Refusal::Screen.number() as u32;
    }
    if screen > LAST {
        return Refusal::Screen.number() as u32;
    }
    let i = screen as usize;
    whatif_start(
        &mut records[RECORD_BYTES * i..RECORD_BYTES * i + RECORD_BYTES],
        plan,
        rules,
        node_table,
        state_table,
        nodes,
        labels,
        parts,
    )
}

// Read of one screen: its last finished answer.
pub fn whatif_screens_read(
    records: &[u8],
    screen: u32,
    state: &mut u32,
    yes: &mut u32,
    parts: &mut u32,
    links: &mut u32,
    passed: &mut u32,
) -> u32
    ensures { ScreensReadExported records.now screen result
        (places state.old yes.old parts.old links.old passed.old)
        (places state.new yes.new parts.new links.new passed.new) }
{
    if records.len() != RUN_BYTES {
        return Refusal::Screen.number() as u32;
    }
    if screen > LAST {
        return Refusal::Screen.number() as u32;
    }
    let i = screen as usize;
    whatif_read(
        &records[RECORD_BYTES * i..RECORD_BYTES * i + RECORD_BYTES],
        state,
        yes,
        parts,
        links,
        passed,
    )
}

// The next running screen from the first on, going from 7 back to 0; 8 where none runs. It looks at the eight states
// alone.
fn next_running(records: &[u8], first: usize) -> usize
    requires { (length records.now ≡ run_length) × (first < 8) }
    ensures { result ≡ found (runs records.now) first }
{
    let mut at = first;
    for _ in 0..SCREENS {
        if records[RECORD_BYTES * at] == 2 {
            return at;
        }
        at = one_past(at);
    }
    SCREENS
}

// A deal: one advance for the next running screen; reports the screen to try first next time, and whether it finished.
pub fn whatif_screens_deal(
    records: &mut [u8],
    first: u32,
    plan: &[u8],
    rules: &[u8],
    node_table: &[u16],
    state_table: &[u8],
    next: &mut u32,
    finished: &mut u32,
) -> u32
    ensures { ScreensDealExported records.old
        (screens.deal first
        (inputs_of plan.now rules.now node_table.now state_table.now))
        result records.new next.old next.new
        finished.old finished.new }
{
    if records.len() != RUN_BYTES {
        return Refusal::Screen.number() as u32;
    }
    if first > LAST {
        return Refusal::Screen.number() as u32;
    }
    let i = next_running(records, first as usize);
    if i > LAST_SCREEN {
        return Refusal::SessionState.number() as u32;
    }
    let number = whatif_advance(
        &mut records[RECORD_BYTES * i..RECORD_BYTES * i + RECORD_BYTES],
        plan,
        rules,
        node_table,
        state_table,
        finished,
    );
    if number != 0 {
        return number;
    }
    *next = one_past(i) as u32;
    0
}
