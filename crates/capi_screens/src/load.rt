// Load of eight screens: refused where any runs or is no record; else one build with its checks, and all eight
// records are as after a first Load of that plan.
ghost use Rattle.std.specs.Prelude.{◌≡◌, not, ◌||◌, eqb, length, get_or, take};
ghost use Rattle.list_laws.specs.Rows.{rows};
ghost use Rattle.formats.specs.Inputs.{inputs_of};
ghost use Rattle.records.specs.Layout.{record_length, valid_bytes};
ghost use Rattle.screens.specs.ScreenCalls.{any_runs};
ghost use Rattle.capi_screens.specs.RunLayout.{run_length, busy};
ghost use Rattle.capi_screens.specs.ScreensExported.{ScreensLoadExported};

use crate::calls::RUN_BYTES;
use capi_session::calls::whatif_load;
use formats::refusals::Refusal;
use records::bytes::valid_bytes;
use records::layout::RECORD_BYTES;
use screens::SCREENS;

// Whether a screen may not be loaded: it runs, or its bytes are no record.
fn is_busy(rec: &[u8]) -> bool
    ensures { result ≡ (not (valid_bytes rec.now) || eqb (get_or rec.now 0 0) 2) }
{
    if !valid_bytes(rec) {
        return true;
    }
    rec[0] == 2
}

// Whether any of the eight is busy.
fn any_busy(records: &[u8]) -> bool
    requires { length records.now ≡ run_length }
    ensures { result ≡ any_runs 8 (busy records.now) }
{
    for i in (0..SCREENS).rev() {
        let at = RECORD_BYTES * i;
        if is_busy(&records[at..at + RECORD_BYTES]) {
            return true;
        }
    }
    false
}

// Copies the first record over the other seven.
fn copy_first(records: &mut [u8])
    requires { length records.old ≡ run_length }
    ensures { records.new ≡ rows 8 (λ i. take record_length records.old) }
{
    for at in RECORD_BYTES..records.len() {
        records[at] = records[at - RECORD_BYTES];
    }
}

// Load: a plan and rules for the eight screens, and their tables; tells 0, the screen to try first.
pub fn whatif_screens_load(
    records: &mut [u8],
    plan: &[u8],
    rules: &[u8],
    node_table: &mut [u16],
    state_table: &mut [u8],
    next: &mut u32,
) -> u32
    ensures { ScreensLoadExported records.old
        (inputs_of plan.now rules.now node_table.old state_table.old)
        result records.new node_table.new state_table.new next.old
        next.new }
{
    if records.len() != RUN_BYTES {
        return Refusal::Screen.number() as u32;
    }
    if any_busy(records) {
        return Refusal::SessionState.number() as u32;
    }
    let number = whatif_load(
        &mut records[..RECORD_BYTES],
        plan,
        rules,
        node_table,
        state_table,
    );
    if number != 0 {
        return number;
    }
    copy_first(records);
    *next = 0;
    0
}
