// The session's five calls on record bytes.
ghost use Rattle.std.specs.Prelude.{◌≡◌, length};
ghost use Rattle.model.specs.Calls as calls;
ghost use Rattle.records.specs.Layout.{record_length};
ghost use Rattle.formats.specs.Inputs.{inputs_of};
ghost use Rattle.capi_session.specs.SessionExported.{CallExported, LoadExported, StartExported, AdvanceExported, ReadExported};
ghost use Rattle.capi_session.specs.Stored.{DoneStored, StartStored, AdvanceArgs, AdvanceStored, ReadStored, places};

use capi::numbers::bit;
use formats::refusals::Refusal;
use records::bytes::{decode, encode, encode_step, laid_out};
use session::answers::{AdvanceStep, Called, Outcome, Progress, Started};

// Stores the record of an accepted Load or Cancel; returns the answer's number.
fn store_done(out: Called, rec: &mut [u8]) -> u32
    requires { length rec.old ≡ record_length }
    ensures { DoneStored out rec.old result rec.new }
{
    let answer = out.answer;
    match answer {
        Ok(()) => {
            let next = out.session;
            encode(next, rec);
            0
        }
        Err(refusal) => refusal.number() as u32,
    }
}

// Load: a plan and rules for the session, and their tables.
pub fn whatif_load(
    rec: &mut [u8],
    plan: &[u8],
    rules: &[u8],
    node_table: &mut [u16],
    state_table: &mut [u8],
) -> u32
    ensures { LoadExported rec.old
        (inputs_of plan.now rules.now node_table.old state_table.old)
        result rec.new node_table.new state_table.new }
{
    if !laid_out(rec) {
        return Refusal::SessionState.number() as u32;
    }
    let s = decode(rec);
    let out = s.load(plan, rules, node_table, state_table);
    store_done(out, rec)
}

// Cancel: the question is forgotten, the last finished answer kept.
pub fn whatif_cancel(rec: &mut [u8]) -> u32
    ensures { CallExported rec.old calls.cancel result rec.new }
{
    if !laid_out(rec) {
        return Refusal::SessionState.number() as u32;
    }
    let s = decode(rec);
    let out = s.cancel();
    store_done(out, rec)
}

// Stores the record of an accepted Start and reports its parts; returns the answer's number.
fn store_started(out: Started, rec: &mut [u8], parts: &mut u32) -> u32
    requires { length rec.old ≡ record_length }
    ensures { StartStored out rec.old parts.old result rec.new parts.new }
{
    let answer = out.answer;
    match answer {
        Ok(p) => {
            let next = out.session;
            encode(next, rec);
            *parts = p as u32;
            0
        }
        Err(refusal) => refusal.number() as u32,
    }
}

// Start: a question about a list of changes.
pub fn whatif_start(
    rec: &mut [u8],
    plan: &[u8],
    rules: &[u8],
    node_table: &[u16],
    state_table: &[u8],
    nodes: &[u16],
    labels: &[u8],
    parts: &mut u32,
) -> u32
    ensures { StartExported rec.old
        (calls.start (inputs_of plan.now rules.now node_table.now state_table.now)
        nodes.now labels.now)
        result rec.new parts.old parts.new }
{
    if !laid_out(rec) {
        return Refusal::SessionState.number() as u32;
    }
    let s = decode(rec);
    let out = s.start(plan, rules, node_table, state_table, nodes, labels);
    store_started(out, rec, parts)
}

// Stores what an accepted advance of part `at` alters and reports whether it finished; returns the answer's number.
// List, roots and the other states stay as they are, so their bytes are not written again.
fn store_advanced(step: AdvanceStep, at: usize, rec: &mut [u8], finished: &mut u32) -> u32
    requires { AdvanceArgs step at rec.old }
    ensures { AdvanceStored step at rec.old finished.old result rec.new finished.new }
{
    let answer = step.answer;
    match answer {
        Ok(progress) => {
            encode_step(step.head, at, step.state, rec);
            match progress {
                Progress::More => *finished = 0,
                Progress::Finished => *finished = 1,
            }
            0
        }
        Err(refusal) => refusal.number() as u32,
    }
}

// Advance: one more part.
pub fn whatif_advance(
    rec: &mut [u8],
    plan: &[u8],
    rules: &[u8],
    node_table: &[u16],
    state_table: &[u8],
    finished: &mut u32,
) -> u32
    ensures { AdvanceExported rec.old
        (calls.advance (inputs_of plan.now rules.now node_table.now state_table.now))
        result rec.new finished.old finished.new }
{
    if !laid_out(rec) {
        return Refusal::SessionState.number() as u32;
    }
    let s = decode(rec);
    let step = s.advance_step(plan, rules, node_table, state_table);
    store_advanced(step, s.head.handled as usize, rec, finished)
}

// Reports the values of Read; returns the answer's number.
fn tell_read(
    answer: Result<Outcome, Refusal>,
    state: &mut u32,
    yes: &mut u32,
    parts: &mut u32,
    links: &mut u32,
    passed: &mut u32,
) -> u32
    ensures { ReadStored answer
        (places state.old yes.old parts.old links.old passed.old) result
        (places state.new yes.new parts.new links.new passed.new) }
{
    match answer {
        Ok(o) => {
            *state = o.state as u32;
            *yes = bit(o.yes);
            *parts = o.parts as u32;
            *links = o.links;
            *passed = o.passed;
            0
        }
        Err(refusal) => refusal.number() as u32,
    }
}

// Read: the last finished answer.
pub fn whatif_read(
    rec: &[u8],
    state: &mut u32,
    yes: &mut u32,
    parts: &mut u32,
    links: &mut u32,
    passed: &mut u32,
) -> u32
    ensures { ReadExported rec.now result
        (places state.old yes.old parts.old links.old passed.old)
        (places state.new yes.new parts.new links.new passed.new) }
{
    if !laid_out(rec) {
        return Refusal::SessionState.number() as u32;
    }
    let s = decode(rec);
    let answer = s.read();
    tell_read(answer, state, yes, parts, links, passed)
}
