// The record's bytes, the bytes' record, and whether bytes are a record.
ghost use Rattle.std.specs.Prelude.{◌≡◌, cond, eqb, ◌<◌, length, set};
ghost use Rattle.formats.specs.Limits.{part_limit};
ghost use Rattle.records.specs.Layout.{head_length, last_length, record_length, phase_byte, phase_at, yes_byte};
ghost use Rattle.records.specs.Layout.{head_bytes, last_bytes, step_bytes, encoded};
ghost use Rattle.records.specs.Layout.{decoded_head, decoded_last, decoded, laid_out, valid_bytes};

use crate::layout::{
    HEAD_BYTES, LABELS_AT, LAST_AT, LAST_YES_AT, NODES_AT, PASSED_AT, RECORD_BYTES, ROOTS_AT,
    STATES_AT,
};
use crate::numbers::{get_numbers, number16, number32, put_numbers};
use formats::limits::{CHANGE_LIMIT, PART_LIMIT};
use session::answers::Outcome;
use session::state::{Head, Last, Phase, Session, Sizes};

// The number of a state.
fn phase_byte(phase: Phase) -> u8
    ensures { result ≡ phase_byte phase }
{
    match phase {
        Phase::Empty => 0,
        Phase::Loaded => 1,
        Phase::Running => 2,
        Phase::Answered => 3,
    }
}

// The state of a number.
fn phase_at(number: u8) -> Phase
    ensures { result ≡ phase_at number }
{
    if number == 0 {
        return Phase::Empty;
    }
    if number == 1 {
        return Phase::Loaded;
    }
    if number == 2 {
        return Phase::Running;
    }
    Phase::Answered
}

// A yes or no as a number.
fn yes_byte(yes: bool) -> u8
    ensures { result ≡ yes_byte yes }
{
    u8::from(yes)
}

// The finished answer of a record's last 16 bytes.
fn decode_last(bytes: &[u8]) -> Last
    requires { length bytes.now ≡ last_length }
    ensures { result ≡ decoded_last bytes.now }
{
    let outcome = Outcome {
        state: bytes[1],
        yes: bytes[2] == 1,
        parts: bytes[3],
        links: number32(bytes, 4),
        passed: number32(bytes, 12),
    };
    Last {
        present: bytes[0] == 1,
        outcome,
    }
}

// The head of a record's first 13 bytes and of its last 16.
fn decode_head(bytes: &[u8]) -> Head
    requires { length bytes.now ≡ record_length }
    ensures { result ≡ decoded_head bytes.now }
{
    let sizes = Sizes {
        n: number16(bytes, 4),
        s: bytes[2],
        k: bytes[3],
    };
    Head {
        phase: phase_at(bytes[0]),
        yes: bytes[1] == 1,
        sizes,
        m: bytes[6],
        parts: bytes[7],
        handled: bytes[8],
        links: number32(bytes, 9),
        passed: number32(bytes, PASSED_AT),
        last: decode_last(&bytes[LAST_AT..RECORD_BYTES]),
    }
}

// The struct of 983 bytes.
pub fn decode(bytes: &[u8]) -> Session
    requires { length bytes.now ≡ record_length }
    ensures { result ≡ decoded bytes.now }
{
    let mut nodes = [0u16; CHANGE_LIMIT];
    get_numbers(&bytes[NODES_AT..LABELS_AT], &mut nodes);
    let mut labels = [0u8; CHANGE_LIMIT];
    labels.copy_from_slice(&bytes[LABELS_AT..ROOTS_AT]);
    let mut roots = [0u16; PART_LIMIT];
    get_numbers(&bytes[ROOTS_AT..STATES_AT], &mut roots);
    let mut states = [0u8; PART_LIMIT];
    states.copy_from_slice(&bytes[STATES_AT..LAST_AT]);
    let head = decode_head(bytes);
    Session {
        head,
        nodes,
        labels,
        roots,
        states,
    }
}

// The first 13 bytes of a record.
fn put_head(h: Head, out: &mut [u8])
    requires { length out.old ≡ head_length }
    ensures { out.new ≡ head_bytes h }
{
    let phase = h.phase;
    out[0] = phase_byte(phase);
    out[1] = yes_byte(h.yes);
    out[2] = h.sizes.s;
    out[3] = h.sizes.k;
    out[4] = (h.sizes.n % 256) as u8;
    out[5] = (h.sizes.n / 256 % 256) as u8;
    out[6] = h.m;
    out[7] = h.parts;
    out[8] = h.handled;
    out[9] = (h.links % 256) as u8;
    out[10] = (h.links / 256 % 256) as u8;
    out[11] = (h.links / 65536 % 256) as u8;
    out[12] = (h.links / 16777216 % 256) as u8;
}

// The last 16 bytes of a record.
fn put_last(h: Head, out: &mut [u8])
    requires { length out.old ≡ last_length }
    ensures { out.new ≡ last_bytes h }
{
    let o = h.last.outcome;
    out[0] = yes_byte(h.last.present);
    out[1] = o.state;
    out[2] = yes_byte(o.yes);
    out[3] = o.parts;
    out[4] = (o.links % 256) as u8;
    out[5] = (o.links / 256 % 256) as u8;
    out[6] = (o.links / 65536 % 256) as u8;
    out[7] = (o.links / 16777216 % 256) as u8;
    out[8] = (h.passed % 256) as u8;
    out[9] = (h.passed / 256 % 256) as u8;
    out[10] = (h.passed / 65536 % 256) as u8;
    out[11] = (h.passed / 16777216 % 256) as u8;
    out[12] = (o.passed % 256) as u8;
    out[13] = (o.passed / 256 % 256) as u8;
    out[14] = (o.passed / 65536 % 256) as u8;
    out[15] = (o.passed / 16777216 % 256) as u8;
}

// The bytes of a record. A buffer that has not 983 bytes is left as it is.
pub fn encode(rec: Session, out: &mut [u8])
    ensures { out.new ≡ cond (eqb (length out.old) record_length) (encoded rec) out.old }
{
    if out.len() != RECORD_BYTES {
        return;
    }
    put_head(rec.head, &mut out[..HEAD_BYTES]);
    put_numbers(&rec.nodes, &mut out[NODES_AT..LABELS_AT]);
    out[LABELS_AT..ROOTS_AT].copy_from_slice(&rec.labels);
    put_numbers(&rec.roots, &mut out[ROOTS_AT..STATES_AT]);
    out[STATES_AT..LAST_AT].copy_from_slice(&rec.states);
    put_last(rec.head, &mut out[LAST_AT..RECORD_BYTES]);
}

// The state of one part.
fn put_state(at: usize, state: u8, out: &mut [u8])
    requires { at < length out.old }
    ensures { out.new ≡ set out.old at state }
{
    out[at] = state;
}

// What an advance alters of a record's bytes: the first 13, the state of one part and the last 16. A buffer that has not 983 bytes is
// left as it is.
pub fn encode_step(h: Head, at: usize, state: u8, out: &mut [u8])
    requires { at < part_limit }
    ensures { out.new ≡ cond (eqb (length out.old) record_length) (step_bytes h at state out.old)
        out.old }
{
    if out.len() != RECORD_BYTES {
        return;
    }
    put_head(h, &mut out[..HEAD_BYTES]);
    put_state(at, state, &mut out[STATES_AT..LAST_AT]);
    put_last(h, &mut out[LAST_AT..RECORD_BYTES]);
}

// Whether there are 983 bytes, the state is at most 3, and both yes or no and whether an answer is kept are at most 1.
pub fn laid_out(bytes: &[u8]) -> bool
    ensures { result ≡ laid_out bytes.now }
{
    if bytes.len() != RECORD_BYTES {
        return false;
    }
    let own = (bytes[0] <= 3) & (bytes[1] <= 1);
    let kept = (bytes[LAST_AT] <= 1) & (bytes[LAST_YES_AT] <= 1);
    own & kept
}

// Whether bytes are a record.
pub fn valid_bytes(bytes: &[u8]) -> bool
    ensures { result ≡ valid_bytes bytes.now }
{
    if !laid_out(bytes) {
        return false;
    }
    decode(bytes).valid()
}
