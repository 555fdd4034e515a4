// The session's record, its limits and the fresh one.
//     Phase     which of the four states a session is in
//     Sizes     N, S and K
//     Last      the last finished answer
//     Head      the record without its arrays. Fields that a later version adds to the record go here
//     Session   the record
ghost use Rattle.std.specs.Prelude.{◌≡◌};
ghost use Rattle.session.specs.Records.{LimitsAre, fresh_session, idle_session, no_last};

use crate::answers::Outcome;
use formats::limits;
use formats::limits::{CHANGE_LIMIT, PART_LIMIT};

// Which of the four states a session is in.
#[derive(Clone, Copy)]
pub enum Phase {
    Empty,
    Loaded,
    Running,
    Answered,
}

// N, S and K: how many nodes, states and labels there are.
#[derive(Clone, Copy)]
pub struct Sizes {
    pub n: u16,
    pub s: u8,
    pub k: u8,
}

// The last finished answer, and whether there is one; all zero where there is none.
#[derive(Clone, Copy)]
pub struct Last {
    pub present: bool,
    pub outcome: Outcome,
}

// The record without its arrays: the state, the yes or no once answered, N, S and K, how many changes are listed, how
// many parts there are, how many are handled, the links and the nodes passed over so far, and the last finished answer.
// Tests take it beside references to the arrays, so that the record is not copied for them.
#[derive(Clone, Copy)]
pub struct Head {
    pub phase: Phase,
    pub yes: bool,
    pub sizes: Sizes,
    pub m: u8,
    pub parts: u8,
    pub handled: u8,
    pub links: u32,
    pub passed: u32,
    pub last: Last,
}

// The session's record: its head, the changes as listed, the roots of the parts and the states of the parts handled so far.
// Unused entries are zero.
#[derive(Clone, Copy)]
pub struct Session {
    pub head: Head,
    pub nodes: [u16; CHANGE_LIMIT],
    pub labels: [u8; CHANGE_LIMIT],
    pub roots: [u16; PART_LIMIT],
    pub states: [u8; PART_LIMIT],
}

// The limits of document 01, and a fresh session. Their values are promised by `fresh`, and the record is tested by them.
impl Session {
    pub const NODE_LIMIT: usize = limits::NODE_LIMIT;

    pub const STATE_LIMIT: usize = limits::STATE_LIMIT;

    pub const LABEL_LIMIT: usize = limits::LABEL_LIMIT;

    pub const CHANGE_LIMIT: usize = limits::CHANGE_LIMIT;

    // A session with nothing loaded.
    pub fn fresh() -> Session
        ensures value { result ≡ fresh_session }
        ensures limits { LimitsAre Session.NODE_LIMIT Session.STATE_LIMIT Session.LABEL_LIMIT Session.CHANGE_LIMIT }
    {
        let sizes = Sizes { n: 0, s: 0, k: 0 };
        let last = no_last();
        idle(Phase::Empty, sizes, last)
    }
}

// No finished answer.
pub fn no_last() -> Last
    ensures { result ≡ no_last }
{
    let outcome = Outcome {
        state: 0,
        yes: false,
        parts: 0,
        links: 0,
        passed: 0,
    };
    Last {
        present: false,
        outcome,
    }
}

// A session with no question, and the last finished answer as given.
pub fn idle(phase: Phase, sizes: Sizes, last: Last) -> Session
    ensures { result ≡ idle_session phase sizes last }
{
    let head = Head {
        phase,
        yes: false,
        sizes,
        m: 0,
        parts: 0,
        handled: 0,
        links: 0,
        passed: 0,
        last,
    };
    Session {
        head,
        nodes: [0u16; CHANGE_LIMIT],
        labels: [0u8; CHANGE_LIMIT],
        roots: [0u16; PART_LIMIT],
        states: [0u8; PART_LIMIT],
    }
}
