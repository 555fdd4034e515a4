// What the calls answer, and what an advance finds.
use crate::state::{Head, Session};
use formats::refusals::Refusal;

// Whether there is more after an advance.
#[derive(Clone, Copy)]
pub enum Progress {
    More,
    Finished,
}

// What Read returns of a finished question: the root's state, the yes or no, the number of parts, the links of all
// climbs and the nodes that they passed over.
#[derive(Clone, Copy)]
pub struct Outcome {
    pub state: u8,
    pub yes: bool,
    pub parts: u8,
    pub links: u32,
    pub passed: u32,
}

// What Load or Cancel answers, with the record that the call leaves.
#[derive(Clone, Copy)]
pub struct Called {
    pub answer: Result<(), Refusal>,
    pub session: Session,
}

// The same of Start: the number of parts.
#[derive(Clone, Copy)]
pub struct Started {
    pub answer: Result<u8, Refusal>,
    pub session: Session,
}

// The same of an advance.
#[derive(Clone, Copy)]
pub struct Advanced {
    pub answer: Result<Progress, Refusal>,
    pub session: Session,
}

// What an advance finds: its answer, the record's head after it, whether it stores a state, and which.
#[derive(Clone, Copy)]
pub struct AdvanceStep {
    pub answer: Result<Progress, Refusal>,
    pub head: Head,
    pub stored: bool,
    pub state: u8,
}
