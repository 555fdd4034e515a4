// Whole questions, outside the session: every part of a list of changes in one call, for any inputs.
#![tactic(auto)]

pub mod answers;
pub mod ask;
mod checks;
mod parts;
