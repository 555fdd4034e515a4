// The rule question by colours, for any inputs: superseding and equal labels as in the session.
pub mod answers;
pub mod ask;
mod checks;
mod parts;
