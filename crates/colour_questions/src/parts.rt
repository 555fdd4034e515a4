// The parts of a rule question by colours, for any inputs.
pub mod part;
