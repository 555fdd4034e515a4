// How many choices end in each state, part by part, for any inputs (document 02, S-10).
pub mod carry;
mod fork;
pub mod limit;
pub mod root;
pub mod side;
