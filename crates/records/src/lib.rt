// The session's record as bytes: docs/LAYOUT.md, "The record", layout version 3.
//     numbers  runs of numbers of two bytes
//     layout   where each run of the record's bytes begins
//     bytes    the record's bytes, the bytes' record, and whether bytes are a record
#![tactic(auto)]

pub mod bytes;
pub mod layout;
mod numbers;
