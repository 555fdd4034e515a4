// The panel session by value and in place: the record, and load, start, advance, cancel and read.
//     state    the record, its head, its limits and the fresh one
//     answers  what the calls answer, and what an advance finds
//     lists    tests of lists of numbers
//     valid    whether a struct can be a session's
//     may      check 1: which calls may be made
//     loaded   the record after a first Load
//     fill     lists in the record's arrays
//     load     Load
//     soundness  whether the inputs of Start are sound: its 18
//     start    Start
//     advance  advance
//     cancel   Cancel
//     read     Read
//     in_place  the same calls over &mut Session
#![tactic(auto)]

mod advance;
pub mod answers;
mod cancel;
mod fill;
pub mod in_place;
mod lists;
mod load;
mod loaded;
mod may;
mod read;
mod soundness;
mod start;
pub mod state;
mod valid;
