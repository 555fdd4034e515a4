// Work below the exported calls, for the bench and the comparison alone: no part of the library that ships.
// Crate probes_c exports the probes.
//     eight   the calls on eight screens in place, run, and a life of eight screens
//     layers  the roots of a question and one part
//     places  the calls in place, run
//     whole   Start, advances, a whole question and a whole life of a session in place, without the record's bytes
#![tactic(auto)]

pub mod eight;
pub mod layers;
pub mod places;
pub mod whole;
