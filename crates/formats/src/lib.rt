// Plans, rule tables, branch tables and lists of changes as bytes: checks 2 to 14, and 17.
//     refusals the refusals of all calls
//     limits   the limits of document 01
//     layout   lengths of headers, columns of the node table
//     bytes    numbers in bytes
//     plan     checks 2 to 5
//     eight    eight kinds of a plan at a time
//     rules    checks 6 to 9 of a rule table
//     branch   checks 6 to 9 of a branch table
//     lists    checks 12 to 14, and 15 as a test
//     inputs   the checks of whole calls, 10 and 11 among them
//     buffers  check 17
// A check fails with the refusal of the first test that fails.
#![tactic(auto)]

mod branch;
pub mod buffers;
pub mod bytes;
mod eight;
pub mod inputs;
pub mod layout;
pub mod limits;
pub mod lists;
pub mod plan;
pub mod refusals;
pub mod rules;
