// The tables of colours: their definition (specs/) and their build.
//     rows        a row: colours taking states in turn
//     states      the states of the colours at each node
//     forests     parents, jumps and depths among the nodes where a colour falls
//     sets        sets of at most four states as bits of a byte, and a step down of one
//     set_states  the sets of the colours at each node
//     branch      the build for a branch table
//     rule        the build for a rule table
#![tactic(auto)]

pub mod branch;
pub mod forests;
pub mod rows;
pub mod rule;
pub mod set_states;
pub mod sets;
pub mod states;
