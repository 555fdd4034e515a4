// Which labels each node of a plan may take, and with which states of a node the plan is cleared: from plan and rules
// alone, by one pass up and one pass down in the output buffer itself.
//     check   the checks of both calls
//     sets    the states that lead into a set
//     masks   the labels that each node may take
//     clearing   the states with which the plan is cleared
#![tactic(auto)]

mod check;
pub mod clearing;
pub mod masks;
mod sets;
