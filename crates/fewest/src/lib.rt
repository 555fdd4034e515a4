// The fewest changes that clear a plan, or that take its clearance, from plan and rules alone: for each node and state
// the least number of changes at and below it, by one pass up; then the labels that attain it, by one pass down.
//     run      the run over the plan as it is
//     rows     a node's row of costs
//     passes   the pass up
//     down     the root's state, and the pass down
//     list     the list of changes
//     call     the checks and the call
#![tactic(auto)]

pub mod call;
mod down;
mod list;
mod passes;
mod rows;
mod run;
