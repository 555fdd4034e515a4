// The full check of rule tables, by pairs: every test of a node's two children is made at their parent, and no test
// ends a block of nodes. Not here: the full check of branch tables (branches).
#![tactic(auto)]

mod blocks;
pub mod check;
mod compare;
mod differences;
mod listed;
mod places;
mod rows;
mod rows16;
mod rows2;
mod siblings;
