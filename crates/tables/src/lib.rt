// Tables for rule tables: their build, and what branch tables share with them; and the climbs: with a state over a rule
// table (climb), with remembered moves over a branch table (replays). Not here: the full check (table_checks).
//     node_tables  parent, jump, depth and size of each node: build, full check, one move of a climb
#![tactic(auto)]

pub mod answers;
pub mod build;
pub mod climb;
pub mod compare;
pub mod lookups;
mod maps;
pub mod node_tables;
mod pair_rows;
pub mod replays;
pub mod rows;
mod states;
mod tables;
