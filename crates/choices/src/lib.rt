// How many choices of labels end in each state, on any tables (document 02, S-10).
//     assignments      counts of assignments, by trying all and part by part: definitions and laws
//     node_counts      the counts of a node from those of its children
//     part_steps       the steps of one part: its root, climbs and forks
//     question_counts  the counts of all parts, as definitions, and what they are on tables as built
#![tactic(auto)]

mod checks;
pub mod count;
pub mod node_counts;
mod part;
pub mod part_steps;
mod parts;
