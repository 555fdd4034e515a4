// What a question is: the roots of its parts and the state and links of each part, on the caller's tables.
//     ready          the ready set and the state of each part, as definitions and laws
//     changed_roots  the roots of the parts of a list of changes
#![tactic(auto)]

pub mod changed_roots;
pub mod fits;
mod gap;
pub mod part;
mod rising;
pub mod roots;
pub mod scan;
mod search;
