// Branch tables: their build, their full check, and the branch question.
#![tactic(auto)]

pub mod answers;
pub mod ask;
pub mod build;
pub mod check;
mod check_maps;
mod check_steps;
mod maps;
mod steps;
