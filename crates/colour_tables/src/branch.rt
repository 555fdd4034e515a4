// Branch questions by colours: the tables of colours of a plan and a branch table, and the question on them.
pub mod build;
mod fill;
