// Rule questions by colours: the tables of colours of a plan and a rule table with at most four states.
pub mod build;
mod fill;
