// What C calls of questions by colours: an export for each function of crate capi_colours that it calls, with the same
// clauses.
#![tactic(auto)]

pub mod branch_calls;
pub mod rule_calls;
