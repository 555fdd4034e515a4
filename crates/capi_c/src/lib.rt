// What C calls of tables, lists, files and choices: an export for each function of crate capi that it calls, with the
// same clauses.
#![tactic(auto)]

pub mod allowed_calls;
pub mod branch_calls;
pub mod choice_calls;
pub mod list_calls;
pub mod planner_calls;
pub mod product_calls;
pub mod table_calls;
pub mod version;
