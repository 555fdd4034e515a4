// The functions that C and Rust call on tables, lists, files and choices, a module for each family of the header. Each
// is thin over a call of the layers below: its result is the answer's number, 0 where it is accepted, and its outputs
// are written only on success. Crate capi_c exports them.
//     numbers        answers as numbers
//     table_calls    build, full check, fresh run
//     branch_calls   branch tables and the branch question
//     list_calls     one list of changes laid over another
//     product_calls  two rule tables merged or compared
//     planner_calls  the planner's files
//     choice_calls   how many choices end in each state
//     allowed_calls  the labels that each node may take, and the states that clear
//     version        the library's version
#![tactic(auto)]

pub mod allowed_calls;
pub mod branch_calls;
pub mod choice_calls;
pub mod list_calls;
pub mod numbers;
pub mod planner_calls;
pub mod product_calls;
pub mod table_calls;
pub mod version;
