// What C calls of eight screens, on a run of eight records: an export for each call of crate capi_screens, with the same
// clauses.
#![tactic(auto)]

pub mod calls;
pub mod load;
