// What C calls of the session, on a record's bytes: an export for each call of crate capi_session, with the same clauses.
#![tactic(auto)]

pub mod calls;
