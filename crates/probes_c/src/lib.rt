// What the bench and the comparison call: an export for each probe of crate probes, with the same clauses.
#![tactic(auto)]

pub mod eight;
pub mod layers;
pub mod whole;
