// The product of two tree automata and its run, as definitions (specs/) and laws (proofs/), and what is asked of it:
//     merging              one table that clears what both clear (S-6)
//     agreement            whether both clear the same plans (S-13)
//     agreement/reachable  the search over the states that the product reaches
#![tactic(auto)]

pub mod agreement;
pub mod merging;
