// Sets of states, and of labels, as the bits of a number: definitions (specs/), their laws (proofs/), and the set of a
// table's positions whose entries are in a set.
//     gather   that set, by shifts and masks
#![tactic(auto)]

pub mod gather;
