// The reference model (the panel book of document 01) and the statement about every list of calls, as definitions
// (specs/) and laws (proofs/). No code is here.
#![tactic(auto)]
