// Controls of the reference model that take long to compute (proofs/). They are not in its crate, so that a wrong
// answer tried on the model does not pay for them. No code is here.
#![tactic(auto)]
