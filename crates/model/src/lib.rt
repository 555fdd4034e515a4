// The model of the session: its calls, refusals and record, what each call does, and what it leaves to the program, as definitions
// (specs/) and laws (proofs/). No code is here.
#![tactic(auto)]
