// The front door: what is claimed of the what-if checker, by name (proofs/Main.antt). No code of the program is here.
#![tactic(auto)]
