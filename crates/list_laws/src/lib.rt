// Tests and tables as lists (specs/), and the general laws of lists and Booleans (proofs/). No code of the program is here.
#![tactic(auto)]
