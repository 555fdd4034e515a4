// Trees, automata, jumps, climbs and tables as definitions (specs/) and their laws (proofs/). No code of the program is here.
#![tactic(auto)]
