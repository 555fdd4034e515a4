// The functions that C and Rust call of questions by colours (document 02, S-14). Each is thin over a call of the layers
// below: its result is the answer's number, 0 where it is accepted, and its outputs are written only on success.
// Crate capi_colours_c exports them.
//     branch_calls  branch questions by colours: whatif_colour_branch_build, whatif_colour_branch,
//                   whatif_colour_branch_with_upper
//     rule_calls    rule questions by colours: whatif_colour_build, whatif_colour_ask
#![tactic(auto)]

pub mod branch_calls;
pub mod rule_calls;
