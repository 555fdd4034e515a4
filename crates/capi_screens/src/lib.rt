// The functions that C and Rust call, eight screens on one mill: each is thin over a session's call on one of the eight
// records. Its result is the answer's number, 0 where it is accepted; the output parameters are written only on
// success. Crate capi_screens_c exports them.
#![tactic(auto)]

pub mod calls;
pub mod load;
