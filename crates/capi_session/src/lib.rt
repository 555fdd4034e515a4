// The functions that C and Rust call, the session's calls. Each is thin over a call of the layers below: its result is
// the answer's number, 0 where it is accepted; the output parameters are written only on success. Crate capi_session_c
// exports them.
#![tactic(auto)]

pub mod calls;
