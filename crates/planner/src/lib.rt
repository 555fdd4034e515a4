// The bridge planner's files: definitions (specs/), their laws (proofs/), and the conversions. Their header is that of
// a plan.
//     out   from a planner's file to our plan
//     home  from our plan to the planner's file
#![tactic(auto)]

pub mod home;
pub mod out;

use formats::limits::{LABEL_LIMIT, NODE_LIMIT};

// The label of an empty list: the last one that a rule table can have.
pub const EMPTY_LABEL: u8 = (LABEL_LIMIT - 1) as u8;

// The most nodes of a planner's file: n of them become 2 n + 1.
pub const FILE_LIMIT: usize = (NODE_LIMIT - 1) / 2;
