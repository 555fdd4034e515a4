// The labels that each node may take: the pass up, the pass down, and the call.
pub mod call;
mod down;
mod up;
