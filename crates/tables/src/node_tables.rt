// The table of links, each node's parent, jump, depth and size: its build, its full check, one move of a climb on it.
pub mod blocks;
pub mod build;
pub mod check;
pub mod down;
pub mod jump_lengths;
pub mod moves;
mod up;
