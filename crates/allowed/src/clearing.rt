// With which states of a node the plan is cleared: the pass up, the pass down, and the call.
//     cells   what the buffer holds between the passes
pub mod call;
mod cells;
mod down;
mod up;
