// The states that lead from a node to its parent: what a step down over sets of states reads; and the pass that writes
// the sets of the colours at each node.
pub mod above;
pub mod down;
pub mod sets;
