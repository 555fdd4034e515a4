// From the rows of costs to the labels that are shown: the root's state, then the choices down the tree.
//     search   the first way into a state at its cost
//     root     the root's least cost and its state
//     labels   the pass down
pub mod labels;
pub mod root;
pub mod search;
