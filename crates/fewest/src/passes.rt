// The pass over a plan that finds the fewest changes: the costs of each node's states, up.
//     cells   a node's row of the work space: its size, then its costs
//     up      the pass up
pub mod cells;
pub mod up;
