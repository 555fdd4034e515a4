// The fewest changes for each state of a node: one row of costs, of a leaf, and of an inner node from its children's.
//     relax    an inner node's row, way by way
//     images   the states that all labels give, as sets
//     leaves   a leaf's row
pub mod images;
pub mod leaves;
pub mod relax;

// The cost that stands for "no way": no plan has so many nodes.
pub const NO_WAY: u32 = 65536;
