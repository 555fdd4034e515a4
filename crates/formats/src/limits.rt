// The limits of document 01: "N 1 to 65,535; S 1 to 16; K 1 to 64; m, the changes in a list, 0 to 64."
pub const NODE_LIMIT: usize = 65535;

pub const STATE_LIMIT: usize = 16;

pub const LABEL_LIMIT: usize = 64;

pub const CHANGE_LIMIT: usize = 64;

// The parts of a question: m changes, 1 or more, give at most 4 m - 2.
pub const PART_LIMIT: usize = 4 * CHANGE_LIMIT - 2;
