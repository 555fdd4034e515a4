// Which word a branch question reads: with the upper node's label, or from below the upper node.
#[derive(Clone, Copy)]
pub enum Reading {
    WithUpper,
    BelowUpper,
}

// The state at the end of a word, whether it is marked, the links of the climb, and the nodes that it passed over.
#[derive(Clone, Copy)]
pub struct Branched {
    pub state: u8,
    pub marked: bool,
    pub links: u32,
    pub passed: u32,
}
