// The state that a climb or a part ends in, the links that led to it, and the nodes that they passed over.
#[derive(Clone, Copy)]
pub struct Reached {
    pub state: u8,
    pub links: u32,
    pub passed: u32,
}

// What a climb or a part ends in; or that a value read led outside the plan, the states or the labels, or that a climb
// did not rise.
#[derive(Clone, Copy)]
pub enum Climbed {
    Reached(Reached),
    OutOfRange,
}
