// The answer of a whole question: the state of the plan's root, whether it is marked, the parts, the links and the
// nodes passed over, in the order of Read.
#[derive(Clone, Copy)]
pub struct Asked {
    pub state: u8,
    pub marked: bool,
    pub parts: u32,
    pub links: u32,
    pub passed: u32,
}
