// The answer of a rule question by colours: the state of the plan's root, whether it is marked, the drops, the links
// and the parts.
#[derive(Clone, Copy)]
pub struct RuleAsked {
    pub state: u8,
    pub marked: bool,
    pub drops: u32,
    pub links: u32,
    pub parts: u32,
}
