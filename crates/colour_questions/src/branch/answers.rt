// The answer of a branch question by colours: the state, whether it is marked, the drops and the links.
#[derive(Clone, Copy)]
pub struct ColourAsked {
    pub state: u8,
    pub marked: bool,
    pub drops: u32,
    pub links: u32,
}
