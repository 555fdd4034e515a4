// What a fresh run ends in: the root's state and whether it is accepted.
#[derive(Clone, Copy)]
pub struct Verdict {
    pub state: u8,
    pub accepted: bool,
}
