// What a player was told: the answer to one guess.
#[derive(Clone, Copy, PartialEq, Eq, Debug)]
pub struct Hint {
    pub guess: u32,
    pub answer: u8,
}
