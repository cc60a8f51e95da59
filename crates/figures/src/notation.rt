// Rows of pegs as print shows them: a sign for each peg, the signs of the colours in a row from the first on.
use crate::pairs::Pair;
use fault::Fault;
use rule::{AnswerRule, Pegs};

// A game of pegs, and the sign of its first colour.
#[derive(Clone, Copy)]
pub struct PegGame {
    pub rule: Pegs,
    pub pegs: u32,
    pub colours: u32,
    pub first: u8,
}

impl PegGame {
    pub(crate) fn new(pegs: u32, colours: u32, repeats: bool, first: u8) -> Result<PegGame, Fault> {
        Ok(PegGame {
            rule: Pegs::new(pegs, colours, repeats)?,
            pegs,
            colours,
            first,
        })
    }

    // The number that a printed row stands for. Text that is no row of the game gives a number that is not one either.
    pub(crate) fn number(&self, row: &str) -> u32 {
        row.bytes()
            .map(|sign| u32::from(sign.wrapping_sub(self.first)))
            .fold(0, |number: u32, colour| {
                number.saturating_mul(self.colours).saturating_add(colour)
            })
    }

    pub(crate) fn answer(&self, code: &str, guess: &str) -> u8 {
        self.rule.answer(self.number(code), self.number(guess))
    }

    // What an answer of this game stands for.
    pub(crate) fn pair(&self, answer: u8) -> Option<Pair> {
        Pair::of_answer(self.pegs, answer)
    }
}
