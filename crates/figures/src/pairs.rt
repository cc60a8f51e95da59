// Black and white as a pair, and the answer that stands for it.
ghost use Rattle.std.specs.Prelude.{◌≡◌};
ghost use Rattle.rule.specs.Pegs.{possible};

use std::{array, fmt};

#[derive(Clone, Copy, PartialEq, Eq)]
pub struct Pair {
    pub black: u8,
    pub white: u8,
}

impl fmt::Display for Pair {
    fn fmt<W: fmt::Write>(&self, f: &mut fmt::Formatter<W>) -> fmt::Result {
        let black = self.black;
        let white = self.white;
        write!(f, "{black} black {white} white")
    }
}

// All pairs of up to six black and six white, by rising black and then white.
fn all_pairs() -> [Pair; 49] {
    array::from_fn(|at| Pair {
        black: (at / 7) as u8,
        white: (at % 7) as u8,
    })
}

impl Pair {
    // Whether so many pegs can be answered so. With all but one peg in place, the last cannot be of a right colour elsewhere.
    fn can_come(self, pegs: u32) -> bool
        ensures { result ≡ possible pegs (self.black, self.white) }
    {
        let placed = u32::from(self.black);
        let elsewhere = u32::from(self.white);
        placed + elsewhere <= pegs && !(placed + 1 == pegs && elsewhere == 1)
    }

    // The answer that stands for this pair, if it can come: how many pairs that can come are before it.
    pub(crate) fn answer(self, pegs: u32) -> Option<u8> {
        let before = all_pairs()
            .into_iter()
            .filter(|pair| pair.can_come(pegs))
            .position(|pair| pair == self)?;
        u8::try_from(before).ok()
    }

    // The pair that an answer stands for; none where it is no answer.
    pub(crate) fn of_answer(pegs: u32, answer: u8) -> Option<Pair> {
        all_pairs()
            .into_iter()
            .filter(|pair| pair.can_come(pegs))
            .nth(usize::from(answer))
    }
}
