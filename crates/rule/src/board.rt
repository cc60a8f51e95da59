// Rows of coloured pegs, read from numbers and compared.
ghost use Rattle.std.specs.Prelude.{◌≡◌, ◌^◌, ◌<◌, ◌≤◌};

use crate::row::Row;
use fault::{Check, Fault};

// How many pegs and colours a game has, and whether a colour may come twice.
#[derive(Clone, Copy)]
pub struct Board {
    pegs: u8,
    colours: u8,
    repeats: bool,
    bound: u32,
    ghost some_pegs: { 1 ≤ pegs },
    ghost few_pegs: { pegs < 7 },
    ghost some_colours: { 2 ≤ colours },
    ghost few_colours: { colours ≤ 10 },
    ghost few_rows: { bound ≤ 16384 },
    ghost whole: { bound ≡ colours ^ pegs },
}

impl Board {
    ghost use Rattle.std.specs.Prelude.{◌≡◌, ◌^◌, ◌<◌, length};
    ghost use Rattle.fault.specs.declared.Check.TheVariants.{GameParameters};
    ghost use Rattle.rule.specs.Making.{Makes};
    ghost use Rattle.rule.specs.Digits.{last_digits, different};
    ghost use Rattle.rule.specs.Pegs.{board_fits, is_row, equal_places, shared, pairs, peg_answer};
    ghost use Rattle.rule.specs.Rules.{row_on};

    pub(crate) fn new(pegs: u32, colours: u32, repeats: bool) -> Result<Board, Fault>
        ensures { Makes result (board_fits pegs colours repeats) GameParameters
            (λ board. (board.pegs ≡ pegs) × (board.colours ≡ colours) × (board.repeats ≡ repeats)) }
    {
        if !(1..=6).contains(&pegs) || !(2..=10).contains(&colours) {
            return Err(Check::GameParameters.refusal());
        }
        let bound = colours.pow(pegs);
        if bound > 16384 || !repeats && pegs > colours {
            return Err(Check::GameParameters.refusal());
        }
        Ok(Board {
            pegs: pegs as u8,
            colours: colours as u8,
            repeats,
            bound,
        })
    }

    // The colours of a number, from the last peg to the first.
    #[tactic(auto, using(crate::proofs::Lasts::length_last))]
    fn row(&self, number: u32) -> Row
        ensures value { result ≡ last_digits self.now.pegs self.now.colours number }
        ensures few { length result < 7 }
    {
        Row::of(number, u32::from(self.colours), u32::from(self.pegs))
    }

    // Whether no colour comes twice in the row of a number. Colours are counted in an array, since a rule takes no memory
    // from the heap.
    fn all_different(&self, number: u32) -> bool
        ensures { result ≡ different (row_on self.now number) }
    {
        let mut counts = [0u8; 10];
        let mut different = true;
        for colour in self.row(number) {
            different &= counts[colour as usize] == 0;
            counts[colour as usize] += 1;
        }
        different
    }

    // Whether a number is a row of this board.
    pub(crate) fn holds(&self, number: u32) -> bool
        ensures { result ≡ is_row self.now.pegs self.now.colours self.now.repeats number }
    {
        number < self.bound && (self.repeats || self.all_different(number))
    }

    // At how many places the rows of two numbers agree.
    pub(crate) fn black(&self, code: u32, guess: u32) -> u8
        ensures { result ≡ equal_places (row_on self.now code) (row_on self.now guess) }
    {
        self.row(code)
            .zip(self.row(guess))
            .filter(|(left, right)| left == right)
            .count() as u8
    }

    // At how many places the rows of two numbers agree, and how many of their pegs can be paired by colour: in one walk over both.
    fn compare(&self, code: u32, guess: u32) -> (u8, u8)
        ensures black { result.0 ≡ equal_places (row_on self.now code) (row_on self.now guess) }
        ensures shared { result.1 ≡ shared self.now.colours (row_on self.now code) (row_on self.now guess) }
    {
        let mut black = 0u8;
        let mut left = [0u8; 10];
        let mut right = [0u8; 10];
        for (own, other) in self.row(code).zip(self.row(guess)) {
            black += u8::from(own == other);
            left[own as usize] += 1;
            right[other as usize] += 1;
        }
        let shared = left
            .iter()
            .zip(right.iter())
            .map(|(left, right)| *left.min(right))
            .sum();
        (black, shared)
    }

    pub(crate) fn pegs(&self) -> u8
        ensures { (result ≡ self.now.pegs) × (result < 7) }
    {
        self.pegs
    }

    // How many numbers can stand for rows.
    pub(crate) fn rows(&self) -> u32
        ensures { result ≡ self.now.colours ^ self.now.pegs }
    {
        self.bound
    }

    // How many pairs of black and white can come.
    pub(crate) fn pairs(&self) -> u8
        ensures { result ≡ length (pairs self.now.pegs) }
    {
        (self.pegs + 1) * (self.pegs + 2) / 2 - 1
    }

    // The position of the pair of two rows among all pairs of black and white.
    pub(crate) fn pair(&self, code: u32, guess: u32) -> u8
        ensures { result ≡ peg_answer self.now.pegs self.now.colours code guess }
    {
        let (black, shared) = self.compare(code, guess);
        let white = shared - black;
        // The blacks below this one have p + 1, p, .. pairs. The last pair stands one lower, as one before it cannot come.
        let before = black * (2 * self.pegs + 3 - black) / 2 + white;
        if black == self.pegs {
            before - 1
        } else {
            before
        }
    }
}
