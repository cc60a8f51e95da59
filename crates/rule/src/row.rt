// The digits of a number, from the last to the first: a row of pegs or coins, read from its end.
ghost use Rattle.std.specs.Prelude.{◌≡◌, ◌<◌};

use std::marker::Model;

// A row that is being read, seen as the list of the digits that are left.
#[derive(Drop)]
pub struct Row {
    rest: u32,
    base: u32,
    left: u32,
}

impl Model for Row {
    ghost use Rattle.std.specs.Prelude.{ℕ, ◌<◌, List};
    ghost use Rattle.rule.specs.Digits.{last_digits};

    ghost Value = { List ℕ };

    ghost view = { λ row. last_digits row.left row.base row.rest };

    ghost invariant = { λ row. 0 < row.base };
}

impl Row {
    ghost use Rattle.rule.specs.Digits.{last_digits};

    pub(crate) fn of(number: u32, base: u32, length: u32) -> Row
        requires { 0 < base }
        ensures { result ≡ last_digits length base number }
    {
        Row {
            rest: number,
            base,
            left: length,
        }
    }
}

impl Iterator for Row {
    ghost use Rattle.std.specs.Iterator.{YieldsFirst, item_count};

    type Item = u32;

    ghost next_gives = { YieldsFirst (λ rest. rest) };

    ghost remaining = { item_count (λ rest. rest) };

    fn next(&mut self) -> Option<u32> {
        self.left = self.left.checked_sub(1)?;
        let digit = self.rest % self.base;
        self.rest /= self.base;
        Some(digit)
    }
}
