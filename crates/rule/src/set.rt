// A set of coins and where a weighing puts them.
ghost use Rattle.std.specs.Prelude.{◌≡◌, ◌*◌, ◌^◌, ◌<◌, ◌≤◌, true, slice_index};
ghost use Rattle.rule.specs.Coins.{is_weighing, weighed, pan_digit, pan_of, opposite};
ghost use Rattle.rule.specs.Digits.{digits};

use crate::row::Row;

// Where a coin lies in a weighing, or which pan goes down.
#[derive(Clone, Copy)]
pub enum Pan {
    Aside = 0,
    Left = 1,
    Right = 2,
}

impl Pan {
    // Where a digit of a weighing puts its coin.
    fn of_digit(digit: u32) -> Pan
        ensures { result ≡ pan_of digit }
    {
        match digit {
            1 => Pan::Left,
            2 => Pan::Right,
            _ => Pan::Aside,
        }
    }

    // A coin that lies aside has no other pan.
    fn opposite(self) -> Pan
        ensures { result ≡ opposite self }
    {
        match self {
            Pan::Aside => Pan::Aside,
            Pan::Left => Pan::Right,
            Pan::Right => Pan::Left,
        }
    }
}

impl From<Pan> for u8 {
    ghost from_gives = { λ pan digit. digit ≡ pan_digit pan };

    fn from(pan: Pan) -> u8 {
        pan as u8
    }
}

// How many coins there are, and in how many ways they can be put left, right or aside.
#[derive(Clone, Copy)]
pub struct Set {
    coins: u32,
    placings: u32,
    ghost some_coins: { 2 ≤ coins },
    ghost few_coins: { coins < 13 },
    ghost all_placings: { placings ≡ 3 ^ coins },
}

impl Set {
    pub(crate) fn new(coins: u32) -> Set
        requires { (2 ≤ coins) × (coins < 13) }
        ensures { result.coins ≡ coins }
    {
        Set {
            coins,
            placings: 3u32.pow(coins),
        }
    }

    pub(crate) fn coins(&self) -> u32
        ensures { (result ≡ self.now.coins) × (result < 13) }
    {
        self.coins
    }

    pub(crate) fn placings(&self) -> u32
        ensures { result ≡ 3 ^ self.now.coins }
    {
        self.placings
    }

    // Whether a number puts as many coins left as right, and at least one.
    pub(crate) fn is_weighing(&self, number: u32) -> bool
        ensures { result ≡ is_weighing self.now.coins number }
    {
        if number >= self.placings {
            return false;
        }
        let mut left = 0u32;
        let mut right = 0u32;
        for digit in Row::of(number, 3, self.coins) {
            left += u32::from(digit == Pan::Left as u32);
            right += u32::from(digit == Pan::Right as u32);
        }
        left == right && left >= 1
    }

    // Where a weighing puts a coin.
    fn pan(&self, weighing: u32, coin: u32) -> Pan
        requires { coin < self.now.coins }
        ensures { pan_digit result ≡ slice_index (digits self.now.coins 3 weighing) coin }
    {
        Pan::of_digit(weighing / 3u32.pow(self.coins - 1 - coin) % 3)
    }

    // What the balance shows: a heavy coin presses its own pan down, and a light one the other.
    pub(crate) fn weigh(&self, code: u32, weighing: u32) -> u8
        requires { (code < 2 * self.now.coins) × (is_weighing self.now.coins weighing ≡ true) }
        ensures { result ≡ weighed self.now.coins code weighing }
    {
        let own = self.pan(weighing, code / 2);
        if code % 2 == 0 {
            own.into()
        } else {
            own.opposite().into()
        }
    }
}
