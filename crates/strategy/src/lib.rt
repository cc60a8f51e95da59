// How many codes a number of guesses can find, and what that and a refutation say of every strategy there is.
#![tactic(auto)]

ghost use Rattle.std.specs.Prelude.{◌≡◌, ◌+◌, ◌≤◌, min, T, nat_lt};
ghost use Rattle.strategy.specs.Examples.{OnePeg, FourCoins};
ghost use Rattle.strategy.specs.Strategy.{places};
ghost use Rattle.strategy.specs.Theorems.{FindsAtMost, NotAll, NoFewer};

// No game has more codes than this.
const MOST_CODES: u32 = 16384;

// How many codes k guesses can find at most, cut at the most codes that a game can have.
pub fn places(naming: bool, answers: u8, k: u8) -> u32
    ensures value { result ≡ min (places naming answers k) 16384 }
    ensures most { FindsAtMost naming answers k result }
{
    // After the win nothing is left to find, so it has one place and leads to no more.
    let wins = u32::from(naming);
    if k == 0 {
        return 1 - wins;
    }
    let others = u32::from(answers).saturating_sub(wins);
    let more = wins + others * places(naming, answers, k - 1);
    more.min(MOST_CODES)
}

// Whether the count alone refutes k guesses for a set of so many codes.
pub fn count_refutes(naming: bool, answers: u8, k: u8, codes: u32) -> bool
    ensures value { result ≡ nat_lt (min (places naming answers k) 16384) codes }
    ensures exact { codes ≤ 16384 → result ≡ nat_lt (places naming answers k) codes }
    ensures never { T result → NotAll naming answers k codes }
{
    places(naming, answers, k) < codes
}

// The least worst case that a strategy can have where all codes are refuted at k.
pub fn least_worst_case(k: u8) -> u32
    ensures value { result ≡ k + 1 }
    ensures fewest { NoFewer k result }
{
    u32::from(k) + 1
}

// What a strategy costs over all codes of a game.
#[derive(Clone, Copy)]
pub struct Costs {
    pub worst: u32,
    pub sum: u32,
}

// What it costs to guess two colours of one peg in turn. No strategy has a better worst case.
pub fn one_peg_two_colours() -> Costs
    ensures { OnePeg result.worst result.sum }
{
    Costs { worst: 2, sum: 3 }
}

// How many weighings are refuted for four coins, one of them false: no strategy does with so few.
pub fn refuted_for_four_coins() -> u8
    ensures value { result ≡ 2 }
    ensures refuted { FourCoins result }
{
    2
}
