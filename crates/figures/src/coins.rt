// Worked weighings. Print counts the coins from 1, the rules from 0.
ghost use Rattle.std.specs.Prelude.{◌≡◌};
ghost use Rattle.figures.specs.Balance.{answer_of};

use crate::report::{Report, Stop};
use rule::{AnswerRule, Coins};
use std::fmt;

// What the balance shows.
#[derive(Clone, Copy)]
pub enum Outcome {
    Level = 0,
    LeftHeavier = 1,
    RightHeavier = 2,
}

// The answer that stands for an outcome.
impl From<Outcome> for u8 {
    ghost from_gives = { λ outcome answer. answer ≡ answer_of outcome };

    fn from(outcome: Outcome) -> u8 {
        outcome as u8
    }
}

impl Outcome {
    // What a digit of a label stands for, if it is one. The coins with 0 lie left and those with 2 right, so that a heavy
    // coin with 0 presses the left pan down.
    fn of_sign(sign: u8) -> Option<Outcome> {
        match sign {
            b'0' => Some(Outcome::LeftHeavier),
            b'1' => Some(Outcome::Level),
            b'2' => Some(Outcome::RightHeavier),
            _ => None,
        }
    }
}

impl fmt::Display for Outcome {
    fn fmt<W: fmt::Write>(&self, f: &mut fmt::Formatter<W>) -> fmt::Result {
        match self {
            Outcome::Level => f.write_str("level"),
            Outcome::LeftHeavier => f.write_str("left heavier"),
            Outcome::RightHeavier => f.write_str("right heavier"),
        }
    }
}

#[derive(Clone, Copy)]
pub enum Falseness {
    Heavy,
    Light,
}

impl fmt::Display for Falseness {
    fn fmt<W: fmt::Write>(&self, f: &mut fmt::Formatter<W>) -> fmt::Result {
        match self {
            Falseness::Heavy => f.write_str("heavy"),
            Falseness::Light => f.write_str("light"),
        }
    }
}

// Which coin, counted from 1, is false and how.
#[derive(Clone, Copy)]
struct FalseCoin {
    coin: u32,
    how: Falseness,
}

impl FalseCoin {
    fn heavy(coin: u32) -> FalseCoin {
        let how = Falseness::Heavy;
        FalseCoin { coin, how }
    }

    fn light(coin: u32) -> FalseCoin {
        let how = Falseness::Light;
        FalseCoin { coin, how }
    }

    // The code that says this.
    fn code(self) -> u32 {
        let heavy = self.coin.saturating_sub(1).saturating_mul(2);
        match self.how {
            Falseness::Heavy => heavy,
            Falseness::Light => heavy.saturating_add(1),
        }
    }
}

impl fmt::Display for FalseCoin {
    fn fmt<W: fmt::Write>(&self, f: &mut fmt::Formatter<W>) -> fmt::Result {
        let coin = self.coin;
        let how = self.how;
        write!(f, "coin {coin} {how}")
    }
}

// The pan that a coin lies on, and the digit to base 3 that stands for that in the number of a weighing.
#[derive(Clone, Copy)]
enum Pan {
    Left = 1,
    Right = 2,
}

impl Pan {
    // What the coins on this pan add to the number of a weighing.
    fn number(self, coins: u32, on: &[u32]) -> u32 {
        on.iter()
            .map(|coin| 3u32.saturating_pow(coins.saturating_sub(*coin)))
            .map(|power| power.saturating_mul(self as u32))
            .fold(0, u32::saturating_add)
    }
}

// The number of the weighing of some coins, counted from 1, against others.
pub(crate) fn weighing(coins: u32, left: &[u32], right: &[u32]) -> u32 {
    let on_the_left = Pan::Left.number(coins, left);
    let on_the_right = Pan::Right.number(coins, right);
    on_the_left.saturating_add(on_the_right)
}

pub(crate) fn show(report: &mut Report<'_>) -> Result<(), Stop> {
    println!(report.rt; "Worked weighings")?;
    one_against_one(report)?;
    dyson(report)
}

// Weighings of one coin against another, of four.
fn score(
    report: &mut Report<'_>,
    left: u32,
    right: u32,
    coin: FalseCoin,
    printed: Outcome,
) -> Result<(), Stop> {
    let rule = Coins::new(4)?;
    let computed = rule.answer(coin.code(), weighing(4, &[left], &[right]));
    let expected = u8::from(printed);
    let verdict = report.tally.count(expected == computed);
    println!(report.rt;
        "  {left} against {right}, {coin}: printed {printed}, answer {expected}; computed answer {computed}: {verdict}"
    )?;
    Ok(())
}

fn one_against_one(report: &mut Report<'_>) -> Result<(), Stop> {
    println!(report.rt; " Klimos's example of a strategy for 4 coins")?;
    score(report, 1, 2, FalseCoin::heavy(3), Outcome::Level)?;
    score(report, 1, 4, FalseCoin::heavy(3), Outcome::Level)?;
    score(report, 3, 4, FalseCoin::heavy(3), Outcome::LeftHeavier)?;
    println!(report.rt; " The COBRA framework's outcome for a lighter left pan")?;
    score(report, 4, 3, FalseCoin::light(4), Outcome::RightHeavier)?;
    score(report, 4, 3, FalseCoin::heavy(3), Outcome::RightHeavier)
}

// The three weighings of Dyson's scheme for twelve coins.
#[derive(Clone, Copy)]
struct Scheme {
    rule: Coins,
    weighings: [u32; 3],
}

impl Scheme {
    fn answers(&self, code: u32) -> [u8; 3] {
        self.weighings
            .map(|weighing| self.rule.answer(code, weighing))
    }
}

fn dyson(report: &mut Report<'_>) -> Result<(), Stop> {
    println!(report.rt;
        " Dyson's scheme for 12 coins as Klimos prints it: 0 left heavier, 1 level, 2 right heavier"
    )?;
    let scheme = Scheme {
        rule: Coins::new(12)?,
        weighings: [
            weighing(12, &[1, 3, 4, 5], &[2, 6, 7, 8]),
            weighing(12, &[1, 6, 7, 8], &[2, 9, 10, 11]),
            weighing(12, &[2, 3, 8, 11], &[5, 6, 9, 12]),
        ],
    };
    // each coin's label when it is heavy, the clockwise one, and when it is light
    for (coin, heavy, light) in [
        (1, "001", "221"),
        (2, "220", "002"),
        (3, "010", "212"),
        (4, "011", "211"),
        (5, "012", "210"),
        (6, "202", "020"),
        (7, "201", "021"),
        (8, "200", "022"),
        (9, "122", "100"),
        (10, "121", "101"),
        (11, "120", "102"),
        (12, "112", "110"),
    ] {
        label(report, &scheme, FalseCoin::heavy(coin), heavy)?;
        label(report, &scheme, FalseCoin::light(coin), light)?;
    }
    Ok(())
}

fn label(
    report: &mut Report<'_>,
    scheme: &Scheme,
    coin: FalseCoin,
    printed: &str,
) -> Result<(), Stop> {
    let answers = scheme.answers(coin.code());
    let before = report.tally;
    print!(report.rt; "  {coin}: printed {printed}; computed answers")?;
    for (sign, computed) in printed.bytes().zip(answers) {
        let expected = Outcome::of_sign(sign).map(u8::from);
        let _ = report.tally.count(expected == Some(computed));
        print!(report.rt; " {computed}")?;
    }
    let verdict = report.tally.since(before);
    println!(report.rt; ": {verdict}")?;
    Ok(())
}
