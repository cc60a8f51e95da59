// The games: how many codes, admitted guesses and answers each has, counted by asking its rule.
use crate::report::Stop;
use counts::{count_codes, count_guesses};
use rule::{AnswerRule, Blacks, Coins, Pegs, Table};

// A small game by its table: in each of three rows, what the four codes answer.
pub const SMALL_TABLE: [u8; 12] = [0, 0, 1, 1, 0, 1, 0, 1, 2, 0, 0, 2];

fn show_game<R: AnswerRule>(rt: &HostRuntime, name: &str, rule: &R) -> Result<(), Stop> {
    let codes = count_codes(rule);
    let guesses = count_guesses(rule);
    let answers = rule.answers();
    println!(rt; "  {name}: {codes} codes, {guesses} guesses, {answers} answers")?;
    Ok(())
}

pub(crate) fn show(rt: &HostRuntime) -> Result<(), Stop> {
    println!(rt; "Games")?;
    show_game(rt, "Mastermind, 4 pegs, 6 colours", &Pegs::new(4, 6, true)?)?;
    show_game(
        rt,
        "Bulls and Cows, 4 different digits of 10",
        &Pegs::new(4, 10, false)?,
    )?;
    show_game(
        rt,
        "AB game, 3 different symbols of 7",
        &Pegs::new(3, 7, false)?,
    )?;
    show_game(
        rt,
        "Black markers alone, 4 pegs, 6 colours",
        &Blacks::new(4, 6, true)?,
    )?;
    show_game(rt, "False coin among 3", &Coins::new(3)?)?;
    show_game(rt, "False coin among 4", &Coins::new(4)?)?;
    show_game(rt, "False coin among 12", &Coins::new(12)?)?;
    show_game(
        rt,
        "A table of 3 rows and 4 codes",
        &Table::new(&SMALL_TABLE, 3, 4, 3)?,
    )
}
