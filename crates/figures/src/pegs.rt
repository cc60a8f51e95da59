// Worked pairs of code and guess in the games of pegs.
use crate::notation::PegGame;
use crate::pairs::Pair;
use crate::report::{Report, Stop};
use rule::{AnswerRule, Blacks};

fn score(
    report: &mut Report<'_>,
    game: &PegGame,
    code: &str,
    guess: &str,
    printed: Pair,
) -> Result<(), Stop> {
    let computed = game.answer(code, guess);
    let verdict = report
        .tally
        .count(printed.answer(game.pegs) == Some(computed));
    print!(report.rt;
        "  code {code}, guess {guess}: printed {printed}; computed answer {computed}"
    )?;
    if let Some(pair) = game.pair(computed) {
        print!(report.rt; ", {pair}")?;
    }
    println!(report.rt; ": {verdict}")?;
    Ok(())
}

pub(crate) fn show(report: &mut Report<'_>) -> Result<(), Stop> {
    println!(report.rt; "Worked pairs of pegs")?;
    mastermind(report)?;
    bulls_and_cows(report)?;
    three_of_seven(report)?;
    three_of_five(report)
}

// The pair by which the COBRA framework explains duplicate colours, and its black markers alone.
fn mastermind(report: &mut Report<'_>) -> Result<(), Stop> {
    println!(report.rt; " The COBRA framework, 4 pegs in colours A to F")?;
    let game = PegGame::new(4, 6, true, b'A')?;
    score(report, &game, "BACC", "CCAC", Pair { black: 1, white: 2 })?;
    let blacks = Blacks::new(4, 6, true)?;
    let computed = blacks.answer(game.number("BACC"), game.number("CCAC"));
    let verdict = report.tally.compare(1, u32::from(computed));
    println!(report.rt;
        "  the same by black markers alone: printed 1; computed {computed}: {verdict}"
    )?;
    Ok(())
}

fn bulls_and_cows(report: &mut Report<'_>) -> Result<(), Stop> {
    println!(report.rt; " Chen, Lin, Huang and Hsu, 4 different digits of 10")?;
    let game = PegGame::new(4, 10, false, b'0')?;
    score(report, &game, "1234", "3154", Pair { black: 1, white: 2 })?;
    score(report, &game, "1234", "3145", Pair { black: 0, white: 3 })
}

fn three_of_seven(report: &mut Report<'_>) -> Result<(), Stop> {
    println!(report.rt; " Huang and Lin, 3 different symbols of 7")?;
    let game = PegGame::new(3, 7, false, b'0')?;
    score(report, &game, "215", "012", Pair { black: 1, white: 1 })?;
    score(report, &game, "165", "012", Pair { black: 0, white: 1 })?;
    score(report, &game, "165", "023", Pair { black: 0, white: 0 })?;
    score(report, &game, "165", "041", Pair { black: 0, white: 1 })?;
    score(report, &game, "165", "156", Pair { black: 1, white: 2 })?;
    score(report, &game, "165", "165", Pair { black: 3, white: 0 })
}

// The codes that two answers to the first guess leave over.
fn three_of_five(report: &mut Report<'_>) -> Result<(), Stop> {
    println!(report.rt; " Huang and Lin, 3 different symbols of 5")?;
    let game = PegGame::new(3, 5, false, b'0')?;
    for code in ["013", "014", "032", "042", "312", "412"] {
        score(report, &game, code, "012", Pair { black: 2, white: 0 })?;
    }
    for code in ["043", "034", "432", "342", "314", "413"] {
        score(report, &game, code, "012", Pair { black: 1, white: 0 })?;
    }
    Ok(())
}
