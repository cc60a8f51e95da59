// How a first guess divides the codes: for each answer, how many codes give it.
use crate::coins::weighing;
use crate::notation::PegGame;
use crate::report::{Report, Stop};
use counts::divide;
use rule::{AnswerRule, Coins};

// The rows go by rising answers; print has them from the last answer to the first.
fn score<R: AnswerRule>(
    report: &mut Report<'_>,
    rule: &R,
    name: &str,
    guess: u32,
    printed: &[u32],
) -> Result<(), Stop> {
    report.compare_rows(name, printed, &divide(rule, guess))
}

// The division of the codes of four pegs by a guess.
fn row(
    report: &mut Report<'_>,
    game: &PegGame,
    guess: &str,
    printed: &[u32; 14],
) -> Result<(), Stop> {
    score(report, &game.rule, guess, game.number(guess), printed)
}

pub(crate) fn show(report: &mut Report<'_>) -> Result<(), Stop> {
    println!(report.rt; "How a first guess divides the codes, by rising answers")?;
    mastermind(report)?;
    bulls_and_cows(report)?;
    four_coins(report)
}

// One guess of each kind, by which colours come again in it.
fn mastermind(report: &mut Report<'_>) -> Result<(), Stop> {
    println!(report.rt; " Chen, Lin, Huang and Hsu, 4 pegs in 6 colours, 1296 codes")?;
    let game = PegGame::new(4, 6, true, b'0')?;
    for (guess, printed) in [
        ("0000", [625, 0, 0, 0, 0, 500, 0, 0, 0, 150, 0, 0, 20, 1]),
        (
            "0001",
            [256, 308, 61, 0, 0, 317, 156, 27, 0, 123, 24, 3, 20, 1],
        ),
        (
            "0011",
            [256, 256, 96, 16, 1, 256, 208, 36, 0, 114, 32, 4, 20, 1],
        ),
        (
            "0012",
            [81, 276, 222, 44, 2, 182, 230, 84, 4, 105, 40, 5, 20, 1],
        ),
        (
            "0123",
            [16, 152, 312, 136, 9, 108, 252, 132, 8, 96, 48, 6, 20, 1],
        ),
    ] {
        row(report, &game, guess, &printed)?;
    }
    Ok(())
}

fn bulls_and_cows(report: &mut Report<'_>) -> Result<(), Stop> {
    println!(report.rt; " Chen, Lin, Huang and Hsu, 4 different digits of 10, 5040 codes")?;
    let game = PegGame::new(4, 10, false, b'0')?;
    row(
        report,
        &game,
        "0123",
        &[360, 1440, 1260, 264, 9, 480, 720, 216, 8, 180, 72, 6, 24, 1],
    )
}

fn four_coins(report: &mut Report<'_>) -> Result<(), Stop> {
    println!(report.rt; " Klimos, 4 coins, 8 codes: level, left heavier, right heavier")?;
    let rule = Coins::new(4)?;
    score(
        report,
        &rule,
        "1 against 2",
        weighing(4, &[1], &[2]),
        &[4, 2, 2],
    )?;
    score(
        report,
        &rule,
        "1, 2 against 3, 4",
        weighing(4, &[1, 2], &[3, 4]),
        &[0, 4, 4],
    )
}
