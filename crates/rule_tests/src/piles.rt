// Layers over rules and over each other.
use crate::edges::refusal;
use counts::count_codes;
use layer::{Blur, Hints};
use rule::{AnswerRule, Coins, Pegs, Table};
use std::test::Fail;

// Two colours, two pegs: AB answered to the guess AA leaves AB and BA; then AB to the guess AB leaves one.
#[test]
fn hints_narrow(rt: HostRuntime) -> Result<(), Fail> {
    let mut game = Hints::new(Pegs::new(2, 2, true)?);
    assert_eq!(rt; count_codes(&game), 4);
    // one black, no white
    game.hint(0, 3)?;
    assert_eq!(rt; count_codes(&game), 2);
    assert!(rt; game.is_code(1) && game.is_code(2) && !game.is_code(0) && !game.is_code(3));
    // the win
    game.hint(1, 4)?;
    assert_eq!(rt; count_codes(&game), 1);
    // the same guess again, answered otherwise: no black, two white
    game.hint(1, 2)?;
    assert!(rt; game.is_code(2) && !game.is_code(1));
    Ok(())
}

#[test]
fn hints_are_refused(rt: HostRuntime) -> Result<(), Fail> {
    let mut game = Hints::new(Pegs::new(4, 6, true)?);
    assert_eq!(rt; refusal(game.hint(1296, 0)), Some(20));
    assert_eq!(rt; refusal(game.hint(0, 14)), Some(20));
    // eight guesses, each used as the number it is
    for guess in 0..8 {
        game.hint(guess, 0)?;
    }
    assert_eq!(rt; refusal(game.hint(1296, 0)), Some(20));
    assert_eq!(rt; refusal(game.hint(8, 0)), Some(32));
    // a guess that is there is replaced, full or not
    assert_eq!(rt; refusal(game.hint(7, 1)), None);
    Ok(())
}

// What a blur refuses with; the rule comes back and is let go here.
fn blurred<R: AnswerRule + Drop>(below: R, bytes: &[u8], answers: u8) -> Option<u32> {
    refusal(Blur::new(below, bytes, answers).map_err(|back| back.fault))
}

#[test]
fn blurs_are_refused(rt: HostRuntime) -> Result<(), Fail> {
    let game = Pegs::new(1, 2, true)?;
    let coins = Coins::new(3)?;
    let win_first = [1, 0];
    assert_eq!(rt; blurred(game, &[0, 1], 2), None);
    assert_eq!(rt; blurred(game, &win_first, 2), Some(19));
    assert_eq!(rt; blurred(game, &[1, 1], 2), Some(19));
    assert_eq!(rt; blurred(game, &[0, 0], 2), Some(19));
    assert_eq!(rt; blurred(game, &[0, 1], 3), Some(19));
    assert_eq!(rt; blurred(game, &[0, 2], 3), None);
    assert_eq!(rt; blurred(coins, &win_first, 2), Some(19));
    assert_eq!(rt; blurred(coins, &[1, 0, 1], 2), None);
    assert_eq!(rt; blurred(coins, &[1, 0, 2], 2), Some(19));
    assert_eq!(rt; blurred(coins, &[0, 0, 0], 1), Some(19));
    assert_eq!(rt; blurred(coins, &[0, 0, 0], 65), Some(19));
    Ok(())
}

// A balance that only says whether it is level.
#[test]
fn blurred_balance(rt: HostRuntime) -> Result<(), Fail> {
    let Ok(game) = Blur::new(Coins::new(3)?, &[0, 1, 1], 2) else {
        return Err(Fail::new("refused"));
    };
    assert_eq!(rt; game.answers(), 2);
    // coin 0 left, coin 1 right: heavy or light, it tips; coin 2 lies aside
    assert_eq!(rt; game.answer(0, 15), 1);
    assert_eq!(rt; game.answer(1, 15), 1);
    assert_eq!(rt; game.answer(4, 15), 0);
    assert_eq!(rt; game.answer(6, 15), 2);
    Ok(())
}

#[test]
fn blur_over_hints_over_table(rt: HostRuntime) -> Result<(), Fail> {
    let bytes = [0, 1, 2, 0, 1, 2, 2, 1];
    let mut table = Hints::new(Table::new(&bytes, 2, 4, 3)?);
    table.hint(0, 0)?;
    assert_eq!(rt; count_codes(&table), 2);
    let Ok(game) = Blur::new(table, &[1, 0, 0], 2) else {
        return Err(Fail::new("refused"));
    };
    assert_eq!(rt; game.answer(0, 0), 1);
    assert_eq!(rt; game.answer(3, 1), 0);
    // code 1 disagrees with the hint, so the pair has no answer
    assert_eq!(rt; game.answer(1, 0), 2);
    Ok(())
}

#[test]
fn hints_over_blur_over_blur(rt: HostRuntime) -> Result<(), Fail> {
    let Ok(once) = Blur::new(Pegs::new(2, 2, true)?, &[0, 1, 1, 1, 2], 3) else {
        return Err(Fail::new("refused"));
    };
    let Ok(twice) = Blur::new(once, &[0, 0, 1], 2) else {
        return Err(Fail::new("refused"));
    };
    let mut game = Hints::new(twice);
    assert_eq!(rt; game.answers(), 2);
    assert!(rt; game.is_naming());
    game.hint(1, 0)?;
    // only the code 1 itself would have won
    assert_eq!(rt; count_codes(&game), 3);
    assert_eq!(rt; game.answer(2, 2), 1);
    assert_eq!(rt; game.answer(2, 1), 0);
    Ok(())
}
