// Makers at the edges of what they take, and questions about numbers past every bound.
use fault::Fault;
use rule::{AnswerRule, Blacks, Coins, Pegs, Table};
use std::test::Fail;

// The number of a refusal.
pub(crate) fn refusal<T: Drop>(made: Result<T, Fault>) -> Option<u32> {
    made.err().map(|fault| fault.number)
}

#[test]
fn peg_parameters(rt: HostRuntime) {
    let asked = [
        (0, 6, true, Some(17)),
        (1, 1, true, Some(17)),
        (1, 2, true, None),
        (4, 6, true, None),
        (6, 5, true, None),
        (6, 6, true, Some(17)),
        (7, 2, true, Some(17)),
        (4, 11, false, Some(17)),
        (4, 10, false, None),
        (5, 10, false, Some(17)),
        (5, 4, false, Some(17)),
        (5, 5, false, None),
        (4294967295, 4294967295, true, Some(17)),
    ];
    for (pegs, colours, repeats, number) in asked {
        assert_eq!(rt; refusal(Pegs::new(pegs, colours, repeats)), number);
        assert_eq!(rt; refusal(Blacks::new(pegs, colours, repeats)), number);
    }
}

#[test]
fn coin_parameters(rt: HostRuntime) {
    for (coins, number) in [
        (0, Some(17)),
        (1, Some(17)),
        (2, None),
        (12, None),
        (13, Some(17)),
        (4294967295, Some(17)),
    ] {
        assert_eq!(rt; refusal(Coins::new(coins)), number);
    }
}

#[test]
fn table_shapes(rt: HostRuntime) {
    let bytes = [0, 1, 2, 2, 1, 0];
    let asked = [
        (2, 3, 3, None),
        (3, 2, 3, None),
        (1, 6, 3, None),
        (6, 1, 3, Some(18)),
        (2, 3, 2, Some(18)),
        (2, 2, 3, Some(18)),
        (0, 6, 3, Some(18)),
        (2, 3, 1, Some(18)),
        (2, 3, 64, None),
        (2, 3, 65, Some(18)),
        (4294967295, 4294967295, 3, Some(18)),
    ];
    for (rows, codes, answers, number) in asked {
        assert_eq!(rt; refusal(Table::new(&bytes, rows, codes, answers)), number);
    }
    assert_eq!(rt; refusal(Table::new(&[], 0, 0, 2)), Some(18));
}

#[test]
fn largest_table(rt: HostRuntime) -> Result<(), Fail> {
    let bytes = vec![in rt.alloc(); 1u8; 65536]?;
    assert_eq!(rt; refusal(Table::new(&bytes, 4, 16384, 2)), None);
    assert_eq!(rt; refusal(Table::new(&bytes, 4096, 16, 2)), None);
    assert_eq!(rt; refusal(Table::new(&bytes, 8192, 8, 2)), Some(18));
    Ok(())
}

// Past its bounds a rule has no code, no guess and no answer.
fn past_bounds<R: AnswerRule>(rule: &R) -> bool {
    let far = 4294967295;
    let codes = rule.code_bound();
    let guesses = rule.guess_bound();
    let none = rule.answers();
    !rule.is_code(codes)
        && !rule.is_code(far)
        && !rule.admits(guesses)
        && !rule.admits(far)
        && rule.answer(codes, 0) == none
        && rule.answer(far, far) == none
        && rule.answer(0, guesses) == none
}

#[test]
fn numbers_past_the_bounds(rt: HostRuntime) -> Result<(), Fail> {
    assert!(rt; past_bounds(&Pegs::new(4, 6, true)?));
    assert!(rt; past_bounds(&Pegs::new(4, 10, false)?));
    assert!(rt; past_bounds(&Blacks::new(6, 5, true)?));
    assert!(rt; past_bounds(&Coins::new(12)?));
    assert!(rt; past_bounds(&Table::new(&[0, 1, 1, 0], 2, 2, 2)?));
    Ok(())
}
