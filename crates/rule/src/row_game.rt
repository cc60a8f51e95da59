// The games whose codes and guesses are rows of coloured pegs, whichever way two rows are compared.
ghost use Rattle.std.specs.Prelude.{◌≡◌, ℕ, ◌^◌, ◌<◌, ◌≤◌, Bool};
ghost use Rattle.fault.specs.declared.Check.TheVariants.{GameParameters};
ghost use Rattle.rule.specs.Making.{Makes};
ghost use Rattle.rule.specs.Meaning.{Lawful};
ghost use Rattle.rule.specs.Pegs.{board_fits, row_game};
ghost use Rattle.rule.specs.Rules.{rows_of};

use crate::board::Board;
use crate::interface::AnswerRule;
use fault::Fault;
use std::marker::PhantomData;

// How two rows are compared.
pub trait Marking {
    // How many answers so many pegs have.
    ghost answers: { ℕ → ℕ };

    // The answer of so many pegs and colours to a code and a guess.
    ghost answer: { ℕ → ℕ → ℕ → ℕ → ℕ };

    // What each way of comparing must prove.
    ghost lawful: { (p c : ℕ) → 1 ≤ p → p < 7 → 2 ≤ c → (repeats : Bool) → c ^ p ≤ 16384 → Lawful (row_game answers answer p c repeats) };

    fn answers(board: &Board) -> u8
        ensures { result ≡ answers board.now.pegs };

    fn answer(board: &Board, code: u32, guess: u32) -> u8
        ensures { result ≡ answer board.now.pegs board.now.colours code guess };
}

#[derive(Clone, Copy)]
pub struct RowGame<M> {
    board: Board,
    marking: PhantomData<M>,
}

impl<M: Marking> RowGame<M> {
    pub(crate) fn made(pegs: u32, colours: u32, repeats: bool) -> Result<RowGame<M>, Fault>
        ensures { Makes result (board_fits pegs colours repeats) GameParameters
            (λ rule. rows_of M.answers M.answer rule ≡ row_game M.answers M.answer pegs colours repeats) }
    {
        Ok(RowGame {
            board: Board::new(pegs, colours, repeats)?,
            marking: PhantomData,
        })
    }
}

impl<M: Marking> AnswerRule for RowGame<M> {
    ghost use Rattle.rule.specs.Laws.Kept.{rows_lawful};

    ghost meaning = { rows_of M.answers M.answer };

    ghost lawful = { λ rule. rows_lawful M.answers M.answer M.lawful rule.board };

    fn code_bound(&self) -> u32 {
        self.board.rows()
    }

    fn guess_bound(&self) -> u32 {
        self.board.rows()
    }

    fn is_code(&self, number: u32) -> bool {
        self.board.holds(number)
    }

    fn admits(&self, number: u32) -> bool {
        self.board.holds(number)
    }

    fn answers(&self) -> u8 {
        M::answers(&self.board)
    }

    fn is_naming(&self) -> bool {
        true
    }

    fn answer(&self, code: u32, guess: u32) -> u8 {
        if self.is_code(code) && self.admits(guess) {
            M::answer(&self.board, code, guess)
        } else {
            M::answers(&self.board)
        }
    }
}
