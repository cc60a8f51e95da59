// The game that answers black and white: pegs in place, and pegs of a right colour elsewhere.
ghost use Rattle.std.specs.Prelude.{◌≡◌};
ghost use Rattle.fault.specs.declared.Check.TheVariants.{GameParameters};
ghost use Rattle.rule.specs.Making.{Makes};
ghost use Rattle.rule.specs.Rules.{pegs_of};
ghost use Rattle.rule.specs.Pegs.{board_fits, pegs as peg_game, peg_answers, peg_answer};

use crate::board::Board;
use crate::row_game::{Marking, RowGame};
use fault::Fault;

#[derive(Clone, Copy)]
pub struct BlackAndWhite;

impl Marking for BlackAndWhite {
    ghost use Rattle.rule.specs.Laws.PegLaws.{pegs_lawful};

    ghost answers = { peg_answers };

    ghost answer = { peg_answer };

    ghost lawful = { pegs_lawful };

    fn answers(board: &Board) -> u8 {
        board.pairs()
    }

    fn answer(board: &Board, code: u32, guess: u32) -> u8 {
        board.pair(code, guess)
    }
}

pub type Pegs = RowGame<BlackAndWhite>;

impl Pegs {
    pub fn new(pegs: u32, colours: u32, repeats: bool) -> Result<Pegs, Fault>
        ensures { Makes result (board_fits pegs colours repeats) GameParameters (λ rule. pegs_of rule ≡ peg_game pegs colours repeats) }
    {
        RowGame::made(pegs, colours, repeats)
    }
}
