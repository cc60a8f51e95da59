// The game that answers black alone: how many pegs are in place.
ghost use Rattle.std.specs.Prelude.{◌≡◌};
ghost use Rattle.fault.specs.declared.Check.TheVariants.{GameParameters};
ghost use Rattle.rule.specs.Making.{Makes};
ghost use Rattle.rule.specs.Rules.{blacks_of};
ghost use Rattle.rule.specs.Pegs.{board_fits, blacks as black_game, black_answers, black_answer};

use crate::board::Board;
use crate::row_game::{Marking, RowGame};
use fault::Fault;

#[derive(Clone, Copy)]
pub struct BlackAlone;

impl Marking for BlackAlone {
    ghost use Rattle.rule.specs.Laws.PegLaws.{blacks_lawful};

    ghost answers = { black_answers };

    ghost answer = { black_answer };

    ghost lawful = { blacks_lawful };

    fn answers(board: &Board) -> u8 {
        board.pegs() + 1
    }

    fn answer(board: &Board, code: u32, guess: u32) -> u8 {
        board.black(code, guess)
    }
}

pub type Blacks = RowGame<BlackAlone>;

impl Blacks {
    pub fn new(pegs: u32, colours: u32, repeats: bool) -> Result<Blacks, Fault>
        ensures { Makes result (board_fits pegs colours repeats) GameParameters (λ rule. blacks_of rule ≡ black_game pegs colours repeats) }
    {
        RowGame::made(pegs, colours, repeats)
    }
}
