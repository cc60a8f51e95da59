// The game of the false coin: weighings on a balance.
ghost use Rattle.std.specs.Prelude.{◌≡◌};
ghost use Rattle.fault.specs.declared.Check.TheVariants.{GameParameters};
ghost use Rattle.rule.specs.Making.{Makes};
ghost use Rattle.rule.specs.Coins.{coins_fit, coins as coin_game};
ghost use Rattle.rule.specs.Laws.Kept.{coins_rule};
ghost use Rattle.rule.specs.Rules.{coins_of};

use crate::interface::AnswerRule;
use crate::set::Set;
use fault::{Check, Fault};

#[derive(Clone, Copy)]
pub struct Coins {
    set: Set,
}

impl Coins {
    pub fn new(coins: u32) -> Result<Coins, Fault>
        ensures { Makes result (coins_fit coins) GameParameters (λ rule. coins_of rule ≡ coin_game coins) }
    {
        if !(2..=12).contains(&coins) {
            return Err(Check::GameParameters.refusal());
        }
        Ok(Coins {
            set: Set::new(coins),
        })
    }
}

impl AnswerRule for Coins {
    ghost meaning = { coins_of };

    ghost lawful = { coins_rule };

    fn code_bound(&self) -> u32 {
        2 * self.set.coins()
    }

    fn guess_bound(&self) -> u32 {
        self.set.placings()
    }

    fn is_code(&self, number: u32) -> bool {
        number < 2 * self.set.coins()
    }

    fn admits(&self, number: u32) -> bool {
        self.set.is_weighing(number)
    }

    fn answers(&self) -> u8 {
        3
    }

    fn is_naming(&self) -> bool {
        false
    }

    fn answer(&self, code: u32, guess: u32) -> u8 {
        if self.is_code(code) && self.admits(guess) {
            self.set.weigh(code, guess)
        } else {
            3
        }
    }
}
