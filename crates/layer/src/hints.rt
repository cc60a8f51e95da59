// The hints layer: of the codes of the rule below, those that would have given each hint's answer.
ghost use Rattle.std.specs.Prelude.{◌≡◌, ◌&&◌, []};
ghost use Rattle.layer.specs.Hints.{agrees, hinted, hint_result, hints_after};
ghost use Rattle.layer.specs.Laws.HintLaws.{hinted_lawful};

use crate::hint::Hint;
use crate::notes::{Notes, PLACES};
use fault::{Check, Fault};
use rule::AnswerRule;

#[derive(Drop)]
pub struct Hints<R> {
    below: R,
    notes: Notes,
}

impl<R: AnswerRule> Hints<R> {
    // The rule below, with no hints yet.
    pub fn new(below: R) -> Hints<R>
        ensures below { result.below ≡ below }
        ensures hints { result.notes ≡ [] }
    {
        Hints {
            below,
            notes: Notes::new(),
        }
    }

    // Enters what a player was told: the answer to a guess. For a guess that has a hint already, the answer replaces the old one.
    pub fn hint(&mut self, guess: u32, answer: u8) -> Result<(), Fault>
        ensures value { result ≡ hint_result (R.meaning self.old.below) self.old.notes (record { guess = guess; answer = answer }) }
        ensures hints { self.new.notes ≡ hints_after (R.meaning self.old.below) self.old.notes (record { guess = guess; answer = answer }) }
        ensures below { self.new.below ≡ self.old.below }
    {
        if !self.below.admits(guess) || answer >= self.below.answers() {
            return Err(Check::HintPair.refusal());
        }
        self.notes.enter(Hint { guess, answer })
    }

    // Whether a number agrees with each hint in turn, as the rule below answers.
    fn agrees(&self, code: u32) -> bool
        ensures { result ≡ agrees (R.meaning self.now.below) code self.now.notes }
    {
        // Kept in this form (docs/DECISIONS.md): what was told comes from the table, what a code would answer from below.
        for at in 0..PLACES {
            let Some(hint) = self.notes.entry(at) else {
                return true;
            };
            if self.below.answer(code, hint.guess) != hint.answer {
                return false;
            }
        }
        true
    }
}

impl<R: AnswerRule> AnswerRule for Hints<R> {
    ghost meaning = { λ layer. hinted (R.meaning layer.below) layer.notes };

    ghost lawful = { λ layer. hinted_lawful (R.meaning layer.below) (R.lawful layer.below) layer.notes };

    // Each layer passes these questions on by itself: an `impl` for all layers at once cannot stand in another crate than the trait.
    fn code_bound(&self) -> u32 {
        self.below.code_bound()
    }

    fn guess_bound(&self) -> u32 {
        self.below.guess_bound()
    }

    fn is_code(&self, number: u32) -> bool {
        self.below.is_code(number) && self.agrees(number)
    }

    fn admits(&self, number: u32) -> bool {
        self.below.admits(number)
    }

    fn answers(&self) -> u8 {
        self.below.answers()
    }

    fn is_naming(&self) -> bool {
        self.below.is_naming()
    }

    fn answer(&self, code: u32, guess: u32) -> u8 {
        if self.agrees(code) {
            self.below.answer(code, guess)
        } else {
            self.below.answers()
        }
    }
}
