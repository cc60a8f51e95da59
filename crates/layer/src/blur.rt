// The blur layer: the rule below, with its answers told more coarsely.
ghost use Rattle.std.specs.Prelude.{◌≡◌, ℕ, ◌-◌, ◌≤◌, true, false, length, MatchResult, ◌==◌, slice_index};
ghost use Rattle.std.specs.Bool.{beq};
ghost use Rattle.fault.specs.declared.Check.TheVariants.{BlurTable};
ghost use Rattle.fault.specs.Faults.{refusal};
ghost use Rattle.layer.specs.Blur.{any_blur, blur_fits, blurred, sent};
ghost use Rattle.layer.specs.Laws.BlurLaws.{any_blur_lawful};
ghost use Rattle.rule.specs.Digits.{all_below};
ghost use Rattle.rule.specs.Table.{nearest};

use fault::{Check, Fault};
use rule::{AnswerRule, all_answers, byte_at};

#[derive(Drop)]
pub struct Blur<R> {
    below: R,
    // Fixed memory, since a layer takes none from the heap: a blur has as many bytes as the rule below has answers, at most 64.
    sends: [u8; 64],
    answers: u8,
}

// A refused blur: the fault, and the rule that was to lie below, handed back.
#[derive(Drop)]
pub struct Returned<R> {
    pub fault: Fault,
    pub below: R,
}

impl<R: AnswerRule> Blur<R> {
    // Each answer of the rule below is sent to the one that its byte names.
    pub fn new(below: R, bytes: &[u8], answers: u8) -> Result<Blur<R>, Returned<R>>
        ensures { MatchResult result
            (λ layer. (blur_fits (R.meaning below) bytes.now answers ≡ true)
            × (any_blur (R.meaning layer.below) layer.sends layer.answers ≡ blurred (R.meaning below) bytes.now answers)
            × (layer.below ≡ below))
            (λ back. (blur_fits (R.meaning below) bytes.now answers ≡ false) × (back.fault ≡ refusal BlurTable) × (back.below ≡ below)) }
    {
        if fits(&below, bytes, answers) {
            Ok(Blur {
                below,
                sends: padded(bytes),
                answers,
            })
        } else {
            Err(Returned {
                fault: Check::BlurTable.refusal(),
                below,
            })
        }
    }

    // Where an answer of the rule below goes.
    fn send(&self, answer: u8) -> u8
        ensures { result ≡ sent (R.meaning self.now.below) self.now.sends (nearest 2 64 self.now.answers) answer }
    {
        let naming = self.below.is_naming();
        let last = self.answers() - 1;
        if naming && answer == self.below.answers() - 1 {
            return last;
        }
        let byte = byte_at(&self.sends, answer as usize);
        if byte > last || naming && byte == last {
            0
        } else {
            byte
        }
    }
}

// The bytes, and zeros after them.
fn padded(bytes: &[u8]) -> [u8; 64]
    requires { length bytes.now ≤ 64 }
    ensures { (a : ℕ) → slice_index result a ≡ slice_index bytes.now a }
{
    let mut sends = [0u8; 64];
    sends[..bytes.len()].copy_from_slice(bytes);
    sends
}

// Whether bytes can blur a rule to so many answers.
fn fits<R: AnswerRule>(below: &R, bytes: &[u8], answers: u8) -> bool
    ensures { result ≡ blur_fits (R.meaning below.now) bytes.now answers }
{
    (2..=64).contains(&answers)
        && bytes.len() == below.answers() as usize
        && all_answers(bytes, answers)
        && (!below.is_naming() || wins_alone(bytes, answers - 1))
}

// Whether the last byte, and no other, is the win.
fn wins_alone(bytes: &[u8], win: u8) -> bool
    ensures { result ≡ all_below (length bytes.now) (λ a. beq (slice_index bytes.now a == win) (a == length bytes.now - 1)) }
{
    match bytes {
        [others @ .., last] => *last == win && !others.contains(&win),
        [] => true,
    }
}

impl<R: AnswerRule> AnswerRule for Blur<R> {
    ghost meaning = { λ layer. any_blur (R.meaning layer.below) layer.sends layer.answers };

    ghost lawful = { λ layer. any_blur_lawful (R.meaning layer.below) (R.lawful layer.below) layer.sends layer.answers };

    // Each layer passes these questions on by itself: an `impl` for all layers at once cannot stand in another crate than the trait.
    fn code_bound(&self) -> u32 {
        self.below.code_bound()
    }

    fn guess_bound(&self) -> u32 {
        self.below.guess_bound()
    }

    fn is_code(&self, number: u32) -> bool {
        self.below.is_code(number)
    }

    fn admits(&self, number: u32) -> bool {
        self.below.admits(number)
    }

    fn answers(&self) -> u8 {
        self.answers.clamp(2, 64)
    }

    fn is_naming(&self) -> bool {
        self.below.is_naming()
    }

    fn answer(&self, code: u32, guess: u32) -> u8 {
        let answer = self.below.answer(code, guess);
        if answer < self.below.answers() {
            self.send(answer)
        } else {
            self.answers()
        }
    }
}
