// What is counted of a game: its codes, its admitted guesses, and how a guess divides the codes.
#![tactic(auto)]

ghost use Rattle.std.specs.Prelude.{◌≡◌, ℕ, ◌<◌, slice_index};
ghost use Rattle.counts.specs.Counts.{codes_of, guesses_of, that_answer};

use rule::AnswerRule;

pub fn count_codes<R: AnswerRule>(rule: &R) -> u32
    ensures { result ≡ codes_of (R.meaning rule.now) }
{
    (0..rule.code_bound())
        .filter(|number| rule.is_code(*number))
        .count() as u32
}

pub fn count_guesses<R: AnswerRule>(rule: &R) -> u32
    ensures { result ≡ guesses_of (R.meaning rule.now) }
{
    (0..rule.guess_bound())
        .filter(|number| rule.admits(*number))
        .count() as u32
}

// How many codes have an answer to a guess.
pub fn count_that_answer<R: AnswerRule>(rule: &R, guess: u32, answer: u8) -> u32
    ensures { result ≡ that_answer (R.meaning rule.now) guess answer }
{
    (0..rule.code_bound())
        .filter(|number| rule.answer(*number, guess) == answer)
        .count() as u32
}

// How a guess divides the codes: at each answer's place, how many codes have it. No game has more answers than places here.
pub fn divide<R: AnswerRule>(rule: &R, guess: u32) -> [u32; 64]
    ensures { (a : ℕ) → a < 64 → slice_index result a ≡ that_answer (R.meaning rule.now) guess a }
{
    std::array::from_fn(|answer| count_that_answer(rule, guess, answer as u8))
}
