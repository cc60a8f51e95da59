// The interface of an answer rule, by its meaning.
ghost use Rattle.std.specs.Prelude.{◌≡◌};
ghost use Rattle.rule.specs.Meaning.{Meaning, Lawful};

// A game, known by what it says when it is asked. Any number may be asked about, and asking leaves the game as it was.
pub trait AnswerRule {
    ghost meaning: { Self → Meaning };

    // What each rule must prove.
    ghost lawful: { (rule : Self) → Lawful (meaning rule) };

    // Codes lie below this number, which is from 1 to 16,384.
    fn code_bound(&self) -> u32
        ensures { result ≡ (meaning self.now).code_bound };

    // Admitted guesses lie below this number, which is from 1 to 1,048,576.
    fn guess_bound(&self) -> u32
        ensures { result ≡ (meaning self.now).guess_bound };

    fn is_code(&self, number: u32) -> bool
        ensures { result ≡ (meaning self.now).is_code number };

    fn admits(&self, number: u32) -> bool
        ensures { result ≡ (meaning self.now).admits number };

    // How many answers there are, from 2 to 64.
    fn answers(&self) -> u8
        ensures { result ≡ (meaning self.now).answers };

    // Whether a code is found by guessing it. Then the last answer is the win.
    fn is_naming(&self) -> bool
        ensures { result ≡ (meaning self.now).naming };

    // What is said to a guess when this is the code: an answer where the two can be played, and else the first number past
    // the answers. It is a number and no `Option`, since docs/RULES.md has it so of every pair.
    fn answer(&self, code: u32, guess: u32) -> u8
        ensures { result ≡ (meaning self.now).answer code guess };
}
