// The game given by a table of its answers. The table goes by guesses, and the row of a guess has what each code answers.
ghost use Rattle.std.specs.Prelude.{◌≡◌, slice_index};
ghost use Rattle.fault.specs.declared.Check.TheVariants.{TableShape};
ghost use Rattle.rule.specs.Making.{Makes};
ghost use Rattle.rule.specs.Laws.Kept.{table_rule};
ghost use Rattle.rule.specs.Rules.{table_of};
ghost use Rattle.rule.specs.Table.{all_under, table_fits, table as table_game};

use crate::interface::AnswerRule;
use fault::{Check, Fault};

#[derive(Clone, Copy)]
pub struct Table<'a> {
    bytes: &'a [u8],
    rows: u32,
    codes: u32,
    answers: u8,
}

impl<'a> Table<'a> {
    // The bytes stay the caller's: they are lent for as long as the rule lives.
    pub fn new(bytes: &'a [u8], rows: u32, codes: u32, answers: u8) -> Result<Table<'a>, Fault>
        ensures { Makes result (table_fits rows codes answers bytes.now) TableShape
            (λ rule. table_of rule ≡ table_game rows codes answers bytes.now) }
    {
        let table = Table {
            bytes,
            rows,
            codes,
            answers,
        };
        if table.fits() {
            Ok(table)
        } else {
            Err(Check::TableShape.refusal())
        }
    }

    // Whether the bytes and the sizes make a table.
    fn fits(&self) -> bool
        ensures { result ≡ table_fits self.now.rows self.now.codes self.now.answers self.now.bytes.now }
    {
        (1..=4096).contains(&self.rows)
            && (2..=16384).contains(&self.codes)
            && self.rows * self.codes <= 65536
            && self.bytes.len() == (self.rows * self.codes) as usize
            && (2..=64).contains(&self.answers)
            && all_answers(self.bytes, self.answers)
    }
}

// Whether each byte is below a number of answers.
pub fn all_answers(bytes: &[u8], answers: u8) -> bool
    ensures { result ≡ all_under answers bytes.now }
{
    bytes.iter().all(|byte| *byte < answers)
}

// The byte at a place, or 0 past the last.
pub fn byte_at(bytes: &[u8], place: usize) -> u8
    ensures { result ≡ slice_index bytes.now place }
{
    bytes.get(place).copied().unwrap_or(0)
}

// What no table that was made needs is here for the law, which speaks of every value of the type: sizes are kept in range,
// and a byte that is no answer counts as 0.
impl<'a> AnswerRule for Table<'a> {
    ghost meaning = { table_of };

    ghost lawful = { table_rule };

    fn code_bound(&self) -> u32 {
        self.codes.clamp(2, 16384)
    }

    fn guess_bound(&self) -> u32 {
        self.rows.clamp(1, 4096)
    }

    fn is_code(&self, number: u32) -> bool {
        number < self.code_bound()
    }

    fn admits(&self, number: u32) -> bool {
        number < self.guess_bound()
    }

    fn answers(&self) -> u8 {
        self.answers.clamp(2, 64)
    }

    fn is_naming(&self) -> bool {
        false
    }

    fn answer(&self, code: u32, guess: u32) -> u8 {
        let answers = self.answers();
        if !self.is_code(code) || !self.admits(guess) {
            return answers;
        }
        let place = guess as usize * self.code_bound() as usize + code as usize;
        let byte = byte_at(self.bytes, place);
        if byte < answers { byte } else { 0 }
    }
}
