// The kinds of document, and the letters that stand for them in a file.
ghost use Rattle.std.specs.Prelude.{◌≡◌, Some};
ghost use Rattle.document.specs.Checks.{letter_for, kind_text, Spelled};

use crate::sheet::FileFault;
use fault::Check;
use std::fmt;

// What a document is: a tree of guesses, or a refutation.
#[derive(Clone, Copy, PartialEq, Eq, Debug)]
pub enum Kind {
    Tree,
    Refutation,
}

impl fmt::Display for Kind {
    ghost output = { λ kind. Some (kind_text kind) };

    fn fmt<W: fmt::Write>(&self, f: &mut fmt::Formatter<W>) -> fmt::Result {
        match self {
            Kind::Tree => f.write_str("tree"),
            Kind::Refutation => f.write_str("refutation"),
        }
    }
}

impl TryFrom<u8> for Kind {
    type Error = FileFault;

    ghost try_from_gives = { Spelled };

    fn try_from(letter: u8) -> Result<Self, FileFault> {
        match letter {
            b'T' => Ok(Kind::Tree),
            b'R' => Ok(Kind::Refutation),
            _ => Err(Check::KindOrEdition.refusal().into()),
        }
    }
}

impl From<Kind> for u8 {
    ghost from_gives = { λ kind letter. letter ≡ letter_for kind };

    fn from(kind: Kind) -> u8 {
        match kind {
            Kind::Tree => b'T',
            Kind::Refutation => b'R',
        }
    }
}
