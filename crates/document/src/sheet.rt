// What a document says, and the checks of it one by one.
ghost use Rattle.std.specs.Prelude.{◌≡◌, ◌*◌, ◌/◌, ◌≤◌, length, IfOk};
ghost use Rattle.fault.specs.declared.Check.TheVariants.{KindOrEdition, Lengths, TitleByte, Figure, RecordForm};
ghost use Rattle.document.specs.Bytes.{chunk_at};
ghost use Rattle.document.specs.Forms.{Faulty};
ghost use Rattle.document.specs.Checks.{kind_of, Taken, Checks, ChecksEach, Sized, Printable, Ranged};

use crate::kind::Kind;
use crate::row::Records;
use fault::{Check, Fault, Place};

// What reading and writing refuse with.
#[derive(Clone, Copy, PartialEq, Eq, Debug)]
pub struct FileFault {
    pub fault: Fault,
}

impl From<Fault> for FileFault {
    ghost from_gives = { λ fault f. f.fault ≡ fault };

    fn from(fault: Fault) -> FileFault {
        FileFault { fault }
    }
}

// What stands in a document; title and records are bytes, as in a file.
#[derive(Clone, Copy)]
pub struct Contents<'a> {
    pub title: &'a [u8],
    pub records: &'a [u8],
    pub first: u32,
    pub second: u32,
    pub game: u32,
}

impl<'a> Contents<'a> {
    // How many records there are.
    pub fn record_count(self) -> usize
        ensures { result ≡ length self.entry.records.now / 12 }
    {
        self.records.len() / 12
    }
}

// What a document says: nothing of it need be right.
// The letter is any byte, since a wrong one is to be refused here; a narrower type would leave that to callers.
#[derive(Clone, Copy)]
pub struct Sheet<'a> {
    pub letter: u8,
    pub contents: Contents<'a>,
}

// Answers the kind that the letter stands for; with `only` given, no other kind is taken.
pub(crate) fn check_letter(only: Option<Kind>, letter: u8) -> Result<Kind, FileFault>
    ensures taken { Checks result (Taken only letter) KindOrEdition }
    ensures kind { IfOk result (λ k. k ≡ kind_of letter) }
{
    let kind = Kind::try_from(letter)?;
    match only {
        Some(taken) if taken != kind => Err(Check::KindOrEdition.refusal().into()),
        _ => Ok(kind),
    }
}

pub(crate) fn check_lengths(contents: Contents<'_>) -> Result<(), FileFault>
    ensures { Checks result (Sized contents.entry.title.now contents.entry.records.now) Lengths }
{
    let count = contents.record_count();
    let whole = contents.records.len() == 12 * count;
    if contents.title.len() <= 40 && whole && (1..=1_048_576).contains(&count) {
        Ok(())
    } else {
        Err(Check::Lengths.refusal().into())
    }
}

pub(crate) fn check_title(title: &[u8]) -> Result<(), FileFault>
    ensures { Checks result (Printable title.now) TitleByte }
{
    if title.iter().all(|b| (32..=126).contains(b)) {
        Ok(())
    } else {
        Err(Check::TitleByte.refusal().into())
    }
}

pub(crate) fn check_figures(kind: Kind, first: u32, second: u32) -> Result<(), FileFault>
    ensures { Checks result (Ranged kind first second) Figure }
{
    let ranged = match kind {
        Kind::Tree => (1..=30).contains(&first) && (1..=491_520).contains(&second),
        Kind::Refutation => first <= 30 && second == 0,
    };
    if ranged {
        Ok(())
    } else {
        Err(Check::Figure.refusal().into())
    }
}

pub(crate) fn check_records(records: Records<'_>) -> Result<(), FileFault>
    requires { length records.groups.now ≤ 1048576 }
    ensures { ChecksEach result (Faulty records.entry.kind (chunk_at records.entry.groups.now) (length records.entry.groups.now)) RecordForm }
{
    match records.lowest_faulty() {
        None => Ok(()),
        Some(place) => Err(Check::RecordForm.at(Place::Record(place as u32)).into()),
    }
}
