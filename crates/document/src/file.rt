// Files: the fields of their trailer, and their parts.
ghost use Rattle.std.specs.Prelude.{◌≡◌, ◌≤◌, length, IfOk, MatchResult};
ghost use Rattle.fault.specs.declared.Check.TheVariants.{FileTooShort, KindOrEdition, Lengths};
ghost use Rattle.document.specs.Order.{Passed, Refused};
ghost use Rattle.document.specs.Checks.{Taken, Checks, paper_of};
ghost use Rattle.document.specs.Files.{trailer_by, trailer_in, Agreed, paper_in, opening_tests};

use crate::kind::Kind;
use crate::sheet::{Contents, FileFault, Sheet, check_letter, check_title};
use fault::Check;

// What the last 24 bytes of a file say, right or wrong.
#[derive(Clone, Copy)]
pub(crate) struct Trailer {
    // A byte and no `Kind`, since the bytes can say any letter, and which are taken is asked later.
    letter: u8,
    edition: u8,
    title: u16,
    count: u32,
    first: u32,
    second: u32,
    distance: u32,
    game: u32,
}

impl From<[[u8; 4]; 6]> for Trailer {
    ghost from_gives = { λ words t. t ≡ trailer_by words };

    fn from(words: [[u8; 4]; 6]) -> Trailer {
        let [
            [letter, edition, t0, t1],
            count,
            first,
            second,
            distance,
            game,
        ] = words;
        Trailer {
            letter,
            edition,
            title: u16::from_be_bytes([t0, t1]),
            count: u32::from_be_bytes(count),
            first: u32::from_be_bytes(first),
            second: u32::from_be_bytes(second),
            distance: u32::from_be_bytes(distance),
            game: u32::from_be_bytes(game),
        }
    }
}

fn trailer_of(file: &[u8]) -> Result<Trailer, FileFault>
    ensures room { Checks result (36 ≤ length file.now) FileTooShort }
    ensures trailer { IfOk result (λ t. t ≡ trailer_in file.now) }
{
    let words = file.as_rchunks::<4>().1;
    match words.last_chunk::<6>() {
        Some(last) if 36 <= file.len() => Ok(Trailer::from(*last)),
        _ => Err(Check::FileTooShort.refusal().into()),
    }
}

fn check_edition(only: Option<Kind>, trailer: Trailer) -> Result<(), FileFault>
    ensures { Checks result (Taken only trailer.letter × (trailer.edition ≡ 1)) KindOrEdition }
{
    check_letter(only, trailer.letter)?;
    if trailer.edition == 1 {
        Ok(())
    } else {
        Err(Check::KindOrEdition.refusal().into())
    }
}

fn check_agreement(size: usize, trailer: Trailer) -> Result<(), FileFault>
    ensures { Checks result (Agreed size trailer) Lengths }
{
    let count = trailer.count as usize;
    let title = trailer.title as usize;
    if title <= 40
        && (1..=1_048_576).contains(&count)
        && trailer.distance as usize == 12 * count
        && size == title + 12 * count + 24
    {
        Ok(())
    } else {
        Err(Check::Lengths.refusal().into())
    }
}

// What a file says, if its trailer and its title are in order; its figures and records are not looked at.
pub fn opened<'a>(only: Option<Kind>, file: &'a [u8]) -> Result<Sheet<'a>, FileFault>
    ensures { MatchResult result (λ s. (paper_of s ≡ paper_in file.now) × Passed (opening_tests only file.now)) (λ f. Refused (opening_tests only file.now) f.fault) }
{
    let trailer = trailer_of(file)?;
    check_edition(only, trailer)?;
    check_agreement(file.len(), trailer)?;
    let start = trailer.title as usize;
    let end = start + 12 * trailer.count as usize;
    let title = &file[0..start];
    check_title(title)?;
    Ok(Sheet {
        letter: trailer.letter,
        contents: Contents {
            title,
            records: &file[start..end],
            first: trailer.first,
            second: trailer.second,
            game: trailer.game,
        },
    })
}
