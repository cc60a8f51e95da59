// Documents written into a buffer of the caller's.
ghost use Rattle.std.specs.Prelude.{◌≡◌, ◌+◌, ◌<◌, ◌≤◌, ◌++◌, length, take, drop, MatchResult};
ghost use Rattle.std.specs.List.{flat_map};
ghost use Rattle.document.specs.Bytes.{ending, encode, size};
ghost use Rattle.document.specs.Order.{Refused};
ghost use Rattle.document.specs.Checks.{paper_of, Sized};
ghost use Rattle.writer.specs.Writing.{write_tests, Writes};

use document::{FileFault, Sheet, judged};
use fault::Check;

// A sheet whose lengths are in order, so that its document has a size and a trailer.
#[derive(Clone, Copy)]
struct Measured<'a> {
    sheet: Sheet<'a>,
    ghost sized: { Sized sheet.contents.title.now sheet.contents.records.now },
}

impl<'a> Measured<'a> {
    // How many bytes there are to write.
    fn size(self) -> usize
        ensures { result ≡ size (paper_of self.entry.sheet) }
    {
        let contents = self.sheet.contents;
        contents.title.len() + contents.records.len() + 24
    }

    // The trailer, in groups of four bytes.
    fn trailer(self) -> [[u8; 4]; 6]
        ensures bytes { flat_map (λ word. word) result ≡ ending (paper_of self.entry.sheet) }
        ensures fits { self.entry.sheet.contents.game < 4294967296 }
    {
        let contents = self.sheet.contents;
        let [t0, t1] = (contents.title.len() as u16).to_be_bytes();
        let count = contents.record_count() as u32;
        [
            [self.sheet.letter, 1, t0, t1],
            count.to_be_bytes(),
            contents.first.to_be_bytes(),
            contents.second.to_be_bytes(),
            (12 * count).to_be_bytes(),
            contents.game.to_be_bytes(),
        ]
    }

    // Puts the document at the front of a buffer.
    fn put(self, out: &mut [u8])
        requires { size (paper_of self.sheet) ≤ length out.old }
        ensures bytes { out.new ≡ encode (paper_of self.entry.sheet) ++ drop (size (paper_of self.entry.sheet)) out.old }
        ensures fits { self.entry.sheet.contents.game < 4294967296 }
    {
        let contents = self.sheet.contents;
        let start = contents.title.len();
        let end = start + contents.records.len();
        let last = self.trailer();
        put_part(out, 0, contents.title);
        put_part(out, start, contents.records);
        put_part(out, end, last.as_flattened());
    }
}

// Copies a part into a buffer at a place.
fn put_part(out: &mut [u8], at: usize, part: &[u8])
    requires { at + length part.now ≤ length out.old }
    ensures { out.new ≡ take at out.old ++ (part.now ++ drop (at + length part.now) out.old) }
{
    let end = at + part.len();
    out[at..end].copy_from_slice(part);
}

// Writes the document that a sheet says at the front of a buffer, and answers how many bytes it has.
// Bytes past them stay as they were, and a refusal leaves the whole buffer as it was.
pub fn write(sheet: Sheet<'_>, out: &mut [u8]) -> Result<usize, FileFault>
    ensures { MatchResult result (λ n. Writes (paper_of sheet.entry) n out.old out.new) (λ f. (out.new ≡ out.old) × Refused (write_tests (paper_of sheet.entry) (length out.old)) f.fault) }
{
    judged(sheet)?;
    let measured = Measured { sheet };
    let bytes = measured.size();
    if out.len() < bytes {
        return Err(Check::OutputTooShort.refusal().into());
    }
    measured.put(out);
    Ok(bytes)
}
