// A document read and written again, and one written and read again.
ghost use Rattle.std.specs.Prelude.{◌≡◌, ◌++◌, length, drop, MatchResult};
ghost use Rattle.document.specs.Order.{Passed, Refused};
ghost use Rattle.document.specs.Checks.{paper_of};
ghost use Rattle.document.specs.Documents.{document_paper};
ghost use Rattle.writer.specs.Writing.{write_tests, rewrite_tests};

use crate::writer::write;
use document::{Document, FileFault, Sheet, read};

// Reads a file and writes what it says at the front of a buffer: the same bytes.
pub fn rewrite(file: &[u8], out: &mut [u8]) -> Result<usize, FileFault>
    ensures { MatchResult result (λ n. (n ≡ length file.now) × (out.new ≡ file.now ++ drop n out.old) × Passed (rewrite_tests file.now (length out.old))) (λ f. (out.new ≡ out.old) × Refused (rewrite_tests file.now (length out.old)) f.fault) }
{
    let document = read(file)?;
    write(document.into(), out)
}

// Writes what a sheet says at the front of a buffer and reads it there: the same document.
pub fn reread<'a>(sheet: Sheet<'_>, out: &'a mut [u8]) -> Result<Document<'a>, FileFault>
    ensures { MatchResult result (λ d. (document_paper d ≡ paper_of sheet.entry) × Passed (write_tests (paper_of sheet.entry) (length out.old))) (λ f. Refused (write_tests (paper_of sheet.entry) (length out.old)) f.fault) }
{
    let bytes = write(sheet, out)?;
    read(&out[0..bytes])
}
