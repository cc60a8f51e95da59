// Files read as documents.
ghost use Rattle.std.specs.Prelude.{Some, None, MatchResult};
ghost use Rattle.document.specs.declared.kind.Kind.TheVariants.{Tree, Refutation};
ghost use Rattle.document.specs.Checks.{letter_for};
ghost use Rattle.document.specs.Documents.{contents_paper, document_paper, tree_letter, refutation_letter};
ghost use Rattle.document.specs.Files.{Reads, Rejects};

use crate::file::opened;
use crate::judge::{Document, judged};
use crate::kind::Kind;
use crate::sheet::{Contents, FileFault};

fn read_as<'a>(only: Option<Kind>, file: &'a [u8]) -> Result<Document<'a>, FileFault>
    ensures { MatchResult result (λ d. Reads only file.now (document_paper d)) (λ f. Rejects only file.now f.fault) }
{
    let sheet = opened(only, file)?;
    judged(sheet)
}

// The document that a file is.
pub fn read<'a>(file: &'a [u8]) -> Result<Document<'a>, FileFault>
    ensures { MatchResult result (λ d. Reads None file.now (document_paper d)) (λ f. Rejects None file.now f.fault) }
{
    read_as(None, file)
}

// What a document of one kind holds.
fn read_of_kind<'a>(kind: Kind, file: &'a [u8]) -> Result<Contents<'a>, FileFault>
    ensures { MatchResult result (λ d. Reads (Some kind) file.now (contents_paper (letter_for kind) d)) (λ f. Rejects (Some kind) file.now f.fault) }
{
    let document = read_as(Some(kind), file)?;
    Ok(document.contents())
}

// The tree that a file is; a refutation is refused by its letter.
pub fn read_tree<'a>(file: &'a [u8]) -> Result<Contents<'a>, FileFault>
    ensures { MatchResult result (λ d. Reads (Some Tree) file.now (contents_paper tree_letter d)) (λ f. Rejects (Some Tree) file.now f.fault) }
{
    read_of_kind(Kind::Tree, file)
}

// The refutation that a file is; a tree is refused by its letter.
pub fn read_refutation<'a>(file: &'a [u8]) -> Result<Contents<'a>, FileFault>
    ensures { MatchResult result (λ d. Reads (Some Refutation) file.now (contents_paper refutation_letter d)) (λ f. Rejects (Some Refutation) file.now f.fault) }
{
    read_of_kind(Kind::Refutation, file)
}
