// What a document says, put to all its checks.
ghost use Rattle.std.specs.Prelude.{◌≡◌, MatchResult};
ghost use Rattle.document.specs.Order.{Passed, Refused};
ghost use Rattle.document.specs.Checks.{paper_of, paper_tests, letter_for};
ghost use Rattle.document.specs.Documents.{kind_of_document, contents_of, contents_paper, document_paper};

use crate::kind::Kind;
use crate::row::Records;
use crate::sheet::{
    Contents, FileFault, Sheet, check_figures, check_lengths, check_letter, check_records,
    check_title,
};

// What passed its checks, and the kind that its letter says.
#[derive(Clone, Copy)]
pub enum Document<'a> {
    Tree(Contents<'a>),
    Refutation(Contents<'a>),
}

impl<'a> Document<'a> {
    // A function and no `From`, which would take a pair: two arguments read plainer.
    fn of_kind(kind: Kind, contents: Contents<'a>) -> Document<'a>
        ensures { document_paper result ≡ contents_paper (letter_for kind) contents.entry }
    {
        match kind {
            Kind::Tree => Document::Tree(contents),
            Kind::Refutation => Document::Refutation(contents),
        }
    }

    pub fn kind(self) -> Kind
        ensures { result ≡ kind_of_document self.entry }
    {
        match self {
            Document::Tree(_) => Kind::Tree,
            Document::Refutation(_) => Kind::Refutation,
        }
    }

    // What the document holds, of either kind.
    pub fn contents(self) -> Contents<'a>
        ensures { result ≡ contents_of self.entry }
    {
        match self {
            Document::Tree(contents) | Document::Refutation(contents) => contents,
        }
    }
}

impl<'a> From<Document<'a>> for Sheet<'a> {
    ghost from_gives = { λ document sheet. paper_of sheet ≡ document_paper document };

    fn from(document: Document<'a>) -> Sheet<'a> {
        Sheet {
            letter: document.kind().into(),
            contents: document.contents(),
        }
    }
}

// The document that a sheet says, or the first check that it does not pass.
pub fn judged<'a>(sheet: Sheet<'a>) -> Result<Document<'a>, FileFault>
    ensures { MatchResult result (λ d. (document_paper d ≡ paper_of sheet.entry) × Passed (paper_tests (paper_of sheet.entry))) (λ f. Refused (paper_tests (paper_of sheet.entry)) f.fault) }
{
    let contents = sheet.contents;
    let kind = check_letter(None, sheet.letter)?;
    check_lengths(contents)?;
    check_title(contents.title)?;
    check_figures(kind, contents.first, contents.second)?;
    let groups = contents.records.as_chunks::<12>().0;
    check_records(Records { kind, groups })?;
    Ok(Document::of_kind(kind, contents))
}
