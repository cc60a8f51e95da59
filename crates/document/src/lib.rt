// Documents of code-breaking games: trees and refutations, read from bytes, put to their checks, and written to bytes.
#![tactic(auto)]

mod file;
mod form;
mod judge;
mod kind;
mod reader;
mod record;
mod row;
mod sheet;

pub use file::opened;
pub use judge::{Document, judged};
pub use kind::Kind;
pub use reader::{read, read_refutation, read_tree};
pub use record::{Record, RecordKind, record_in};
pub use sheet::{Contents, FileFault, Sheet};
