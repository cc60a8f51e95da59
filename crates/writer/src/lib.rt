// Documents of code-breaking games, written to bytes.
#![tactic(auto)]

mod round;
mod writer;

pub use round::{reread, rewrite};
pub use writer::write;
