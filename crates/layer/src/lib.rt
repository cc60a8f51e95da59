// Rules made of other rules: hints that narrow the codes, and a blur that makes answers coarser.
#![tactic(auto)]

mod blur;
mod hint;
mod hints;
mod notes;

pub use blur::{Blur, Returned};
pub use hint::Hint;
pub use hints::Hints;
