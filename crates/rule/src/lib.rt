// Answer rules: the interface through which everything else knows a game, and the four games behind it.
#![tactic(auto)]

mod blacks;
mod board;
mod coins;
mod interface;
mod pegs;
mod row;
mod row_game;
mod set;
mod table;

pub use blacks::Blacks;
pub use coins::Coins;
pub use interface::AnswerRule;
pub use pegs::Pegs;
pub use table::{Table, all_answers, byte_at};
