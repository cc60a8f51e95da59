// How many codes a number of guesses can find at most.
ghost use Rattle.std.specs.Prelude.{◌≡◌, ℕ, ◌<◌, min, slice_index};
ghost use Rattle.strategy.specs.Strategy.{places as most_codes};

use crate::report::{Report, Stop};
use std::array;
use strategy::places;

// A row of places, from no guess to four.
fn first_places(naming: bool, answers: u8) -> [u32; 5]
    ensures { (k : ℕ) → k < 5 → slice_index result k ≡ min (most_codes naming answers k) 16384 }
{
    array::from_fn(|guesses| places(naming, answers, guesses as u8))
}

pub(crate) fn show(report: &mut Report<'_>) -> Result<(), Stop> {
    println!(report.rt; "Places for codes after 0 to 4 guesses")?;
    report.compare_rows(
        "naming, 14 answers",
        &[0, 1, 14, 183, 2380],
        &first_places(true, 14),
    )?;
    report.compare_rows(
        "not naming, 3 answers",
        &[1, 3, 9, 27, 81],
        &first_places(false, 3),
    )
}
