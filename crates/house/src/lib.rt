// The house figures: answers that the games are known by and how many codes guesses can find, proved from what the games mean.
#![tactic(auto)]

ghost use Rattle.std.specs.Prelude.{◌≡◌, length};
ghost use Rattle.house.specs.Figures.{figures, EveryFigure};

// How many rows the table of house figures has. Every one of them holds.
pub fn house_figures() -> usize
    ensures rows { result ≡ length figures }
    ensures every { EveryFigure }
{
    18
}
