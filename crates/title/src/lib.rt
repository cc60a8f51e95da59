// The title to show: the house's own line, or else the supplier's.
#![tactic(auto)]

ghost use Rattle.std.specs.Prelude.{◌≡◌, length, Some};
ghost use Rattle.title.specs.Titles.{Shows, name_of};

use std::fmt;

#[derive(Clone, Copy, PartialEq, Eq)]
pub enum Source {
    House,
    Supplier,
}

impl fmt::Display for Source {
    ghost output = { λ source. Some (name_of source) };

    fn fmt<W: fmt::Write>(&self, f: &mut fmt::Formatter<W>) -> fmt::Result {
        match self {
            Source::House => f.write_str("house"),
            Source::Supplier => f.write_str("supplier"),
        }
    }
}

// A title, whose it is, and where it stands in that one's line. The two places are kept as numbers, since callers print
// both.
#[derive(Clone, Copy)]
pub struct Shown<'a> {
    pub title: &'a [u8],
    pub source: Source,
    pub start: usize,
    pub end: usize,
}

fn shown_whole<'a>(source: Source, title: &'a [u8]) -> Shown<'a>
    ensures { (result.title.now ≡ title.now) × (result.source ≡ source) × (result.start ≡ 0) × (result.end ≡ length title.now) }
{
    Shown {
        title,
        source,
        start: 0,
        end: title.len(),
    }
}

// An empty house line gives way to the supplier's.
pub fn title_to_show<'a>(house: &'a [u8], supplier: &'a [u8]) -> Shown<'a>
    ensures { Shows house.now supplier.now result }
{
    if house.is_empty() {
        shown_whole(Source::Supplier, supplier)
    } else {
        shown_whole(Source::House, house)
    }
}
