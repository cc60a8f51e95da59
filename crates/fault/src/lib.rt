// What a call refuses with: which check failed, where in the work that check belongs, and which part of the input it blames.
#![tactic(auto)]

ghost use Rattle.std.specs.Prelude.{◌≡◌, Some};
ghost use Rattle.fault.specs.Faults.{number_of, stage_of, fault_at, refusal, place_text};

use std::fmt;

// The part of the work that a check belongs to.
#[derive(Clone, Copy, PartialEq, Eq, Debug)]
pub enum Stage {
    Rule,
    File,
    Record,
    Game,
    Book,
}

// What a fault blames: the input as a whole, one record of a document, or one code of a game.
#[derive(Clone, Copy, PartialEq, Eq, Debug)]
pub enum Place {
    Nowhere,
    Record(u32),
    Code(u32),
}

impl fmt::Display for Place {
    ghost output = { λ place. Some (place_text place) };

    fn fmt<W: fmt::Write>(&self, f: &mut fmt::Formatter<W>) -> fmt::Result {
        match self {
            Place::Nowhere => f.write_str("-"),
            Place::Record(at) => write!(f, "r{at}"),
            Place::Code(at) => write!(f, "c{at}"),
        }
    }
}

// The number is kept as a number: a fault is known by it, its stage and its place, as docs/REFUSALS.md lists them.
#[derive(Clone, Copy, PartialEq, Eq, Debug)]
pub struct Fault {
    pub number: u32,
    pub stage: Stage,
    pub place: Place,
}

// The checks that can refuse, each with the number it refuses with.
#[derive(Clone, Copy, PartialEq, Eq, Debug)]
pub enum Check {
    FileTooShort = 1,
    KindOrEdition = 2,
    Lengths = 3,
    TitleByte = 4,
    Figure = 6,
    RecordForm = 7,
    GameParameters = 17,
    TableShape = 18,
    BlurTable = 19,
    HintPair = 20,
    OutputTooShort = 21,
    NinthHint = 32,
}

impl Check {
    // The enum's own numbers, by a cast: a `From` would say no more.
    pub fn number(self) -> u32
        ensures { result ≡ number_of self }
    {
        self as u32
    }

    pub fn stage(self) -> Stage
        ensures { result ≡ stage_of self }
    {
        match self {
            Check::FileTooShort
            | Check::KindOrEdition
            | Check::Lengths
            | Check::TitleByte
            | Check::Figure
            | Check::OutputTooShort => Stage::File,
            Check::RecordForm => Stage::Record,
            Check::GameParameters
            | Check::TableShape
            | Check::BlurTable
            | Check::HintPair
            | Check::NinthHint => Stage::Rule,
        }
    }

    // The fault of this check, which blames no part of the input.
    pub fn refusal(self) -> Fault
        ensures { result ≡ refusal self }
    {
        self.at(Place::Nowhere)
    }

    // The fault of this check at a place.
    pub fn at(self, place: Place) -> Fault
        ensures { result ≡ fault_at self place }
    {
        Fault {
            number: self.number(),
            stage: self.stage(),
            place,
        }
    }
}
