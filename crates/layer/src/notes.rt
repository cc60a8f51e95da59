// The table of hints: up to eight, one for each guess.
ghost use Rattle.std.specs.Prelude.{◌≡◌, ◌≤◌, [], length, if◌then◌else◌, Ok, Err, Some, None, nat_lt, slice_get};
ghost use Rattle.fault.specs.Faults.{refusal};
ghost use Rattle.fault.specs.declared.Check.TheVariants.{NinthHint};
ghost use Rattle.layer.specs.Hints.{entered, place_of, has_room};

use crate::hint::Hint;
use fault::{Check, Fault};
use std::marker::Model;

// How many guesses can have a hint.
pub(crate) const PLACES: usize = 8;

// The entries in use come first.
#[derive(Drop)]
pub struct Notes {
    entries: [Option<Hint>; PLACES],
}

// Clauses see the hints, in the order in which their guesses came.
impl Model for Notes {
    ghost use Rattle.std.specs.Prelude.{List};
    ghost use Rattle.layer.specs.declared.hint.Hint.{Hint};

    ghost Value = { List Hint };

    ghost use Rattle.layer.specs.Notes.{listed, Packed};

    ghost view = { listed };

    ghost invariant = { Packed };
}

impl Notes {
    pub(crate) fn new() -> Notes
        ensures { result ≡ [] }
    {
        Notes {
            entries: [None; PLACES],
        }
    }

    // The entry at a place, where one is in use.
    pub(crate) fn entry(&self, at: usize) -> Option<Hint>
        ensures value { result ≡ slice_get self.now at }
        ensures few { length self.now ≤ 8 }
    {
        *self.entries.get(at)?
    }

    // Where the entry for a guess stands, or else the first place that is free.
    fn find(&self, guess: u32) -> Option<usize>
        ensures { result ≡ (if nat_lt (place_of guess self.now) 8 then Some (place_of guess self.now) else None) }
    {
        self.entries
            .iter()
            .position(|entry| entry.is_none_or(|hint| hint.guess == guess))
    }

    // Replaces the entry for the same guess, or adds one where there is room.
    pub(crate) fn enter(&mut self, hint: Hint) -> Result<(), Fault>
        ensures told { result ≡ (if has_room self.old hint then Ok tt else Err (refusal NinthHint)) }
        ensures after { self.new ≡ (if has_room self.old hint then entered self.old hint else self.old) }
    {
        let at = self.find(hint.guess).ok_or(Check::NinthHint.refusal())?;
        self.entries[at] = Some(hint);
        Ok(())
    }
}
