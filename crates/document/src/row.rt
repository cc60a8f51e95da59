// The siblings beneath a record, found by stepping back over whole spans.
ghost use Rattle.std.specs.Prelude.{◌≡◌, ◌*◌, ◌<◌, ◌≤◌, length};
ghost use Rattle.document.specs.Bytes.{chunk_at};
ghost use Rattle.document.specs.Walks.{Tells};

use crate::kind::Kind;
use crate::record::{Record, key_of};

// Spans that do not make the records between two places one row of siblings.
#[derive(Clone, Copy, PartialEq, Eq, Debug)]
pub(crate) struct Misfit;

// The records of a document of a kind, each in its own group of twelve bytes.
// They stay the tree by spans that the file has: no other form is built, so reading allocates nothing.
#[derive(Clone, Copy)]
pub(crate) struct Records<'a> {
    pub kind: Kind,
    pub groups: &'a [[u8; 12]],
}

impl<'a> Records<'a> {
    pub(crate) fn record(self, i: usize) -> Record
        requires { i < length self.groups.now }
        ensures { result ≡ chunk_at self.entry.groups.now i }
    {
        Record::from(self.groups[i])
    }

    // The lowest of the siblings from `low` up to `i` that does not rise above the one before it, if there is one.
    pub(crate) fn lowest_late(self, low: usize, i: usize) -> Result<Option<usize>, Misfit>
        requires { (low ≤ i) × (i ≤ length self.groups.now) }
        ensures { Tells self.entry.kind (chunk_at self.entry.groups.now) low i result }
    {
        // A `while`, since each step goes back over a span and no index is counted.
        let mut end = i;
        let mut found = None;
        while low < end {
            let child = self.record(end - 1);
            let span = child.span as usize;
            if span > end - 1 - low {
                return Err(Misfit);
            }
            let next = end - 1 - span;
            if low < next && key_of(self.kind, child) <= key_of(self.kind, self.record(next - 1)) {
                found = Some(end - 1);
            }
            end = next;
        }
        Ok(found)
    }
}
