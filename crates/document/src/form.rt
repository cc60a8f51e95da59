// Whether the records of a document are in form, and the lowest record that is not.
ghost use Rattle.std.specs.Prelude.{◌≡◌, ◌<◌, length, Decides};
ghost use Rattle.document.specs.Bytes.{chunk_at};
ghost use Rattle.document.specs.Forms.{Shaped, Unasked, Plain, Blames, Faulty};
ghost use Rattle.document.specs.Walks.{Least};

use crate::kind::Kind;
use crate::record::{Record, RecordKind};
use crate::row::{Misfit, Records};

fn is_shaped(kind: Kind, item: Record) -> bool
    ensures { Decides result (Shaped kind item) }
{
    match (kind, item.kind) {
        (Kind::Tree, RecordKind::Leaf) | (Kind::Refutation, RecordKind::Count) => item.span == 0,
        (Kind::Tree, RecordKind::Guess) => item.span > 0,
        (Kind::Refutation, RecordKind::Split) => true,
        _ => false,
    }
}

fn is_unasked(kind: Kind, item: Record) -> bool
    ensures { Decides result (Unasked kind item) }
{
    match kind {
        Kind::Tree => item.answer == 0,
        Kind::Refutation => item.answer == 0 && item.value == 0,
    }
}

// Whether record `i` of `count` has the fields of its kind, and of the root where it is the last.
fn is_plain(kind: Kind, item: Record, count: usize, i: usize) -> bool
    requires { i < count }
    ensures { Decides result (Plain kind item count i) }
{
    let rooted = i + 1 < count || (item.span as usize == i && is_unasked(kind, item));
    is_shaped(kind, item) && item.gap == 0 && rooted
}

impl<'a> Records<'a> {
    // The lowest record that is faulty on account of record `i`.
    fn lowest_blamed(self, i: usize) -> Option<usize>
        requires { i < length self.groups.now }
        ensures { Least (Blames self.entry.kind (chunk_at self.entry.groups.now) (length self.entry.groups.now) i) result }
    {
        let item = self.record(i);
        let span = item.span as usize;
        if span > i {
            return Some(i);
        }
        match self.lowest_late(i - span, i) {
            Ok(Some(place)) => Some(place),
            Ok(None) if is_plain(self.kind, item, self.groups.len(), i) => None,
            Ok(None) | Err(Misfit) => Some(i),
        }
    }

    // The lowest faulty record of a document.
    pub(crate) fn lowest_faulty(self) -> Option<usize>
        ensures { Least (Faulty self.entry.kind (chunk_at self.entry.groups.now) (length self.entry.groups.now)) result }
    {
        (0..self.groups.len())
            .filter_map(|i| self.lowest_blamed(i))
            .reduce(|lowest, place| lowest.min(place))
    }
}
