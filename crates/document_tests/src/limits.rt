// Documents at their limits, and one past them.
use crate::lines::{show_fault, show_read};
use crate::records::{chain, put_trailer, row};
use document::{Contents, Kind, Sheet};
use writer::write;

// The greatest figures of a refutation, with no title and no records yet.
const UNTITLED: Contents<'static> = Contents {
    title: b"",
    records: b"",
    first: 30,
    second: 0,
    game: 7,
};

fn show_written(rt: &HostRuntime, sheet: Sheet<'_>) -> anyhow::Result<()> {
    let title = sheet.contents.title.len();
    let records = sheet.contents.records.len();
    let room = title.saturating_add(records).saturating_add(24);
    let mut out = vec![in rt.alloc(); 0u8; room]?;
    match write(sheet, out.as_mut_slice()) {
        Ok(bytes) => {
            print!(rt; "{bytes} bytes: ")?;
            show_read(rt, out.as_slice())
        }
        Err(refused) => show_fault(rt, refused),
    }
}

fn show_kind(rt: &HostRuntime, kind: Kind, contents: Contents<'_>) -> anyhow::Result<()> {
    let letter = kind.into();
    show_written(rt, Sheet { letter, contents })
}

// A document of two records, and what is refused of it when one thing is changed.
fn show_changes(rt: &HostRuntime) -> anyhow::Result<()> {
    let records = row(rt.alloc(), 2)?;
    let contents = Contents {
        title: &[b'x'; 40],
        records: records.as_slice(),
        first: 1,
        ..UNTITLED
    };
    show_kind(rt, Kind::Refutation, contents)?;
    let title = &[b'x'; 41];
    show_kind(rt, Kind::Refutation, Contents { title, ..contents })?;
    let letter = b'X';
    show_written(rt, Sheet { letter, contents })?;
    let title = b"a\tb";
    show_kind(rt, Kind::Refutation, Contents { title, ..contents })?;
    let first = 31;
    show_kind(rt, Kind::Refutation, Contents { first, ..contents })?;
    let second = 1;
    show_kind(rt, Kind::Tree, Contents { second, ..contents })
}

fn show_file(rt: &HostRuntime, count: u32) -> anyhow::Result<()> {
    let mut file = row(rt.alloc(), count)?;
    put_trailer(&mut file, count)?;
    show_read(rt, file.as_slice())
}

pub(crate) fn report(rt: &HostRuntime) -> anyhow::Result<()> {
    show_changes(rt)?;
    let guesses = chain(rt.alloc(), 1_000_000)?;
    let deep = Contents {
        title: b"deep",
        records: guesses.as_slice(),
        second: 491_520,
        ..UNTITLED
    };
    show_kind(rt, Kind::Tree, deep)?;
    for count in [1_048_576, 1_048_577] {
        let siblings = row(rt.alloc(), count)?;
        let wide = Contents {
            records: siblings.as_slice(),
            ..UNTITLED
        };
        show_kind(rt, Kind::Refutation, wide)?;
    }
    show_file(rt, 1_048_576)?;
    show_file(rt, 1_048_577)
}
