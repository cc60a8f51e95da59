// Times reading and writing of a document of a million records, as often as the first argument says, and reports on the error output.
#![tactic(auto)]

use anyhow::anyhow;
use document::{Contents, Kind, Record, RecordKind, Sheet, read};
use samples::LEAF;
use std::alloc::{AllocError, Global};
use std::time::Instant;
use std::{env, iter};
use writer::write;

// Splits with nine counts each, all beneath one split.
fn groups(heap: Global, count: u32) -> Result<Vec<u8>, AllocError> {
    let group = |value| {
        let counts = (0..9).map(|value| Record {
            kind: RecordKind::Count,
            value,
            ..LEAF
        });
        let split = Record {
            kind: RecordKind::Split,
            value,
            span: 9,
            ..LEAF
        };
        counts.chain(iter::once(split))
    };
    let split = Record {
        kind: RecordKind::Split,
        span: count.saturating_mul(10),
        ..LEAF
    };
    let room = (count as usize).saturating_mul(120).saturating_add(12);
    let mut bytes = Vec::with_capacity(heap, room)?;
    for record in (0..count).flat_map(group).chain(iter::once(split)) {
        // In one piece: byte by byte takes longer.
        bytes.extend_from_slice(&<[u8; 12]>::from(record))?;
    }
    Ok(bytes)
}

fn read_often(file: &[u8], rounds: u32) -> u64 {
    let mut games = 0u64;
    // A `for` over the rounds: no index is counted.
    for _ in 0..rounds {
        if let Ok(document) = read(file) {
            games = games.saturating_add(u64::from(document.contents().game));
        }
    }
    games
}

fn write_often(sheet: Sheet<'_>, out: &mut [u8], rounds: u32) -> usize {
    let mut bytes = 0usize;
    // As above, no index is counted.
    for _ in 0..rounds {
        if let Ok(more) = write(sheet, out) {
            bytes = bytes.saturating_add(more);
        }
    }
    bytes
}

fn rounds_asked(rt: &HostRuntime) -> anyhow::Result<u32> {
    match env::args(rt)?.nth(1) {
        Some(text) => Ok(text.as_str().parse::<u32>()?),
        None => Ok(1),
    }
}

fn timed(rt: &HostRuntime, file: &[u8], sheet: Sheet<'_>, out: &mut [u8]) -> anyhow::Result<()> {
    let rounds = rounds_asked(rt)?;
    let size = file.len();
    let start = Instant::now(rt)?;
    let well = read_often(file, rounds);
    let reading = start.elapsed(rt)?.as_nanos();
    let again = Instant::now(rt)?;
    let written = write_often(sheet, out, rounds);
    let writing = again.elapsed(rt)?.as_nanos();
    eprintln!(rt;
        "{rounds} rounds of {size} bytes; read {well}, {reading} ns; written {written}, {writing} ns"
    )?;
    Ok(())
}

fn main(rt: HostRuntime) -> anyhow::Result<()> {
    let records = groups(rt.alloc(), 100_000)?;
    let sheet = Sheet {
        letter: Kind::Refutation.into(),
        contents: Contents {
            title: b"a million records",
            records: records.as_slice(),
            first: 3,
            second: 0,
            game: 1,
        },
    };
    let mut file = vec![in rt.alloc(); 0u8; 12_000_053]?;
    let mut out = vec![in rt.alloc(); 0u8; 12_000_053]?;
    match write(sheet, file.as_mut_slice()) {
        Ok(_) => timed(&rt, file.as_slice(), sheet, out.as_mut_slice()),
        Err(_) => Err(anyhow!("the document is not in form")),
    }
}
