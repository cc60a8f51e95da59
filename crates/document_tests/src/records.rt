// Records of large documents, and a trailer for them.
use document::{Record, RecordKind};
use samples::LEAF;
use std::alloc::{AllocError, Global};
use std::iter;

// Room for so many records and a trailer after them.
fn room(heap: Global, count: u32) -> Result<Vec<u8>, AllocError> {
    let bytes = (count as usize).saturating_mul(12).saturating_add(24);
    Vec::with_capacity(heap, bytes)
}

// A record is put in one piece: byte by byte takes longer.
fn put(bytes: &mut Vec<u8>, record: Record) -> Result<(), AllocError> {
    bytes.extend_from_slice(&<[u8; 12]>::from(record))
}

// Guesses one beneath the other, with a leaf at the bottom.
pub(crate) fn chain(heap: Global, count: u32) -> Result<Vec<u8>, AllocError> {
    let guesses = (1..count).map(|span| Record {
        kind: RecordKind::Guess,
        span,
        ..LEAF
    });
    let mut bytes = room(heap, count)?;
    for record in iter::once(LEAF).chain(guesses) {
        put(&mut bytes, record)?;
    }
    Ok(bytes)
}

// One split with all the other records directly beneath it.
pub(crate) fn row(heap: Global, count: u32) -> Result<Vec<u8>, AllocError> {
    let counts = (1..count).map(|value| Record {
        kind: RecordKind::Count,
        value,
        ..LEAF
    });
    let split = Record {
        kind: RecordKind::Split,
        span: count.saturating_sub(1),
        ..LEAF
    };
    let mut bytes = room(heap, count)?;
    for record in counts.chain(iter::once(split)) {
        put(&mut bytes, record)?;
    }
    Ok(bytes)
}

// A refutation's trailer without a title, for game 7.
pub(crate) fn put_trailer(file: &mut Vec<u8>, count: u32) -> Result<(), AllocError> {
    file.extend_from_slice(b"R\x01\x00\x00")?;
    file.extend_from_slice(&count.to_be_bytes())?;
    file.extend_from_slice(b"\x00\x00\x00\x01\x00\x00\x00\x00")?;
    file.extend_from_slice(&count.wrapping_mul(12).to_be_bytes())?;
    file.extend_from_slice(b"\x00\x00\x00\x07")
}
