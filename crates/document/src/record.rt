// The records of a document.
ghost use Rattle.std.specs.Prelude.{◌≡◌, ◌*◌, ◌/◌, ◌<◌, ◌≤◌, length, slice_index, IfSome, MatchOption};
ghost use Rattle.document.specs.Bytes.{kind_in, kind_byte, record_at, record_bytes};
ghost use Rattle.document.specs.Forms.{key};

use crate::kind::Kind;

// What a record is: a tree has leaves and guesses, a refutation counts and splits.
// Any other byte is kept: 0 to 3 are never read as `Other`.
#[derive(Clone, Copy, PartialEq, Eq, Debug)]
pub enum RecordKind {
    Leaf,
    Guess,
    Count,
    Split,
    Other(u8),
}

impl From<u8> for RecordKind {
    ghost from_gives = { λ byte kind. (kind ≡ kind_in byte) × (kind_byte kind ≡ byte) };

    fn from(byte: u8) -> RecordKind {
        match byte {
            0 => RecordKind::Leaf,
            1 => RecordKind::Guess,
            2 => RecordKind::Count,
            3 => RecordKind::Split,
            _ => RecordKind::Other(byte),
        }
    }
}

impl From<RecordKind> for u8 {
    ghost from_gives = { λ kind byte. byte ≡ kind_byte kind };

    fn from(kind: RecordKind) -> u8 {
        match kind {
            RecordKind::Leaf => 0,
            RecordKind::Guess => 1,
            RecordKind::Count => 2,
            RecordKind::Split => 3,
            RecordKind::Other(byte) => byte,
        }
    }
}

// One record as it stands in a file; in form, its gap is zero.
#[derive(Clone, Copy, PartialEq, Eq, Debug)]
pub struct Record {
    pub kind: RecordKind,
    pub answer: u8,
    pub gap: u16,
    pub value: u32,
    pub span: u32,
}

impl From<[u8; 12]> for Record {
    ghost from_gives = { λ bytes item. item ≡ record_at bytes 0 };

    fn from(bytes: [u8; 12]) -> Record {
        let [kind, answer, g0, g1, v0, v1, v2, v3, s0, s1, s2, s3] = bytes;
        Record {
            kind: kind.into(),
            answer,
            gap: u16::from_be_bytes([g0, g1]),
            value: u32::from_be_bytes([v0, v1, v2, v3]),
            span: u32::from_be_bytes([s0, s1, s2, s3]),
        }
    }
}

impl From<Record> for [u8; 12] {
    ghost from_gives = { λ item bytes. bytes ≡ record_bytes item };

    fn from(item: Record) -> [u8; 12] {
        let [g0, g1] = item.gap.to_be_bytes();
        let [v0, v1, v2, v3] = item.value.to_be_bytes();
        let [s0, s1, s2, s3] = item.span.to_be_bytes();
        [
            item.kind.into(),
            item.answer,
            g0,
            g1,
            v0,
            v1,
            v2,
            v3,
            s0,
            s1,
            s2,
            s3,
        ]
    }
}

// What the siblings of a document rise by.
pub(crate) fn key_of(kind: Kind, item: Record) -> u32
    ensures { result ≡ key kind item }
{
    match kind {
        Kind::Tree => u32::from(item.answer),
        Kind::Refutation => item.value,
    }
}

// Record `i` of the records of a document, if there is one.
pub fn record_in(records: &[u8], i: usize) -> Option<Record>
    ensures value { MatchOption result (length records.now / 12 ≤ i) (λ e. (i < length records.now / 12) × (e ≡ record_at records.now i)) }
    ensures byte { IfSome result (λ e. kind_byte e.kind ≡ slice_index records.now (12 * i)) }
{
    let bytes = records.as_chunks::<12>().0.get(i)?;
    Some(Record::from(*bytes))
}
