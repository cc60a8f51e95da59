// Two small documents, of one peg and two colours: what they say when they are read, and their bytes when they are written again.
use crate::report::{Report, Stop};
use document::read;
use samples::{REFUTATION, TREE};
use writer::rewrite;

// Whether a file is written again as it was read.
fn is_kept(file: &[u8]) -> Result<bool, Stop> {
    // The larger of the two small documents fits it whole.
    let mut out = [0u8; 72];
    let bytes = rewrite(file, &mut out)?;
    Ok(&out[..bytes] == file)
}

// A document whose records and figures are known.
fn score(report: &mut Report<'_>, name: &str, file: &[u8], known: [u32; 3]) -> Result<(), Stop> {
    let contents = read(file)?.contents();
    let records = u32::try_from(contents.record_count()).unwrap_or(u32::MAX);
    let read = [records, contents.first, contents.second];
    report.compare_rows(name, &known, &read)?;
    let verdict = report.tally.count(is_kept(file)?);
    println!(report.rt; "  {name}: read and written again: {verdict}")?;
    Ok(())
}

pub(crate) fn show(report: &mut Report<'_>) -> Result<(), Stop> {
    println!(report.rt; "Documents of one peg and two colours: records and two figures")?;
    score(report, "a tree", TREE, [4, 2, 3])?;
    score(report, "a refutation", REFUTATION, [1, 1, 0])
}
