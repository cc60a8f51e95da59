// What reading a file answers, as a line of text.
use document::{Document, FileFault, read};

fn show_document(rt: &impl Print, document: Document<'_>) -> anyhow::Result<()> {
    let kind = document.kind();
    let contents = document.contents();
    let title = contents.title.len();
    let records = contents.record_count();
    let first = contents.first;
    let second = contents.second;
    let game = contents.game;
    println!(rt;
        "{kind}, title {title}, records {records}, figures {first} {second}, game {game}"
    )?;
    Ok(())
}

pub(crate) fn show_fault(rt: &impl Print, refused: FileFault) -> anyhow::Result<()> {
    let number = refused.fault.number;
    let stage = refused.fault.stage;
    let place = refused.fault.place;
    println!(rt; "no {number} {stage:?} {place}")?;
    Ok(())
}

pub(crate) fn show_read(rt: &impl Print, file: &[u8]) -> anyhow::Result<()> {
    match read(file) {
        Ok(document) => show_document(rt, document),
        Err(refused) => show_fault(rt, refused),
    }
}
