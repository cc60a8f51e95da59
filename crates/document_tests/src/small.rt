// The two small documents, whole, with each byte changed, and cut short.
use crate::lines::{show_fault, show_read};
use document::{FileFault, Kind, read_refutation, read_tree};
use samples::{REFUTATION, TREE};
use title::title_to_show;
use writer::rewrite;

fn show_broken(rt: &HostRuntime, file: &[u8], by: u8) -> anyhow::Result<()> {
    for (at, byte) in file.iter().enumerate() {
        let mut copy = Vec::from_slice(rt.alloc(), file)?;
        copy[at] = byte.wrapping_add(by);
        print!(rt; "byte {at} plus {by}: ")?;
        show_read(rt, copy.as_slice())?;
    }
    Ok(())
}

fn show_again(rt: &HostRuntime, file: &[u8], room: usize) -> anyhow::Result<()> {
    let mut out = vec![in rt.alloc(); 255u8; room]?;
    print!(rt; "room {room}: ")?;
    match rewrite(file, out.as_mut_slice()) {
        Ok(bytes) => println!(rt; "{bytes} bytes")?,
        Err(refused) => show_fault(rt, refused)?,
    }
    println!(rt; "{out:?}")?;
    Ok(())
}

fn show_taken<T: Drop>(
    rt: &HostRuntime,
    kind: Kind,
    read: Result<T, FileFault>,
) -> anyhow::Result<()> {
    match read {
        Ok(_) => println!(rt; "as a {kind}: taken")?,
        Err(refused) => show_fault(rt, refused)?,
    }
    Ok(())
}

fn show_letters(rt: &HostRuntime, file: &[u8]) -> anyhow::Result<()> {
    show_taken(rt, Kind::Tree, read_tree(file))?;
    show_taken(rt, Kind::Refutation, read_refutation(file))
}

fn show_title(rt: &HostRuntime, house: &[u8], supplier: &[u8]) -> anyhow::Result<()> {
    let shown = title_to_show(house, supplier);
    let source = shown.source;
    let title = shown.title;
    let start = shown.start;
    let end = shown.end;
    println!(rt; "{source} {start}..{end} {title:?}")?;
    Ok(())
}

fn show_all(rt: &HostRuntime, file: &[u8]) -> anyhow::Result<()> {
    show_read(rt, file)?;
    show_letters(rt, file)?;
    show_again(rt, file, file.len().saturating_sub(1))?;
    show_again(rt, file, file.len().saturating_add(2))?;
    show_broken(rt, file, 1)?;
    show_broken(rt, file, 128)
}

pub(crate) fn report(rt: &HostRuntime) -> anyhow::Result<()> {
    show_all(rt, TREE)?;
    show_all(rt, REFUTATION)?;
    show_read(rt, b"too short")?;
    show_title(rt, b"Lid", b"Box")?;
    show_title(rt, b"", b"Box")
}
