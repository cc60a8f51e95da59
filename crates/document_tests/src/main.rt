// Reads, breaks and writes documents, small ones and ones at the limits, and says what came of each.
#![tactic(auto)]

mod limits;
mod lines;
mod records;
mod small;

fn main(rt: HostRuntime) -> anyhow::Result<()> {
    small::report(&rt)?;
    limits::report(&rt)
}
