// Scores the figures that are printed about the games, and prints a report: what print says, what the rules say, and
// whether the two agree.
#![tactic(auto)]

mod coins;
mod divisions;
mod documents;
mod games;
mod notation;
mod pairs;
mod pegs;
mod places;
mod report;

use house::house_figures;
use report::{Report, Stop};

fn main(rt: HostRuntime) -> Result<(), Stop> {
    let mut report = Report::new(&rt);
    games::show(&rt)?;
    pegs::show(&mut report)?;
    coins::show(&mut report)?;
    divisions::show(&mut report)?;
    places::show(&mut report)?;
    documents::show(&mut report)?;
    let rows = house_figures();
    println!(rt; "House figures proved: {rows}")?;
    report.close()
}
