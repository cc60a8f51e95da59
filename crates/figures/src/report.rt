// The report as it is printed, and how many of its printed figures agree with the computed ones.
ghost use Rattle.std.specs.Prelude.{◌≡◌, ◌==◌};
ghost use Rattle.figures.specs.Report.{verdict, counted};

use document::FileFault;
use fault::Fault;
use std::{fmt, io};

#[derive(Clone, Copy, PartialEq, Eq)]
pub enum Verdict {
    Agrees,
    Differs,
}

impl fmt::Display for Verdict {
    fn fmt<W: fmt::Write>(&self, f: &mut fmt::Formatter<W>) -> fmt::Result {
        match self {
            Verdict::Agrees => f.write_str("agrees"),
            Verdict::Differs => f.write_str("DIFFERS"),
        }
    }
}

// Why the report ends early or ends badly.
#[derive(Debug, Drop)]
pub enum Stop {
    Refused(Fault),
    Unwritten(io::Error),
    Wrong,
}

impl From<Fault> for Stop {
    fn from(fault: Fault) -> Stop {
        Stop::Refused(fault)
    }
}

impl From<io::Error> for Stop {
    fn from(error: io::Error) -> Stop {
        Stop::Unwritten(error)
    }
}

impl From<FileFault> for Stop {
    fn from(refused: FileFault) -> Stop {
        Stop::Refused(refused.fault)
    }
}

#[derive(Clone, Copy)]
pub struct Tally {
    agree: u32,
    differ: u32,
}

impl Tally {
    pub(crate) fn new() -> Tally
        ensures { (result.agree ≡ 0) × (result.differ ≡ 0) }
    {
        Tally {
            agree: 0,
            differ: 0,
        }
    }

    // Counts whether a figure came out as it should.
    pub(crate) fn count(&mut self, same: bool) -> Verdict
        ensures which { result ≡ verdict same }
        ensures count { self.new ≡ counted self.old result }
    {
        if same {
            self.agree = self.agree.saturating_add(1);
            Verdict::Agrees
        } else {
            self.differ = self.differ.saturating_add(1);
            Verdict::Differs
        }
    }

    // Compares a printed figure with the computed one, and counts the outcome.
    pub(crate) fn compare(&mut self, printed: u32, computed: u32) -> Verdict
        ensures which { result ≡ verdict (printed == computed) }
        ensures count { self.new ≡ counted self.old result }
    {
        self.count(printed == computed)
    }

    // Whether all that was compared since an earlier count agreed.
    pub(crate) fn since(&self, before: Tally) -> Verdict
        ensures { result ≡ verdict (before.differ == self.now.differ) }
    {
        if before.differ == self.differ {
            Verdict::Agrees
        } else {
            Verdict::Differs
        }
    }
}

// Where the report is printed, and what was compared in it so far.
#[derive(Drop)]
pub struct Report<'a> {
    pub rt: &'a HostRuntime,
    pub tally: Tally,
}

impl<'a> Report<'a> {
    pub(crate) fn new(rt: &'a HostRuntime) -> Report<'a> {
        Report {
            rt,
            tally: Tally::new(),
        }
    }

    // Prints a printed row above the computed one and compares them place by place, as far as print goes.
    pub(crate) fn compare_rows(
        &mut self,
        name: &str,
        printed: &[u32],
        computed: &[u32],
    ) -> Result<(), Stop> {
        print!(self.rt; "  {name}: printed ")?;
        for figure in printed {
            print!(self.rt; " {figure}")?;
        }
        println!(self.rt; "")?;
        let before = self.tally;
        print!(self.rt; "  {name}: computed")?;
        for (expected, figure) in printed.iter().zip(computed.iter()) {
            let _ = self.tally.compare(*expected, *figure);
            print!(self.rt; " {figure}")?;
        }
        let verdict = self.tally.since(before);
        println!(self.rt; ": {verdict}")?;
        Ok(())
    }

    // The last line, which says how many figures agree.
    pub(crate) fn close(&self) -> Result<(), Stop> {
        let agree = self.tally.agree;
        let differ = self.tally.differ;
        println!(self.rt; "Figures compared: {agree} agree, {differ} differ")?;
        if differ == 0 {
            Ok(())
        } else {
            Err(Stop::Wrong)
        }
    }
}
