use crate::playing::complaint;
use case_files::{Case, read_cases};
use fixed_point::Memory;
use std::alloc::Global;
use std::fmt;

/// What playing case files came to: a line for each run that failed, and how many cases passed.
#[derive(Drop)]
pub struct Report {
    alloc: Global,
    lines: String,
    passed: u32,
    failed: u32,
}

impl Report {
    /// The report on no files.
    pub fn new(alloc: Global) -> Report {
        Report {
            alloc,
            lines: String::new(alloc),
            passed: 0,
            failed: 0,
        }
    }

    /// Plays the cases of a case file with this text. Where the file isn't in the form of one, it
    /// counts as one case that failed, and none of its cases is played.
    pub fn play(&mut self, file: &str, text: &str) -> Result<(), Memory> {
        match read_cases(self.alloc, text) {
            Ok(cases) => {
                for case in &cases {
                    self.play_case(file, case)?;
                }
            }
            Err(fault) => {
                writeln!(self.lines, "{file}:{}: {}", fault.line, fault.wrong)?;
                self.count(false);
            }
        }
        Ok(())
    }

    /// Counts a file that can't be read as one case that failed.
    pub fn miss(&mut self, file: &str) -> Result<(), Memory> {
        writeln!(self.lines, "{file}: can't be read")?;
        self.count(false);
        Ok(())
    }

    /// Whether there were cases, and all passed.
    pub fn is_good(&self) -> bool {
        self.failed == 0 && self.passed != 0
    }

    fn play_case(&mut self, file: &str, case: &Case) -> Result<(), Memory> {
        let mut passed = true;
        for run in &case.runs {
            if let Some(complaint) = complaint(self.alloc, case, run)? {
                writeln!(
                    self.lines,
                    "{file}:{}: {}: {complaint}",
                    run.line, case.name
                )?;
                passed = false;
            }
        }
        self.count(passed);
        Ok(())
    }

    fn count(&mut self, passed: bool) {
        let counter = if passed {
            &mut self.passed
        } else {
            &mut self.failed
        };
        *counter = counter.saturating_add(1);
    }
}

impl fmt::Display for Report {
    fn fmt<W: fmt::Write>(&self, f: &mut fmt::Formatter<W>) -> fmt::Result {
        f.write_str(self.lines.as_str())?;
        match (self.passed, self.failed) {
            (0, 0) => f.write_str("no case was played"),
            (passed, 0) => write!(f, "{passed} cases passed"),
            (passed, failed) => write!(f, "{passed} passed, {failed} failed"),
        }
    }
}
