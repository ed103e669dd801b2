//! The report: a few lines for every case that does not hold, and the counts. The suite (bb_cases) adds cases to it.

use crate::difference::Difference;
use crate::fault::Fault;
use std::alloc::{AllocError, Global};
use std::fmt::Write;

/// Where a case is.
#[derive(Clone, Copy)]
pub struct Spot<'a> {
    /// The name of the file.
    pub file: &'a str,
    /// The line of the header of the case, or of its row.
    pub line: usize,
    /// The name of the case.
    pub name: &'a str,
    /// Whether the case is marked as wrong.
    pub wrong: bool,
}

/// The lines of the report so far, and the counts of cases.
#[derive(Drop)]
pub struct Report {
    /// The lines that are not printed yet.
    pub text: String,
    held: u64,
    failed: u64,
    wrong: u64,
}

impl Report {
    /// Makes a report without cases.
    pub fn new(alloc: Global) -> Report {
        Report {
            text: String::new(alloc),
            held: 0,
            failed: 0,
            wrong: 0,
        }
    }

    /// Adds the outcome of a case. A case marked as wrong has to differ.
    pub fn add(
        &mut self,
        spot: Spot<'_>,
        outcome: Result<Option<Difference>, Fault>,
    ) -> Result<(), AllocError> {
        match outcome {
            Ok(None) if !spot.wrong => {
                self.held = self.held.saturating_add(1);
                return Ok(());
            }
            Ok(Some(_)) if spot.wrong => {
                self.wrong = self.wrong.saturating_add(1);
                self.text.push_str("Wrong, as it is marked: ")?;
            }
            _ => self.failed = self.failed.saturating_add(1),
        }
        let line = spot.line;
        write!(self.text, "{}:{line}: {}: ", spot.file, spot.name)?;
        match outcome {
            Ok(None) => self.text.push_str("it is marked as wrong, and holds\n"),
            Ok(Some(difference)) => self.add_difference(&difference),
            Err(fault) => writeln!(self.text, "{fault}"),
        }
    }

    fn add_difference(&mut self, difference: &Difference) -> Result<(), AllocError> {
        match difference.line {
            0 => self.text.push_str("the status")?,
            line => write!(self.text, "line {line}")?,
        }
        let wanted = difference.wanted.as_str();
        let given = difference.given.as_str();
        writeln!(self.text, "\n    wanted {wanted}\n    given  {given}")
    }

    /// Returns whether there are cases that hold, and none fails.
    pub fn all_hold(&self) -> bool {
        self.held > 0 && self.failed == 0
    }

    /// Adds the counts.
    pub fn add_counts(&mut self) -> Result<(), AllocError> {
        writeln!(self.text, "{} hold", self.held)?;
        writeln!(self.text, "{} do not hold", self.failed)?;
        writeln!(self.text, "{} wrong, as marked", self.wrong)
    }
}
