//! The program that runs cases: reads files of cases, makes their calls, and compares the results with the expected
//! ones. It skips the cases that built programs can run; tools/cases runs those.
//!
//! - In: the `.case` files of `data/`, as docs/contributors/CASES.md describes them.
//! - Out: a line for every case that does not hold, and the numbers of cases that hold and do not.
//! - Family: bb_cases_format reads the files, bb_cases_parts has the cases of schemas and codes, history the cases of
//!   moves.
#![tactic(auto)]

mod histories;
mod history;
mod suite;
mod tables;

use crate::suite::Suite;
use bb_cases_format::named_files;
use std::process::ExitCode;
use std::{fs, io};

fn main(rt: HostRuntime) -> io::Result<ExitCode> {
    let mut suite = Suite::new(rt.alloc());
    for file in &named_files(&rt)? {
        let text = fs::read_to_string(&rt, file.as_str()).ok();
        suite.run_file(file.as_str(), text.as_ref().map(|text| text.as_str()))?;
        print!(rt; "{}", suite.report.text.as_str())?;
        suite.report.text.clear();
    }
    suite.report.add_counts()?;
    print!(rt; "{}", suite.report.text.as_str())?;
    if suite.report.all_hold() {
        Ok(ExitCode::SUCCESS)
    } else {
        Ok(ExitCode::FAILURE)
    }
}
