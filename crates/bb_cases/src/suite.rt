//! All cases: runs the entries of a file one after another, and reports them. `main` passes file after file.

use crate::histories::compare_history;
use crate::tables::Table;
use bb_cases_format::{
    Difference, Entries, Entry, Fault, Meaning, Names, Report, Scene, Scope, Spot, expanded,
    expanded_text, is_shared, rows_of,
};
use bb_cases_parts::{compare_code, compare_schema};
use std::alloc::{AllocError, Global};

/// The names so far, and the report on the cases.
#[derive(Drop)]
pub(crate) struct Suite {
    alloc: Global,
    names: Names,
    pub report: Report,
}

impl Suite {
    pub fn new(alloc: Global) -> Suite {
        Suite {
            alloc,
            names: Names::new(alloc),
            report: Report::new(alloc),
        }
    }

    /// Runs the cases in the text of a file, or reports that the file has no text.
    pub fn run_file(&mut self, file: &str, text: Option<&str>) -> Result<(), AllocError> {
        self.names.begin(is_shared(file));
        let mut entries = Entries {
            alloc: self.alloc,
            list: Vec::new(self.alloc),
            number: 0,
        };
        let read = match text {
            Some(text) => entries.read(text),
            None => Err(Fault::File),
        };
        if let Err(fault) = read {
            let spot = Spot {
                file,
                line: entries.number,
                name: "the file",
                wrong: false,
            };
            return self.report.add(spot, Err(fault));
        }
        for entry in &entries.list {
            self.run_entry(file, entry)?;
        }
        Ok(())
    }

    fn run_entry(&mut self, file: &str, entry: &Entry<'_>) -> Result<(), AllocError> {
        let header = &entry.first.header;
        let spot = Spot {
            file,
            line: entry.first.number,
            name: header.name,
            wrong: header.wrong,
        };
        let outcome = match header.kind {
            "let" | "board" => match self.define(entry) {
                Ok(()) => return Ok(()),
                Err(fault) => Err(fault),
            },
            // Built programs run these.
            "input" | "inputs" | "bytes" | "assembly" | "verify" => return Ok(()),
            "histories" | "runs" => match self.run_table(spot, entry) {
                Ok(()) => return Ok(()),
                Err(fault) => Err(fault),
            },
            _ => self.compare(entry),
        };
        self.report.add(spot, outcome)
    }

    // Returns the first difference of a single case.
    fn compare(&self, entry: &Entry<'_>) -> Result<Option<Difference>, Fault> {
        let scope = Scope::new(self.alloc, &self.names);
        match entry.first.header.kind {
            "moves" => compare_history(self.alloc, scope, entry),
            "code" => compare_code(self.alloc, &self.names, entry),
            "schema" => compare_schema(self.alloc, scope, entry),
            _ => Err(Fault::Kind),
        }
    }

    // Names a text or a board.
    fn define(&mut self, entry: &Entry<'_>) -> Result<(), Fault> {
        let header = &entry.first.header;
        let scope = Scope::new(self.alloc, &self.names);
        let text = entry.first.text(self.alloc)?;
        let meaning = if header.kind == "let" {
            header.check(&[])?;
            Meaning::Text(expanded(scope, text.as_str())?)
        } else {
            header.check(&["schema", "delete"])?;
            let units = expanded_text(scope, text.as_str())?;
            Meaning::Board(Scene {
                schema: self.names.copied(header.option("schema"))?,
                units: if units.is_empty() { None } else { Some(units) },
                deleted: match header.number("delete", 0)? {
                    0 => None,
                    unit => Some(unit),
                },
            })
        };
        if entry.second.is_some() {
            return Err(Fault::Second);
        }
        self.names.add(header.name, meaning)
    }

    // Compares the rows of a table.
    fn run_table(&mut self, spot: Spot<'_>, entry: &Entry<'_>) -> Result<(), Fault> {
        let rows = rows_of(self.alloc, entry.rows()?)?;
        let table = Table::of(self.alloc, &self.names, entry)?;
        for row in &rows {
            let line = row.number;
            let spot = Spot { line, ..spot };
            self.report.add(spot, table.compare(row))?;
        }
        Ok(())
    }
}
