//! Tables: cases of one kind, one in each row. The suite compares row by row.

use crate::history::add_history;
use bb_basis::Whole;
use bb_cases_format::{
    Code, Difference, Entry, Fault, Header, Names, Row, Scene, Scope, code_of, expanded_text,
    number,
};
use bb_cases_parts::{Asked, Schema, add_on_scene, entry_of, schema_of};
use std::alloc::Global;

// What the rows of a table have in common.
#[derive(Drop)]
enum Common<'a> {
    // Texts of moves, and the faults when they are read.
    Histories(Schema),
    // Executions of codes.
    Runs(&'a Scene),
}

impl<'a> Common<'a> {
    // Returns what the rows below a header have in common.
    fn of(alloc: Global, names: &'a Names, header: &Header<'_>) -> Result<Common<'a>, Fault> {
        if header.kind == "histories" {
            header.check(&["schema"])?;
            let text = names.copied(header.option("schema"))?;
            return Ok(Common::Histories(schema_of(alloc, text.as_str())?));
        }
        header.check(&["board", "head"])?;
        let board = header.option("board").ok_or(Fault::Options)?;
        Ok(Common::Runs(names.board(board)?))
    }
}

/// A table whose rows are compared.
#[derive(Drop)]
pub(crate) struct Table<'a> {
    alloc: Global,
    names: &'a Names,
    common: Common<'a>,
    // The text that each code begins with.
    head: String,
}

impl<'a> Table<'a> {
    /// Returns the table of an entry.
    pub fn of(alloc: Global, names: &'a Names, entry: &Entry<'_>) -> Result<Table<'a>, Fault> {
        let header = &entry.first.header;
        let common = Whole::of(Common::of(alloc, names, header)?);
        let head = match header.option("head") {
            None => String::new(alloc),
            name => names.copied(name)?,
        };
        Ok(Table {
            alloc,
            names,
            common: common.out(),
            head,
        })
    }

    /// Returns the first difference of a row.
    pub fn compare(&self, row: &Row) -> Result<Option<Difference>, Fault> {
        let (front, back) = row.sides()?;
        let scope = Scope::new(self.alloc, self.names);
        let text = expanded_text(scope, back)?;
        let mut given = String::new(self.alloc);
        self.add_given(&mut given, front, text.as_str())?;
        let wanted = match &self.common {
            Common::Runs(_) => expanded_text(scope, row.below.as_str())?,
            _ => format!(in self.alloc; "{front}\n{}", row.below.as_str())?,
        };
        Ok(Difference::of(self.alloc, wanted.as_bytes(), given.as_bytes())?)
    }

    // Appends the outcome of a text.
    fn add_given(&self, given: &mut String, front: &str, text: &str) -> Result<(), Fault> {
        match &self.common {
            Common::Histories(schema) => add_history(self.alloc, given, schema, text),
            Common::Runs(scene) => self.add_run(given, scene, front, text),
        }
    }

    // Returns the code of the head and the text after it.
    fn headed_code(&self, text: &str) -> Result<Code, Fault> {
        let whole = format!(in self.alloc; "{}{text}", self.head.as_str())?;
        code_of(self.alloc, whole.as_str())
    }

    fn add_run(
        &self,
        given: &mut String,
        scene: &Scene,
        front: &str,
        text: &str,
    ) -> Result<(), Fault> {
        let (units, limit) = front.split_once(' ').ok_or(Fault::Row)?;
        let asked = Asked {
            entry: entry_of(units)?,
            limit: number(limit)?,
            part: None,
        };
        add_on_scene(self.alloc, given, scene, &self.headed_code(text)?, asked)
    }
}
