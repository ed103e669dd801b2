//! The meaning of names: texts and boards, of a file and of all files. Inserts and cases look them up.

use crate::fault::Fault;
use crate::header::is_name;
use crate::inserts::text_of;
use std::alloc::Global;
use std::collections::BTreeMap;

// The words of inserts, which can't be names.
const RESERVED: [&str; 7] = ["n", "m", "row", "join", "byte", "code", "times"];

/// How to make a blackboard.
pub struct Scene {
    /// The document of the schema.
    pub schema: String,
    /// The document of the initial units, if there are any.
    pub units: Option<String>,
    /// The unit to delete after the initial units were created, if any.
    pub deleted: Option<u64>,
}

// Written by hand, so that proofs meet one call where it is dropped, instead of each of its fields.
impl Drop for Scene {
    fn drop(self) {
        let Scene {
            schema: _,
            units: _,
            deleted: _,
        } = self;
    }
}

/// The meaning of a name.
#[derive(Drop)]
pub enum Meaning {
    /// A text, of any bytes.
    Text(Vec<u8>),
    /// A blackboard.
    Board(Scene),
}

/// The names of a file, and those known in all files.
#[derive(Drop)]
pub struct Names {
    alloc: Global,
    shared: BTreeMap<String, Meaning>,
    own: BTreeMap<String, Meaning>,
    // Whether new names are known in all files.
    sharing: bool,
}

impl Names {
    /// Makes an empty table of names.
    pub fn new(alloc: Global) -> Names {
        Names {
            alloc,
            shared: BTreeMap::new(alloc),
            own: BTreeMap::new(alloc),
            sharing: false,
        }
    }

    /// Begins a file, and forgets the names of the file before; `sharing` makes its names known in all files.
    pub fn begin(&mut self, sharing: bool) {
        self.own = BTreeMap::new(self.alloc);
        self.sharing = sharing;
    }

    /// Adds a name. `Name`: it is not a name. `Taken`: it has a meaning already, or is a word of inserts.
    pub fn add(&mut self, name: &str, meaning: Meaning) -> Result<(), Fault> {
        if !is_name(name) {
            return Err(Fault::Name);
        }
        if self.get(name).is_some() || RESERVED.contains(&name) {
            return Err(Fault::Taken);
        }
        let key = String::from_str(self.alloc, name)?;
        let names = if self.sharing {
            &mut self.shared
        } else {
            &mut self.own
        };
        let _ = names.insert(key, meaning)?;
        Ok(())
    }

    fn get(&self, name: &str) -> Option<&Meaning> {
        match self.own.get(name) {
            Some(meaning) => Some(meaning),
            None => self.shared.get(name),
        }
    }

    /// Returns the text with a name. `Unknown`: no text has it.
    pub fn text(&self, name: &str) -> Result<&[u8], Fault> {
        match self.get(name) {
            Some(Meaning::Text(text)) => Ok(text.as_slice()),
            _ => Err(Fault::Unknown),
        }
    }

    /// Returns the board with a name. `Unknown`: no board has it.
    pub fn board(&self, name: &str) -> Result<&Scene, Fault> {
        match self.get(name) {
            Some(Meaning::Board(scene)) => Ok(scene),
            _ => Err(Fault::Unknown),
        }
    }

    /// Copies the text with the name that an option has. `Options`: the option is missing. `Utf8`: the text is not
    /// UTF-8.
    pub fn copied(&self, name: Option<&str>) -> Result<String, Fault> {
        let text = text_of(self.text(name.ok_or(Fault::Options)?)?)?;
        Ok(String::from_str(self.alloc, text)?)
    }
}
