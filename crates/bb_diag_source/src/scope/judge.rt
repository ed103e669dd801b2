//! What is known before a statement: the names in scope, what they hold, and the part. It is read from the tokens
//! before the statement.

use crate::scope::kinds::kind_of;
use crate::scope::statement::{Statement, until_end, word_at};
use bb_basis::Memory;
use bb_code::Kind;
use bb_compile_scope::{ClassId, class_of, link_slot};
use bb_diag_text::Token;
use bb_schema::Schema;
use std::alloc::Global;

/// A `delete` that may have deleted the unit of a name: its line, and the class of the unit it deletes.
#[derive(Clone, Copy)]
pub struct Deletion {
    pub line: u64,
    pub class: ClassId,
}

/// A name in scope: what it holds, the depth of braces that it is known in, and the `delete` that may have deleted its
/// unit.
#[derive(Clone, Copy)]
pub struct Known<'a> {
    pub name: &'a str,
    pub kind: Kind,
    depth: usize,
    pub gone: Option<Deletion>,
}

/// What is known at a location of a source.
#[derive(Drop)]
pub struct Judge<'a, 's> {
    pub alloc: Global,
    pub schema: &'s Schema,
    pub known: Vec<Known<'a>>,
    /// The part: `do`, `require`; empty before the first.
    pub part: &'a str,
    class: Option<ClassId>,
    depth: usize,
}

impl<'a, 's> Judge<'a, 's> {
    /// Returns the judge before all sources.
    pub fn of(alloc: Global, schema: &'s Schema) -> Judge<'a, 's> {
        Judge {
            alloc,
            schema,
            known: Vec::new(alloc),
            part: "",
            class: None,
            depth: 0,
        }
    }

    /// Returns the judge before a statement.
    pub fn before(
        alloc: Global,
        schema: &'s Schema,
        statement: Statement<'a, '_>,
    ) -> Result<Judge<'a, 's>, Memory> {
        let tokens = statement.before();
        let mut judge = Judge::of(alloc, schema);
        judge.class = schema.class(word_at(tokens, 1));
        let mut before = "";
        for (index, token) in tokens.iter().enumerate() {
            if before != "." {
                judge.step(tokens.get(index..).unwrap_or(&[]))?;
            }
            before = token.text;
        }
        Ok(judge)
    }

    /// Returns the maximum number of names in scope at once in the part that `part` begins.
    pub fn most_names(
        alloc: Global,
        schema: &'s Schema,
        part: Statement<'a, '_>,
    ) -> Result<usize, Memory> {
        let tokens = part.rest();
        let mut judge = Judge::of(alloc, schema);
        judge.depth = 1;
        let mut most = 0;
        let mut before = "";
        for (index, token) in tokens.iter().enumerate() {
            if before != "." {
                judge.step(tokens.get(index..).unwrap_or(&[]))?;
            }
            if token.is("}") && judge.depth <= 1 {
                return Ok(most);
            }
            most = judge.known.len().max(most);
            before = token.text;
        }
        Ok(most)
    }

    // Takes a token, given the ones after it.
    fn step(&mut self, tokens: &[Token<'a>]) -> Result<(), Memory> {
        match word_at(tokens, 0) {
            "{" => self.depth = self.depth.saturating_add(1),
            "}" => self.leave(),
            "require" | "revalidate" | "do" if self.depth == 1 => self.begin_part(tokens)?,
            "obviate" | "retrigger" if self.depth == 1 => self.begin_part(tokens)?,
            "let" => {
                let value = until_end(tokens.get(3..).unwrap_or(&[]));
                self.declare(tokens, kind_of(self, value), 0)?;
            }
            "new" => {
                let kind = self.live(self.schema.class(word_at(tokens, 3)));
                self.declare(tokens, kind, 0)?;
            }
            "with" => self.declare(tokens, self.bound(tokens), 1)?,
            "for" => {
                self.push("", Kind::Any, self.depth.saturating_add(1))?;
                self.declare(tokens, self.looped(tokens), 1)?;
            }
            "delete" if self.depth > 1 => self.strike(tokens),
            _ => {}
        }
        Ok(())
    }

    // Leaves a brace, and forgets the names known only in it.
    fn leave(&mut self) {
        self.depth = self.depth.saturating_sub(1);
        let depth = self.depth;
        let count = self.known.iter().take_while(|it| it.depth <= depth).count();
        self.known.truncate(count);
    }

    // Begins a part, with the names of its units.
    fn begin_part(&mut self, tokens: &[Token<'a>]) -> Result<(), Memory> {
        self.part = word_at(tokens, 0);
        self.known.clear();
        let it = self.old(self.class);
        self.push("it", it, 1)?;
        if word_at(tokens, 1) == "on" {
            let ev = self.old(self.schema.class(word_at(tokens, 2)));
            self.push("ev", ev, 1)?;
        }
        Ok(())
    }

    // Declares the name after a word, `inner` braces further in.
    fn declare(&mut self, tokens: &[Token<'a>], kind: Kind, inner: usize) -> Result<(), Memory> {
        self.push(word_at(tokens, 1), kind, self.depth.saturating_add(inner))
    }

    fn push(&mut self, name: &'a str, kind: Kind, depth: usize) -> Result<(), Memory> {
        self.known.push(Known {
            name,
            kind,
            depth,
            gone: None,
        })?;
        Ok(())
    }

    // Records that a deletion may have deleted the units of all names whose class it invalidates.
    fn strike(&mut self, tokens: &[Token<'a>]) {
        let Some(class) = class_of(self.kind_named(word_at(tokens, 1))) else {
            return;
        };
        let gone = tokens.first().map(|it| Deletion {
            line: it.line,
            class,
        });
        let schema = self.schema;
        for known in &mut self.known {
            if let Kind::Ref(own) = known.kind {
                if schema.strikes(class, own) {
                    known.kind = Kind::Old(own);
                    known.gone = gone;
                }
            }
        }
    }

    // Returns what the name of a `with` holds.
    fn bound(&self, tokens: &[Token<'a>]) -> Kind {
        if word_at(tokens, 4) == "as" {
            return self.live(self.schema.class(word_at(tokens, 5)));
        }
        self.live(self.linked(word_at(tokens, 3), word_at(tokens, 5)))
    }

    // Returns what the name of a `for` holds.
    fn looped(&self, tokens: &[Token<'a>]) -> Kind {
        if word_at(tokens, 3) == "find" {
            return self.live(self.schema.class(word_at(tokens, 4)));
        }
        self.live(self.linked(word_at(tokens, 3), word_at(tokens, 5)))
    }

    // Returns the target class of a link slot of a name's unit.
    fn linked(&self, unit: &str, slot: &str) -> Option<ClassId> {
        let class = self.class_named(unit)?;
        match link_slot(self.schema, class, slot) {
            Ok((_, link)) => Some(link.to),
            Err(_) => None,
        }
    }

    fn live(&self, class: Option<ClassId>) -> Kind {
        class.map_or(Kind::Any, |class| Kind::Ref(class))
    }

    fn old(&self, class: Option<ClassId>) -> Kind {
        class.map_or(Kind::Any, |class| Kind::Old(class))
    }

    /// Returns a name in scope, if it is one.
    pub fn find(&self, name: &str) -> Option<Known<'a>> {
        self.known.iter().find(|it| it.name == name).copied()
    }

    /// Returns what a name holds; `Any` if that is unknown.
    pub fn kind_named(&self, name: &str) -> Kind {
        match self.find(name) {
            Some(known) => known.kind,
            None => Kind::Any,
        }
    }

    /// Returns the class of a name's unit, if it is known.
    pub fn class_named(&self, name: &str) -> Option<ClassId> {
        class_of(self.kind_named(name))
    }

    /// Returns the name of a class; empty if the class does not exist.
    pub fn class_name(&self, class: ClassId) -> &'s str {
        self.schema.class_name(class).unwrap_or("")
    }
}
