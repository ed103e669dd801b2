//! Reads the text of a code. bbasm and the cases call `assemble`.

use crate::fault::{AsmFault, Slip, StatementFault};
use crate::labels::Labels;
use crate::names::{kind_of, operand_kind_of};
use crate::op::op_of;
use crate::operands::Operands;
use crate::pattern::read_pattern;
use crate::statement::{Statement, statements_of};
use bb_basis::{Items, Text};
use bb_code::{
    Code, CodeParts, FRAME_LIMIT, Frame, FrameEntry, Kinds, LOCAL_LIMIT, LOOP_LIMIT, Loop,
    NODE_LIMIT, OP_LIMIT, OPERAND_LIMIT, QUERY_LIMIT, Query, STACK_LIMIT, TEXT_BYTES_LIMIT,
    TEXT_COUNT_LIMIT, Version,
};
use serde_json::Value;
use std::alloc::Global;

/// Returns the code that a text describes. The error is the first wrong statement, with its line. For the form see
/// docs/users/formats/code.md.
pub fn assemble(alloc: Global, text: &str) -> Result<Code, AsmFault> {
    let statements = statements_of(alloc, text)?;
    let labels = Labels::of(alloc, &statements)?;
    let mut draft = Draft::new(alloc);
    let mut line = 1;
    for statement in &statements {
        line = statement.line;
        let mut operands = Operands::new(&statement.operands, &labels);
        draft
            .add(statement, &mut operands)
            .map_err(|halt| halt.at(line))?;
    }
    let slip = Slip::Limit;
    Code::new(draft.parts).ok_or(AsmFault::At { line, slip })
}

// The parts of a code so far.
#[derive(Drop)]
struct Draft {
    alloc: Global,
    parts: CodeParts,
}

// Checks that there may be one more entry after `count`.
fn room(count: usize, limit: u16) -> Result<(), Slip> {
    if count < usize::from(limit) {
        Ok(())
    } else {
        Err(Slip::Limit)
    }
}

impl Draft {
    fn new(alloc: Global) -> Draft {
        Draft {
            alloc,
            parts: CodeParts {
                version: Version::One,
                locals: 1,
                texts: Items::new(alloc),
                queries: Items::new(alloc),
                frames: Items::new(alloc),
                loops: Items::new(alloc),
                ops: Items::new(alloc),
            },
        }
    }

    // Adds the part of a code that a statement describes.
    fn add(
        &mut self,
        statement: &Statement<'_>,
        operands: &mut Operands<'_>,
    ) -> Result<(), StatementFault> {
        match statement.name {
            "" => Ok(()),
            "version" => self.set_version(operands),
            "locals" => self.set_locals(operands),
            "text" => self.add_text(operands),
            "query" => self.add_query(operands),
            "frame" => self.add_frame(operands),
            "loop" => self.add_loop(operands),
            name => self.add_op(name, operands),
        }
    }

    // `version NUMBER`
    fn set_version(&mut self, operands: &mut Operands<'_>) -> Result<(), StatementFault> {
        self.parts.version = operands.version()?;
        operands.end()?;
        Ok(())
    }

    // `locals COUNT`
    fn set_locals(&mut self, operands: &mut Operands<'_>) -> Result<(), StatementFault> {
        if self.parts.frames.len() > 0 {
            return Err(StatementFault::Slip(Slip::Late));
        }
        let count = operands.number()?;
        operands.end()?;
        if count == 0 || count > LOCAL_LIMIT {
            return Err(StatementFault::Slip(Slip::Limit));
        }
        self.parts.locals = count;
        Ok(())
    }

    // `text "TEXT"`
    fn add_text(&mut self, operands: &mut Operands<'_>) -> Result<(), StatementFault> {
        room(self.parts.texts.len(), TEXT_COUNT_LIMIT)?;
        let word = operands.word()?;
        operands.end()?;
        let Ok(Value::String(text)) = Value::from_str(self.alloc, word) else {
            return Err(StatementFault::Slip(Slip::Text));
        };
        if text.len() > usize::from(TEXT_BYTES_LIMIT) {
            return Err(StatementFault::Slip(Slip::Limit));
        }
        self.parts.texts.push(Text::new(self.alloc, text)?)?;
        Ok(())
    }

    // `query CLASS SPACE KIND.. where PATTERN`
    fn add_query(&mut self, operands: &mut Operands<'_>) -> Result<(), StatementFault> {
        room(self.parts.queries.len(), QUERY_LIMIT)?;
        let class = operands.number()?;
        let space = operands.number()?;
        let mut kinds = Items::new(self.alloc);
        for _ in 0..=OPERAND_LIMIT {
            if operands.takes("where") {
                break;
            }
            kinds.push(operand_kind_of(operands.word()?)?)?;
        }
        if kinds.len() > OPERAND_LIMIT {
            return Err(StatementFault::Slip(Slip::Limit));
        }
        let mut nodes = NODE_LIMIT;
        let pattern = read_pattern(self.alloc, NODE_LIMIT, &mut nodes, operands)?;
        operands.end()?;
        let query = Query {
            class,
            space,
            kinds,
            pattern,
        };
        self.parts.queries.push(query)?;
        Ok(())
    }

    // `frame PLACE KIND.. / KIND..`
    fn add_frame(&mut self, operands: &mut Operands<'_>) -> Result<(), StatementFault> {
        room(self.parts.frames.len(), FRAME_LIMIT)?;
        let place = operands.place()?;
        let locals = kinds_of(self.alloc, operands)?;
        let stack = kinds_of(self.alloc, operands)?;
        operands.end()?;
        if locals.len() != usize::from(self.parts.locals) {
            return Err(StatementFault::Slip(Slip::Locals));
        }
        if stack.len() > STACK_LIMIT {
            return Err(StatementFault::Slip(Slip::Limit));
        }
        let frame = Frame { locals, stack };
        self.parts.frames.push(FrameEntry { place, frame })?;
        Ok(())
    }

    // `loop HEAD-END`
    fn add_loop(&mut self, operands: &mut Operands<'_>) -> Result<(), StatementFault> {
        room(self.parts.loops.len(), LOOP_LIMIT)?;
        let (head, end) = operands.word()?.split_once('-').ok_or(Slip::Loop)?;
        let head = operands.place_of(head)?;
        let end = operands.place_of(end)?;
        operands.end()?;
        self.parts.loops.push(Loop { head, end })?;
        Ok(())
    }

    fn add_op(&mut self, name: &str, operands: &mut Operands<'_>) -> Result<(), StatementFault> {
        room(self.parts.ops.len(), OP_LIMIT)?;
        let op = op_of(name, operands)?;
        self.parts.ops.push(op)?;
        Ok(())
    }
}

// The kinds up to a `/` or the end.
fn kinds_of(alloc: Global, operands: &mut Operands<'_>) -> Result<Kinds, StatementFault> {
    let mut kinds = Kinds::new(alloc);
    // More kinds than a frame may have are a fault, so reading stops there.
    for _ in 0..=STACK_LIMIT {
        if operands.takes("/") {
            break;
        }
        let Some(word) = operands.next_word() else {
            break;
        };
        kinds.push(kind_of(word)?)?;
    }
    Ok(kinds)
}
