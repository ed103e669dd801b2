//! The faults of a text of sources besides the fault that the input is refused for: the first of every other source
//! that can be judged separately, and the operators of other languages everywhere. The report (reporting.rt) ends with
//! them.

use crate::heading::Label;
use crate::reporting::{Context, write_fault, write_reason};
use bb_basis::{Memory, Text};
use bb_compile::{CompileFault, LangFault, Place, SourceText, compile, parse};
use bb_diag_meaning::{Reason, explain_clauses};
use bb_diag_source::explain_operator;
use bb_diag_text::{Operators, Piece, Pieces, Token, TokenKind};
use bb_refusal::InputFault;
use bb_schema::Schema;
use std::alloc::{AllocError, Global};
use std::fmt::Write;

// The maximum number of faults that are explained, the first included. The others are counted.
const EXPLAINED: usize = 20;

// What is wrong with a piece that is judged alone.
#[derive(Drop)]
enum Judged {
    Right,
    Refused(InputFault),
    // A clause of the source that is named does not fit.
    Misfit { name: Text, reason: Reason },
}

// The messages so far.
#[derive(Drop)]
struct Others<'a, 's> {
    context: Context<'a, 's>,
    // Where the fault is that the input is refused for.
    first: Place,
    text: String,
    told: usize,
    more: usize,
}

/// Returns the messages on the faults of the text of sources besides the one at a location, each on separate lines
/// after a line feed. `Memory`: memory ran out.
pub(crate) fn others_than(context: Context<'_, '_>, first: Place) -> Result<String, Memory> {
    let mut others = Others {
        context,
        first,
        text: String::new(context.alloc),
        told: 1,
        more: 0,
    };
    let mut pieces = Pieces::of(context.input.sources);
    for _turn in 0..pieces.left() {
        let Some(piece) = pieces.take() else {
            break;
        };
        others.add_piece(piece)?;
    }
    others.end()
}

impl Others<'_, '_> {
    // Adds the faults of a piece: its first, and, if it can't be read, the operators of other languages after that one.
    fn add_piece(&mut self, piece: Piece<'_>) -> Result<(), Memory> {
        match judge(self.context, piece)? {
            Judged::Right => Ok(()),
            Judged::Misfit { name, reason } => self.add_reason(name.as_str(), &reason),
            Judged::Refused(fault) => {
                let Some(place) = fault.place() else {
                    return Ok(());
                };
                self.add_fault(&fault, place, piece)?;
                match fault {
                    InputFault::Lang(_) => self.add_operators(piece, place),
                    _ => Ok(()),
                }
            }
        }
    }

    // Returns whether a fault is to be explained, and counts it.
    fn begins(&mut self, place: Place) -> Result<bool, Memory> {
        if place == self.first {
            return Ok(false);
        }
        if self.told >= EXPLAINED {
            self.more = self.more.saturating_add(1);
            return Ok(false);
        }
        self.told = self.told.saturating_add(1);
        self.text.push_str("\n")?;
        Ok(true)
    }

    fn add_fault(
        &mut self,
        fault: &InputFault,
        place: Place,
        piece: Piece<'_>,
    ) -> Result<(), Memory> {
        if self.begins(place)? {
            let context = self.context;
            let _place = write_fault(&mut self.text, context, fault, piece)?;
        }
        Ok(())
    }

    fn add_reason(&mut self, name: &str, reason: &Reason) -> Result<(), Memory> {
        if self.begins(reason.place)? {
            let label = Label {
                step: "rule",
                number: reason.number,
            };
            let context = self.context;
            write_reason(&mut self.text, context, label, name, reason)?;
        }
        Ok(())
    }

    // Adds the operators of other languages in a piece after the place of its first fault.
    fn add_operators(&mut self, piece: Piece<'_>, first: Place) -> Result<(), Memory> {
        let context = self.context;
        let mut operators = Operators::of(context.alloc, piece)?;
        for _turn in 0..piece.own().len() {
            let Some(token) = operators.take()? else {
                return Ok(());
            };
            let place = place_of(token);
            if is_apart(token, first) && self.begins(place)? {
                let spot = operators.spot()?;
                let reason = Reason {
                    place,
                    number: 0,
                    text: explain_operator(context.alloc, context.input.sources, &spot)?,
                };
                write_reason(&mut self.text, context, label_at(token), "", &reason)?;
            }
        }
        Ok(())
    }

    // Ends the messages with the number of the faults that are not explained.
    fn end(self) -> Result<String, Memory> {
        let Others { mut text, more, .. } = self;
        match more {
            0 => {}
            1 => text.push_str("\ninput: note[more]: 1 more fault")?,
            _ => write!(text, "\ninput: note[more]: {more} more faults")?,
        }
        Ok(text)
    }
}

fn place_of(token: Token<'_>) -> Place {
    Place {
        line: token.line,
        column: token.column,
    }
}

// Returns the number of the fault that an operator of another language is.
fn label_at(token: Token<'_>) -> Label {
    let number = if token.kind == TokenKind::Other { 1 } else { 2 };
    Label {
        step: "lang",
        number,
    }
}

// Returns whether a token is after a location, and not joined to the character there.
fn is_apart(token: Token<'_>, first: Place) -> bool {
    if token.line != first.line {
        return token.line > first.line;
    }
    let gap = if token.is_joined { 1 } else { 0 };
    token.column > first.column.saturating_add(gap)
}

// Judges a piece alone.
fn judge(context: Context<'_, '_>, piece: Piece<'_>) -> Result<Judged, Memory> {
    match (parse(context.alloc, piece.own()), context.schema) {
        (Ok(trees), Some(schema)) => { judge_under(context.alloc, schema, piece, trees.as_slice()) }
        (Ok(_), None) => Ok(Judged::Right),
        (Err(LangFault::Memory), _) => Err(AllocError),
        (Err(fault), _) => Ok(Judged::Refused(InputFault::Lang(moved_lang(fault, piece)))),
    }
}

// Judges the sources of a piece under a schema: their code, then their clauses.
fn judge_under(
    alloc: Global,
    schema: &Schema,
    piece: Piece<'_>,
    trees: &[SourceText],
) -> Result<Judged, Memory> {
    for tree in trees {
        match compile(alloc, schema, tree) {
            Ok(_) => {}
            Err(CompileFault::Memory) => return Err(AllocError),
            Err(CompileFault::At { flaw, place }) => {
                let place = moved(place, piece);
                return Ok(Judged::Refused(InputFault::Compile {
                    name: tree.header.name.clone()?,
                    fault: CompileFault::At { flaw, place },
                }));
            }
        }
        let name = tree.header.name.as_str();
        if let Some(reason) = explain_clauses(alloc, schema, piece, name)? {
            let name = tree.header.name.clone()?;
            return Ok(Judged::Misfit { name, reason });
        }
    }
    Ok(Judged::Right)
}

// Returns the location in the whole text of a location in a piece.
fn moved(place: Place, piece: Piece<'_>) -> Place {
    let (line, column) = piece.located(place.line, place.column);
    Place { line, column }
}

// Returns a fault of a piece with its location in the whole text.
fn moved_lang(fault: LangFault, piece: Piece<'_>) -> LangFault {
    match fault {
        LangFault::Character { place } => LangFault::Character {
            place: moved(place, piece),
        },
        LangFault::Token { place } => LangFault::Token {
            place: moved(place, piece),
        },
        LangFault::Nesting { place } => LangFault::Nesting {
            place: moved(place, piece),
        },
        LangFault::Twice { place } => LangFault::Twice {
            place: moved(place, piece),
        },
        LangFault::Limit { place } => LangFault::Limit {
            place: moved(place, piece),
        },
        LangFault::Memory => LangFault::Memory,
    }
}
