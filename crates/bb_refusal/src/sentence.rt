//! Why an input is refused, as a sentence for people: the location of the fault, and the fault itself. Reports
//! (bb_diag) begin with this sentence.

use crate::input_fault::InputFault;
use bb_board::{UnitsFault, UnitsFlaw};
use bb_bundle::BundleFault;
use bb_code::{CodeFault, Flaw};
use bb_compile_scope::{CompileFault, TextFlaw};
use bb_lang_tree::{LangFault, Place};
use bb_rules::RuleFault;
use bb_schema_classes::{DocumentPlace, SchemaFault, SchemaFlaw};
use std::error::Error;
use std::fmt;
use std::fmt::{Display, Formatter, Write};

// What every fault says if memory ran out.
const NO_MEMORY: &str = "memory ran out";

impl Error for InputFault {}

impl Display for InputFault {
    fn fmt<W: Write>(&self, f: &mut Formatter<W>) -> fmt::Result {
        match self {
            InputFault::Schema(fault) => write_schema(f, *fault),
            InputFault::Units(fault) => write_units(f, *fault),
            InputFault::Lang(fault) => {
                write!(f, "sources")?;
                write_placed(f, self.place(), lang_reason(*fault))
            }
            InputFault::Compile { name, fault } => {
                write!(f, "source {}", name.as_str())?;
                write_placed(f, self.place(), compile_reason(*fault))
            }
            InputFault::Bundle(fault) => write_bundle(f, *fault),
            InputFault::Verify { name, part, fault } => {
                write!(f, "source {}, {}, ", name.as_str(), part.word())?;
                write!(f, "op {}: {}", fault.place, flaw_reason(fault.flaw))
            }
            InputFault::Rule { name, fault } => {
                write!(f, "source {}: {}", name.as_str(), rule_reason(*fault))
            }
            InputFault::Memory => write!(f, "{NO_MEMORY}"),
        }
    }
}

// Writes a place in `%sources`, if there is one, and what is wrong there.
fn write_placed<W: Write>(f: &mut Formatter<W>, place: Option<Place>, reason: &str) -> fmt::Result {
    if let Some(place) = place {
        write!(f, ", line {}, column {}", place.line, place.column)?;
    }
    write!(f, ": {reason}")
}

// Writes the entry of the schema's document, if there is one, and what is wrong there.
fn write_schema<W: Write>(f: &mut Formatter<W>, fault: SchemaFault) -> fmt::Result {
    match fault {
        SchemaFault::At { flaw, place } => write_entry(f, "schema", place, schema_reason(flaw)),
        SchemaFault::Memory => write!(f, "schema: {NO_MEMORY}"),
    }
}

// Writes the entry of the document of initial units, if there is one, and what is wrong there.
fn write_units<W: Write>(f: &mut Formatter<W>, fault: UnitsFault) -> fmt::Result {
    match fault {
        UnitsFault::At { flaw, place } => write_entry(f, "units", place, units_reason(flaw)),
        UnitsFault::Memory => write!(f, "units: {NO_MEMORY}"),
    }
}

// Writes a document, its entry with the fault, if there is one, and what is wrong there.
fn write_entry<W: Write>(
    f: &mut Formatter<W>,
    document: &str,
    place: DocumentPlace,
    reason: &str,
) -> fmt::Result {
    write!(f, "{document}")?;
    if place != DocumentPlace::Whole {
        write!(f, ", {place}")?;
    }
    write!(f, ": {reason}")
}

fn write_bundle<W: Write>(f: &mut Formatter<W>, fault: BundleFault) -> fmt::Result {
    match fault {
        BundleFault::Line { line } => write!(
            f,
            "bundle, line {line}: this is no line of a bundle, or it does not belong here"
        ),
        BundleFault::Hex { line } => write!(
            f,
            "bundle, line {line}: the code is not in pairs of hex digits"
        ),
        BundleFault::Code { line, fault } => {
            write!(f, "bundle, line {line}: the bytes are no code: ")?;
            write!(f, "{}", code_reason(fault))
        }
        BundleFault::Memory => write!(f, "bundle: {NO_MEMORY}"),
    }
}

fn schema_reason(flaw: SchemaFlaw) -> &'static str {
    match flaw {
        SchemaFlaw::Json => "it is not JSON",
        SchemaFlaw::Shape => {
            "a key is missing or unknown, or a value has another form than is due"
        }
        SchemaFlaw::Name => {
            "a declared name is none: a letter from a to z, then letters, digits and `_`, at most 31 bytes"
        }
        SchemaFlaw::Twice => "a name is declared twice",
        SchemaFlaw::Unknown => "a name is used that is not declared",
        SchemaFlaw::Inverse => "the inverse of a link slot does not lead back to it",
        SchemaFlaw::Dimension => "a class of a space has no slot that fits a dimension",
        SchemaFlaw::Limit => "there are too many entries, or a default text is too long",
    }
}

fn units_reason(flaw: UnitsFlaw) -> &'static str {
    match flaw {
        UnitsFlaw::Json => "it is not JSON",
        UnitsFlaw::Shape => "a key is missing or unknown, or a value has another form than is due",
        UnitsFlaw::Unknown => "a class, slot, unit or space is named that is not there",
        UnitsFlaw::Twice => "two units have one name",
        UnitsFlaw::Kind => "a value does not fit its slot",
        UnitsFlaw::LinkClass => {
            "a unit is linked to one of a class that the link slot does not lead to"
        }
        UnitsFlaw::Space => "a unit is to enter a space that does not admit its class",
        UnitsFlaw::Full => "there are more than 65,536 units",
    }
}

fn lang_reason(fault: LangFault) -> &'static str {
    match fault {
        LangFault::Character { .. } => {
            "this begins no token: the language has no such character, or a text has no end in its line or another escape"
        }
        LangFault::Token { .. } => "another token is due here",
        LangFault::Nesting { .. } => "more than 64 brackets are open here",
        LangFault::Twice { .. } => "this name is taken already",
        LangFault::Limit { .. } => {
            "this number, text or name is too large, a divisor is 0, or this is a 257th source"
        }
        LangFault::Memory => NO_MEMORY,
    }
}

fn compile_reason(fault: CompileFault) -> &'static str {
    match fault {
        CompileFault::At { flaw, .. } => text_reason(flaw),
        CompileFault::Memory => NO_MEMORY,
    }
}

fn text_reason(flaw: TextFlaw) -> &'static str {
    match flaw {
        TextFlaw::Unknown => "a name, class, slot, space, label or dimension is not there",
        TextFlaw::Kind => "an expression, name or slot is of another kind than is due",
        TextFlaw::DeadName => "a unit is used that may be gone",
        TextFlaw::LinkClass => {
            "a unit is linked to one of a class that the link slot does not lead to"
        }
        TextFlaw::Space => "the space does not admit the class of the unit",
        TextFlaw::Effect => "a change stands outside `do`",
        TextFlaw::NoEnd => {
            "the part has a way without an end, or this end or statement does not belong here"
        }
        TextFlaw::Limit => "the code would pass one of its limits",
    }
}

fn code_reason(fault: CodeFault) -> &'static str {
    match fault {
        CodeFault::Magic => "they do not begin with the letters BBC",
        CodeFault::Version => "their version is neither 1 nor 2",
        CodeFault::Short => "they end too early",
        CodeFault::Opcode => "a byte names no op",
        CodeFault::Operand => "a text is not UTF-8, or an operand is none that may stand there",
        CodeFault::Limit => "a count is outside its limits, or a pattern has more than 64 nodes",
        CodeFault::Trailing => "there are bytes behind the last op",
        CodeFault::Memory => NO_MEMORY,
    }
}

fn flaw_reason(flaw: Flaw) -> &'static str {
    match flaw {
        Flaw::Table => "a table is out of order, or the op names an entry that is not there",
        Flaw::Jump => "it goes outside the code, or in the wrong direction",
        Flaw::Loop => "a loop is out of order, or the op breaks a rule of loops",
        Flaw::Frame => "no frame stands here, or what the op leaves does not fit a declared one",
        Flaw::Depth => "there are too few operands, or a 65th entry of the stack",
        Flaw::Kind => "an operand is of another kind than is due",
        Flaw::Dead => "a unit that may be gone is used where it has to be live",
        Flaw::Slot => "the slot is not there, not of the class, or of the wrong sort",
        Flaw::LinkClass => "a unit is linked to one of a class that the link slot does not lead to",
        Flaw::Space => "the space is not there, or does not admit the class of the unit",
        Flaw::Query => "the query does not fit the schema",
        Flaw::Effect => "it changes the blackboard or says something, outside `do`",
        Flaw::End => "it ends another part, or is the last op where another has to follow",
        Flaw::Memory => NO_MEMORY,
    }
}

fn rule_reason(fault: RuleFault) -> &'static str {
    match fault {
        RuleFault::Slot { .. } => {
            "a clause names a slot that its class has not, or one of the wrong sort"
        }
        RuleFault::Space { .. } => "a clause names a space that is not there",
        RuleFault::Part => "a part was verified for something else",
        RuleFault::Class { .. } => {
            "a class is not there, or is neither that of the source or of its reaction nor below it"
        }
        RuleFault::Twice { .. } => "an earlier source has this name",
        RuleFault::Limit { .. } => "there are 256 sources before it, as many as there may be",
        RuleFault::Native { .. } => "there is no native of this name",
        RuleFault::Memory => NO_MEMORY,
    }
}
