//! Why an input is refused, and the line of a refusal. `run_texts` returns it, and programs (bb_main) write its line.
//! `sentence` has the sentence for people.

ghost use Rattle.std.specs.Prelude.{◌≡◌, IfOk, string_bytes};
ghost use Rattle.bb_refusal.specs.declared.input_fault.InputFault.TheVariants.{Memory as OutOfMemory};
ghost use Rattle.bb_refusal.specs.Refusals.{bundle_text, compile_place, compile_text, fault_number};
ghost use Rattle.bb_refusal.specs.Refusals.{lang_place, lang_text, refusal_text, source_place};

use bb_basis::Text;
use bb_board::UnitsFault;
use bb_bundle::BundleFault;
use bb_code::VerifyFault;
use bb_compile_scope::CompileFault;
use bb_lang_tree::{LangFault, Place};
use bb_rules::RuleFault;
use bb_schema_classes::SchemaFault;
use bb_verify::Part;
use std::alloc::{AllocError, AllocFailed, Global};

/// Why an input is refused: the first step that refuses it, and its fault.
#[derive(Debug, Drop)]
pub enum InputFault {
    /// The document of the schema does not describe a schema.
    Schema(SchemaFault),
    /// The initial units can't be created.
    Units(UnitsFault),
    /// The sources that are text can't be read.
    Lang(LangFault),
    /// A source that is text can't be compiled.
    Compile {
        /// The name of the source.
        name: Text,
        fault: CompileFault,
    },
    /// The bundle can't be read as sources.
    Bundle(BundleFault),
    /// A code of a source is not accepted.
    Verify {
        /// The name of the source.
        name: Text,
        part: Part,
        fault: VerifyFault,
    },
    /// A source does not fit the schema or the other sources.
    Rule {
        /// The name of the source.
        name: Text,
        fault: RuleFault,
    },
    /// Memory ran out.
    Memory,
}

impl From<AllocError> for InputFault {
    ghost from_gives = { λ _ e. e ≡ OutOfMemory };

    fn from(_refused: AllocError) -> InputFault {
        InputFault::Memory
    }
}

impl<T: Drop> From<AllocFailed<T>> for InputFault {
    ghost from_gives = { λ _ e. e ≡ OutOfMemory };

    fn from(_refused: AllocFailed<T>) -> InputFault {
        InputFault::Memory
    }
}

impl InputFault {
    /// Returns the number of the step that refuses, from 1 to 8.
    pub fn number(&self) -> u8
        ensures { result ≡ fault_number self.now }
    {
        match self {
            InputFault::Schema(_) => 1,
            InputFault::Units(_) => 2,
            InputFault::Lang(_) => 3,
            InputFault::Compile { .. } => 4,
            InputFault::Bundle(_) => 5,
            InputFault::Verify { .. } => 6,
            InputFault::Rule { .. } => 7,
            InputFault::Memory => 8,
        }
    }

    /// Returns the location of the fault in the text of sources, if it has one there.
    pub fn place(&self) -> Option<Place>
        ensures { result ≡ source_place self.now }
    {
        match self {
            InputFault::Lang(fault) => lang_place(*fault),
            InputFault::Compile { name: _, fault } => compile_place(*fault),
            _ => None,
        }
    }

    /// Returns the line of the refusal without its line feed; empty if memory ran out. The error: out of memory.
    pub fn line(&self, alloc: Global) -> Result<String, AllocError>
        ensures { IfOk result (λ line. string_bytes line ≡ refusal_text self.now) }
    {
        match self {
            InputFault::Schema(fault) => {
                let number = fault.number();
                format!(in alloc; "refused schema {number}")
            }
            InputFault::Units(fault) => {
                let number = fault.number();
                format!(in alloc; "refused units {number}")
            }
            InputFault::Lang(fault) => lang_line(alloc, *fault),
            InputFault::Compile { name, fault } => compile_line(alloc, name.as_str(), *fault),
            InputFault::Bundle(fault) => bundle_line(alloc, *fault),
            InputFault::Verify { name, part, fault } => {
                let name = name.as_str();
                let part = part.word();
                let place = fault.place;
                let number = fault.flaw.number();
                format!(in alloc; "refused verify {name} {part} {place} {number}")
            }
            InputFault::Rule { name, fault } => {
                let name = name.as_str();
                let number = fault.number();
                format!(in alloc; "refused rule {name} {number}")
            }
            InputFault::Memory => Ok(String::new(alloc)),
        }
    }
}

// The place of a fault of a text.
fn lang_place(fault: LangFault) -> Option<Place>
    ensures { result ≡ lang_place fault }
{
    match fault {
        LangFault::Character { place }
        | LangFault::Token { place }
        | LangFault::Nesting { place }
        | LangFault::Twice { place }
        | LangFault::Limit { place } => Some(place),
        LangFault::Memory => None,
    }
}

// The place of a fault of a source that is text.
fn compile_place(fault: CompileFault) -> Option<Place>
    ensures { result ≡ compile_place fault }
{
    match fault {
        CompileFault::At { place, .. } => Some(place),
        CompileFault::Memory => None,
    }
}

fn lang_line(alloc: Global, fault: LangFault) -> Result<String, AllocError>
    ensures { IfOk result (λ line. string_bytes line ≡ lang_text fault) }
{
    let Some(place) = lang_place(fault) else {
        return Ok(String::new(alloc));
    };
    let line = place.line;
    let column = place.column;
    let number = fault.number();
    format!(in alloc; "refused lang {line}:{column} {number}")
}

fn compile_line(alloc: Global, name: &str, fault: CompileFault) -> Result<String, AllocError>
    ensures { IfOk result (λ line. string_bytes line ≡ compile_text name.now fault) }
{
    match fault {
        CompileFault::At { flaw, place } => {
            let line = place.line;
            let column = place.column;
            let number = flaw.number();
            format!(in alloc; "refused compile {name} {line}:{column} {number}")
        }
        CompileFault::Memory => Ok(String::new(alloc)),
    }
}

fn bundle_line(alloc: Global, fault: BundleFault) -> Result<String, AllocError>
    ensures { IfOk result (λ line. string_bytes line ≡ bundle_text fault) }
{
    match fault {
        BundleFault::Line { line } => format!(in alloc; "refused bundle {line} 1"),
        BundleFault::Hex { line } => format!(in alloc; "refused bundle {line} 2"),
        BundleFault::Code { line, fault } => {
            let number = fault.number();
            format!(in alloc; "refused bundle {line} code {number}")
        }
        BundleFault::Memory => Ok(String::new(alloc)),
    }
}
