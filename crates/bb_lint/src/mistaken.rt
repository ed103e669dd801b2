//! Mistakes shown by two consecutive ops: a focus set to a name of nothing, and a test of the unit that quiescence does
//! not have. The sentences on a code (sentence.rt) check each of its ops.

use bb_basis::{Memory, Names};
use bb_code::{ClassId, Code, Op, Place, SlotId};
use bb_rules::{Clause, Source};
use bb_schema::Schema;
use std::alloc::Global;

// The class of foci, which is the first of every schema.
const FOCUS: ClassId = 0;

// The local with the unit of an activation.
const UNIT: u8 = 0;

/// A mistake shown by an op and the one before it.
#[derive(Clone, Copy, Debug, PartialEq, Eq)]
pub(crate) enum Mistake<'a> {
    /// A focus is set to a source of this name, which does not exist.
    NoSource(&'a str),
    /// A focus is set to an area, which is a class, of this name, which does not exist.
    NoArea(&'a str),
    /// The activation's unit is tested, and does not exist, because only quiescence triggers the source.
    NoUnit,
}

impl Mistake<'_> {
    /// Returns the kind of the warning about it, as editors read it.
    pub(crate) fn kind(self) -> &'static str {
        match self {
            Mistake::NoSource(_) | Mistake::NoArea(_) => "warning[focus]",
            Mistake::NoUnit => "warning[test]",
        }
    }
}

/// Returns the names of sources.
pub(crate) fn source_names(alloc: Global, sources: &[Source]) -> Result<Names, Memory> {
    let mut names = Names::new(alloc);
    for source in sources {
        names.insert(alloc, source.parts().name.as_str())?;
    }
    Ok(names)
}

/// Returns the mistake shown by an op of a source's code, if the sources have these names.
pub(crate) fn mistake_at<'a>(
    schema: &Schema,
    names: &Names,
    source: &Source,
    code: &'a Code,
    place: Place,
) -> Option<Mistake<'a>> {
    let before = code.op((place as usize).checked_sub(1)?)?;
    match (before, code.op(place as usize)?) {
        (Op::PushText(text), Op::Set(slot)) => {
            let name = code.texts().get(text as usize)?.as_str();
            named_by_focus(schema, names, slot, name)
        }
        (Op::Load(UNIT), Op::Alive(_)) if by_quiescence_alone(source) => Some(Mistake::NoUnit),
        _ => None,
    }
}

// Returns the mistake of setting a slot to a name, if the slot belongs to foci and the name is unknown. The empty name
// means all.
fn named_by_focus<'a>(
    schema: &Schema,
    names: &Names,
    slot: SlotId,
    name: &'a str,
) -> Option<Mistake<'a>> {
    if name.is_empty() {
        return None;
    }
    if schema.slot(FOCUS, "source") == Some(slot) && !names.contains(name) {
        return Some(Mistake::NoSource(name));
    }
    if schema.slot(FOCUS, "area") == Some(slot) && schema.class(name).is_none() {
        return Some(Mistake::NoArea(name));
    }
    None
}

fn by_quiescence_alone(source: &Source) -> bool {
    source
        .parts()
        .triggers
        .as_slice()
        .iter()
        .all(|clause| matches!(clause, Clause::Quiescence))
}
