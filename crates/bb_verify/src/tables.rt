//! The first phase of the verifier: the tables of a code, and the operands that index them.

ghost use Rattle.std.specs.Prelude.{◌≡◌};
ghost use Rattle.bb_code.specs.Each.{each};
ghost use Rattle.bb_verify.specs.Tables.{entry, known_kind, known_entry, known_frame, places_rise, enough_locals, frames_in_order, fit_version, known_label, in_tables, table_at, tables};
ghost use Rattle.bb_code.specs.Code.{places};

use bb_code::{Code, Flaw, FrameEntry, Kind, Op, Place, VerifyFault, Version};
use bb_schema::Schema;
use bb_verify_effect::{LabelId, LabelSetId, Part};

// Checks that a table of `count` entries has one of this number.
fn entry(count: usize, number: usize) -> Result<(), Flaw>
    ensures { result ≡ entry count number }
{
    if number < count {
        return Ok(());
    }
    Err(Flaw::Table)
}

// Checks that the schema has the class or label set of a kind.
fn known_kind(schema: &Schema, kind: Kind) -> Result<(), Flaw>
    ensures { result ≡ known_kind schema.now kind }
{
    match kind {
        Kind::Label(set) => entry(schema.label_set_count(), set as usize),
        Kind::Ref(class) => entry(schema.class_count(), class as usize),
        Kind::Old(class) => entry(schema.class_count(), class as usize),
        Kind::Seq(class) => entry(schema.class_count(), class as usize),
        _ => Ok(()),
    }
}

// Checks that the kind of an entry of the stack is not `Any`, and that the schema has its class or label set.
fn known_entry(schema: &Schema, kind: Kind) -> Result<(), Flaw>
    ensures { result ≡ known_entry schema.now kind }
{
    match kind {
        Kind::Any => Err(Flaw::Table),
        _ => known_kind(schema, kind),
    }
}

fn known_kinds(schema: &Schema, kinds: &[Kind]) -> Result<(), Flaw>
    ensures { result ≡ each (known_kind schema.now) kinds.now }
{
    for kind in kinds {
        known_kind(schema, *kind)?;
    }
    Ok(())
}

fn known_entries(schema: &Schema, kinds: &[Kind]) -> Result<(), Flaw>
    ensures { result ≡ each (known_entry schema.now) kinds.now }
{
    for kind in kinds {
        known_entry(schema, *kind)?;
    }
    Ok(())
}

// Checks the kinds of a declared frame.
#[tactic(auto, unfolding(crate::specs::Tables::known_frame))]
fn known_frame(schema: &Schema, entry: &FrameEntry) -> Result<(), Flaw>
    ensures { result ≡ known_frame schema.now entry.now }
{
    known_kinds(schema, entry.frame.locals.as_slice())?;
    known_entries(schema, entry.frame.stack.as_slice())
}

fn known_frames(schema: &Schema, frames: &[FrameEntry]) -> Result<(), Flaw>
    ensures { result ≡ each (known_frame schema.now) frames.now }
{
    for frame in frames {
        known_frame(schema, frame)?;
    }
    Ok(())
}

// Checks that the places of declared frames ascend, and are in a code of `count` ops.
fn places_rise(count: usize, frames: &[FrameEntry]) -> Result<(), Flaw>
    ensures { result ≡ places_rise 0 count frames.now }
{
    let mut floor = 0;
    for frame in frames {
        let place = frame.place as usize;
        if place < floor {
            return Err(Flaw::Table);
        }
        if place >= count {
            return Err(Flaw::Table);
        }
        floor = place + 1;
    }
    Ok(())
}

// Checks that there is a local for each unit that the part starts with.
#[tactic(auto, unfolding(crate::specs::Tables::enough_locals))]
fn enough_locals(part: Part, code: &Code) -> Result<(), Flaw>
    ensures { result ≡ enough_locals part code.now }
{
    if code.locals() < part.unit_count() {
        return Err(Flaw::Table);
    }
    Ok(())
}

// Checks the declared frames, and the number of locals.
#[tactic(auto, unfolding(crate::specs::Tables::frames_in_order))]
fn frames_in_order(schema: &Schema, part: Part, code: &Code) -> Result<(), Flaw>
    ensures { result ≡ frames_in_order schema.now part code.now }
{
    places_rise(code.ops().len(), code.frames())?;
    known_frames(schema, code.frames())?;
    enough_locals(part, code)
}

// Checks that the schema has the label.
fn known_label(schema: &Schema, set: LabelSetId, label: LabelId) -> Result<(), Flaw>
    ensures { result ≡ known_label schema.now set label }
{
    match schema.label_name(set, label) {
        None => Err(Flaw::Table),
        Some(_) => Ok(()),
    }
}

// Checks that the operands of an op name entries of their tables.
#[tactic(auto, unfolding(crate::specs::Tables::in_tables))]
fn in_tables(schema: &Schema, code: &Code, op: Op) -> Result<(), Flaw>
    ensures { result ≡ in_tables schema.now code.now op }
{
    match op {
        Op::PushText(text) => entry(code.texts().len(), text as usize),
        Op::PushLabel(set, label) => known_label(schema, set, label),
        Op::Load(local) => entry(code.locals() as usize, local as usize),
        Op::Store(local) => entry(code.locals() as usize, local as usize),
        Op::Next(local, _) => entry(code.locals() as usize, local as usize),
        Op::Find(query) => entry(code.queries().len(), query as usize),
        Op::As(class, _) => entry(schema.class_count(), class as usize),
        Op::New(class) => entry(schema.class_count(), class as usize),
        _ => Ok(()),
    }
}

// Checks that the operands of the op at a place, if there is one, name entries of their tables.
#[tactic(auto, unfolding(crate::specs::Tables::table_at))]
fn table_at(schema: &Schema, code: &Code, place: Place) -> Result<(), VerifyFault>
    ensures { result ≡ table_at schema.now code.now place }
{
    match code.op(place as usize) {
        None => Ok(()),
        Some(op) => in_tables(schema, code, op).map_err(|flaw| VerifyFault { place, flaw }),
    }
}

fn all_in_tables(schema: &Schema, code: &Code) -> Result<(), VerifyFault>
    ensures { result ≡ each (table_at schema.now code.now) (places code.now) }
{
    let count = code.ops().len() as u16;
    for place in 0..count {
        table_at(schema, code, place)?;
    }
    Ok(())
}

// Checks the version: a schema with owning slots accepts only codes of version 2, because codes of version 1 were made
// for deletions of one unit.
#[tactic(auto, unfolding(crate::specs::Tables::fit_version))]
fn fit_version(schema: &Schema, version: Version) -> Result<(), Flaw>
    ensures { result ≡ fit_version schema.now version }
{
    match version {
        Version::One if schema.owns_any() => Err(Flaw::Table),
        _ => Ok(()),
    }
}

/// Checks the version of a code, its tables, and then the operands of all its ops.
#[tactic(auto, unfolding(crate::specs::Tables::tables))]
pub(crate) fn check_tables(schema: &Schema, part: Part, code: &Code) -> Result<(), VerifyFault>
    ensures { result ≡ tables schema.now part code.now }
{
    fit_version(schema, code.version()).map_err(|flaw| VerifyFault { place: 0, flaw })?;
    frames_in_order(schema, part, code).map_err(|flaw| VerifyFault { place: 0, flaw })?;
    all_in_tables(schema, code)
}
