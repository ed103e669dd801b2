//! Reads the initial units of a blackboard, their links and the members of its spaces from a JSON document.
//! `Board::load` calls it.

ghost use Rattle.std.specs.Prelude.{◌≡◌, ◌<◌, false, length, map, IfOk, OnOk};
ghost use Rattle.bb_basis.specs.Results.{Gives, map_err, try_fold_at};
ghost use Rattle.bb_schema_form.specs.UnitsDocument.{units_declaration, first_link_declaration, member_declaration, units_document_of};
ghost use Rattle.bb_board.specs.declared.units_fault.UnitsFault.TheVariants.{Memory as OutOfMemory};
ghost use Rattle.bb_schema_form.specs.declared.place.ListKey.TheVariants as lists;
ghost use Rattle.bb_board.specs.UnitsFaults.{inside};
ghost use Rattle.bb_board.specs.Load.{fault_of, link_after, load, member_after, with_unit};

use crate::board::Board;
use crate::unit_names::UnitNames;
use crate::units_fault::{UnitsFault, UnitsFlaw, placed};
use crate::values::set_values;
use bb_schema::{Schema, UnitId};
use bb_schema_classes::ClassId;
use bb_schema_form::{
    DocumentFault, FirstLinkEntry, ListKey, MemberEntry, UnitEntry, UnitsDocument,
};
use std::alloc::Global;

// Creates a unit of an existing class, if there is room, and returns its number.
fn create(board: &mut Board, class: ClassId) -> Result<UnitId, UnitsFault>
    requires { class < length board.old.schema.classes }
    ensures gives { Gives OutOfMemory (λ _. board.new.world) result (with_unit board.old.world class) }
    ensures number { IfOk result (λ unit. unit ≡ board.old.world.units.next) }
    ensures schema { OnOk result (board.new.schema ≡ board.old.schema) }
    ensures refused { OnOk result (board.new.refused ≡ board.old.refused) }
{
    Ok(board.create(class)?)
}

/// The walk over a document's units so far: the units by name, and a blackboard that has them.
#[derive(Drop)]
pub(crate) struct Progress {
    names: UnitNames,
    board: Board,
}

impl Progress {
    ghost use Rattle.bb_schema_form.specs.UnitsDocument.{unit_declaration};
    ghost use Rattle.bb_board.specs.Load.{entry_after};
    ghost use Rattle.bb_board.specs.proving.Reading.{progress_of};

    // Creates the unit of an entry, and sets the values that it gives.
    #[tactic(auto, unfolding(crate::specs::Load::entry_after))]
    fn add(&mut self, alloc: Global, schema: &Schema, entry: &UnitEntry) -> Result<(), UnitsFault>
        requires { self.old.board.schema ≡ schema.now }
        ensures gives { Gives OutOfMemory (λ _. progress_of self.new) result
            (entry_after schema.now (progress_of self.old) (unit_declaration entry.now)) }
        ensures schema { OnOk result (self.new.board.schema ≡ self.old.board.schema) }
        ensures refused { OnOk result (self.new.board.refused ≡ self.old.board.refused) }
    {
        let name = entry.name.as_str();
        let next = self.board.next();
        if self.names.insert(alloc, name, next)?.is_some() {
            return Err(UnitsFault::here(UnitsFlaw::Twice));
        }
        let class = schema
            .class(entry.class.as_str())
            .ok_or(UnitsFault::here(UnitsFlaw::Unknown))?;
        let unit = create(&mut self.board, class)?;
        set_values(alloc, schema, &mut self.board, unit, class, &entry.slots)
    }

    fn add_all(
        &mut self,
        alloc: Global,
        schema: &Schema,
        entries: &[UnitEntry],
    ) -> Result<(), UnitsFault>
        requires { self.old.board.schema ≡ schema.now }
        ensures gives { Gives OutOfMemory (λ _. progress_of self.new) result
            (try_fold_at (inside lists.Units) (entry_after schema.now) 0 (progress_of self.old)
            (map unit_declaration entries.now)) }
        ensures schema { OnOk result (self.new.board.schema ≡ self.old.board.schema) }
        ensures refused { OnOk result (self.new.board.refused ≡ self.old.board.refused) }
    {
        for (index, entry) in entries.iter().enumerate() {
            placed(self.add(alloc, schema, entry), ListKey::Units, index)?;
        }
        Ok(())
    }
}

// Links two units as an entry asks.
#[tactic(auto, unfolding(crate::specs::Load::link_after))]
fn add_link(
    board: &mut Board,
    schema: &Schema,
    names: &UnitNames,
    entry: &FirstLinkEntry,
) -> Result<(), UnitsFault>
    requires { board.old.schema ≡ schema.now }
    ensures gives { Gives OutOfMemory (λ _. board.new.world) result
        (link_after schema.now names.now board.old.world (first_link_declaration entry.now)) }
    ensures schema { OnOk result (board.new.schema ≡ board.old.schema) }
    ensures refused { OnOk result (board.new.refused ≡ board.old.refused) }
{
    let unit = names
        .get(entry.from.as_str())
        .ok_or(UnitsFault::here(UnitsFlaw::Unknown))?;
    let partner = names
        .get(entry.to.as_str())
        .ok_or(UnitsFault::here(UnitsFlaw::Unknown))?;
    let slot = schema
        .slot(board.class_at(unit), entry.slot.as_str())
        .ok_or(UnitsFault::here(UnitsFlaw::Unknown))?;
    board.may_link(unit, slot, partner)?;
    board.link(unit, slot, partner)?;
    Ok(())
}

// Links units as some entries ask, one after another.
fn add_links(
    board: &mut Board,
    schema: &Schema,
    names: &UnitNames,
    entries: &[FirstLinkEntry],
) -> Result<(), UnitsFault>
    requires { board.old.schema ≡ schema.now }
    ensures gives { Gives OutOfMemory (λ _. board.new.world) result
        (try_fold_at (inside lists.Links) (link_after schema.now names.now) 0 board.old.world
        (map first_link_declaration entries.now)) }
    ensures schema { OnOk result (board.new.schema ≡ board.old.schema) }
    ensures refused { OnOk result (board.new.refused ≡ board.old.refused) }
{
    for (index, entry) in entries.iter().enumerate() {
        placed(add_link(board, schema, names, entry), ListKey::Links, index)?;
    }
    Ok(())
}

// Lets a unit enter a space as an entry asks.
#[tactic(auto, unfolding(crate::specs::Load::member_after))]
fn add_member(
    board: &mut Board,
    schema: &Schema,
    names: &UnitNames,
    entry: &MemberEntry,
) -> Result<(), UnitsFault>
    requires { board.old.schema ≡ schema.now }
    ensures gives { Gives OutOfMemory (λ _. board.new.world) result
        (member_after schema.now names.now board.old.world (member_declaration entry.now)) }
    ensures schema { OnOk result (board.new.schema ≡ board.old.schema) }
    ensures refused { OnOk result (board.new.refused ≡ board.old.refused) }
{
    let unit = names
        .get(entry.unit.as_str())
        .ok_or(UnitsFault::here(UnitsFlaw::Unknown))?;
    let space = schema
        .space(entry.space.as_str())
        .ok_or(UnitsFault::here(UnitsFlaw::Unknown))?;
    board.may_enter(unit, space)?;
    board.enter(unit, space)?;
    Ok(())
}

// Lets units enter spaces as some entries ask, one after another.
fn add_members(
    board: &mut Board,
    schema: &Schema,
    names: &UnitNames,
    entries: &[MemberEntry],
) -> Result<(), UnitsFault>
    requires { board.old.schema ≡ schema.now }
    ensures gives { Gives OutOfMemory (λ _. board.new.world) result
        (try_fold_at (inside lists.Spaces) (member_after schema.now names.now) 0 board.old.world
        (map member_declaration entries.now)) }
    ensures schema { OnOk result (board.new.schema ≡ board.old.schema) }
    ensures refused { OnOk result (board.new.refused ≡ board.old.refused) }
{
    for (index, entry) in entries.iter().enumerate() {
        placed(
            add_member(board, schema, names, entry),
            ListKey::Spaces,
            index,
        )?;
    }
    Ok(())
}

fn document(alloc: Global, text: &str) -> Result<UnitsDocument, UnitsFault>
    ensures { Gives OutOfMemory units_declaration result (map_err fault_of (units_document_of text.now)) }
{
    match UnitsDocument::read(alloc, text) {
        Ok(document) => Ok(document),
        Err(DocumentFault::Json) => Err(UnitsFault::here(UnitsFlaw::Json)),
        Err(DocumentFault::Shape { place }) => Err(UnitsFault::At {
            flaw: UnitsFlaw::Shape,
            place,
        }),
        Err(DocumentFault::Memory) => Err(UnitsFault::Memory),
    }
}

/// Reads a JSON document of initial units into a new blackboard, which shares the schema of the one given: creates the
/// units, links them and lets them enter spaces. Otherwise returns the document's first fault.
#[tactic(auto, unfolding(crate::specs::Load::load))]
pub(crate) fn read_units(alloc: Global, given: &Board, text: &str) -> Result<Board, UnitsFault>
    ensures gives { Gives OutOfMemory (λ read. read.world) result (load given.now.schema text.now) }
    ensures schema { IfOk result (λ read. read.schema ≡ given.now.schema) }
    ensures refused { IfOk result (λ read. read.refused ≡ false) }
{
    let schema = given.schema();
    let UnitsDocument {
        units,
        links,
        spaces,
    } = document(alloc, text)?;
    let mut progress = Progress {
        names: UnitNames::new(alloc),
        board: Board::of_shared(alloc, given.shared_schema()?)?,
    };
    progress.add_all(alloc, schema, &units)?;
    // The links and spaces may use the memory of the units' entries.
    drop(units);
    let Progress { names, mut board } = progress;
    add_links(&mut board, schema, &names, &links)?;
    add_members(&mut board, schema, &names, &spaces)?;
    Ok(board)
}
