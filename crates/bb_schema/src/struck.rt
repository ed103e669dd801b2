//! The classes of units that a delete may delete (struck), as a table. It is made when a schema is read, so that a
//! query costs two look-ups.

ghost use Rattle.std.specs.Prelude.{◌≡◌, length, IfOk};
ghost use Rattle.std.specs.List.{list_any};
ghost use Rattle.bb_schema.specs.Heirs.{is_owning, owned_class, owned_classes};
ghost use Rattle.bb_schema.specs.proving.Struck.{marked, own_row, first_row, first_rows, members, struck_row, struck_rows, struck_table, struck_at};

use crate::lineage::Lineage;
use crate::relation::{closed, row_has};
use crate::slot::Slot;
use bb_basis::Items;
use bb_schema_classes::ClassId;
use std::alloc::{AllocError, Global};

// Whether a slot is a link slot that owns.
fn is_owning(slot: &Slot) -> bool
    ensures { result ≡ is_owning slot.now }
{
    match slot.content.link() {
        None => false,
        Some(link) => link.owns,
    }
}

// The target class of a slot, if the slot owns and a class related to `class` declares it.
fn owned_class(lineage: &Lineage, class: ClassId, slot: &Slot) -> Option<ClassId>
    ensures { result ≡ owned_class lineage.now class slot.now }
{
    let link = slot.content.link()?;
    if link.owns && lineage.related(class, slot.owner) {
        return Some(link.to);
    }
    None
}

// The target classes of the owning slots that classes related to `class` declare.
fn owned_classes(
    alloc: Global,
    lineage: &Lineage,
    slots: &[Slot],
    class: ClassId,
) -> Result<Vec<ClassId>, AllocError>
    ensures { IfOk result (λ owned. owned.items ≡ owned_classes lineage.now slots.now class) }
{
    slots
        .iter()
        .filter_map(|slot| owned_class(lineage, class, slot))
        .collect(alloc)
}

/// Adds a number to a row.
pub(crate) fn mark(row: &mut Vec<bool>, number: usize)
    ensures { row.new.items ≡ marked row.old.items number }
{
    if let Some(place) = row.get_mut(number) {
        *place = true;
    }
}

// A row with one class only.
fn own_row(alloc: Global, count: ClassId, class: ClassId) -> Result<Vec<bool>, AllocError>
    ensures { IfOk result (λ row. row.items ≡ own_row count class) }
{
    (0..count).map(|to| to == class).collect(alloc)
}

// The row of a class: the class itself, and the target classes of owning slots.
fn first_row(
    alloc: Global,
    count: ClassId,
    owned: &[ClassId],
    class: ClassId,
) -> Result<Vec<bool>, AllocError>
    ensures { IfOk result (λ row. row.items ≡ first_row count owned.now class) }
{
    let mut row = own_row(alloc, count, class)?;
    for to in owned {
        mark(&mut row, *to as usize);
    }
    Ok(row)
}

fn first_rows(
    alloc: Global,
    lineage: &Lineage,
    slots: &[Slot],
) -> Result<Vec<Items<bool>>, AllocError>
    ensures { IfOk result (λ rows. rows.items ≡ first_rows lineage.now slots.now) }
{
    let count = lineage.count() as ClassId;
    let mut rows = Vec::new(alloc);
    for class in 0..count {
        let owned = owned_classes(alloc, lineage, slots, class)?;
        let row = first_row(alloc, count, &owned, class)?;
        rows.push(Items::from(row))?;
    }
    Ok(rows)
}

// The classes in a row.
fn members(alloc: Global, lineage: &Lineage, row: &[bool]) -> Result<Vec<ClassId>, AllocError>
    ensures { IfOk result (λ numbers. numbers.items ≡ members (length lineage.now) row.now) }
{
    (0..lineage.count() as ClassId)
        .filter(|class| row_has(row, *class as usize))
        .collect(alloc)
}

// For each class, whether it is struck: related to an heir.
fn struck_row(alloc: Global, lineage: &Lineage, heirs: &[ClassId]) -> Result<Vec<bool>, AllocError>
    ensures { IfOk result (λ row. row.items ≡ struck_row lineage.now heirs.now) }
{
    (0..lineage.count() as ClassId)
        .map(|class| lineage.related_to_any(class, heirs))
        .collect(alloc)
}

fn struck_rows(
    alloc: Global,
    lineage: &Lineage,
    closed: &[Items<bool>],
) -> Result<Vec<Items<bool>>, AllocError>
    ensures { IfOk result (λ rows. rows.items ≡ struck_rows lineage.now closed.now) }
{
    let mut rows = Vec::new(alloc);
    for row in closed {
        let heirs = members(alloc, lineage, row.as_slice())?;
        let struck = struck_row(alloc, lineage, &heirs)?;
        rows.push(Items::from(struck))?;
    }
    Ok(rows)
}

// Whether any slot owns.
fn is_any_owning(slots: &[Slot]) -> bool
    ensures { result ≡ list_any is_owning slots.now }
{
    slots.iter().any(|slot| is_owning(slot))
}

/// Returns a row for each class, with the classes of units that a delete of a unit of the class may delete. `None` if
/// no slot owns.
pub fn struck_table(
    alloc: Global,
    lineage: &Lineage,
    slots: &[Slot],
) -> Result<Option<Items<Items<bool>>>, AllocError>
    ensures { IfOk result (λ table. table ≡ struck_table lineage.now slots.now) }
{
    if !is_any_owning(slots) {
        return Ok(None);
    }
    let first = first_rows(alloc, lineage, slots)?;
    let closed = closed(alloc, first)?;
    let rows = struck_rows(alloc, lineage, &closed)?;
    Ok(Some(Items::from(rows)))
}

/// Returns the table's value for two classes, `None` if it has none.
pub fn struck_at(
    table: &Option<Items<Items<bool>>>,
    deleted: ClassId,
    class: ClassId,
) -> Option<bool>
    ensures { result ≡ struck_at table.now deleted class }
{
    match table {
        None => None,
        Some(rows) => {
            let row = rows.as_slice().get(deleted as usize)?;
            Some(*row.as_slice().get(class as usize)?)
        }
    }
}
