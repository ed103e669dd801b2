//! `Schema::read`: the document, one walk over its entries, which `Walked::of` begins, and the schema they declare.

ghost use Rattle.std.specs.Prelude.{◌≡◌, IfErr, IfOk, map};
ghost use Rattle.bb_basis.specs.Results.{Gives, map_err};
ghost use Rattle.bb_schema_form.specs.Document.{declarations, space_declaration};
ghost use Rattle.bb_schema_form.specs.Form.{document_of};
ghost use Rattle.bb_schema_form.specs.Defaults.{HaveSoundDefaults};
ghost use Rattle.bb_schema_classes.specs.declared.fault.SchemaFault.TheVariants.{Memory as OutOfMemory};
ghost use Rattle.bb_schema_classes.specs.Fits.{IsWalked};
ghost use Rattle.bb_schema.specs.Reading.{fault_of, bare_schema, schema_with_spaces, declared_schema, schema_of};

mod spaces;

use crate::bare::BareSchema;
use crate::couple::count_couples;
use crate::lineage::Lineage;
use crate::readings::Readings;
use crate::resolve::resolve_slots;
use crate::schema::Schema;
use crate::struck::struck_table;
use bb_basis::{Items, Table};
use bb_schema_classes::{SchemaFault, SchemaFlaw, Walked, spans_of};
use bb_schema_form::{Document, DocumentFault, SpaceEntry};
use spaces::spaces_of;
use std::alloc::Global;

fn document(alloc: Global, text: &str) -> Result<Document, SchemaFault>
    ensures gives { Gives OutOfMemory declarations result (map_err fault_of (document_of text.now)) }
    ensures sound { IfOk result (λ document. HaveSoundDefaults (declarations document)) }
{
    match Document::read(alloc, text) {
        Ok(document) => Ok(document),
        Err(DocumentFault::Json) => Err(SchemaFault::here(SchemaFlaw::Json)),
        Err(DocumentFault::Shape { place }) => Err(SchemaFault::At {
            flaw: SchemaFlaw::Shape,
            place,
        }),
        Err(DocumentFault::Memory) => Err(SchemaFault::Memory),
    }
}

// The schema of the walk's result, with numbers for the names in links, and without spaces.
#[tactic(auto, unfolding(crate::specs::Reading::bare_schema))]
fn bare_schema(alloc: Global, walked: Walked) -> Result<Schema, SchemaFault>
    requires { IsWalked walked }
    ensures gives { Gives OutOfMemory (λ s. s) result (bare_schema walked) }
    // The walk has already refused everything that could be refused here.
    ensures only { IfErr result (λ e. e ≡ OutOfMemory) }
{
    let Walked { label_sets, draft } = walked;
    let slots = resolve_slots(alloc, &draft.classes, draft.slots.as_slice())?;
    let (couples_before, couple_count) = count_couples(alloc, &slots)?;
    let spans = spans_of(alloc, draft.classes.as_slice())?;
    let struck = struck_table(
        alloc,
        &Lineage::new(draft.classes.as_slice(), spans.as_slice()),
        &slots,
    )?;
    Ok(Schema {
        label_sets,
        classes: draft.classes,
        slots,
        spaces: Table::new(alloc),
        couples_before,
        couple_count,
        spans,
        struck,
        // Without spaces, nothing reads a slot.
        readings: Readings {
            firsts: Items::new(alloc),
            dims: Items::new(alloc),
            rows: Items::new(alloc),
        },
    })
}

// The schema with the spaces of the entries.
#[tactic(auto, unfolding(crate::specs::Reading::schema_with_spaces))]
fn schema_with_spaces(
    alloc: Global,
    bare: Schema,
    entries: &[SpaceEntry],
) -> Result<Schema, SchemaFault>
    ensures { Gives OutOfMemory (λ s. s) result (schema_with_spaces bare (map space_declaration entries.now)) }
{
    let slots = BareSchema::of(alloc, &bare)?;
    let spaces = spaces_of(alloc, &slots, entries)?;
    let readings = Readings::of(alloc, &slots, spaces.as_slice())?;
    drop(slots);
    Ok(bare.with_spaces(spaces, readings))
}

// The schema that a document's entries declare. Their intervals must be in order, as `Document::read` ensures.
#[tactic(auto, unfolding(crate::specs::Reading::declared_schema))]
fn declared_schema(alloc: Global, document: Document) -> Result<Schema, SchemaFault>
    requires { HaveSoundDefaults (declarations document) }
    ensures { Gives OutOfMemory (λ s. s) result (declared_schema (declarations document)) }
{
    let Document {
        label_sets,
        classes,
        spaces,
    } = document;
    let walked = Walked::of(alloc, &label_sets, classes)?;
    let bare = bare_schema(alloc, walked)?;
    schema_with_spaces(alloc, bare, &spaces)
}

impl Schema {
    /// Returns the schema that a JSON document declares, or its first fault: `Json` if the text is not JSON, then
    /// `Shape` if the JSON has another form, then the first fault of a walk over the entries: label sets with their
    /// labels, classes with their slots and then links, spaces with their classes and then dimensions. At each entry,
    /// checks are made in the order of the faults' numbers. The location is the entry with the fault, or the whole
    /// document for `Json` and for a fault of the document's own form. `Memory` has no location and may occur at any
    /// point.
    #[tactic(auto, unfolding(crate::specs::Reading::schema_of))]
    pub fn read(alloc: Global, text: &str) -> Result<Schema, SchemaFault>
        ensures { Gives OutOfMemory (λ s. s) result (schema_of text.now) }
    {
        let document = document(alloc, text)?;
        declared_schema(alloc, document)
    }
}
