//! The classes of a schema: label sets, classes with their inheritance, values, and slots as their entries declare
//! them. `Walked::of` reads these from a document's entries, or returns the first fault.
#![tactic(auto)]

mod class;
mod draft;
mod fault;
mod firsts;
mod kind;
mod label_set;
mod read;
mod span;
mod value;

pub use bb_schema_form::{DocumentPlace, ListItem, ListKey};
pub use class::{Class, ClassId, parent};
pub use draft::{Draft, DraftContent, LinkDraft, SLOT_LIMIT, SchemaDraft};
pub use fault::{SchemaFault, SchemaFlaw, placed};
pub use firsts::{copy_of, row_if, slot_among};
pub use kind::{Kind, Link, SlotId};
pub use label_set::{LabelId, LabelSet, LabelSetId, Labels};
pub use read::{
    CLASS_LIMIT, LABEL_SET_LIMIT, NamedEntry, Walked, first_places, indexed_place, resolve_link,
};
pub use span::{Span, span_at, spans_of};
pub use value::{TEXT_LIMIT, Value};
