//! The schema of a blackboard: classes, slots with resolved links, associations (couples of inverse link slots),
//! spaces, and ownership, which decides the classes of units that a delete may delete.
//!
//! - In: the text of a schema's document.
//! - Out: `Schema::read`, which returns the schema that the document declares, or the first `SchemaFault` with its
//!   entry.
//! - Callers rely on: everything that a schema declares has a number (`ClassId`, `SlotId`, `SpaceId`, ..), and a run
//!   looks up no names. A `SharedSchema` is one schema with many owners.
//! - Family: bb_schema_form reads the JSON, bb_schema_classes the label sets and classes; bb_schema resolves the links
//!   of their slots and reads the spaces.
//! - Cases: `schemas`, `documents`, `limits_of_documents`, `model-schemas`, `owning`; tests in bb_board_parts_tests.
#![tactic(auto)]

mod bare;
mod couple;
mod lineage;
mod ownership;
mod read;
mod readings;
mod relation;
mod resolve;
mod schema;
mod shared_schema;
mod slot;
mod space;
mod struck;
mod unit;

pub use bb_schema_classes::{
    ClassId, DocumentPlace, Kind, LabelId, LabelSetId, Link, ListItem, ListKey, SchemaFault,
    SchemaFlaw, SlotId, TEXT_LIMIT, Value,
};
pub use couple::{CoupleId, Side};
pub use lineage::Lineage;
pub use resolve::resolve_slots;
pub use schema::Schema;
pub use shared_schema::SharedSchema;
pub use slot::{Content, Slot, find_slot, link_at};
pub use space::{Dim, SpaceId};
pub use struck::{struck_at, struck_table};
pub use unit::UnitId;
