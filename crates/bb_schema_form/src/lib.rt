//! The form of the two JSON documents, the schema's and the initial units': whether a text is such a document, and what
//! its entries declare, before any name in them is looked up. The crates above see entries, not JSON.
#![tactic(auto)]

mod document;
mod entry;
mod fault;
mod form;
mod owned;
mod parsed;
mod place;
mod quick;
mod quick_entry;
mod shape;
mod units_form;

pub use document::{
    ClassEntry, DefaultEntry, DimEntry, Document, FirstLinkEntry, GivenEntry, GivenValue,
    LabelSetEntry, LinkEntry, MemberEntry, SlotEntry, SpaceEntry, UnitEntry, UnitsDocument,
};
pub use fault::DocumentFault;
pub use place::{DocumentPlace, ListItem, ListKey};
