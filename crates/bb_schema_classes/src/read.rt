//! `Walked::of`: one walk over the label sets and classes of a document. `bb_schema` calls it, then reads the spaces.

ghost use Rattle.std.specs.Prelude.{IfOk, All, map};
ghost use Rattle.bb_basis.specs.Results.{Gives};
ghost use Rattle.bb_schema_form.specs.Document.{label_set_declaration, class_declaration};
ghost use Rattle.bb_schema_form.specs.Defaults.{HasSoundDefaults};
ghost use Rattle.bb_schema_classes.specs.declared.fault.SchemaFault.TheVariants.{Memory as OutOfMemory};
ghost use Rattle.bb_schema_classes.specs.Walk.{walk_of};
ghost use Rattle.bb_schema_classes.specs.Fits.{IsWalked};

mod classes;
mod entries;
mod focus;
mod index;
mod labels;
mod links;
mod resolve;
mod slots;

use crate::draft::SchemaDraft;
use crate::fault::SchemaFault;
use crate::label_set::LabelSet;
use bb_basis::Table;
use bb_schema_form::{ClassEntry, LabelSetEntry};
pub use classes::CLASS_LIMIT;
use classes::classes_of;
use focus::with_focus;
pub use index::{NamedEntry, first_places, indexed_place};
pub use labels::LABEL_SET_LIMIT;
use labels::label_sets_of;
pub use resolve::resolve_link;
use std::alloc::Global;

/// The label sets and classes of a document after a walk over their entries. Links still have names.
#[derive(Drop)]
pub struct Walked {
    pub label_sets: Table<LabelSet>,
    pub draft: SchemaDraft,
}

impl Walked {
    /// Returns the result of the walk over the entries, with `focus` before all other classes, or the first fault. The
    /// order is label sets with their labels, then classes with their slots and then links. A fault has its entry as
    /// location, and at each entry checks are made in the order of the faults' numbers. `Memory` may occur at any
    /// point. The intervals of the entries must be in order, as `Document::read` ensures.
    #[tactic(auto, unfolding(crate::specs::Walk::walk_of))]
    pub fn of(
        alloc: Global,
        label_sets: &[LabelSetEntry],
        classes: Vec<ClassEntry>,
    ) -> Result<Walked, SchemaFault>
        requires { All HasSoundDefaults (map class_declaration classes.items) }
        ensures gives { Gives OutOfMemory (λ w. w) result
            (walk_of (map label_set_declaration label_sets.now) (map class_declaration classes.items)) }
        ensures fits { IfOk result IsWalked }
    {
        let label_sets = label_sets_of(alloc, label_sets)?;
        let classes = with_focus(alloc, classes)?;
        let draft = classes_of(alloc, &label_sets, &classes)?;
        Ok(Walked { label_sets, draft })
    }
}
