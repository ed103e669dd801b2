//! The built-in class. `read.rt` reads its entry before the entries of the document.

ghost use Rattle.std.specs.Prelude.{◌≡◌, [], ◌∷◌, map, IfOk};
ghost use Rattle.bb_schema_form.specs.Document.{class_declaration, slot_declaration, text_default};
ghost use Rattle.bb_schema_classes.specs.ClassReading.{focus};

use bb_schema_form::{ClassEntry, DefaultEntry, SlotEntry};
use std::alloc::{AllocError, Global};

fn text_slot(alloc: Global, name: &str) -> Result<SlotEntry, AllocError>
    ensures { IfOk result (λ entry. slot_declaration entry ≡ record { name = name.now; default = text_default [] }) }
{
    Ok(SlotEntry {
        name: String::from_str(alloc, name)?,
        default: DefaultEntry::Text(String::new(alloc)),
    })
}

// The built-in class, as a document would declare it.
fn focus(alloc: Global) -> Result<ClassEntry, AllocError>
    ensures { IfOk result (λ entry. class_declaration entry ≡ focus) }
{
    let mut slots = Vec::new(alloc);
    slots.push(text_slot(alloc, "source")?)?;
    slots.push(text_slot(alloc, "area")?)?;
    slots.push(SlotEntry {
        name: String::from_str(alloc, "weight")?,
        default: DefaultEntry::Int(0),
    })?;
    slots.push(SlotEntry {
        name: String::from_str(alloc, "active")?,
        default: DefaultEntry::Bool(true),
    })?;
    Ok(ClassEntry {
        name: String::from_str(alloc, "focus")?,
        parent: None,
        slots,
        links: Vec::new(alloc),
    })
}

/// Returns the class entries of a document, preceded by the entry of the built-in class.
pub(crate) fn with_focus(
    alloc: Global,
    entries: Vec<ClassEntry>,
) -> Result<Vec<ClassEntry>, AllocError>
    ensures { IfOk result (λ all. map class_declaration all.items ≡ focus ∷ map class_declaration entries.items) }
{
    let mut all = entries;
    all.insert(0, focus(alloc)?)?;
    Ok(all)
}
