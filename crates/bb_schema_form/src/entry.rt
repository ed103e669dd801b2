//! The entries of the lists of a document: the trait of all kinds of entries, the one loop that reads a list, and the
//! texts that entries keep.

ghost use Rattle.std.specs.Prelude.{◌≡◌, List, Result, map};
ghost use Rattle.std.specs.String.{string_bytes};
ghost use Rattle.bb_schema_form.specs.declared.fault.DocumentFault.TheVariants.{Memory as OutOfMemory};
ghost use Rattle.serde_json.specs.Data.{Data};
ghost use Rattle.serde_json.specs.View.{view};
ghost use Rattle.bb_basis.specs.Results.{Gives, ok_or, try_map_at};
ghost use Rattle.bb_schema_form.specs.Faults.{inside, misshapen};
ghost use Rattle.bb_schema_form.specs.Shapes.{text_at};

use crate::fault::{DocumentFault, placed};
use crate::place::ListKey;
use crate::shape::text_at;
use serde_json::Value;
use std::alloc::Global;

/// An entry of a list of a document.
pub(crate) trait Entry: Sized {
    ghost use Rattle.bb_schema_form.specs.declared.fault.DocumentFault.{DocumentFault};

    /// What an entry means.
    ghost Declared: { Type 0 };

    ghost declared: { Self → Declared };

    /// What a JSON value declares as an entry, or its fault.
    ghost form: { Data → Result Declared DocumentFault };

    fn of(alloc: Global, value: &Value) -> Result<Self, DocumentFault>
        ensures { Gives OutOfMemory declared result (form (view value.now)) };
}

/// Returns the entries that the values of a list declare, in their order, or the first fault, with its entry as
/// location.
pub(crate) fn entries<E: Entry>(
    alloc: Global,
    list: ListKey,
    values: &[Value],
) -> Result<Vec<E>, DocumentFault>
where
    E: Drop,
    ensures { Gives OutOfMemory (λ es. map E.declared es.items) result
        (try_map_at (inside list) E.form 0 (map view values.now)) }
{
    let mut entries = Vec::new(alloc);
    for (index, value) in values.iter().enumerate() {
        let entry = placed(E::of(alloc, value), list, index)?;
        entries.push(entry)?;
    }
    Ok(entries)
}

/// Returns the text under a key of an object, as a `String` that an entry keeps.
pub(crate) fn string_at(alloc: Global, value: &Value, key: &str) -> Result<String, DocumentFault>
    ensures { Gives OutOfMemory string_bytes result (ok_or (text_at key.now (view value.now)) misshapen) }
{
    let text = text_at(value, key).ok_or(DocumentFault::misshapen())?;
    Ok(String::from_str(alloc, text)?)
}
