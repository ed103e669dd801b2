//! The parser of JSON. Both documents are parsed by it.

ghost use Rattle.std.specs.Prelude.{◌≡◌};
ghost use Rattle.bb_schema_form.specs.declared.fault.DocumentFault.TheVariants.{Memory as OutOfMemory, Json};
ghost use Rattle.serde_json.specs.Read.{read};
ghost use Rattle.serde_json.specs.View.{view};
ghost use Rattle.bb_basis.specs.Results.{Gives, ok_or};

use crate::fault::DocumentFault;
use serde_json::Value;
use std::alloc::Global;

/// Returns the JSON value of a text. `Json` if the text is not JSON.
pub(crate) fn json(alloc: Global, text: &str) -> Result<Value, DocumentFault>
    ensures { Gives OutOfMemory view result (ok_or (read text.now) Json) }
{
    match Value::from_str(alloc, text) {
        Ok(value) => Ok(value),
        Err(error) if error.is_memory() => Err(DocumentFault::Memory),
        Err(_) => Err(DocumentFault::Json),
    }
}
