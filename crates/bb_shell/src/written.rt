//! Writes a text made as a whole, and reports how far that came. The check of an input (check.rt) and its compilation
//! (compile.rt) end with it.

ghost use Rattle.std.specs.Prelude.{◌≡◌, false};
ghost use Rattle.bb_shell.specs.Written.{Wrote, is_cut};

use bb_run::{Out, put_all};

/// How far a text was written.
#[derive(Clone, Copy, Debug, PartialEq, Eq)]
pub enum Done {
    /// The output took the whole text.
    Written,
    /// The output failed, and took a prefix of the text.
    Write,
}

/// Writes a text to an output, and returns how far it was written.
pub(crate) fn write<O: Out>(text: &str, out: &mut O) -> Done
    requires { O.has_failed out.old ≡ false }
    ensures wrote { Wrote text.now result (O.taken out.old) (O.taken out.new) }
    ensures failed { O.has_failed out.new ≡ is_cut result }
{
    if put_all(out, text.as_bytes()) {
        Done::Written
    } else {
        Done::Write
    }
}
