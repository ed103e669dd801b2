//! The answer to words of the command line that choose no options: their text. Programs call `answer_words`.

ghost use Rattle.std.specs.Prelude.{◌≡◌, ◌==◌, ◌∷◌, [], false};
ghost use Rattle.bb_main.specs.Serve.{Delivers, fault_answer};
ghost use Rattle.bb_main.specs.declared.serving.TheConstants.{WRITE};

use crate::serving::{MEMORY, REFUSED, WRITE};
use bb_main_options::OptionsFault;
use bb_shell::{Out, put_all};

/// Writes the text of words that choose no options. Returns the exit status: 0 the words ask for help or the version, 2
/// they are refused, 5 memory ran out, 6 the output failed.
pub fn answer_words<O: Out>(fault: &OptionsFault, writer: &mut O) -> u8
    requires { O.has_failed writer.old ≡ false }
    ensures answer { Delivers (fault_answer fault.now) (O.taken writer.old) (O.taken writer.new) result }
    ensures failed { O.has_failed writer.new ≡ (result == WRITE) }
{
    match fault {
        OptionsFault::Help(text) => write_text(text.as_str(), 0, writer),
        OptionsFault::Words(text) => write_text(text.as_str(), REFUSED, writer),
        OptionsFault::Memory => MEMORY,
    }
}

// Writes a text, and returns `status` unless the output fails.
fn write_text<O: Out>(text: &str, status: u8, writer: &mut O) -> u8
    requires open { O.has_failed writer.old ≡ false }
    requires other { (status == WRITE) ≡ false }
    ensures answer { Delivers (record { pieces = text.now ∷ []; status = status })
        (O.taken writer.old) (O.taken writer.new) result }
    ensures failed { O.has_failed writer.new ≡ (result == WRITE) }
{
    if put_all(writer, text.as_bytes()) {
        status
    } else {
        WRITE
    }
}
