//! A whole command line: its words choose options for serving the input, or their text is the answer. The program (bb)
//! calls `obey` with what the system gives it.

ghost use Rattle.std.specs.Prelude.{◌≡◌, ◌==◌, ◌+◌, drop, false, map};
ghost use Rattle.bb_main_input.specs.Reading.{TakesAtMost};
ghost use Rattle.bb_main.specs.Obey.{Obeys};
ghost use Rattle.bb_main.specs.declared.serving.TheConstants.{WRITE};

use crate::serving::program;
use crate::words::answer_words;
use bb_main_input::{INPUT_LIMIT, In};
use bb_main_options::options;
use bb_shell::Out;
use std::alloc::Global;
use std::convert::AsStr;
use std::io::Write;

/// Obeys a command line whose first word is the program's name. The other words choose options, and `program` serves
/// the input with them, or they choose none, and their text is written (`answer_words`). Returns the exit status.
pub fn obey<S: AsStr, R: In, O: Out, E: Write>(
    alloc: Global,
    words: &[S],
    reader: &mut R,
    writer: &mut O,
    errors: &mut E,
) -> u8
    requires reader { R.has_failed reader.old ≡ false }
    requires writer { O.has_failed writer.old ≡ false }
    ensures answer { Obeys (map S.text (drop 1 words.now)) (R.has_failed reader.new) (R.remaining reader.old)
        (O.taken writer.old) (O.taken writer.new) result }
    ensures taken { TakesAtMost (INPUT_LIMIT + 1) (R.remaining reader.old) (R.remaining reader.new) }
    ensures failed { O.has_failed writer.new ≡ (result == WRITE) }
{
    match options(alloc, behind_name(words)) {
        Ok(options) => program(alloc, options, reader, writer, errors),
        Err(fault) => answer_words(&fault, writer),
    }
}

// The words behind the program's name, none if there is not even a name.
fn behind_name<S>(words: &[S]) -> &[S]
    ensures { result.now ≡ drop 1 words.now }
{
    match words {
        [_, rest @ ..] => rest,
        [] => words,
    }
}
