//! Runs an input and writes the blackboard that is left as a document of initial units. Programs (bb_main) call
//! `units_texts`.

ghost use Rattle.std.specs.Prelude.{◌≡◌, ◌⊎◌, true, map, IfErr, IfOk, IsOkAnd, Err, string_bytes};
ghost use Rattle.bb_run.specs.Roster.{all_open};
ghost use Rattle.bb_shell.specs.Left.{EndsBy, LoadsAsLeft, left_text, meaning_of};

use crate::shell::Shell;
use crate::sink::Sink;
use crate::texts::Texts;
use crate::{Finish, InputFault, NativeSource, View};
use bb_board_document::units_document;
use std::alloc::Global;

/// What a run leaves.
#[derive(Drop)]
pub struct Left {
    /// How the run ended.
    pub finish: Finish,
    /// The units that are left, their links and the members of spaces, as a document of initial units.
    pub document: String,
}

/// Runs the texts of an input as `run_texts` does, but writes no trace: the final contents of the blackboard become a
/// document of initial units (`units_document`). Every native is closed once, in order, regardless of the result. An
/// input is refused if `run_texts` refuses it, with the same fault. `Memory`: memory ran out, before or after the run
/// ended.
pub fn units_texts<N: NativeSource>(
    alloc: Global,
    texts: &Texts<'_>,
    natives: Vec<N>,
    limit: u32,
    floor: i64,
) -> Result<Left, InputFault>
    requires natives { all_open (map N.meaning natives.items) ≡ true }

    // `Ok`: the input has a meaning, and the finish is its run's, which was not cut short.
    ensures finish { IfOk result (λ left. IsOkAnd (meaning_of (map N.meaning natives.items) texts.now floor)
        (λ m. EndsBy (map N.meaning natives.items) limit m left.finish)) }

    // The document is that of the blackboard that the run leaves; loading it gives the contents of that blackboard.
    ensures text { IfOk result (λ left. IsOkAnd (meaning_of (map N.meaning natives.items) texts.now floor)
        (λ m. string_bytes left.document ≡ left_text (map N.meaning natives.items) limit m)) }
    ensures loads { IfOk result (λ left. IsOkAnd (meaning_of (map N.meaning natives.items) texts.now floor)
        (λ m. LoadsAsLeft (map N.meaning natives.items) limit m (string_bytes left.document))) }

    // `Err`: the fault is the first refusal.
    ensures refused { IfErr result (λ e. (e ≡ InputFault.Memory)
        ⊎ (meaning_of (map N.meaning natives.items) texts.now floor ≡ Err e)) }
{
    let shell = Shell::of_texts(alloc, texts, natives, floor)?;
    let mut sink = Sink;
    // It fails only if memory runs out, since the output takes everything.
    let Ok((finish, board)) = shell.run_to_end(alloc, limit, &mut sink) else {
        return Err(InputFault::Memory);
    };
    let document = units_document(alloc, &View::new(&board))?;
    Ok(Left { finish, document })
}
