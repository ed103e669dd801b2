//! What histories are like. No code calls it.

ghost use Rattle.std.specs.Prelude.{◌≡◌, ◌++◌, ℕ, List, Ok, true};
ghost use Rattle.std.specs.List.{list_all};
ghost use Rattle.std.specs.Str.{IsUtf8};
ghost use Rattle.bb_schema.specs.Fits.{Fits};
ghost use Rattle.bb_schema.specs.Schema.{Schema};
ghost use Rattle.bb_run_held.specs.Moves.{Move};
ghost use Rattle.bb_moves.specs.MovesText.{moves_of};
ghost use Rattle.bb_moves.specs.Written.{IsEnded, can_tell, history_text};

/// States the properties of histories, for any schema.
///
/// - `joined`: if the last line of a history is ended, the moves of another history after it are read after its own.
/// - `again`: the texts of moves that the format can express, one after the other, are read as these moves.
/// - `told`: the format can express every move that is read. Therefore `history` can write every move of a history.
pub fn histories_are_orderly()
    ensures joined { (schema : Schema) (a b : List ℕ) (ms ns : List Move) → IsEnded a →
        moves_of schema a ≡ Ok ms → moves_of schema b ≡ Ok ns → moves_of schema (a ++ b) ≡ Ok (ms ++ ns) }
    ensures again { (schema : Schema) (ms : List Move) → Fits schema → list_all (can_tell schema) ms ≡ true →
        IsUtf8 (history_text schema ms) → moves_of schema (history_text schema ms) ≡ Ok ms }
    ensures told { (schema : Schema) (text : List ℕ) (ms : List Move) → moves_of schema text ≡ Ok ms →
        list_all (can_tell schema) ms ≡ true }
{}
