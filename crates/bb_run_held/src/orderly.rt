//! What the moves of a held run are like. No code calls it.

ghost use Rattle.std.specs.Prelude.{◌≡◌, ◌+◌, ◌∷◌, [], ℕ, List, Some, replicate, true};
ghost use Rattle.bb_run.specs.Activation.{Activation};
ghost use Rattle.bb_run.specs.Ask.{Ask};
ghost use Rattle.bb_run.specs.Board.{Board};
ghost use Rattle.bb_run.specs.Native.{Native};
ghost use Rattle.bb_run.specs.Note.{Note};
ghost use Rattle.bb_run.specs.Plan.{Plan};
ghost use Rattle.bb_run.specs.Run.{choice, run};
ghost use Rattle.bb_run_held.specs.Moves.{Standing, advance, alone, answer, moved, one_turn, played};
ghost use Rattle.bb_run_held.specs.Moves.{post, post_segment, takes_posts};
ghost use Rattle.bb_run_held.specs.Outside.{AsksInside, ComesToSame, with_inside};
ghost use Rattle.bb_run_held.specs.declared.pause.Pause.TheVariants.{Due, Going};

/// States the properties of the moves of any held run, for any plan, blackboard and natives.
///
/// - `apart`: the point at which `advance` returns does not show. An `advance` of m cycles and then one of n emit what
///   one of m + n cycles emits, and leave the run as it does.
/// - `turns`: one `advance` emits what some number of turns emit, and leaves the run as they do.
/// - `alone`: a run is a start, one `advance` with the run's limit as its number of cycles, and a finish.
/// - `posts`: a post is one segment, the first of its move: each ask, in order, and its effect on the blackboard that
///   the move found.
/// - `outside`: a turn that ends with a native due, and then the answer for it, emit the notes of the turn with a
///   native inside that asks the same, and leave the run as that turn does, except for its natives.
pub fn moves_are_orderly()
    ensures apart { (plan : Plan) (t : Standing) (m n : ℕ) →
        played plan (advance m ∷ advance n ∷ []) t ≡ moved plan (advance (m + n)) t }
    ensures turns { (plan : Plan) (t : Standing) (n : ℕ) →
        (k : ℕ) × (played plan (replicate k one_turn) t ≡ moved plan (advance n) t) }
    ensures alone { (plan : Plan) (board : Board) (natives : List Native) (limit : ℕ) →
        alone plan board natives limit ≡ run plan board natives limit }
    ensures posts { (plan : Plan) (t : Standing) (asks : List Ask) → takes_posts t.pause ≡ true →
        (later : List (List Note)) × ((moved plan (post asks) t).emitted ≡ post_segment asks t.state ∷ later) }
    ensures outside { (plan : Plan) (t : Standing) (a : Activation) (natives : List Native) (asks : List Ask) →
        t.pause ≡ Going → choice plan t.state ≡ Some a → (moved plan one_turn t).standing.pause ≡ Due a →
        AsksInside plan natives asks a (moved plan one_turn t).standing.state →
        ComesToSame (played plan (one_turn ∷ answer asks ∷ []) t) (moved plan one_turn (with_inside natives t)) }
{}
