//! What a choice is, for any rating. Proofs about runs (bb_run) call it.

ghost use Rattle.std.specs.Prelude.{◌≡◌, ◌<ℤ◌, ℤ, List, Contains, Some, None};
ghost use Rattle.bb_agenda.specs.declared.focusing.activation.Activation.{Activation};
ghost use Rattle.bb_agenda.specs.Chosen.{chosen, IsChosen};

/// The chosen activation is pending, rated at least the floor, rated highest, and the first of equals. If nothing is
/// chosen, every pending activation is rated below the floor.
pub fn chosen_is_best()
    ensures some { (rate : Activation → ℤ) (floor : ℤ) (pending : List Activation) (a : Activation) →
        chosen rate floor pending ≡ Some a → IsChosen rate floor pending a }
    ensures none { (rate : Activation → ℤ) (floor : ℤ) (pending : List Activation) →
        chosen rate floor pending ≡ None → (b : Activation) → Contains pending b → rate b <ℤ floor }
{}
