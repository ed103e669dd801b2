//! What holds of an agenda after any changes. Proofs about runs may call it.

ghost use Rattle.std.specs.Prelude.{◌≡◌, ℕ, List, Some};
ghost use Rattle.bb_agenda.specs.Agenda.{Agenda, status};
ghost use Rattle.bb_agenda.specs.History.{Change, after};
ghost use Rattle.bb_agenda.specs.declared.status.Status.TheVariants.{Executed, Obviated};

/// An executed or obviated activation keeps that status and is never pending again, after any changes.
pub fn what_is_over_stays_over()
    ensures executed { (a : Agenda) (changes : List Change) (number : ℕ) →
        status a number ≡ Some Executed → status (after changes a) number ≡ Some Executed }
    ensures obviated { (a : Agenda) (changes : List Change) (number : ℕ) →
        status a number ≡ Some Obviated → status (after changes a) number ≡ Some Obviated }
{}
