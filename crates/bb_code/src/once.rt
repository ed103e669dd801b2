//! The law of spellings: every code has one spelling.

ghost use Rattle.std.specs.Prelude.{◌≡◌, ◌++◌, List, ℕ};
ghost use Rattle.bb_code.specs.Code.{Code, IsCode};
ghost use Rattle.bb_code.specs.Spelling.{spelling};

/// Does nothing, but states that every code has one spelling, and that no spelling is a prefix of another code's.
pub fn one_spelling()
    ensures { (a b : Code) (x y : List ℕ) → IsCode a → IsCode b →
        spelling a ++ x ≡ spelling b ++ y → (a ≡ b) × (x ≡ y) }
{}
