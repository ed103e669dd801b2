//! The theorem that `verify` (bb_verify) accepts the code that `emit_part` (bb_compile) makes. No code calls it.

ghost use Rattle.std.specs.Prelude.{◌≡◌, List, Ok};
ghost use Rattle.bb_lang.specs.Blocks.{BlockTree};
ghost use Rattle.bb_compile_scope.specs.Place.{Place};
ghost use Rattle.bb_compile.specs.Parts.{part_code};
ghost use Rattle.bb_code.specs.Code.{Code as AnyCode};
ghost use Rattle.bb_verify.specs.Accepted.{checked};
ghost use Rattle.bb_verify_effect.specs.declared.frame.Frame.{Frame};
ghost use Rattle.bb_verify_effect.specs.declared.part.Part.{Part};
ghost use Rattle.bb_theorem_accepted.specs.Classes.{HasClasses};

use bb_schema::Schema;

/// States that the verifier accepts the code of a part for that part, regardless of its statements and expressions.
///
/// - `accepted`: if the classes of the part are classes of the schema, the verifier accepts every code that the
///   compiler makes for the part, with a frame for each of its op indexes. The condition is needed because a declared
///   frame has the kind of each local, and a kind with another class is refused.
pub fn compiled_code_is_accepted(schema: &Schema)
    ensures accepted { (part : Part) (place : Place) (block : BlockTree) (code : AnyCode) →
        HasClasses schema.now part → part_code schema.now part place block ≡ Ok code →
        (frames : List Frame) ×
        (checked schema.now part code ≡ Ok (record { code = code; part = part; frames = frames })) }
{
    // For the proof: the schema's invariant.
    schema.fits();
}
