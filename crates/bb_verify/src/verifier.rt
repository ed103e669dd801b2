//! The verifier. bb_shell and hosts that make sources call it once for every code.

ghost use Rattle.std.specs.Prelude.{◌≡◌, IfOk, Ok};
ghost use Rattle.bb_basis.specs.Results.{Gives};
ghost use Rattle.bb_verify.specs.Accepted.{checked};
ghost use Rattle.bb_verify.specs.Facts.{Facts};
ghost use Rattle.bb_code.specs.Flaws.{out_of_memory};

use crate::checked::{Checked, counts_of};
use crate::nesting::{check_jumps, check_loops};
use crate::places::frames_of;
use crate::tables::check_tables;
use bb_code::{Code, VerifyFault};
use bb_schema::Schema;
use bb_verify_effect::Part;
use std::alloc::Global;

/// Accepts a code for a part of a source, or returns its first fault: of the tables, of the jumps, of the loops, then
/// op by op. After a fault, or if memory runs out, the code is dropped.
#[tactic(auto, unfolding(crate::specs::Accepted::accepted, crate::specs::Accepted::checked))]
pub fn verify(
    alloc: Global,
    schema: &Schema,
    part: Part,
    code: Code,
) -> Result<Checked, VerifyFault>
    ensures gives { Gives out_of_memory (λ c. c) result (checked schema.now part code) }
    ensures accepted { IfOk result (λ c. checked schema.now c.part c.code ≡ Ok c) }
    ensures facts { IfOk result (λ c. Facts schema.now c.part c.code c.frames) }
{
    check_tables(schema, part, &code)?;
    check_jumps(&code)?;
    let depths = check_loops(alloc, &code)?;
    let frames = frames_of(alloc, schema, part, &code)?;
    let places_in = counts_of(depths.as_slice());
    Ok(Checked::new(code, part, frames, places_in))
}
