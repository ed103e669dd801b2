//! Definite mistakes in an accepted code. The sentences on a code (sentence.rt) print the list.

ghost use Rattle.std.specs.Prelude.{◌≡◌, ◌++◌, IfOk, OnOk, length, map};
ghost use Rattle.bb_lint.specs.Finds.{is_barren};
ghost use Rattle.bb_lint.specs.proving.Admitted.{AreAdmitted};
ghost use Rattle.bb_lint.specs.Unused.{IsTold};
ghost use Rattle.bb_lint.specs.Warnings.{code_warnings, op_warnings, query_warnings, warning_at};

use crate::finds::{Admitted, finds_nothing};
use crate::unused::named_queries;
use crate::vain::is_vain_at;
use bb_basis::Memory;
use bb_code::{Code, Place};
use bb_schema::Schema;
use bb_verify::Checked;
use std::alloc::Global;

/// A mistake in a code.
#[derive(Clone, Copy, Debug, PartialEq, Eq)]
pub(crate) enum Warning {
    /// The test of this op never holds.
    Test(Place),
    /// The search of this op finds nothing.
    Find(Place),
    /// No op names the query with this index.
    Unused(u16),
}

// Returns the warning of an op, if there is one; `barren` tells of every query whether it finds nothing.
fn warning_at(schema: &Schema, checked: &Checked, barren: &[bool], place: Place) -> Option<Warning>
    requires { barren.now ≡ map (is_barren schema.now) checked.now.code.queries }
    ensures { result ≡ warning_at schema.now checked.now place }
{
    let code = checked.code();
    let op = code.op(place as usize)?;
    if is_vain_at(schema, checked, place, op) {
        return Some(Warning::Test(place));
    }
    if finds_nothing(schema, code, barren, op) {
        return Some(Warning::Find(place));
    }
    None
}

// Appends the warnings about the ops, in order.
fn warn_of_ops(
    warnings: &mut Vec<Warning>,
    schema: &Schema,
    checked: &Checked,
    barren: &[bool],
) -> Result<(), Memory>
    requires { barren.now ≡ map (is_barren schema.now) checked.now.code.queries }
    ensures { OnOk result (warnings.new.items ≡ warnings.old.items ++ op_warnings schema.now checked.now) }
{
    let count = checked.code().ops().len() as Place;
    for place in 0..count {
        let Some(warning) = warning_at(schema, checked, barren, place) else {
            continue;
        };
        warnings.push(warning)?;
    }
    Ok(())
}

// Appends the warnings about the queries; `named` tells of every query whether an op names it.
fn warn_of_queries(warnings: &mut Vec<Warning>, code: &Code, named: &[bool]) -> Result<(), Memory>
    requires { IsTold code.now.ops (length code.now.queries) named.now }
    ensures { OnOk result (warnings.new.items ≡ warnings.old.items ++ query_warnings code.now) }
{
    let count = code.queries().len() as u16;
    for query in 0..count {
        if named[query as usize] {
            continue;
        }
        warnings.push(Warning::Unused(query))?;
    }
    Ok(())
}

/// Returns the warnings about a code: first about its ops, in order, then about its queries.
pub(crate) fn code_warnings(
    alloc: Global,
    schema: &Schema,
    admitted: &Admitted,
    checked: &Checked,
) -> Result<Vec<Warning>, Memory>
    requires { AreAdmitted schema.now admitted.now.lists.items }
    ensures { IfOk result (λ v. v.items ≡ code_warnings schema.now checked.now) }
{
    let code = checked.code();
    let barren = admitted.barren_queries(alloc, schema, code)?;
    let named = named_queries(alloc, code)?;
    let mut warnings = Vec::new(alloc);
    warn_of_ops(&mut warnings, schema, checked, barren.as_slice())?;
    warn_of_queries(&mut warnings, code, named.as_slice())?;
    Ok(warnings)
}
