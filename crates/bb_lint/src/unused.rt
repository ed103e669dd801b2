//! Queries of a code that no op names. The warnings about a code (warning.rt) check for them.

ghost use Rattle.std.specs.Prelude.{◌≡◌, IfOk, false, length, replicate, true};
ghost use Rattle.std.specs.Prelude.{slice_set};
ghost use Rattle.bb_lint.specs.Unused.{IsTold, all_named, with_named};

use bb_basis::Memory;
use bb_code::{Code, Op};
use std::alloc::{AllocError, Global};

fn none_named(alloc: Global, count: usize) -> Result<Vec<bool>, AllocError>
    ensures { IfOk result (λ v. v.items ≡ replicate count false) }
{
    let mut table = Vec::new(alloc);
    for place in 0..count {
        table.push(false)?;
    }
    Ok(table)
}

// Marks the query that an op names, if it names one.
fn mark(table: &mut Vec<bool>, op: Op)
    ensures { table.new.items ≡ with_named table.old.items op }
{
    let Op::Find(query) = op else {
        return;
    };
    let place = query as usize;
    if place < table.len() {
        table[place] = true;
    }
}

// Marks every query that one of the ops names.
fn mark_all(table: &mut Vec<bool>, ops: &[Op])
    ensures { table.new.items ≡ all_named table.old.items ops.now }
{
    for op in ops {
        mark(table, *op);
    }
}

/// Returns, for every query of a code, whether an op names it.
pub(crate) fn named_queries(alloc: Global, code: &Code) -> Result<Vec<bool>, Memory>
    ensures { IfOk result (λ v. IsTold code.now.ops (length code.now.queries) v.items) }
{
    let mut table = none_named(alloc, code.queries().len())?;
    mark_all(&mut table, code.ops());
    Ok(table)
}
