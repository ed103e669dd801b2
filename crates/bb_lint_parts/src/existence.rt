//! Searches used only to learn whether anything is found: their size is compared with 0. The notes on costs search for
//! them.

use bb_code::{Comparison, Op, Place};
use bb_verify::Checked;

// Returns whether comparing a size with a number after it only tells whether anything was found.
fn is_told_before(comparison: Comparison, number: i64) -> bool {
    match comparison {
        Comparison::Lt => number == 1,
        Comparison::Le | Comparison::EqInt => number == 0,
    }
}

// Returns whether comparing a number with a size after it only tells whether anything was found.
fn is_told_behind(number: i64, comparison: Comparison) -> bool {
    match comparison {
        Comparison::Le => number == 1,
        Comparison::Lt | Comparison::EqInt => number == 0,
    }
}

// Returns the number of stack entries before an op.
fn height(checked: &Checked, place: Place) -> Option<usize> {
    let _op = checked.code().op(place as usize)?;
    Some(checked.frame(place).stack.len())
}

// Returns the number below the operands of a search, if an op pushes one right before them.
fn number_below(checked: &Checked, place: Place, operands: usize) -> Option<i64> {
    let below = height(checked, place)?.checked_sub(operands)?;
    for back in 0..place {
        let first = place.saturating_sub(back);
        if height(checked, first) == Some(below) {
            return match checked.code().op(first.checked_sub(1)? as usize) {
                Some(Op::PushInt(number)) => Some(number),
                _ => None,
            };
        }
    }
    None
}

/// Returns whether an op searches, and only to learn whether anything is found: `0 < size(..)`, `size(..) = 0` and the
/// like.
pub(crate) fn asks_for_one(checked: &Checked, place: Place) -> bool {
    let code = checked.code();
    let behind = |by: u16| code.op(place.saturating_add(by) as usize);
    let (Some(Op::Find(index)), Some(Op::Size)) = (behind(0), behind(1)) else {
        return false;
    };
    match (behind(2), behind(3)) {
        (Some(Op::PushInt(number)), Some(Op::Compare(comparison))) => is_told_before(
            comparison, number,
        ),
        (Some(Op::Compare(comparison)), _) => {
            let operands = match code.queries().get(index as usize) {
                Some(query) => query.kinds.len(),
                None => 0,
            };
            match number_below(checked, place, operands) {
                Some(number) => is_told_behind(number, comparison),
                None => false,
            }
        }
        _ => false,
    }
}
