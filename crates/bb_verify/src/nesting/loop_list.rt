//! The list of the loops of a code: the op index that ends its ascending part, and whether all heads are inside the
//! code. `check_loops` calls it.

ghost use Rattle.std.specs.Prelude.{◌≡◌, None, length};
ghost use Rattle.bb_verify.specs.nesting.Loops.{lesser, lowest_outside, none_outside};
ghost use Rattle.bb_verify.specs.nesting.proving.OpenLoops.{least_misplaced, sorted_below, rest_of};

use bb_code::{Code, Flaw, Loop, Place, VerifyFault};

// The smaller of a place and the second head, if the second head is not after the first.
fn least_misplaced(so_far: Place, first: Loop, second: Loop) -> Place
    ensures { result ≡ least_misplaced so_far first second }
{
    if second.head <= first.head {
        return so_far.min(second.head);
    }
    so_far
}

// The place up to which the list of loops ascends: the lowest head listed directly after a head that is not before it,
// but at most `count`.
fn sorted_below(count: Place, loops: &[Loop]) -> Place
    ensures { result ≡ sorted_below count loops.now }
{
    let mut sorted = count;
    let mut next = 1;
    while next < loops.len() {
        sorted = least_misplaced(sorted, loops[next - 1], loops[next]);
        next += 1;
    }
    sorted
}

/// Returns the op index that ends the ascending part of the list of a code's loops, at most the number of ops.
pub(crate) fn sorted_of(code: &Code) -> Place
    ensures { result ≡ sorted_below (length code.now.ops) code.now.loops }
{
    sorted_below(code.ops().len() as u16, code.loops())
}

// The smaller of two places, the first of which may be missing.
fn lesser(so_far: Option<Place>, head: Place) -> Place
    ensures { result ≡ lesser so_far head }
{
    match so_far {
        None => head,
        Some(so_far) => so_far.min(head),
    }
}

// The lowest head outside a code of `count` ops.
fn lowest_outside(count: usize, loops: &[Loop]) -> Option<Place>
    ensures { result ≡ lowest_outside count None loops.now }
{
    let mut so_far = None;
    for l in loops {
        if (l.head as usize) < count {
            continue;
        }
        so_far = Some(lesser(so_far, l.head));
    }
    so_far
}

// Checks that no head is outside the code.
fn none_outside(lowest: Option<Place>) -> Result<(), VerifyFault>
    ensures { result ≡ none_outside lowest }
{
    match lowest {
        None => Ok(()),
        Some(place) => Err(VerifyFault {
            place,
            flaw: Flaw::Loop,
        }),
    }
}

// Checks that no head is outside the code.
fn all_inside(code: &Code) -> Result<(), VerifyFault>
    ensures { result ≡ none_outside (lowest_outside (length code.now.ops) None code.now.loops) }
{
    none_outside(lowest_outside(code.ops().len(), code.loops()))
}

/// Checks the rest of the list: it ascends to the end of the code, and no head is outside the code.
pub(crate) fn rest_of(code: &Code, sorted: Place) -> Result<(), VerifyFault>
    requires { sorted ≡ sorted_below (length code.now.ops) code.now.loops }
    ensures { result ≡ rest_of code.now }
{
    if (sorted as usize) < code.ops().len() {
        return Err(VerifyFault {
            place: sorted,
            flaw: Flaw::Loop,
        });
    }
    all_inside(code)
}
