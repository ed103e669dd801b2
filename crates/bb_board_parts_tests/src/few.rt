//! Tests of the few members that can pass two tests of neighbouring dimensions, which no query shows directly.

use crate::space::{BOARD, change, no_members, test_of, thousand};
use bb_pattern::Relation;
use bb_space::{Leaf, Spaces};
use std::alloc::Global;
use std::fmt::Write;
use std::test::Fail;

// Whether an interval on the first dimension lies within `[low, high]`.
fn within(low: i64, high: i64) -> Leaf {
    Leaf::Ordered {
        relation: Relation::Within,
        dim: 0,
        low,
        high,
    }
}

// Whether the label on the second dimension is red, or else green.
fn is_red(red: bool) -> Leaf {
    Leaf::Is {
        dim: 1,
        set: 0,
        label: u8::from(!red),
    }
}

// The few members of `board` that can pass some tests, at most `most`, or `none`.
fn few(alloc: Global, spaces: &Spaces, tests: &[Leaf], most: usize) -> Result<String, Fail> {
    let mut text = String::new(alloc);
    if spaces.count() == 0 {
        return Ok(text);
    }
    match spaces.few_passing(BOARD, tests, most)? {
        None => text.push_str("none")?,
        Some(list) => {
            for unit in &list {
                write!(text, "{unit} ")?;
            }
        }
    }
    Ok(text)
}

// Whether the few are these.
fn are_few(
    alloc: Global,
    spaces: &Spaces,
    tests: &[Leaf],
    most: usize,
    text: &str,
) -> Result<bool, Fail> {
    Ok(few(alloc, spaces, tests, most)?.as_str() == text)
}

#[test]
fn few_of_a_thousand(rt: HostRuntime) -> Result<(), Fail> {
    let spaces = thousand(rt.alloc())?;
    let both = [within(10, 13), is_red(true)];
    assert!(rt; are_few(rt.alloc(), &spaces, &both, 4, "10 11 12 13 ")?);
    assert!(rt; are_few(rt.alloc(), &spaces, &both, 3, "none")?);
    let one = [is_red(true), within(10, 10)];
    assert!(rt; are_few(rt.alloc(), &spaces, &one, 1, "10 ")?);
    let green = [within(10, 13), is_red(false)];
    assert!(rt; are_few(rt.alloc(), &spaces, &green, 0, "")?);
    assert!(rt; are_few(rt.alloc(), &spaces, &[within(10, 13)], 99, "none")?);
    Ok(())
}

// Whether those of the few for two tests that pass both are what a walk over all members finds.
fn as_a_walk(spaces: &Spaces, tests: &[Leaf]) -> Result<bool, Fail> {
    if spaces.count() == 0 {
        return Ok(false);
    }
    let Some(few) = spaces.few_passing(BOARD, tests, usize::MAX)? else {
        return Ok(false);
    };
    let found = spaces.passing(BOARD, tests, &few)?;
    let walked = spaces.passing(BOARD, tests, &spaces.members(BOARD)?)?;
    Ok(found.as_slice() == walked.as_slice())
}

#[test]
fn few_as_a_walk(rt: HostRuntime) -> Result<(), Fail> {
    let mut spaces = no_members(rt.alloc())?;
    let mut number: u64 = 0x2545_F491_4F6C_DD1D;
    for _ in 0..2000 {
        number ^= number << 13;
        number ^= number >> 7;
        number ^= number << 17;
        change(&mut spaces, rt.alloc(), number)?;
        let tests = [test_of(number >> 32), is_red(number % 8 > 0)];
        assert!(rt; as_a_walk(&spaces, &tests)?);
    }
    Ok(())
}
