//! Tests of spaces: their calls with enough memory, and the candidates, which no query shows.

use bb_basis::Items;
use bb_pattern::{DimValue, Relation};
use bb_schema::{Schema, SpaceId, UnitId};
use bb_space::{Leaf, Spaces};
use std::alloc::{AllocError, Global};
use std::fmt::Write;
use std::test::Fail;

// `board` has the dimensions `pos` and `hue`, `desk` has none.
const SCHEMA: &str = r#"{"labels":[{"name":"hue","values":["red","green"]}],
"classes":[{"name":"thing","slots":[{"name":"pos","kind":"interval"},
{"name":"hue","kind":"label","of":"hue"}]},{"name":"word","parent":"thing"}],
"spaces":[{"name":"board","classes":["thing"],"dims":[
{"name":"pos","kind":"ordered"},{"name":"hue","kind":"label","of":"hue"}]},
{"name":"desk","classes":["word"],"dims":[]}]}"#;

pub(crate) const BOARD: SpaceId = 0;

const DESK: SpaceId = 1;

const RED: DimValue = DimValue::Label(0, 0);

pub(crate) fn no_members(alloc: Global) -> Result<Spaces, Fail> {
    let schema = Schema::read(alloc, SCHEMA)?;
    Ok(Spaces::new(alloc, &schema)?)
}

// The values of a red unit on the dimensions of `board`.
fn red_at(alloc: Global, low: i64, high: i64) -> Result<Items<DimValue>, AllocError> {
    Ok(Items::from([DimValue::Interval(low, high), RED].to_vec(alloc)?))
}

// Lets a unit enter `board`, red at `[low, high]`.
fn enter(
    spaces: &mut Spaces,
    alloc: Global,
    unit: UnitId,
    low: i64,
    high: i64,
) -> Result<bool, Fail> {
    if spaces.count() == 0 {
        return Ok(false);
    }
    Ok(spaces.enter(BOARD, unit, red_at(alloc, low, high)?)?)
}

// Tells `board` that a unit is red at `[low, high]`.
fn move_to(
    spaces: &mut Spaces,
    alloc: Global,
    unit: UnitId,
    low: i64,
    high: i64,
) -> Result<(), Fail> {
    if spaces.count() > 0 {
        spaces.moved(BOARD, unit, red_at(alloc, low, high)?)?;
    }
    Ok(())
}

// The members of a space with their values.
fn shown(alloc: Global, spaces: &Spaces, space: SpaceId) -> Result<String, Fail> {
    let mut text = String::new(alloc);
    if space as usize >= spaces.count() {
        return Ok(text);
    }
    for unit in spaces.members(space)? {
        let values = spaces.values(space, unit).unwrap_or(&[]);
        write!(text, "{unit} {values:?};")?;
    }
    Ok(text)
}

// A test of where a unit is on `board`.
fn at(relation: Relation, low: i64, high: i64) -> Leaf {
    Leaf::Ordered {
        relation,
        dim: 0,
        low,
        high,
    }
}

// The candidates in `board` for a test.
fn near(alloc: Global, spaces: &Spaces, leaf: &Leaf) -> Result<String, Fail> {
    let mut text = String::new(alloc);
    if spaces.count() == 0 {
        return Ok(text);
    }
    for unit in spaces.candidates(BOARD, leaf)? {
        write!(text, "{unit} ")?;
    }
    Ok(text)
}

// Whether the candidates in `board` for each test are those that stand beside it.
fn are_near(
    alloc: Global,
    spaces: &Spaces,
    rows: &[(Relation, i64, i64, &str)],
) -> Result<bool, Fail> {
    for row in rows {
        let found = near(alloc, spaces, &at(row.0, row.1, row.2))?;
        if found.as_str() != row.3 {
            return Ok(false);
        }
    }
    Ok(true)
}

// The members of `board` in a list whose values pass a test.
fn passing(
    alloc: Global,
    spaces: &Spaces,
    units: Vec<UnitId>,
    leaf: &Leaf,
) -> Result<Vec<UnitId>, Fail> {
    let mut list = Vec::new(alloc);
    if spaces.count() == 0 {
        return Ok(list);
    }
    for unit in units {
        if leaf.fits(spaces.values(BOARD, unit).unwrap_or(&[])) {
            list.push(unit)?;
        }
    }
    Ok(list)
}

// Whether those of the candidates for a test that pass it are what a walk over all members finds.
fn as_a_walk(alloc: Global, spaces: &Spaces, leaf: &Leaf) -> Result<bool, Fail> {
    if spaces.count() == 0 {
        return Ok(false);
    }
    let found = passing(alloc, spaces, spaces.candidates(BOARD, leaf)?, leaf)?;
    let walked = passing(alloc, spaces, spaces.members(BOARD)?, leaf)?;
    Ok(found.as_slice() == walked.as_slice())
}

/// Makes a unit enter `board`, leave it or move there, chosen by a number.
pub(crate) fn change(spaces: &mut Spaces, alloc: Global, number: u64) -> Result<(), Fail> {
    if spaces.count() == 0 {
        return Ok(());
    }
    let unit = number % 64;
    let low = ((number >> 8) % 32) as i64;
    let high = low + ((number >> 16) % 8) as i64;
    match (number >> 24) % 4 {
        0 => {
            spaces.leave(BOARD, unit);
        }
        1 => {
            enter(spaces, alloc, unit, low, high)?;
        }
        _ => move_to(spaces, alloc, unit, low, high)?,
    }
    Ok(())
}

// Lets a unit enter `desk`.
fn sit_down(spaces: &mut Spaces, alloc: Global, unit: UnitId) -> Result<(), Fail> {
    if spaces.count() > 1 {
        spaces.enter(DESK, unit, Items::new(alloc))?;
    }
    Ok(())
}

// Whether the spaces that a unit is in are these.
fn is_in(alloc: Global, spaces: &Spaces, unit: UnitId, list: &str) -> Result<bool, Fail> {
    let mut text = String::new(alloc);
    for space in spaces.spaces_of(unit) {
        write!(text, "{space} ")?;
    }
    Ok(text.as_str() == list)
}

// Whether 2, which enters `desk` and then `board`, is in both then.
fn stands_in_both(alloc: Global, spaces: &mut Spaces) -> Result<bool, Fail> {
    sit_down(spaces, alloc, 2)?;
    enter(spaces, alloc, 2, 0, 1)?;
    enter(spaces, alloc, 3, 0, 1)?;
    is_in(alloc, spaces, 2, "0 1 ")
}

// Whether 2, which leaves `board`, is in `desk` then.
fn stands_in_one(alloc: Global, spaces: &mut Spaces) -> Result<bool, Fail> {
    if spaces.count() > 0 {
        spaces.leave(BOARD, 2);
    }
    is_in(alloc, spaces, 2, "1 ")
}

// Whether 2, which is forgotten, is in none then, and 3 where it was.
fn stands_in_none(alloc: Global, spaces: &mut Spaces) -> Result<bool, Fail> {
    spaces.forget(2);
    Ok(is_in(alloc, spaces, 2, "")? && is_in(alloc, spaces, 3, "0 ")?)
}

#[test]
fn spaces_of_units(rt: HostRuntime) -> Result<(), Fail> {
    let mut spaces = no_members(rt.alloc())?;
    assert!(rt; stands_in_both(rt.alloc(), &mut spaces)?);
    assert!(rt; stands_in_one(rt.alloc(), &mut spaces)?);
    assert!(rt; stands_in_none(rt.alloc(), &mut spaces)?);
    Ok(())
}

// Lets 3 enter `board` at `[0, 1]`, 1 at `[0, 9]` and 2 at `[1, 1]`, and says whether all were new.
fn three(spaces: &mut Spaces, alloc: Global) -> Result<bool, Fail> {
    let first = enter(spaces, alloc, 3, 0, 1)?;
    let second = enter(spaces, alloc, 1, 0, 9)?;
    let third = enter(spaces, alloc, 2, 1, 1)?;
    Ok(first && second && third)
}

#[test]
fn members_enter_once(rt: HostRuntime) -> Result<(), Fail> {
    let mut spaces = no_members(rt.alloc())?;
    assert!(rt; three(&mut spaces, rt.alloc())?);
    assert!(rt; !enter(&mut spaces, rt.alloc(), 1, 7, 7)?);
    move_to(&mut spaces, rt.alloc(), 4, 0, 0)?;
    let rows = [
        (Relation::Within, 0, 1, "1 2 3 "),
        (Relation::Within, 0, 9, "1 2 3 "),
    ];
    assert!(rt; are_near(rt.alloc(), &spaces, &rows)?);
    move_to(&mut spaces, rt.alloc(), 1, 5, 5)?;
    assert!(rt; are_near(rt.alloc(), &spaces, &[(Relation::Within, 5, 9, "1 ")])?);
    Ok(())
}

// Unit 1 is in `board` alone, and moves there and in `desk`.
fn moved(alloc: Global) -> Result<Spaces, Fail> {
    let mut spaces = no_members(alloc)?;
    enter(&mut spaces, alloc, 1, 1, 3)?;
    let mut moves = Vec::new(alloc);
    moves.push((BOARD, red_at(alloc, 5, 6)?))?;
    moves.push((DESK, Items::new(alloc)))?;
    spaces.moved_all(1, moves)?;
    Ok(spaces)
}

// Whether a space has these members with these values.
fn shows(alloc: Global, spaces: &Spaces, space: SpaceId, text: &str) -> Result<bool, Fail> {
    Ok(shown(alloc, spaces, space)?.as_str() == text)
}

#[test]
fn moves_in_several_spaces(rt: HostRuntime) -> Result<(), Fail> {
    let spaces = moved(rt.alloc())?;
    assert!(rt;
        shows(
            rt.alloc(),
            &spaces,
            BOARD,
            "1 [Interval(5, 6), Label(0, 0)];"
        )?
    );
    assert!(rt; shows(rt.alloc(), &spaces, DESK, "")?);
    Ok(())
}

/// Returns units 1 to 1,000 in `board`, each at its number.
pub(crate) fn thousand(alloc: Global) -> Result<Spaces, Fail> {
    let mut spaces = no_members(alloc)?;
    for unit in 1..=1000u64 {
        let place = unit.cast_signed();
        enter(&mut spaces, alloc, unit, place, place)?;
    }
    Ok(spaces)
}

// The candidates among a thousand once 15 is at `[5000, 5000]`.
const ONE_FAR_OFF: [(Relation, i64, i64, &str); 6] = [
    (Relation::Within, 10, 20, "10 11 12 13 14 16 17 18 19 20 "),
    (Relation::More, 999, 999, "15 1000 "),
    (Relation::Less, 3, 9, "1 2 "),
    (Relation::Covers, 2, 9, "1 2 "),
    (Relation::Overlaps, 0, 2, "1 2 "),
    (Relation::Within, 20, 10, ""),
];

#[test]
fn candidates_by_their_low_ends(rt: HostRuntime) -> Result<(), Fail> {
    let mut spaces = thousand(rt.alloc())?;
    let few = [(
        Relation::Within,
        10,
        20,
        "10 11 12 13 14 15 16 17 18 19 20 ",
    )];
    assert!(rt; are_near(rt.alloc(), &spaces, &few)?);
    move_to(&mut spaces, rt.alloc(), 15, 5000, 5000)?;
    assert!(rt; are_near(rt.alloc(), &spaces, &ONE_FAR_OFF)?);
    Ok(())
}

/// Returns a test with a relation and an interval chosen by a number.
pub(crate) fn test_of(number: u64) -> Leaf {
    let low = (number % 32) as i64;
    let high = low + ((number >> 8) % 16) as i64;
    let relation = match (number >> 16) % 5 {
        0 => Relation::Within,
        1 => Relation::Covers,
        2 => Relation::Overlaps,
        3 => Relation::Less,
        _ => Relation::More,
    };
    at(relation, low, high)
}

#[test]
fn candidates_as_a_walk(rt: HostRuntime) -> Result<(), Fail> {
    let mut spaces = no_members(rt.alloc())?;
    let mut number: u64 = 0x9E37_79B9_7F4A_7C15;
    for _ in 0..2000 {
        number ^= number << 13;
        number ^= number >> 7;
        number ^= number << 17;
        change(&mut spaces, rt.alloc(), number)?;
        assert!(rt; as_a_walk(rt.alloc(), &spaces, &test_of(number >> 32))?);
    }
    Ok(())
}

#[test]
fn leaves(rt: HostRuntime) {
    let values = [DimValue::Interval(2, 4), DimValue::Label(0, 1)];
    let ordered = |relation: Relation, low: i64, high: i64| Leaf::Ordered {
        relation,
        dim: 0,
        low,
        high,
    };
    assert!(rt; ordered(Relation::Covers, 3, 4).fits(&values));
    assert!(rt; !ordered(Relation::Less, 4, 9).fits(&values));
    let green = Leaf::Is {
        dim: 1,
        set: 0,
        label: 1,
    };
    assert!(rt; green.fits(&values));
    let other_sort = Leaf::Is {
        dim: 0,
        set: 0,
        label: 1,
    };
    assert!(rt; !other_sort.fits(&values));
    let missing = Leaf::Ordered {
        relation: Relation::Within,
        dim: 2,
        low: i64::MIN,
        high: i64::MAX,
    };
    assert!(rt; !missing.fits(&values));
}
