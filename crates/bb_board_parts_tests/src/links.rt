//! Tests of links: what adding a link returns with enough memory, which slots have one partner, that an association
//! holds many pairs, and all of this against a plain list of pairs.

use bb_links::{Couples, Taken};
use bb_schema::{CoupleId, Schema, SlotId, UnitId};
use std::alloc::{AllocError, Global};
use std::fmt::Write;
use std::test::Fail;

// Slots 4 and 5 are `mate` and `mate_of`, 6 and 7 `parts` and `whole`, 8 and 9 `knows` and `known_by`.
const SCHEMA: &str = r#"{"classes":[{"name":"thing","links":[
{"name":"mate","to":"thing","many":false,"inverse":"mate_of"},
{"name":"mate_of","to":"thing","many":false,"inverse":"mate"},
{"name":"parts","to":"thing","many":true,"inverse":"whole"},
{"name":"whole","to":"thing","many":false,"inverse":"parts"},
{"name":"knows","to":"thing","many":true,"inverse":"known_by"},
{"name":"known_by","to":"thing","many":true,"inverse":"knows"}]}]}"#;

const MATE: CoupleId = 0;

const PARTS: CoupleId = 1;

const KNOWS: CoupleId = 2;

// What a link takes away and adds that changes nothing.
const NOTHING: Taken = Taken {
    first: None,
    second: None,
    added: false,
};

fn no_links(alloc: Global) -> Result<Couples, Fail> {
    let schema = Schema::read(alloc, SCHEMA)?;
    Ok(Couples::new(alloc, &schema)?)
}

// Links two units, where the couple is there.
fn link(couples: &mut Couples, couple: CoupleId, a: UnitId, b: UnitId) -> Result<Taken, Fail> {
    if couple as usize >= couples.count() {
        return Ok(NOTHING);
    }
    Ok(couples.link(couple, a, b)?)
}

// Whether two units are linked, and what a link would change, where the couple is there.
fn foreseen(couples: &Couples, couple: CoupleId, a: UnitId, b: UnitId) -> (bool, Taken) {
    if couple as usize >= couples.count() {
        return (false, NOTHING);
    }
    (couples.linked(couple, a, b), couples.taken(couple, a, b))
}

fn unlink(couples: &mut Couples, couple: CoupleId, a: UnitId, b: UnitId) -> bool {
    (couple as usize) < couples.count() && couples.unlink(couple, a, b)
}

// The links of units 1 to 8 by a slot.
fn shown(alloc: Global, couples: &Couples, slot: SlotId) -> Result<String, Fail> {
    let mut text = String::new(alloc);
    for unit in 1..9 {
        for partner in &couples.ends(alloc, unit, slot)? {
            write!(text, "{unit}-{partner} ")?;
        }
    }
    Ok(text)
}

// Couples with these pairs, which were added one after another.
fn linked(alloc: Global, couple: CoupleId, pairs: &[(UnitId, UnitId)]) -> Result<Couples, Fail> {
    let mut couples = no_links(alloc)?;
    for (a, b) in pairs {
        link(&mut couples, couple, *a, *b)?;
    }
    Ok(couples)
}

#[test]
fn link_displaces_both(rt: HostRuntime) -> Result<(), Fail> {
    let mut couples = linked(rt.alloc(), MATE, &[(1, 2), (3, 4)])?;
    let displaced = Taken {
        first: Some((1, 2)),
        second: Some((3, 4)),
        added: true,
    };
    assert_eq!(rt; foreseen(&couples, MATE, 1, 4), (false, displaced));
    assert_eq!(rt; link(&mut couples, MATE, 1, 4)?, displaced);
    assert_eq!(rt; foreseen(&couples, MATE, 1, 4), (true, NOTHING));
    let mates = shown(rt.alloc(), &couples, 4)?;
    assert_eq!(rt; mates.as_str(), "1-4 ");
    let inverse = shown(rt.alloc(), &couples, 5)?;
    assert_eq!(rt; inverse.as_str(), "4-1 ");
    Ok(())
}

#[test]
fn one_partner_by_any_slot(rt: HostRuntime) -> Result<(), Fail> {
    // The first of many partners, and none by a slot that is no link slot.
    let couples = linked(rt.alloc(), PARTS, &[(1, 3), (2, 4), (1, 2)])?;
    assert_eq!(rt; couples.one(1, 6), Some(3));
    let couples = linked(rt.alloc(), MATE, &[(1, 2)])?;
    assert_eq!(rt; couples.one(1, 0), None);
    assert_eq!(rt; couples.one(1, 10), None);
    Ok(())
}

// Links unit 1 to `times` others, and returns how many partners it has then.
fn partners_after(alloc: Global, times: u64) -> Result<usize, Fail> {
    let mut couples = no_links(alloc)?;
    for other in 0..times {
        link(&mut couples, KNOWS, 1, other)?;
    }
    Ok(couples.ends(alloc, 1, 8)?.len())
}

#[test]
fn many_pairs(rt: HostRuntime) -> Result<(), Fail> {
    assert_eq!(rt; partners_after(rt.alloc(), 110_000)?, 110_000);
    Ok(())
}

// The pairs of a couple as a plain list, changed as the definitions say.
#[derive(Drop)]
struct Plain {
    single_a: bool,
    single_b: bool,
    pairs: Vec<(UnitId, UnitId)>,
}

impl Plain {
    fn link(&mut self, a: UnitId, b: UnitId) -> Result<(), AllocError> {
        if self.pairs.iter().any(|pair| pair.0 == a && pair.1 == b) {
            return Ok(());
        }
        let (single_a, single_b) = (self.single_a, self.single_b);
        self.pairs.retain(|pair| !(single_a && pair.0 == a) && !(single_b && pair.1 == b));
        self.pairs.push((a, b))?;
        Ok(())
    }

    fn unlink(&mut self, a: UnitId, b: UnitId) {
        self.pairs.retain(|pair| pair.0 != a || pair.1 != b);
    }

    fn forget(&mut self, unit: UnitId) {
        self.pairs.retain(|pair| pair.0 != unit && pair.1 != unit);
    }

    // The links of units 1 to 8, from side B if it is `turned`, else from side A.
    fn shown(&self, alloc: Global, turned: bool) -> Result<String, Fail> {
        let mut text = String::new(alloc);
        for unit in 1..9 {
            for pair in &self.pairs {
                let (near, far) = seen(*pair, turned);
                if near == unit {
                    write!(text, "{unit}-{far} ")?;
                }
            }
        }
        Ok(text)
    }
}

// A pair with the unit at one side first.
fn seen(pair: (UnitId, UnitId), turned: bool) -> (UnitId, UnitId) {
    if turned {
        return (pair.1, pair.0);
    }
    pair
}

// Makes one change, chosen by a number, in couples and in a plain list.
fn change(
    couples: &mut Couples,
    plain: &mut Plain,
    couple: CoupleId,
    number: u64,
) -> Result<(), Fail> {
    let (a, b) = (1 + (number >> 40) % 8, 1 + (number >> 50) % 8);
    match (number >> 58) % 16 {
        0 => {
            couples.forget(a);
            plain.forget(a);
        }
        1..=4 => {
            unlink(couples, couple, a, b);
            plain.unlink(a, b);
        }
        _ => {
            link(couples, couple, a, b)?;
            plain.link(a, b)?;
        }
    }
    Ok(())
}

// Whether couples and a plain list have the same links by a slot.
fn are_same(
    alloc: Global,
    couples: &Couples,
    plain: &Plain,
    slot: SlotId,
    turned: bool,
) -> Result<bool, Fail> {
    let expected = plain.shown(alloc, turned)?;
    Ok(shown(alloc, couples, slot)?.as_str() == expected.as_str())
}

// Whether couples and a plain list agree, from both sides, after each of 2,000 changes, where `slot` is the couple's
// side A and the next one its side B.
fn agrees(alloc: Global, couple: CoupleId, slot: SlotId, plain: Plain) -> Result<bool, Fail> {
    let mut plain = plain;
    let mut couples = no_links(alloc)?;
    let mut seed: u64 = 1;
    for _ in 0..2_000 {
        seed = seed
            .wrapping_mul(6_364_136_223_846_793_005)
            .wrapping_add(1_442_695_040_888_963_407);
        change(&mut couples, &mut plain, couple, seed)?;
        if !are_same(alloc, &couples, &plain, slot, false)? {
            return Ok(false);
        }
        if !are_same(alloc, &couples, &plain, slot.wrapping_add(1), true)? {
            return Ok(false);
        }
    }
    Ok(true)
}

fn no_pairs(alloc: Global, single_a: bool, single_b: bool) -> Plain {
    Plain {
        single_a,
        single_b,
        pairs: Vec::new(alloc),
    }
}

#[test]
fn as_a_plain_list(rt: HostRuntime) -> Result<(), Fail> {
    assert!(rt; agrees(rt.alloc(), MATE, 4, no_pairs(rt.alloc(), true, true))?);
    assert!(rt; agrees(rt.alloc(), PARTS, 6, no_pairs(rt.alloc(), false, true))?);
    assert!(rt; agrees(rt.alloc(), KNOWS, 8, no_pairs(rt.alloc(), false, false))?);
    Ok(())
}
