//! The loops of a code, judged by a plain program that examines all of them again at each op. The verifier's verdict is
//! compared with it.

use bb_basis::{Items, Text};
use bb_code::{
    Code, CodeParts, Flaw, FrameEntry, LocalId, Loop, Op, Place, Query, VerifyFault, Version,
};
use bb_schema::Schema;
use bb_verify::{NESTING_LIMIT, Part, verify};
use std::alloc::Global;
use std::test::Fail;

fn holds(place: usize, l: Loop) -> bool {
    l.head as usize <= place && place < l.end as usize
}

fn depth(loops: &[Loop], place: usize) -> usize {
    loops.iter().filter(|l| holds(place, **l)).count()
}

// A loop with its head at the place is listed right after one whose head is not before it.
fn is_misplaced(loops: &[Loop], place: Place) -> bool {
    for next in 1..loops.len() {
        if loops[next].head == place && place <= loops[next - 1].head {
            return true;
        }
    }
    false
}

fn local_at(ops: &[Op], place: Place) -> Option<LocalId> {
    match ops.get(place as usize) {
        Some(Op::Next(local, _)) => Some(*local),
        _ => None,
    }
}

fn is_same_local(one: Option<LocalId>, other: Option<LocalId>) -> bool {
    one.is_some() && one == other
}

fn begins(ops: &[Op], l: Loop) -> bool {
    match ops.get(l.head as usize) {
        Some(Op::Next(_, end)) => *end == l.end,
        _ => false,
    }
}

fn ends(ops: &[Op], l: Loop) -> bool {
    if l.end == 0 {
        return false;
    }
    match ops.get(l.end as usize - 1) {
        Some(Op::Back(head)) => *head == l.head,
        _ => false,
    }
}

fn nests(ops: &[Op], outer: Loop, l: Loop) -> bool {
    if outer.head >= l.head || l.head >= outer.end {
        return true;
    }
    l.end <= outer.end && !is_same_local(local_at(ops, outer.head), local_at(ops, l.head))
}

fn is_right(ops: &[Op], loops: &[Loop], l: Loop) -> bool {
    for outer in loops {
        if !nests(ops, *outer, l) {
            return false;
        }
    }
    begins(ops, l) && ends(ops, l)
}

fn enters(loops: &[Loop], place: Place, target: Place) -> bool {
    for l in loops {
        if holds(target as usize, *l) && !holds(place as usize, *l) {
            return true;
        }
    }
    false
}

fn stores_around(ops: &[Op], loops: &[Loop], place: Place, local: LocalId) -> bool {
    for l in loops {
        if holds(place as usize, *l) && local_at(ops, l.head) == Some(local) {
            return true;
        }
    }
    false
}

fn is_op_right(ops: &[Op], loops: &[Loop], place: Place) -> bool {
    match ops.get(place as usize) {
        Some(Op::Next(_, _)) => loops.iter().any(|l| l.head == place),
        Some(Op::Back(_)) => loops.iter().any(|l| l.end as usize == place as usize + 1),
        Some(Op::Store(local)) => !stores_around(ops, loops, place, *local),
        Some(Op::Jump(target)) => !enters(loops, place, *target),
        Some(Op::Unless(target)) => !enters(loops, place, *target),
        Some(Op::Alive(target)) => !enters(loops, place, *target),
        _ => true,
    }
}

fn is_place_right(ops: &[Op], loops: &[Loop], place: Place) -> bool {
    for l in loops {
        if l.head == place && !is_right(ops, loops, *l) {
            return false;
        }
    }
    !is_misplaced(loops, place)
        && depth(loops, place as usize) <= NESTING_LIMIT
        && is_op_right(ops, loops, place)
}

// The first place at which the loops are not in order, or else the lowest head outside the code.
fn first_fault(ops: &[Op], loops: &[Loop]) -> Option<Place> {
    let count = u16::try_from(ops.len()).unwrap_or(0);
    for place in 0..count {
        if !is_place_right(ops, loops, place) {
            return Some(place);
        }
    }
    loops.iter().map(|l| l.head).filter(|h| *h >= count).min()
}

fn made(alloc: Global, ops: &[Op], loops: &[Loop]) -> Result<Code, Fail> {
    let texts: Vec<Text> = Vec::new(alloc);
    let queries: Vec<Query> = Vec::new(alloc);
    let frames: Vec<FrameEntry> = Vec::new(alloc);
    let code = Code::new(CodeParts {
        version: Version::One,
        locals: 4,
        texts: Items::from(texts),
        queries: Items::from(queries),
        frames: Items::from(frames),
        loops: Items::from(loops.to_vec(alloc)?),
        ops: Items::from(ops.to_vec(alloc)?),
    });
    Ok(code.ok_or("the parts are within their limits")?)
}

// Where the verifier finds loops that are not in order; `None` where the jumps are not.
fn found(
    alloc: Global,
    schema: &Schema,
    ops: &[Op],
    loops: &[Loop],
) -> Result<Option<Option<Place>>, Fail> {
    match verify(
        alloc,
        schema,
        Part::Do { class: 0 },
        made(alloc, ops, loops)?,
    ) {
        Err(
            VerifyFault {
                flaw: Flaw::Jump,
                ..
            },
        ) => Ok(None),
        Err(
            VerifyFault {
                place,
                flaw: Flaw::Loop,
            },
        ) => Ok(Some(Some(place))),
        _ => Ok(Some(None)),
    }
}

const OPS: [Op; 16] = [
    Op::Jump(1),
    Op::Pop,
    Op::Next(0, 12),
    Op::Pop,
    Op::Next(1, 9),
    Op::Next(2, 8),
    Op::Store(3),
    Op::Back(5),
    Op::Back(4),
    Op::Unless(11),
    Op::Pop,
    Op::Back(2),
    Op::Next(0, 15),
    Op::Alive(14),
    Op::Back(12),
    Op::Done,
];

// The first four are those of `OPS`.
const LOOPS: [Loop; 6] = [
    Loop { head: 2, end: 12 },
    Loop { head: 4, end: 9 },
    Loop { head: 5, end: 8 },
    Loop { head: 12, end: 15 },
    Loop { head: 17, end: 18 },
    Loop { head: 16, end: 3 },
];

// Another op.
fn changed_op(seed: u32) -> Op {
    let place = ((seed >> 17) % 18) as u16;
    let local = ((seed >> 22) % 4) as u8;
    match (seed >> 8) % 4 {
        0 => Op::Jump(place),
        1 => Op::Next(local, place),
        2 => Op::Back(place),
        _ => Op::Store(local),
    }
}

// A loop with another head or another end.
fn changed_loop(seed: u32, l: Loop) -> Loop {
    let place = ((seed >> 17) % 18) as u16;
    if (seed >> 8) % 2 == 0 {
        return Loop {
            head: place,
            end: l.end,
        };
    }
    Loop {
        head: l.head,
        end: place,
    }
}

fn change_op(seed: u32, ops: &mut [Op]) {
    let at = (seed >> 12) as usize % 16;
    if at < ops.len() {
        ops[at] = changed_op(seed);
    }
}

fn change_loop(seed: u32, loops: &mut [Loop]) {
    let at = (seed >> 25) as usize % 6;
    if at < loops.len() {
        loops[at] = changed_loop(seed, loops[at]);
    }
}

fn swap_loops(seed: u32, loops: &mut [Loop]) {
    let one = (seed >> 12) as usize % 6;
    let other = (seed >> 25) as usize % 6;
    if one < loops.len() && other < loops.len() {
        loops.swap(one, other);
    }
}

// One of the ops or one of the loops is another, or two loops change places.
fn change(seed: u32, ops: &mut [Op], loops: &mut [Loop]) {
    match (seed >> 10) % 7 {
        0..=3 => change_op(seed, ops),
        4 | 5 => change_loop(seed, loops),
        _ => swap_loops(seed, loops),
    }
}

fn next_seed(seed: u32) -> u32 {
    seed.wrapping_mul(1_664_525).wrapping_add(1_013_904_223)
}

#[test]
fn as_the_plain_program(rt: HostRuntime) -> Result<(), Fail> {
    let schema = Schema::read(rt.alloc(), "{}")?;
    let mut seed = 1;
    for round in 0..4_000 {
        let mut ops = OPS;
        let mut loops = LOOPS;
        for _ in 0..round % 4 {
            seed = next_seed(seed);
            change(seed, &mut ops, &mut loops);
        }
        let few = &loops[..4 + (round / 4) % 3];
        if let Some(place) = found(rt.alloc(), &schema, &ops, few)? {
            assert_eq!(rt; place, first_fault(&ops, few));
        }
    }
    Ok(())
}
