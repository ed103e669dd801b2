//! Tests of codes: their bytes with enough memory, every byte with every value, and the limits of codes that are made.

use bb_basis::{Items, Text};
use bb_code::{
    Code, CodeFault, CodeParts, Division, Frame, FrameEntry, Kind, Kinds, Node, Op, OperandKind,
    Pattern, Query, Version, one_spelling,
};
use std::alloc::Global;
use std::test::Fail;

// One text, "hello", and three ops: PushText 0, Say 1, Done.
const FIRST: [u8; 28] = [
    0x42, 0x42, 0x43, 0x01, 0x01, 0x00, 0x01, 0x00, 0x05, 0x68, 0x65, 0x6c, 0x6c, 0x6f, 0x00, 0x00,
    0x00, 0x00, 0x00, 0x00, 0x00, 0x03, 0x02, 0x00, 0x00, 0x29, 0x01, 0x2e,
];

// Two locals, the text "hi", a query with each node of patterns, a frame with each kind, two loops.
const TABLES: [u8; 71] = [
    0x42, 0x42, 0x43, 0x01, 0x02, // two locals
    0x00, 0x01, 0x00, 0x02, 0x68, 0x69, // one text
    0x00, 0x01, 0x00, 0x01, 0x00, 0x02, // one query: class 1 in space 2
    0x02, 0x00, 0x01, 0x00, 0x03, // two operands: an interval, a label of set 3
    0x01, 0x09, // and, with nine parts
    0x00, // all
    0x02, 0x00, // or, without parts
    0x03, 0x00, // not all
    0x04, 0x00, 0x00, 0x05, 0x00, 0x00, 0x06, 0x01, 0x00, // within, covers, overlaps
    0x07, 0x00, 0x00, 0x08, 0x02, 0x00, 0x09, 0x03, 0x01, // less, more, is
    0x00, 0x01, 0x00, 0x05, // one frame, at place 5
    0x00, 0x08, 0x00, 0x07, // locals: Any, Seq 7
    0x07, 0x01, 0x02, 0x03, 0x04, 0x00, 0x02, // stack: Int, Text, Bool, Label 2,
    0x05, 0x06, 0x00, 0x01, 0x07, 0x01, 0x00, // Interval, Ref 1, Old 256
    0x00, 0x02, // two loops
];

// The loops from 10 to 20 and from 12 to 300, and the number of all ops.
const LOOPS: [u8; 10] = [0x00, 0x0a, 0x00, 0x14, 0x00, 0x0c, 0x01, 0x2c, 0x00, 0x31];

// Each op, in the order of their numbers.
const OPS: [u8; 119] = [
    0x01, 0xff, 0xff, 0xff, 0xff, 0xff, 0xff, 0xff, 0xfe, // PushInt -2
    0x02, 0x00, 0x00, // PushText 0
    0x03, 0x01, // PushBool true
    0x04, 0x00, 0x03, 0x02, // PushLabel 3, 2
    0x05, 0x01, 0x06, 0x00, // Load 1, Store 0
    0x07, 0x08, 0x09, 0x0a, // Pop, Add, Sub, Mul
    0x0b, 0x00, 0x00, 0x00, 0x00, 0x00, 0x00, 0x00, 0x03, // DivBy 3
    0x0c, 0x7f, 0xff, 0xff, 0xff, 0xff, 0xff, 0xff, 0xff, // ModBy 2^63 - 1
    0x0d, 0x0e, 0x0f, 0x10, 0x11, // Min, Max, Lt, Le, EqInt
    0x12, 0x13, 0x14, 0x15, // EqText, EqLabel, EqUnit, Not
    0x16, 0x17, 0x18, 0x19, 0x1a, // And, Or, MakeInterval, Low, High
    0x1b, 0x01, 0x02, // Get 258
    0x1c, 0x00, 0x04, 0x00, 0x20, // One 4, 32
    0x1d, 0x00, 0x04, // Links 4
    0x1e, 0x00, 0x00, // Find 0
    0x1f, // Size
    0x20, 0x00, 0x21, // Alive 33
    0x21, 0x00, 0x02, 0x00, 0x22, // As 2, 34
    0x22, 0x00, 0x02, 0x23, 0x00, 0x05, // New 2, Set 5
    0x24, 0x00, 0x06, 0x25, 0x00, 0x07, // Link 6, Unlink 7
    0x26, 0x00, 0x01, 0x27, 0x00, 0x02, // Enter 1, Leave 2
    0x28, // Delete
    0x29, 0x10, // Say 16
    0x2a, 0x00, 0x2b, 0x2b, 0x00, 0x2c, // Jump 43, Unless 44
    0x2c, 0x01, 0x00, 0x2d, // Next 1, 45
    0x2d, 0x00, 0x0a, // Back 10
    0x2e, 0x2f, 0x30, 0x31, // Done, Rate, Decline, Answer
];

// The bytes of a code with each kind of everything.
fn full(alloc: Global) -> Result<Vec<u8>, Fail> {
    let mut bytes = TABLES.to_vec(alloc)?;
    bytes.extend_from_slice(&LOOPS)?;
    bytes.extend_from_slice(&OPS)?;
    Ok(bytes)
}

#[test]
fn first_code(rt: HostRuntime) -> Result<(), Fail> {
    let code = Code::decode(rt.alloc(), &FIRST)?;
    assert_eq!(rt; code.version(), Version::One);
    assert_eq!(rt; code.locals(), 1);
    assert_eq!(rt; code.texts().len(), 1);
    for text in code.texts() {
        assert_eq!(rt; text.as_str(), "hello");
    }
    assert_eq!(rt; code.queries().len(), 0);
    assert_eq!(rt; code.frames().len(), 0);
    assert_eq!(rt; code.loops().len(), 0);
    assert_eq!(rt;
        code.ops(),
        [Op::PushText(0), Op::Say(1), Op::Done].as_slice()
    );
    assert_eq!(rt; code.encode(rt.alloc())?.as_slice(), FIRST.as_slice());
    Ok(())
}

// Whether bytes are refused for what they are, or spell the code that they are read as.
fn is_answered(alloc: Global, bytes: &[u8]) -> Result<bool, Fail> {
    match Code::decode(alloc, bytes) {
        Ok(code) => Ok(code.encode(alloc)?.as_slice() == bytes),
        Err(fault) => Ok(fault != CodeFault::Memory),
    }
}

// The first byte that is answered wrongly at a place of a code.
fn wrong_byte(alloc: Global, bytes: &[u8], place: usize) -> Result<Option<u8>, Fail> {
    let mut other = bytes.to_vec(alloc)?;
    for byte in 0..=255u8 {
        if place < other.len() {
            other[place] = byte;
        }
        if !is_answered(alloc, &other)? {
            return Ok(Some(byte));
        }
    }
    Ok(None)
}

#[test]
fn each_byte_of_the_full_code(rt: HostRuntime) -> Result<(), Fail> {
    let bytes = full(rt.alloc())?;
    for place in 0..bytes.len() {
        assert_eq!(rt; wrong_byte(rt.alloc(), &bytes, place)?, None, "at {place}");
        let front = Code::decode(rt.alloc(), &bytes[..place]).err();
        assert_eq!(rt; front, Some(CodeFault::Short), "at {place}");
    }
    Ok(())
}

// Parts of a code with `locals` locals, and these ops.
fn parts(alloc: Global, locals: u8, ops: Vec<Op>) -> CodeParts {
    CodeParts {
        version: Version::One,
        locals,
        texts: Items::new(alloc),
        queries: Items::new(alloc),
        frames: Items::new(alloc),
        loops: Items::new(alloc),
        ops: Items::from(ops),
    }
}

#[test]
fn made_code(rt: HostRuntime) -> Result<(), Fail> {
    let ops = vec![in rt.alloc(); Op::PushText(0), Op::Say(1), Op::Done]?;
    let mut first = parts(rt.alloc(), 1, ops);
    first.texts.push(Text::from_str(rt.alloc(), "hello")?)?;
    let code = Code::new(first).ok_or("the parts are within their limits")?;
    assert_eq!(rt; code.encode(rt.alloc())?.as_slice(), FIRST.as_slice());
    Ok(())
}

// Whether a code can have `locals` locals, and this op `count` times.
fn takes_ops(alloc: Global, locals: u8, count: usize, op: Op) -> Result<bool, Fail> {
    let mut ops = Vec::new(alloc);
    for _ in 0..count {
        ops.push(op)?;
    }
    Ok(Code::new(parts(alloc, locals, ops)).is_some())
}

#[test]
fn limits_of_ops(rt: HostRuntime) -> Result<(), Fail> {
    let table = [
        (1, 1, Op::Done, true),
        (32, 4096, Op::Done, true),
        (0, 1, Op::Done, false),
        (33, 1, Op::Done, false),
        (1, 0, Op::Done, false),
        (1, 4097, Op::Done, false),
        (1, 1, Op::Say(16), true),
        (1, 1, Op::Say(17), false),
        (1, 1, Op::Divide(Division::DivBy, 1), true),
        (1, 1, Op::Divide(Division::DivBy, 0), false),
        (1, 1, Op::Divide(Division::ModBy, -1), false),
    ];
    for (locals, count, op, taken) in table {
        let found = takes_ops(rt.alloc(), locals, count, op)?;
        assert_eq!(rt; found, taken, "{count} ops, {locals} locals");
    }
    Ok(())
}

// Whether a frame with `locals` kinds of locals and `stack` of the stack can stand in a code with two locals.
fn takes_frame(alloc: Global, locals: usize, stack: usize) -> Result<bool, Fail> {
    let ops = vec![in alloc; Op::Done]?;
    let mut made = parts(alloc, 2, ops);
    let mut frame = Frame {
        locals: Kinds::new(alloc),
        stack: Kinds::new(alloc),
    };
    for _ in 0..locals {
        frame.locals.push(Kind::Any)?;
    }
    for _ in 0..stack {
        frame.stack.push(Kind::Int)?;
    }
    made.frames.push(FrameEntry { place: 0, frame })?;
    Ok(Code::new(made).is_some())
}

// Whether a query with `operands` operands and this pattern can stand in a code.
fn takes_query(alloc: Global, operands: usize, pattern: Pattern) -> Result<bool, Fail> {
    let ops = vec![in alloc; Op::Done]?;
    let mut made = parts(alloc, 1, ops);
    let mut kinds = Items::new(alloc);
    for _ in 0..operands {
        kinds.push(OperandKind::Interval)?;
    }
    made.queries.push(Query {
        class: 0,
        space: 0,
        kinds,
        pattern,
    })?;
    Ok(Code::new(made).is_some())
}

// An `And` of `count` parts, each of which is `All`.
fn wide(alloc: Global, count: usize) -> Result<Pattern, Fail> {
    let mut parts = Vec::new(alloc);
    for _ in 0..count {
        parts.push(Pattern::new(Node::All))?;
    }
    Ok(Pattern::new(Node::And(parts)))
}

#[test]
fn limits_of_frames(rt: HostRuntime) -> Result<(), Fail> {
    for (locals, stack, taken) in [(2, 64, true), (2, 65, false), (1, 0, false), (3, 0, false)] {
        let found = takes_frame(rt.alloc(), locals, stack)?;
        assert_eq!(rt; found, taken, "{locals} locals");
    }
    Ok(())
}

#[test]
fn limits_of_queries(rt: HostRuntime) -> Result<(), Fail> {
    for (operands, parts, taken) in [(16, 63, true), (17, 63, false), (16, 64, false)] {
        let pattern = wide(rt.alloc(), parts)?;
        let found = takes_query(rt.alloc(), operands, pattern)?;
        assert_eq!(rt; found, taken, "{operands} operands");
    }
    Ok(())
}

#[test]
fn numbers_of_code_faults(rt: HostRuntime) {
    let faults = [
        CodeFault::Magic,
        CodeFault::Version,
        CodeFault::Short,
        CodeFault::Opcode,
        CodeFault::Operand,
        CodeFault::Limit,
        CodeFault::Trailing,
        CodeFault::Memory,
    ];
    let mut number = 0;
    for fault in faults {
        if number < 8 {
            number += 1;
        }
        assert_eq!(rt; fault.number(), number);
    }
    one_spelling();
}
