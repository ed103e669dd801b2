//! Tests of the buffer that a part's code is emitted to, with enough memory: what each call adds, and the code it
//! makes.

use bb_basis::{Items, Text};
use bb_code::{
    Calculation, Code, Comparison, Division as OpDivision, Kind, Loop, Node, Op, OperandKind,
    Pattern, Query, Version,
};
use bb_compile_buffer::{
    Buffer, Loops, Ops, Texts, emit_atom, emit_binary, emit_division, emit_operator, emit_unary,
    emit_unit, emit_variable, finish,
};
use bb_compile_scope::{Part, Place};
use bb_lang::{Atom, Binary, Division, Operator, Unary, Variable};
use bb_schema::Schema;
use std::alloc::{AllocError, Global};
use std::test::Fail;

const START: Place = Place { line: 1, column: 1 };

// How many values the stack may have.
const ROOM: usize = 64;

// An empty buffer for the act of a source on class 1, whose unit is in local 0.
fn empty(alloc: Global) -> Result<Buffer, AllocError> {
    Buffer::new(alloc, Part::Do { class: 1 }, START)
}

#[test]
fn ops_and_loops(rt: HostRuntime) -> Result<(), Fail> {
    let mut ops = Ops::new(rt.alloc());
    ops.push(Op::Jump(0))?;
    assert_eq!(rt; ops.into_vec().as_slice(), [Op::Jump(0)].as_slice());
    let mut loops = Loops::new(rt.alloc());
    loops.begin(3)?;
    let begun = [Loop { head: 3, end: 3 }];
    assert_eq!(rt; loops.into_vec().as_slice(), begun.as_slice());
    Ok(())
}

#[test]
fn texts_with_their_indices(rt: HostRuntime) -> Result<(), Fail> {
    let mut texts = Texts::new(rt.alloc());
    texts.push("a")?;
    assert_eq!(rt; texts.index_of("a"), Some(0));
    let mut buffer = empty(rt.alloc())?;
    assert_eq!(rt; buffer.text("a")?, 0);
    assert_eq!(rt; buffer.text("b")?, 1);
    assert_eq!(rt; buffer.text("a")?, 0);
    Ok(())
}

// `it`, a name for a live unit, and a number.
#[test]
fn values(rt: HostRuntime) -> Result<(), Fail> {
    let schema = Schema::read(rt.alloc(), "{}")?;
    let name = Text::from_str(rt.alloc(), "one")?;
    let mut buffer = empty(rt.alloc())?;
    let it = emit_variable(&mut buffer, &Variable::It, ROOM)?;
    assert_eq!(rt; it, Some(Kind::Old(1)));
    buffer.declare(&name, Kind::Ref(1))?;
    let class = emit_unit(&mut buffer, &Variable::Named(name), ROOM)?;
    assert_eq!(rt; class, Some(1));
    let seven = emit_atom(&schema, &mut buffer, &Atom::Int(7), ROOM)?;
    assert_eq!(rt; seven, Some(Kind::Int));
    let ops = [Op::Load(0), Op::Store(1), Op::Load(1), Op::PushInt(7)];
    assert_eq!(rt; buffer.ops.into_vec().as_slice(), ops.as_slice());
    Ok(())
}

#[test]
fn operations(rt: HostRuntime) -> Result<(), Fail> {
    let mut buffer = empty(rt.alloc())?;
    let number = Some(Kind::Int);
    let truth = Some(Kind::Bool);
    assert_eq!(rt; emit_unary(&mut buffer, Unary::Not, truth)?, truth);
    assert_eq!(rt;
        emit_binary(&mut buffer, Binary::Less, number, number)?,
        truth
    );
    assert_eq!(rt;
        emit_operator(&mut buffer, Operator::Minus, number, number)?,
        number
    );
    assert_eq!(rt;
        emit_division(&mut buffer, Division::Quotient, 3, number)?,
        number
    );
    let ops = [
        Op::Not,
        Op::Compare(Comparison::Lt),
        Op::Calculate(Calculation::Sub),
        Op::Divide(OpDivision::DivBy, 3),
    ];
    assert_eq!(rt; buffer.ops.into_vec().as_slice(), ops.as_slice());
    assert_eq!(rt; buffer.flaw, None);
    Ok(())
}

// All units of class 1 in space 0.
fn query(alloc: Global) -> Query {
    Query {
        class: 1,
        space: 0,
        kinds: Items::<OperandKind>::new(alloc),
        pattern: Pattern::new(Node::All),
    }
}

// The first query, a loop at the first op and the local after that of the unit.
fn first_numbers(alloc: Global) -> Result<bool, Fail> {
    let mut buffer = empty(alloc)?;
    let query = buffer.ask(query(alloc))?;
    let head = buffer.begin_loop()?;
    let local = buffer.take_local(Kind::Int)?;
    Ok(query == 0 && head == 0 && local == 1)
}

// A label after the only op but `Done`, where local 1 has been taken.
fn laid_out(alloc: Global) -> Result<Code, Fail> {
    let mut buffer = empty(alloc)?;
    buffer.ask(query(alloc))?;
    buffer.begin_loop()?;
    buffer.take_local(Kind::Int)?;
    buffer.put_value(Op::PushBool(true), ROOM)?;
    buffer.label()?;
    buffer.put(Op::Done)?;
    Ok(finish(buffer, Version::One)?)
}

fn has_its_tables(code: &Code) -> bool {
    code.locals() == 2
        && code.loops() == [Loop { head: 0, end: 0 }].as_slice()
        && code.queries().len() == 1
}

// The frame of the label has both locals.
fn has_its_frame(code: &Code) -> bool {
    let [entry] = code.frames() else {
        return false;
    };
    let locals = entry.frame.locals.as_slice();
    entry.place == 1
        && locals == [Kind::Old(1), Kind::Int].as_slice()
        && entry.frame.stack.len() == 0
}

#[test]
fn the_code_of_a_buffer(rt: HostRuntime) -> Result<(), Fail> {
    assert!(rt; first_numbers(rt.alloc())?);
    let code = laid_out(rt.alloc())?;
    assert_eq!(rt; code.ops(), [Op::PushBool(true), Op::Done].as_slice());
    assert!(rt; has_its_tables(&code));
    assert!(rt; has_its_frame(&code));
    Ok(())
}
