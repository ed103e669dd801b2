//! Encoding of codes as bytes. Code that writes bundles (bb_bundle) calls `encode`.

ghost use Rattle.std.specs.Prelude.{◌≡◌, ◌∷◌, ◌++◌, ◌<◌, ◌^◌, length, All, OnOk, IfOk};
ghost use Rattle.std.specs.List.{flat_map};
ghost use Rattle.bb_pattern.specs.Trees.{node_count, nodes_count};
ghost use Rattle.bb_pattern.specs.View.{trees_of};
ghost use Rattle.bb_code.specs.Spelling.{two_bytes, eight_bytes, listed, short_listed, part_count, tree_bytes};
ghost use Rattle.bb_code.specs.Spelling.{trees_bytes, relation_byte, operand_bytes, version_byte, spelling};

use crate::code::Code;
use crate::frame::{FrameEntry, Kind, Loop};
use crate::op::Op;
use crate::table::opcode;
use crate::version::Version;
use crate::{Node, OperandKind, Pattern, Query, Relation};
use bb_basis::Text;
use std::alloc::{AllocError, Global};

// A value that can be an item of a list.
trait Spelled: Sized {
    ghost use Rattle.std.specs.Prelude.{List, ℕ, ◌≡◌, ◌++◌, OnOk};

    /// The bytes that spell the value.
    ghost bytes: { Self → List ℕ };

    /// The condition that a value must meet to be spelled as `bytes`.
    ghost Fits: { Self → Type 0 };

    // Appends the bytes of the value.
    fn put(&self, out: &mut Vec<u8>) -> Result<(), AllocError>
        requires { Fits self.now }
        ensures { OnOk result (out.new.items ≡ out.old.items ++ bytes self.now) };
}

fn put_each<S: Spelled>(out: &mut Vec<u8>, items: &[S]) -> Result<(), AllocError>
    requires { All S.Fits items.now }
    ensures { OnOk result (out.new.items ≡ out.old.items ++ flat_map S.bytes items.now) }
{
    for item in items {
        item.put(out)?;
    }
    Ok(())
}

fn put_list<S: Spelled>(out: &mut Vec<u8>, items: &[S]) -> Result<(), AllocError>
    requires few { length items.now < 2 ^ 16 }
    requires each { All S.Fits items.now }
    ensures { OnOk result (out.new.items ≡ out.old.items ++ listed S.bytes items.now) }
{
    put_number(out, items.len() as u16)?;
    put_each(out, items)
}

fn put_short_list<S: Spelled>(out: &mut Vec<u8>, items: &[S]) -> Result<(), AllocError>
    requires few { length items.now < 2 ^ 8 }
    requires each { All S.Fits items.now }
    ensures { OnOk result (out.new.items ≡ out.old.items ++ short_listed S.bytes items.now) }
{
    out.push(items.len() as u8)?;
    put_each(out, items)
}

fn put_number(out: &mut Vec<u8>, number: u16) -> Result<(), AllocError>
    ensures { OnOk result (out.new.items ≡ out.old.items ++ two_bytes number) }
{
    out.extend_from_slice(&number.to_be_bytes())
}

fn put_int(out: &mut Vec<u8>, number: i64) -> Result<(), AllocError>
    ensures { OnOk result (out.new.items ≡ out.old.items ++ eight_bytes number) }
{
    out.extend_from_slice(&number.cast_unsigned().to_be_bytes())
}

// Appends a byte and then a number.
fn put_tagged(out: &mut Vec<u8>, tag: u8, number: u16) -> Result<(), AllocError>
    ensures { OnOk result (out.new.items ≡ out.old.items ++ tag ∷ two_bytes number) }
{
    out.push(tag)?;
    put_number(out, number)
}

impl Spelled for Text {
    ghost use Rattle.std.specs.Prelude.{length, ◌<◌, ◌^◌};
    ghost use Rattle.bb_code.specs.Spelling.{text_bytes};

    ghost bytes = { text_bytes };

    ghost Fits = { λ text. length text < 2 ^ 16 };

    fn put(&self, out: &mut Vec<u8>) -> Result<(), AllocError> {
        put_number(out, self.len() as u16)?;
        out.extend_from_slice(self.as_str().as_bytes())
    }
}

impl Spelled for OperandKind {
    ghost use Rattle.bb_code.specs.Spelling.{operand_kind_bytes};

    ghost bytes = { operand_kind_bytes };

    ghost Fits = { λ kind. Unit {0} };

    fn put(&self, out: &mut Vec<u8>) -> Result<(), AllocError> {
        match *self {
            OperandKind::Interval => Ok(out.push(0)?),
            OperandKind::Label(set) => put_tagged(out, 1, set),
        }
    }
}

fn relation_byte(relation: Relation) -> u8
    ensures { result ≡ relation_byte relation }
{
    match relation {
        Relation::Within => 4,
        Relation::Covers => 5,
        Relation::Overlaps => 6,
        Relation::Less => 7,
        Relation::More => 8,
    }
}

#[cycle(putting)]
fn put_pattern(out: &mut Vec<u8>, pattern: &Pattern) -> Result<(), AllocError>
    requires { node_count pattern.now < 2 ^ 8 }
    ensures { OnOk result (out.new.items ≡ out.old.items ++ tree_bytes pattern.now) }
{
    match pattern.node() {
        Node::All => Ok(out.push(0)?),
        Node::And(parts) => put_parts(out, 1, parts.as_slice()),
        Node::Or(parts) => put_parts(out, 2, parts.as_slice()),
        Node::Not(part) => {
            out.push(3)?;
            put_pattern(out, part)
        }
        Node::Ordered {
            relation,
            dim,
            operand,
        } => out.extend_from_slice(&[relation_byte(*relation), *dim, *operand]),
        Node::Is { dim, operand } => out.extend_from_slice(&[9, *dim, *operand]),
    }
}

// Appends the byte of a node, the number of its parts, and the parts.
#[cycle(putting)]
fn put_parts(out: &mut Vec<u8>, tag: u8, parts: &[Pattern]) -> Result<(), AllocError>
    requires { nodes_count (trees_of parts.now) < 2 ^ 8 }
    ensures { OnOk result (out.new.items ≡ out.old.items
        ++ tag ∷ part_count (trees_of parts.now) ∷ trees_bytes (trees_of parts.now)) }
{
    out.extend_from_slice(&[tag, parts.len() as u8])?;
    for part in parts {
        put_pattern(out, part)?;
    }
    Ok(())
}

impl Spelled for Query {
    ghost use Rattle.bb_code.specs.Code.{IsQuery};
    ghost use Rattle.bb_code.specs.Spelling.{query_bytes};

    ghost bytes = { query_bytes };

    ghost Fits = { IsQuery };

    fn put(&self, out: &mut Vec<u8>) -> Result<(), AllocError> {
        put_number(out, self.class)?;
        put_number(out, self.space)?;
        put_short_list(out, self.kinds.as_slice())?;
        put_pattern(out, &self.pattern)
    }
}

impl Spelled for Kind {
    ghost use Rattle.bb_code.specs.Spelling.{kind_bytes};

    ghost bytes = { kind_bytes };

    ghost Fits = { λ kind. Unit {0} };

    fn put(&self, out: &mut Vec<u8>) -> Result<(), AllocError> {
        match *self {
            Kind::Any => Ok(out.push(0)?),
            Kind::Int => Ok(out.push(1)?),
            Kind::Text => Ok(out.push(2)?),
            Kind::Bool => Ok(out.push(3)?),
            Kind::Label(set) => put_tagged(out, 4, set),
            Kind::Interval => Ok(out.push(5)?),
            Kind::Ref(class) => put_tagged(out, 6, class),
            Kind::Old(class) => put_tagged(out, 7, class),
            Kind::Seq(class) => put_tagged(out, 8, class),
        }
    }
}

impl Spelled for FrameEntry {
    ghost use Rattle.std.specs.Prelude.{length, ◌<◌, ◌^◌};
    ghost use Rattle.bb_code.specs.Spelling.{frame_bytes};

    ghost bytes = { frame_bytes };

    ghost Fits = { λ f. length f.frame.stack < 2 ^ 8 };

    fn put(&self, out: &mut Vec<u8>) -> Result<(), AllocError> {
        put_number(out, self.place)?;
        put_each(out, self.frame.locals.as_slice())?;
        put_short_list(out, self.frame.stack.as_slice())
    }
}

impl Spelled for Loop {
    ghost use Rattle.bb_code.specs.Spelling.{loop_bytes};

    ghost bytes = { loop_bytes };

    ghost Fits = { λ l. Unit {0} };

    fn put(&self, out: &mut Vec<u8>) -> Result<(), AllocError> {
        put_number(out, self.head)?;
        put_number(out, self.end)
    }
}

// Appends what follows the opcode of an op.
fn put_operands(out: &mut Vec<u8>, op: Op) -> Result<(), AllocError>
    ensures { OnOk result (out.new.items ≡ out.old.items ++ operand_bytes op) }
{
    match op {
        Op::PushInt(number) => put_int(out, number),
        Op::PushBool(value) => Ok(out.push(value as u8)?),
        Op::PushLabel(set, label) => {
            put_number(out, set)?;
            Ok(out.push(label)?)
        }
        Op::Load(local) | Op::Store(local) => Ok(out.push(local)?),
        Op::Divide(_, by) => put_int(out, by),
        Op::One(number, place) | Op::As(number, place) => {
            put_number(out, number)?;
            put_number(out, place)
        }
        Op::Say(count) => Ok(out.push(count)?),
        Op::Next(local, place) => put_tagged(out, local, place),
        Op::PushText(number)
        | Op::Get(number)
        | Op::Links(number)
        | Op::Find(number)
        | Op::Alive(number)
        | Op::New(number)
        | Op::Set(number)
        | Op::Relink(_, number)
        | Op::Enter(number)
        | Op::Leave(number)
        | Op::Jump(number)
        | Op::Unless(number)
        | Op::Back(number) => put_number(out, number),
        _ => Ok(()),
    }
}

impl Spelled for Op {
    ghost use Rattle.bb_code.specs.Spelling.{op_bytes};

    ghost bytes = { op_bytes };

    ghost Fits = { λ op. Unit {0} };

    fn put(&self, out: &mut Vec<u8>) -> Result<(), AllocError> {
        out.push(opcode(*self))?;
        put_operands(out, *self)
    }
}

fn version_byte(version: Version) -> u8
    ensures { result ≡ version_byte version }
{
    match version {
        Version::One => 1,
        Version::Two => 2,
    }
}

impl Code {
    /// Returns the bytes that spell the code. `Code::decode` reads them again.
    pub fn encode(&self, alloc: Global) -> Result<Vec<u8>, AllocError>
        ensures { IfOk result (λ bytes. bytes.items ≡ spelling self.now) }
    {
        let mut out = Vec::new(alloc);
        out.extend_from_slice(b"BBC")?;
        out.push(version_byte(self.version()))?;
        out.push(self.locals())?;
        put_list(&mut out, self.texts())?;
        put_list(&mut out, self.queries())?;
        put_list(&mut out, self.frames())?;
        put_list(&mut out, self.loops())?;
        put_list(&mut out, self.ops())?;
        Ok(out)
    }
}
