//! The bytes of ops, kinds and nodes of patterns: the number of each, and what follows it. Decoding, encoding and the
//! definitions of both use these tables.

ghost use Rattle.std.specs.Prelude.{◌≡◌, slice_get};
ghost use Rattle.std.specs.Option.{option_and_then};
ghost use Rattle.bb_code.specs.Spelling.{opcode};
ghost use Rattle.bb_code.specs.Ops.{op_form, with_number, with_local, with_pair};

use crate::Relation;
use crate::frame::Kind;
use crate::op::{Bound, Calculation, Comparison, Division, LinkChange, LocalId, Logic, Op, Place};

/// The ops with one number of two bytes.
#[derive(Clone, Copy)]
pub(crate) enum Numbered {
    PushText,
    Get,
    Links,
    Find,
    Alive,
    New,
    Set,
    Relink(LinkChange),
    Enter,
    Leave,
    Jump,
    Unless,
    Back,
}

/// The ops with one local.
#[derive(Clone, Copy)]
pub(crate) enum OfLocal {
    Load,
    Store,
}

/// The ops with a number of two bytes and an op index.
#[derive(Clone, Copy)]
pub(crate) enum Branch {
    One,
    As,
}

/// What follows an opcode, and which op it is.
#[derive(Clone, Copy)]
pub(crate) enum OpForm {
    /// Nothing: this op.
    Plain(Op),
    /// One number of two bytes.
    Number(Numbered),
    /// One local.
    Local(OfLocal),
    /// A number of two bytes and an op index.
    Branch(Branch),
    /// A number of eight bytes that is pushed.
    Int,
    /// A truth value that is pushed.
    Bool,
    /// A label set and a label that are pushed.
    Label,
    /// A divisor.
    Divisor(Division),
    /// The number of values that are said.
    Count,
    /// A local and an op index.
    Next,
}

/// The op of each opcode. 0 is not an opcode.
pub(crate) const OPS: [Option<OpForm>; 50] = [
    None,
    Some(OpForm::Int),
    Some(OpForm::Number(Numbered::PushText)),
    Some(OpForm::Bool),
    Some(OpForm::Label),
    Some(OpForm::Local(OfLocal::Load)),
    Some(OpForm::Local(OfLocal::Store)),
    Some(OpForm::Plain(Op::Pop)),
    Some(OpForm::Plain(Op::Calculate(Calculation::Add))),
    Some(OpForm::Plain(Op::Calculate(Calculation::Sub))),
    Some(OpForm::Plain(Op::Calculate(Calculation::Mul))),
    Some(OpForm::Divisor(Division::DivBy)),
    Some(OpForm::Divisor(Division::ModBy)),
    Some(OpForm::Plain(Op::Calculate(Calculation::Min))),
    Some(OpForm::Plain(Op::Calculate(Calculation::Max))),
    Some(OpForm::Plain(Op::Compare(Comparison::Lt))),
    Some(OpForm::Plain(Op::Compare(Comparison::Le))),
    Some(OpForm::Plain(Op::Compare(Comparison::EqInt))),
    Some(OpForm::Plain(Op::EqText)),
    Some(OpForm::Plain(Op::EqLabel)),
    Some(OpForm::Plain(Op::EqUnit)),
    Some(OpForm::Plain(Op::Not)),
    Some(OpForm::Plain(Op::Combine(Logic::And))),
    Some(OpForm::Plain(Op::Combine(Logic::Or))),
    Some(OpForm::Plain(Op::MakeInterval)),
    Some(OpForm::Plain(Op::BoundOf(Bound::Low))),
    Some(OpForm::Plain(Op::BoundOf(Bound::High))),
    Some(OpForm::Number(Numbered::Get)),
    Some(OpForm::Branch(Branch::One)),
    Some(OpForm::Number(Numbered::Links)),
    Some(OpForm::Number(Numbered::Find)),
    Some(OpForm::Plain(Op::Size)),
    Some(OpForm::Number(Numbered::Alive)),
    Some(OpForm::Branch(Branch::As)),
    Some(OpForm::Number(Numbered::New)),
    Some(OpForm::Number(Numbered::Set)),
    Some(OpForm::Number(Numbered::Relink(LinkChange::Link))),
    Some(OpForm::Number(Numbered::Relink(LinkChange::Unlink))),
    Some(OpForm::Number(Numbered::Enter)),
    Some(OpForm::Number(Numbered::Leave)),
    Some(OpForm::Plain(Op::Delete)),
    Some(OpForm::Count),
    Some(OpForm::Number(Numbered::Jump)),
    Some(OpForm::Number(Numbered::Unless)),
    Some(OpForm::Next),
    Some(OpForm::Number(Numbered::Back)),
    Some(OpForm::Plain(Op::Done)),
    Some(OpForm::Plain(Op::Rate)),
    Some(OpForm::Plain(Op::Decline)),
    Some(OpForm::Plain(Op::Answer)),
];

/// What follows the byte of a kind, and which kind it is.
#[derive(Clone, Copy)]
pub(crate) enum KindForm {
    /// Nothing: this kind.
    Plain(Kind),
    /// A label set.
    Label,
    /// A class.
    Ref,
    /// A class.
    Old,
    /// A class.
    Seq,
}

/// The kind of each byte.
pub(crate) const KINDS: [KindForm; 9] = [
    KindForm::Plain(Kind::Any),
    KindForm::Plain(Kind::Int),
    KindForm::Plain(Kind::Text),
    KindForm::Plain(Kind::Bool),
    KindForm::Label,
    KindForm::Plain(Kind::Interval),
    KindForm::Ref,
    KindForm::Old,
    KindForm::Seq,
];

/// What follows the byte of a node, and which node it is.
#[derive(Clone, Copy)]
pub(crate) enum NodeForm {
    /// Nothing.
    All,
    /// The number of parts, and the parts.
    And,
    /// The number of parts, and the parts.
    Or,
    /// The part.
    Not,
    /// A dimension and an operand.
    Ordered(Relation),
    /// A dimension and an operand.
    Is,
}

/// The node of each byte.
pub(crate) const NODES: [NodeForm; 10] = [
    NodeForm::All,
    NodeForm::And,
    NodeForm::Or,
    NodeForm::Not,
    NodeForm::Ordered(Relation::Within),
    NodeForm::Ordered(Relation::Covers),
    NodeForm::Ordered(Relation::Overlaps),
    NodeForm::Ordered(Relation::Less),
    NodeForm::Ordered(Relation::More),
    NodeForm::Is,
];

/// Returns what follows an opcode, if it is one.
pub(crate) fn op_form(opcode: u8) -> Option<OpForm>
    ensures { result ≡ op_form opcode }
{
    entry_of(&OPS, opcode)
}

fn entry_of(table: &[Option<OpForm>], opcode: u8) -> Option<OpForm>
    ensures { result ≡ option_and_then (λ form. form) (slice_get table.now opcode) }
{
    match table.get(opcode as usize) {
        Some(Some(form)) => Some(*form),
        _ => None,
    }
}

/// Returns what follows the byte of a kind, if it is one.
pub(crate) fn kind_form(tag: u8) -> Option<KindForm>
    ensures { result ≡ slice_get KINDS tag }
{
    KINDS.get(tag as usize).copied()
}

/// Returns what follows the byte of a node, if it is one.
pub(crate) fn node_form(tag: u8) -> Option<NodeForm>
    ensures { result ≡ slice_get NODES tag }
{
    NODES.get(tag as usize).copied()
}

impl Numbered {
    /// Makes the op with this number.
    pub(crate) fn op(self, number: u16) -> Op
        ensures { result ≡ with_number self number }
    {
        match self {
            Numbered::PushText => Op::PushText(number),
            Numbered::Get => Op::Get(number),
            Numbered::Links => Op::Links(number),
            Numbered::Find => Op::Find(number),
            Numbered::Alive => Op::Alive(number),
            Numbered::New => Op::New(number),
            Numbered::Set => Op::Set(number),
            Numbered::Relink(change) => Op::Relink(change, number),
            Numbered::Enter => Op::Enter(number),
            Numbered::Leave => Op::Leave(number),
            Numbered::Jump => Op::Jump(number),
            Numbered::Unless => Op::Unless(number),
            Numbered::Back => Op::Back(number),
        }
    }
}

impl OfLocal {
    /// Makes the op with this local.
    pub(crate) fn op(self, local: LocalId) -> Op
        ensures { result ≡ with_local self local }
    {
        match self {
            OfLocal::Load => Op::Load(local),
            OfLocal::Store => Op::Store(local),
        }
    }
}

impl Branch {
    /// Makes the op with this number and this op index.
    pub(crate) fn op(self, number: u16, place: Place) -> Op
        ensures { result ≡ with_pair self number place }
    {
        match self {
            Branch::One => Op::One(number, place),
            Branch::As => Op::As(number, place),
        }
    }
}

/// Returns the opcode of an op.
pub(crate) fn opcode(op: Op) -> u8
    ensures { result ≡ opcode op }
{
    match op {
        Op::PushInt(_) => 1,
        Op::PushText(_) => 2,
        Op::PushBool(_) => 3,
        Op::PushLabel(_, _) => 4,
        Op::Load(_) => 5,
        Op::Store(_) => 6,
        Op::Pop => 7,
        Op::Calculate(Calculation::Add) => 8,
        Op::Calculate(Calculation::Sub) => 9,
        Op::Calculate(Calculation::Mul) => 10,
        Op::Divide(Division::DivBy, _) => 11,
        Op::Divide(Division::ModBy, _) => 12,
        Op::Calculate(Calculation::Min) => 13,
        Op::Calculate(Calculation::Max) => 14,
        Op::Compare(Comparison::Lt) => 15,
        Op::Compare(Comparison::Le) => 16,
        Op::Compare(Comparison::EqInt) => 17,
        Op::EqText => 18,
        Op::EqLabel => 19,
        Op::EqUnit => 20,
        Op::Not => 21,
        Op::Combine(Logic::And) => 22,
        Op::Combine(Logic::Or) => 23,
        Op::MakeInterval => 24,
        Op::BoundOf(Bound::Low) => 25,
        Op::BoundOf(Bound::High) => 26,
        Op::Get(_) => 27,
        Op::One(_, _) => 28,
        Op::Links(_) => 29,
        Op::Find(_) => 30,
        Op::Size => 31,
        Op::Alive(_) => 32,
        Op::As(_, _) => 33,
        Op::New(_) => 34,
        Op::Set(_) => 35,
        Op::Relink(LinkChange::Link, _) => 36,
        Op::Relink(LinkChange::Unlink, _) => 37,
        Op::Enter(_) => 38,
        Op::Leave(_) => 39,
        Op::Delete => 40,
        Op::Say(_) => 41,
        Op::Jump(_) => 42,
        Op::Unless(_) => 43,
        Op::Next(_, _) => 44,
        Op::Back(_) => 45,
        Op::Done => 46,
        Op::Rate => 47,
        Op::Decline => 48,
        Op::Answer => 49,
    }
}
