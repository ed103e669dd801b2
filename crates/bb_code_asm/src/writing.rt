//! The text form of ops and kinds. `disassemble`, `listing`, messages and warnings on codes (bb_diag, bb_lint_parts)
//! and the cases write them.

use crate::text_table::plain_name;
use bb_code::{Division, Kind, LinkChange, Op};
use std::alloc::AllocError;
use std::fmt::Write;

/// Appends the text of a kind, as frames have it.
pub fn write_kind(text: &mut String, kind: Kind) -> Result<(), AllocError> {
    match kind {
        Kind::Any => text.push_str("Any"),
        Kind::Int => text.push_str("Int"),
        Kind::Text => text.push_str("Text"),
        Kind::Bool => text.push_str("Bool"),
        Kind::Label(set) => write!(text, "Label:{set}"),
        Kind::Interval => text.push_str("Interval"),
        Kind::Ref(class) => write!(text, "Ref:{class}"),
        Kind::Old(class) => write!(text, "Old:{class}"),
        Kind::Seq(class) => write!(text, "Seq:{class}"),
    }
}

/// Appends the text of an op with its operands.
pub fn write_op(text: &mut String, op: Op) -> Result<(), AllocError> {
    match op {
        Op::PushInt(number) => write!(text, "PushInt {number}"),
        Op::PushText(index) => write!(text, "PushText {index}"),
        Op::PushBool(truth) => write!(text, "PushBool {truth}"),
        Op::PushLabel(set, label) => write!(text, "PushLabel {set} {label}"),
        Op::Load(local) => write!(text, "Load {local}"),
        Op::Store(local) => write!(text, "Store {local}"),
        Op::Divide(Division::DivBy, divisor) => write!(text, "DivBy {divisor}"),
        Op::Divide(Division::ModBy, divisor) => write!(text, "ModBy {divisor}"),
        Op::Get(slot) => write!(text, "Get {slot}"),
        Op::One(slot, place) => write!(text, "One {slot} {place}"),
        Op::Links(slot) => write!(text, "Links {slot}"),
        Op::Find(query) => write!(text, "Find {query}"),
        Op::Alive(place) => write!(text, "Alive {place}"),
        Op::As(class, place) => write!(text, "As {class} {place}"),
        Op::New(class) => write!(text, "New {class}"),
        Op::Set(slot) => write!(text, "Set {slot}"),
        Op::Relink(LinkChange::Link, slot) => write!(text, "Link {slot}"),
        Op::Relink(LinkChange::Unlink, slot) => write!(text, "Unlink {slot}"),
        Op::Enter(space) => write!(text, "Enter {space}"),
        Op::Leave(space) => write!(text, "Leave {space}"),
        Op::Say(count) => write!(text, "Say {count}"),
        Op::Jump(place) => write!(text, "Jump {place}"),
        Op::Unless(place) => write!(text, "Unless {place}"),
        Op::Next(local, place) => write!(text, "Next {local} {place}"),
        Op::Back(place) => write!(text, "Back {place}"),
        plain => text.push_str(plain_name(plain).unwrap_or("")),
    }
}
