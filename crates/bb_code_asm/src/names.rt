//! The names of kinds: of values in frames, and of the operands of queries.

use crate::fault::Slip;
use bb_code::{Kind, OperandKind};

// The number after the `:` of a word.
fn behind(word: &str) -> Result<u16, Slip> {
    word.parse::<u16>().ok().ok_or(Slip::Number)
}

/// Reads the kind of a value: `Any`, `Int`, `Text`, `Bool`, `Interval`, `Label:SET`, `Ref:CLASS`, `Old:CLASS` or
/// `Seq:CLASS`.
pub(crate) fn kind_of(word: &str) -> Result<Kind, Slip> {
    match word.split_once(':') {
        None => match word {
            "Any" => Ok(Kind::Any),
            "Int" => Ok(Kind::Int),
            "Text" => Ok(Kind::Text),
            "Bool" => Ok(Kind::Bool),
            "Interval" => Ok(Kind::Interval),
            _ => Err(Slip::Kind),
        },
        Some((name, number)) => match name {
            "Label" => Ok(Kind::Label(behind(number)?)),
            "Ref" => Ok(Kind::Ref(behind(number)?)),
            "Old" => Ok(Kind::Old(behind(number)?)),
            "Seq" => Ok(Kind::Seq(behind(number)?)),
            _ => Err(Slip::Kind),
        },
    }
}

/// Reads the kind of a query's operand: `interval` or `label:SET`.
pub(crate) fn operand_kind_of(word: &str) -> Result<OperandKind, Slip> {
    match word.split_once(':') {
        Some(("label", set)) => Ok(OperandKind::Label(behind(set)?)),
        None if word == "interval" => Ok(OperandKind::Interval),
        _ => Err(Slip::Kind),
    }
}
