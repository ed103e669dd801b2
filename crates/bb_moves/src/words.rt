//! Reads the words of a line. Lines (reading.rt) and asks (asks.rt) consist of them.

ghost use Rattle.std.specs.Prelude.{◌≡◌, option_map, Ok};
ghost use Rattle.serde_json.specs.Read.{read};
ghost use Rattle.serde_json.specs.View.{view};
ghost use Rattle.bb_basis.specs.Results.{Gives};
ghost use Rattle.bb_moves.specs.Words.{behind, count_of, first, name_of, nothing_in, number_of, split_at};
ghost use Rattle.bb_moves.specs.declared.fault.Slip.TheVariants.{Memory as OutOfMemory};

use crate::fault::{MovesFlaw, Slip};
use bb_basis::{Text, is_name};
use serde_json::Value as Json;
use std::alloc::Global;

// The parts of a text before and after its first space.
fn split_at_space(text: &str) -> Option<(&str, &str)>
    ensures { option_map (λ p. (p.0.now, p.1.now)) result ≡ split_at 32 text.now }
{
    text.split_once(' ')
}

/// Returns the parts of a text before and after its first colon.
pub(crate) fn split_at_colon(text: &str) -> Option<(&str, &str)>
    ensures { option_map (λ p. (p.0.now, p.1.now)) result ≡ split_at 58 text.now }
{
    text.split_once(':')
}

/// Returns the first word of a text, and what comes after the space that follows it.
pub(crate) fn first_word(text: &str) -> (&str, &str)
    ensures first { result.0.now ≡ first text.now }
    ensures behind { result.1.now ≡ behind text.now }
{
    match split_at_space(text) {
        Some(parts) => parts,
        None => (text, ""),
    }
}

/// Checks that nothing follows.
pub(crate) fn read_nothing(text: &str) -> Result<(), Slip>
    ensures { result ≡ nothing_in text.now }
{
    if text.is_empty() {
        Ok(())
    } else {
        Err(Slip::Flaw(MovesFlaw::Word))
    }
}

/// Reads a text that is a name.
#[tactic(auto, unfolding(crate::specs::Words::name_of))]
pub(crate) fn read_name(alloc: Global, text: &str) -> Result<Text, Slip>
    ensures { Gives OutOfMemory (λ t. t) result (name_of text.now) }
{
    if !is_name(text) {
        return Err(Slip::Flaw(MovesFlaw::Name));
    }
    Ok(Text::from_str(alloc, text)?)
}

/// Reads a text that is a JSON value, if it is one.
pub(crate) fn read_json(alloc: Global, text: &str) -> Result<Option<Json>, Slip>
    ensures { Gives OutOfMemory (option_map view) result (Ok (read text.now)) }
{
    match Json::from_str(alloc, text) {
        Ok(json) => Ok(Some(json)),
        Err(error) if error.is_memory() => Err(Slip::Memory),
        Err(_) => Ok(None),
    }
}

/// Reads a text that is a number of 64 bits.
#[tactic(auto, unfolding(crate::specs::Words::number_of))]
pub(crate) fn read_number(alloc: Global, text: &str) -> Result<u64, Slip>
    ensures { Gives OutOfMemory (λ n. n) result (number_of text.now) }
{
    let json = read_json(alloc, text)?.ok_or(Slip::Flaw(MovesFlaw::Number))?;
    let number = json.as_u64().ok_or(Slip::Flaw(MovesFlaw::Number))?;
    Ok(number)
}

/// Reads a text that is a number of cycles, of 32 bits.
#[tactic(auto, unfolding(crate::specs::Words::count_of))]
pub(crate) fn read_count(alloc: Global, text: &str) -> Result<u32, Slip>
    ensures { Gives OutOfMemory (λ n. n) result (count_of text.now) }
{
    let number = read_number(alloc, text)?;
    if number > 0xffff_ffff {
        return Err(Slip::Flaw(MovesFlaw::Number));
    }
    Ok(number as u32)
}
