//! Reads the asks of a post or an answer, each from the words after its first one. reading.rt calls it for lines inside
//! one.

ghost use Rattle.std.specs.Prelude.{◌≡◌};
ghost use Rattle.bb_basis.specs.Results.{Gives};
ghost use Rattle.bb_moves.specs.Asks.{ask_of, delete_of, enter_of, leave_of, link_of, new_of, say_of, set_of};
ghost use Rattle.bb_moves.specs.Asks.{unlink_of};
ghost use Rattle.bb_moves.specs.declared.fault.Slip.TheVariants.{Memory as OutOfMemory};

use crate::fault::Slip;
use crate::keyword::AskWord;
use crate::values::{read_text, read_value};
use crate::words::{first_word, read_name, read_number};
use bb_schema::Schema;
use bb_shell::Ask;
use std::alloc::Global;

/// Reads the ask of a word from the text after the word.
pub(crate) fn read_ask(
    alloc: Global,
    schema: &Schema,
    word: AskWord,
    text: &str,
) -> Result<Ask, Slip>
    ensures { Gives OutOfMemory (λ a. a) result (ask_of schema.now word text.now) }
{
    match word {
        AskWord::New => read_new(alloc, text),
        AskWord::Delete => read_delete(alloc, text),
        AskWord::Set => read_set(alloc, schema, text),
        AskWord::Link => read_link(alloc, text),
        AskWord::Unlink => read_unlink(alloc, text),
        AskWord::Enter => read_enter(alloc, text),
        AskWord::Leave => read_leave(alloc, text),
        AskWord::Say => read_say(alloc, text),
    }
}

// `CLASS`
#[tactic(auto, unfolding(crate::specs::Asks::new_of))]
fn read_new(alloc: Global, text: &str) -> Result<Ask, Slip>
    ensures { Gives OutOfMemory (λ a. a) result (new_of text.now) }
{
    let class = read_name(alloc, text)?;
    Ok(Ask::New { class })
}

// `U`
#[tactic(auto, unfolding(crate::specs::Asks::delete_of))]
fn read_delete(alloc: Global, text: &str) -> Result<Ask, Slip>
    ensures { Gives OutOfMemory (λ a. a) result (delete_of text.now) }
{
    let unit = read_number(alloc, text)?;
    Ok(Ask::Delete { unit })
}

// `U SLOT VALUE`
#[tactic(auto, unfolding(crate::specs::Asks::set_of))]
fn read_set(alloc: Global, schema: &Schema, text: &str) -> Result<Ask, Slip>
    ensures { Gives OutOfMemory (λ a. a) result (set_of schema.now text.now) }
{
    let (unit, text) = first_word(text);
    let (slot, text) = first_word(text);
    let unit = read_number(alloc, unit)?;
    let slot = read_name(alloc, slot)?;
    let value = read_value(alloc, schema, text)?;
    Ok(Ask::Set { unit, slot, value })
}

// `U SLOT U`
#[tactic(auto, unfolding(crate::specs::Asks::link_of))]
fn read_link(alloc: Global, text: &str) -> Result<Ask, Slip>
    ensures { Gives OutOfMemory (λ a. a) result (link_of text.now) }
{
    let (unit, text) = first_word(text);
    let (slot, text) = first_word(text);
    let unit = read_number(alloc, unit)?;
    let slot = read_name(alloc, slot)?;
    let other = read_number(alloc, text)?;
    Ok(Ask::Link { unit, slot, other })
}

// `U SLOT U`
#[tactic(auto, unfolding(crate::specs::Asks::unlink_of))]
fn read_unlink(alloc: Global, text: &str) -> Result<Ask, Slip>
    ensures { Gives OutOfMemory (λ a. a) result (unlink_of text.now) }
{
    let (unit, text) = first_word(text);
    let (slot, text) = first_word(text);
    let unit = read_number(alloc, unit)?;
    let slot = read_name(alloc, slot)?;
    let other = read_number(alloc, text)?;
    Ok(Ask::Unlink { unit, slot, other })
}

// `U SPACE`
#[tactic(auto, unfolding(crate::specs::Asks::enter_of))]
fn read_enter(alloc: Global, text: &str) -> Result<Ask, Slip>
    ensures { Gives OutOfMemory (λ a. a) result (enter_of text.now) }
{
    let (unit, text) = first_word(text);
    let unit = read_number(alloc, unit)?;
    let space = read_name(alloc, text)?;
    Ok(Ask::Enter { unit, space })
}

// `U SPACE`
#[tactic(auto, unfolding(crate::specs::Asks::leave_of))]
fn read_leave(alloc: Global, text: &str) -> Result<Ask, Slip>
    ensures { Gives OutOfMemory (λ a. a) result (leave_of text.now) }
{
    let (unit, text) = first_word(text);
    let unit = read_number(alloc, unit)?;
    let space = read_name(alloc, text)?;
    Ok(Ask::Leave { unit, space })
}

// `TEXT`
#[tactic(auto, unfolding(crate::specs::Asks::say_of))]
fn read_say(alloc: Global, text: &str) -> Result<Ask, Slip>
    ensures { Gives OutOfMemory (λ a. a) result (say_of text.now) }
{
    let text = read_text(alloc, text)?;
    Ok(Ask::Say { text })
}
