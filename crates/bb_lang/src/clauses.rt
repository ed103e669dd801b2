//! Readers of clauses. The reader of sources calls `read_clauses`.

ghost use Rattle.std.specs.Prelude.{◌≡◌};
ghost use Rattle.bb_basis.specs.Results.{Gives};
ghost use Rattle.bb_lang_tree.specs.declared.fault.LangFault.TheVariants.{Memory as OutOfMemory};
ghost use Rattle.bb_lang.specs.Sources.{unit_event, slot_event, space_event, change_event, event, clause, next_clause};
ghost use Rattle.bb_lang.specs.Sources.{clauses};

use bb_basis::Text;
use bb_lang_tree::{ChangeText, ClauseText, LangFault, Parser};

// A class and a slot of its units.
#[derive(Drop)]
struct ClassSlot {
    class: Text,
    slot: Text,
}

// A class and a space.
#[derive(Drop)]
struct ClassSpace {
    class: Text,
    space: Text,
}

// Reads a change of units, from its keyword on.
#[tactic(auto, unfolding(crate::specs::Sources::unit_event))]
fn read_unit_event(parser: &mut Parser<'_>, kind: ChangeText) -> Result<ClauseText, LangFault>
    ensures { Gives OutOfMemory (λ c. (c, parser.new.state)) result (unit_event kind parser.old.state) }
{
    parser.advance()?;
    let class = parser.read_name()?;
    Ok(ClauseText::Change { kind, class })
}

// Reads `class.slot` after a keyword.
#[tactic(auto, unfolding(crate::specs::Sources::slot_event))]
fn read_slot_event(parser: &mut Parser<'_>) -> Result<ClassSlot, LangFault>
    ensures { Gives OutOfMemory (λ c. (c, parser.new.state)) result (slot_event parser.old.state) }
{
    parser.advance()?;
    let class = parser.read_name()?;
    parser.skip(".")?;
    let slot = parser.read_member()?;
    Ok(ClassSlot { class, slot })
}

// Reads `class space` after a keyword.
#[tactic(auto, unfolding(crate::specs::Sources::space_event))]
fn read_space_event(parser: &mut Parser<'_>) -> Result<ClassSpace, LangFault>
    ensures { Gives OutOfMemory (λ c. (c, parser.new.state)) result (space_event parser.old.state) }
{
    parser.advance()?;
    let class = parser.read_name()?;
    let space = parser.read_name()?;
    Ok(ClassSpace { class, space })
}

// Reads a change of slots, links or spaces, from its keyword on.
#[tactic(auto, unfolding(crate::specs::Sources::change_event))]
fn read_change_event(parser: &mut Parser<'_>) -> Result<ClauseText, LangFault>
    ensures { Gives OutOfMemory (λ c. (c, parser.new.state)) result (change_event parser.old.state) }
{
    if parser.at("update") {
        let ClassSlot { class, slot } = read_slot_event(parser)?;
        let kind = ChangeText::Update(slot);
        return Ok(ClauseText::Change { kind, class });
    }
    if parser.at("link") {
        let ClassSlot { class, slot } = read_slot_event(parser)?;
        let kind = ChangeText::Link(slot);
        return Ok(ClauseText::Change { kind, class });
    }
    if parser.at("unlink") {
        let ClassSlot { class, slot } = read_slot_event(parser)?;
        let kind = ChangeText::Unlink(slot);
        return Ok(ClauseText::Change { kind, class });
    }
    if parser.at("enter") {
        let ClassSpace { class, space } = read_space_event(parser)?;
        let kind = ChangeText::Enter(space);
        return Ok(ClauseText::Change { kind, class });
    }
    if parser.at("leave") {
        let ClassSpace { class, space } = read_space_event(parser)?;
        let kind = ChangeText::Leave(space);
        return Ok(ClauseText::Change { kind, class });
    }
    Err(LangFault::Token {
        place: parser.place(),
    })
}

// Reads an event.
#[tactic(auto, unfolding(crate::specs::Sources::event))]
fn read_event(parser: &mut Parser<'_>) -> Result<ClauseText, LangFault>
    ensures { Gives OutOfMemory (λ c. (c, parser.new.state)) result (event parser.old.state) }
{
    if parser.at("create") {
        return read_unit_event(parser, ChangeText::Create);
    }
    if parser.at("delete") {
        return read_unit_event(parser, ChangeText::Delete);
    }
    if parser.at("quiescence") {
        parser.advance()?;
        return Ok(ClauseText::Quiescence);
    }
    read_change_event(parser)
}

// Reads a clause.
#[tactic(auto, unfolding(crate::specs::Sources::clause))]
fn read_clause(parser: &mut Parser<'_>) -> Result<ClauseText, LangFault>
    ensures { Gives OutOfMemory (λ c. (c, parser.new.state)) result (clause parser.old.state) }
{
    parser.skip("when")?;
    let event = read_event(parser)?;
    parser.skip(";")?;
    Ok(event)
}

// Reads another clause, if one follows.
#[tactic(auto, unfolding(crate::specs::Sources::next_clause))]
fn read_next_clause(parser: &mut Parser<'_>) -> Result<Option<ClauseText>, LangFault>
    ensures { Gives OutOfMemory (λ o. (o, parser.new.state)) result (next_clause parser.old.state) }
{
    if !parser.at("when") {
        return Ok(None);
    }
    Ok(Some(read_clause(parser)?))
}

/// Reads one clause and all clauses that follow.
#[tactic(auto, unfolding(crate::specs::Sources::clauses))]
pub(crate) fn read_clauses(parser: &mut Parser<'_>) -> Result<Vec<ClauseText>, LangFault>
    ensures { Gives OutOfMemory (λ v. (v.items, parser.new.state)) result (clauses parser.old.state) }
{
    let mut clauses = Vec::new(parser.alloc());
    clauses.push(read_clause(parser)?)?;
    for _turn in 0..parser.left() {
        let Some(clause) = read_next_clause(parser)? else {
            return Ok(clauses);
        };
        clauses.push(clause)?;
    }
    Ok(clauses)
}
