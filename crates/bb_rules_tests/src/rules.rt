//! Tests of sources: how they are made with enough memory, codes that were accepted for something else, and events that
//! no bundle's clause names.

use bb_board::{Change, ChangeKind, Event};
use bb_bundle::{ActDraft, Parts, SourceDraft, unbundle};
use bb_exec_lower::Lowered;
use bb_rules::{Clause, RuleFault, Source};
use bb_schema::{ClassId, Schema};
use bb_verify::{Part, verify};
use std::alloc::Global;
use std::test::Fail;

// Class 0 is `focus`, so `note`, `memo` and `word` are 1 to 3.
const SCHEMA: &str =
    r#"{"classes":[{"name":"note"},{"name":"memo","parent":"note"},{"name":"word"}]}"#;

// The code of an act that has one.
fn code_of<C: Drop>(act: ActDraft<C>) -> Result<C, Fail> {
    match act {
        ActDraft::Do(code) => Ok(code),
        ActDraft::Native => Err(Fail::from("a code is written")),
    }
}

// A source of these clauses, whose code does nothing and was accepted for a part.
fn source_of(
    alloc: Global,
    schema: &Schema,
    class: &str,
    triggers: &[&str],
    part: Part,
) -> Result<Result<Source, RuleFault>, Fail> {
    let mut text = format!(in alloc; "source hail {class} 7\n")?;
    for trigger in triggers {
        text.push_str("when create ")?;
        text.push_str(trigger)?;
        text.push('\n')?;
    }
    text.push_str("do 4242430101000000000000000000012e")?;
    let mut sources = unbundle(alloc, &text)?;
    let SourceDraft {
        header,
        parts: _,
        act,
    } = sources.pop().ok_or("one source is written")?.into_draft();
    let code = code_of(act)?;
    let checked = verify(alloc, schema, part, code)?;
    let act: ActDraft<Lowered> = ActDraft::Do(Lowered::of(alloc, checked)?);
    let draft = SourceDraft {
        header,
        parts: Parts::none(),
        act,
    };
    Ok(Source::new(alloc, schema, draft))
}

fn changed(class: ClassId, change: Change) -> Event {
    Event::Change {
        unit: 1,
        class,
        change,
    }
}

fn created(class: ClassId) -> Event {
    changed(class, Change::Create)
}

#[test]
fn triggered_by_classes_below(rt: HostRuntime) -> Result<(), Fail> {
    let schema = Schema::read(rt.alloc(), SCHEMA)?;
    let part = Part::Do { class: 1 };
    let source = source_of(rt.alloc(), &schema, "note", &["memo"], part)??;
    assert_eq!(rt; source.parts().name.as_str(), "hail");
    assert_eq!(rt; source.parts().class, 1);
    assert_eq!(rt; source.parts().rate, 7);
    assert!(rt; source.parts().triggers.match_any(&schema, created(2)));
    assert!(rt; !source.parts().triggers.match_any(&schema, created(1)));
    assert!(rt;
        !source
            .parts()
            .triggers
            .match_any(&schema, Event::Quiescence)
    );
    let source = source_of(rt.alloc(), &schema, "note", &["memo", "note"], part)??;
    assert_eq!(rt; source.parts().triggers.as_slice().len(), 2);
    assert!(rt; source.parts().triggers.match_any(&schema, created(2)));
    assert!(rt; source.parts().triggers.match_any(&schema, created(1)));
    assert!(rt; !source.parts().triggers.match_any(&schema, created(3)));
    assert!(rt; Clause::Quiescence.matches(&schema, Event::Quiescence));
    assert!(rt; !Clause::Quiescence.matches(&schema, created(1)));
    Ok(())
}

#[test]
fn codes_of_other_classes(rt: HostRuntime) -> Result<(), Fail> {
    let schema = Schema::read(rt.alloc(), SCHEMA)?;
    // The code was accepted for the class below.
    let source = source_of(
        rt.alloc(),
        &schema,
        "note",
        &["note"],
        Part::Do { class: 2 },
    )?;
    assert!(rt; matches!(source, Err(RuleFault::Part)));
    Ok(())
}

#[test]
fn kinds_of_change(rt: HostRuntime) -> Result<(), Fail> {
    let schema = Schema::read(rt.alloc(), SCHEMA)?;
    // Slots and spaces of any number will do: a clause compares numbers.
    let changes = [
        Change::Create,
        Change::Delete,
        Change::Update(4),
        Change::Update(5),
        Change::Link {
            slot: 4,
            partner: 1,
        },
        Change::Link {
            slot: 5,
            partner: 2,
        },
        Change::Unlink {
            slot: 4,
            partner: 1,
        },
        Change::Unlink {
            slot: 5,
            partner: 3,
        },
        Change::Enter(4),
        Change::Enter(5),
        Change::Leave(4),
        Change::Leave(5),
    ];
    let kinds = [
        ChangeKind::Create,
        ChangeKind::Delete,
        ChangeKind::Update(4),
        ChangeKind::Update(5),
        ChangeKind::Link(4),
        ChangeKind::Link(5),
        ChangeKind::Unlink(4),
        ChangeKind::Unlink(5),
        ChangeKind::Enter(4),
        ChangeKind::Enter(5),
        ChangeKind::Leave(4),
        ChangeKind::Leave(5),
    ];
    for (row, kind) in kinds.into_iter().enumerate() {
        let clause = Clause::Change { kind, class: 1 };
        for (column, change) in changes.into_iter().enumerate() {
            assert_eq!(rt; clause.matches(&schema, changed(2, change)), row == column);
            assert!(rt; !clause.matches(&schema, changed(3, change)));
        }
    }
    Ok(())
}
