//! Natives that ask for changes that are refused, for the last unit that fits, for long texts, and for what they
//! removed themselves.

ghost use Rattle.std.specs.Prelude.{◌≡◌, true, map, IfOk};
ghost use Rattle.bb_shell.specs.Roster.{all_open};
ghost use Rattle.bb_shell_tests.specs.Asked.{asked, each_refusal};

use crate::input::NOTE_SCHEMA;
use crate::role::Role;
use bb_schema::UnitId;
use bb_shell::{
    Ask, Finish, Items, Memory, NativeSource, Node, Pattern, Pipe, Query, Text, Value, View,
    run_texts,
};
use std::alloc::{AllocError, Global};
use std::cell::Cell;
use std::fmt::Write;
use std::rc::Rc;
use std::test::Fail;

// Things with parts, a space of things and a space of words.
const THING_SCHEMA: &str = r#"{"labels":[{"name":"hue","values":["red","green"]}],
    "classes":[{"name":"thing","slots":[{"name":"pos","kind":"interval"},
                                        {"name":"hue","kind":"label","of":"hue"},{"name":"score","kind":"int"}],
                "links":[{"name":"mate","to":"thing","many":false,"inverse":"mate_of"},
                         {"name":"mate_of","to":"thing","many":false,"inverse":"mate"},
                         {"name":"parts","to":"word","many":true,"inverse":"whole"}]},
               {"name":"word","parent":"thing","slots":[{"name":"count","kind":"int"}],
                "links":[{"name":"whole","to":"thing","many":false,"inverse":"parts"}]}],
    "spaces":[{"name":"board","classes":["thing"],"dims":[{"name":"pos","kind":"ordered"},
                                                          {"name":"hue","kind":"label","of":"hue"}]},
              {"name":"desk","classes":["word"],"dims":[]}]}"#;

const ONE_THING: &str = r#"{"units":[{"name":"a","class":"thing"}]}"#;

const ON_THINGS: &str = "source asker on thing { when create thing; rate 1; native; }";

const ON_NOTES: &str = "source asker on note { when create note; rate 1; native; }";

// A native that counts its executions, and says their number when it is closed, which it leaves in a cell too. It looks
// for the things in a space, and leaves their number plus one in another cell.
#[derive(Drop)]
struct Asker {
    role: Role,
    text: Text,
    seen: Rc<Cell<u64>>,
    said: Rc<Cell<i64>>,
    count: i64,
    is_open: bool,
}

impl NativeSource for Asker {
    ghost use Rattle.std.specs.Prelude.{[], ◌∷◌, ◌+ℤ◌, pos, codes, slice_index_or, map};
    ghost use Rattle.std.specs.Int.{saturate_signed, w64};
    ghost use Rattle.bb_shell_tests.specs.Asked.{asked};

    ghost meaning = { λ asker. record {
      name = codes "asker";
      held = asker.count ∷ [];
      is_open = asker.is_open;
      asks = λ held unit seen. asked asker.role asker.text unit;
      next = λ held unit seen. map (λ count. saturate_signed w64 (count +ℤ pos 1)) held;
      closing = λ held. slice_index_or held 0 (pos 0);
    } };

    fn name(&self) -> &str {
        "asker"
    }

    fn act(&mut self, alloc: Global, unit: UnitId, view: &View<'_>) -> Result<Vec<Ask>, Memory> {
        let found = things(alloc, view)?;
        let asks = asks_of(alloc, self.role, &self.text, unit)?;
        self.seen.set((found as u64).saturating_add(1));
        self.count = self.count.saturating_add(1);
        Ok(asks)
    }

    fn close(&mut self) -> i64 {
        self.is_open = false;
        self.said.set(self.count);
        self.count
    }
}

// The number of things in the space `board`.
fn things(alloc: Global, view: &View<'_>) -> Result<usize, Memory> {
    let (Some(class), Some(space)) = (view.schema().class("thing"), view.schema().space("board"))
    else {
        return Ok(0);
    };
    let query = Query {
        class,
        space,
        kinds: Items::new(alloc),
        pattern: Pattern::new(Node::All),
    };
    match query.fits(view.schema()) {
        Ok(()) => Ok(view.find(&query, &[])?.len()),
        Err(_) => Ok(0),
    }
}

fn asks_of(alloc: Global, role: Role, text: &Text, unit: UnitId) -> Result<Vec<Ask>, Memory>
    ensures { IfOk result (λ asks. asks.items ≡ asked role text.now unit) }
{
    let mut asks = Vec::new(alloc);
    match role {
        Role::EachRefusal => return each_refusal(alloc),
        Role::DeletesFirst => {
            asks.push(Ask::Delete { unit })?;
            asks.push(set(alloc, unit, "score", Value::Int(1))?)?;
        }
        Role::CreatesTwo => {
            asks.push(create(alloc, "note")?)?;
            asks.push(create(alloc, "note")?)?;
        }
        Role::Says => asks.push(Ask::Say {
            text: text.clone()?,
        })?,
        Role::HasNoMemory => return Err(AllocError),
    }
    Ok(asks)
}

fn set(alloc: Global, unit: UnitId, slot: &str, value: Value) -> Result<Ask, Memory>
    ensures { IfOk result (λ ask. ask ≡ Ask.Set unit slot.now value) }
{
    Ok(Ask::Set {
        unit,
        slot: Text::from_str(alloc, slot)?,
        value,
    })
}

fn create(alloc: Global, class: &str) -> Result<Ask, Memory>
    ensures { IfOk result (λ ask. ask ≡ Ask.New class.now) }
{
    Ok(Ask::New {
        class: Text::from_str(alloc, class)?,
    })
}

fn each_refusal(alloc: Global) -> Result<Vec<Ask>, Memory>
    ensures { IfOk result (λ asks. asks.items ≡ each_refusal) }
{
    let mut asks = Vec::new(alloc);
    asks.push(Ask::Delete { unit: 9 })?;
    asks.push(set(alloc, 1, "nope", Value::Int(1))?)?;
    asks.push(set(alloc, 1, "score", Value::Bool(true))?)?;
    asks.push(Ask::Link {
        unit: 1,
        slot: Text::from_str(alloc, "parts")?,
        other: 1,
    })?;
    asks.push(Ask::Enter {
        unit: 1,
        space: Text::from_str(alloc, "desk")?,
    })?;
    asks.push(create(alloc, "x")?)?;
    asks.push(Ask::Say {
        text: Text::from_str(alloc, "ok")?,
    })?;
    asks.push(set(alloc, 1, "score", Value::Int(7))?)?;
    Ok(asks)
}

// One asker of a role.
fn one_asker(
    alloc: Global,
    role: Role,
    text: &str,
    seen: &Rc<Cell<u64>>,
    said: &Rc<Cell<i64>>,
) -> Result<Vec<Asker>, Memory>
    ensures { IfOk result (λ natives. all_open (map ⟦<Asker as NativeSource>⟧.meaning natives.items) ≡ true) }
{
    let mut natives = Vec::new(alloc);
    natives.push(Asker {
        role,
        text: Text::from_str(alloc, text)?,
        seen: seen.clone()?,
        said: said.clone()?,
        count: 0,
        is_open: true,
    })?;
    Ok(natives)
}

// What a run with one asker comes to.
#[derive(Drop)]
struct Ended {
    finish: Finish,
    // What the asker left in its cells: -1 where it said no number.
    seen: u64,
    said: i64,
    trace: Vec<u8>,
}

// The texts of a run.
#[derive(Clone, Copy)]
struct Texts<'a> {
    schema: &'a str,
    units: &'a str,
    sources: &'a str,
}

fn run_asker(alloc: Global, texts: Texts<'_>, role: Role, text: &str) -> Result<Ended, Fail> {
    let seen = Rc::new(alloc, Cell::new(0u64))?;
    let said = Rc::new(alloc, Cell::new(-1i64))?;
    let natives = one_asker(alloc, role, text, &seen, &said)?;
    let mut out = Pipe::new(Vec::new(alloc));
    let finish = run_texts(
        alloc,
        texts.schema,
        texts.units,
        texts.sources,
        "",
        natives,
        100,
        0,
        &mut out,
    )?;
    Ok(Ended {
        finish,
        seen: seen.get(),
        said: said.get(),
        trace: out.into_inner(),
    })
}

const THINGS: Texts<'static> = Texts {
    schema: THING_SCHEMA,
    units: ONE_THING,
    sources: ON_THINGS,
};

// No ask is applied in part, and none keeps those after it from being applied.
#[test]
fn each_reason_refuses_an_ask(rt: HostRuntime) -> Result<(), Fail> {
    let ended = run_asker(rt.alloc(), THINGS, Role::EachRefusal, "")?;
    let expected = "create 1 thing\n\
        trigger 1 asker unit 1 rating 1\n\
        cycle 1 act 1 asker unit 1 rating 1\n\
        refused ask 1 1\n\
        refused ask 2 2\n\
        refused ask 3 3\n\
        refused ask 4 4\n\
        refused ask 5 5\n\
        refused ask 6 6\n\
        say \"ok\"\n\
        set 1.score\n\
        end native 8\n\
        quiescence\n\
        finish quiescence\n\
        closed asker 1\n";
    assert!(rt; ended.trace.as_slice() == expected.as_bytes());
    assert!(rt; matches!(ended.finish, Finish::Quiescence));
    assert_eq!(rt; ended.seen, 1);
    Ok(())
}

// Each ask is checked on the blackboard as those before it left it.
#[test]
fn an_ask_about_a_unit_that_an_ask_deleted(rt: HostRuntime) -> Result<(), Fail> {
    let ended = run_asker(rt.alloc(), THINGS, Role::DeletesFirst, "")?;
    let expected = "create 1 thing\n\
        trigger 1 asker unit 1 rating 1\n\
        cycle 1 act 1 asker unit 1 rating 1\n\
        delete 1\n\
        refused ask 2 1\n\
        end native 2\n\
        quiescence\n\
        finish quiescence\n\
        closed asker 1\n";
    assert!(rt; ended.trace.as_slice() == expected.as_bytes());
    assert!(rt; matches!(ended.finish, Finish::Quiescence));
    Ok(())
}

// The call counts for nothing: the native is closed with the number that it had.
#[test]
fn a_native_without_memory_ends_the_run(rt: HostRuntime) -> Result<(), Fail> {
    let ended = run_asker(rt.alloc(), THINGS, Role::HasNoMemory, "")?;
    assert!(rt; matches!(ended.finish, Finish::Memory));
    assert_eq!(rt; ended.seen, 0);
    assert_eq!(rt; ended.said, 0);
    Ok(())
}

// A text of 65,535 bytes is said, and one of a byte more is refused.
#[test]
fn long_texts_to_be_said(rt: HostRuntime) -> Result<(), Fail> {
    let alloc = rt.alloc();
    let mut text = String::new(alloc);
    for _ in 0..65_535 {
        text.push('a')?;
    }
    let said = run_asker(alloc, THINGS, Role::Says, text.as_str())?;
    let mut expected = String::from_str(
        alloc,
        "create 1 thing\n\
        trigger 1 asker unit 1 rating 1\n\
        cycle 1 act 1 asker unit 1 rating 1\n\
        say \"",
    )?;
    expected.push_str(text.as_str())?;
    expected.push_str("\"\nend native 1\nquiescence\nfinish quiescence\nclosed asker 1\n")?;
    assert!(rt; said.trace.as_slice() == expected.as_bytes());
    text.push('a')?;
    let refused = run_asker(alloc, THINGS, Role::Says, text.as_str())?;
    let expected = "create 1 thing\n\
        trigger 1 asker unit 1 rating 1\n\
        cycle 1 act 1 asker unit 1 rating 1\n\
        refused ask 1 3\n\
        end native 1\n\
        quiescence\n\
        finish quiescence\n\
        closed asker 1\n";
    assert!(rt; refused.trace.as_slice() == expected.as_bytes());
    Ok(())
}

// 65,535 notes, of which the first has a source that is called for it.
fn notes(alloc: Global) -> Result<String, Memory> {
    let mut units = String::from_str(alloc, r#"{"units":[{"name":"a","class":"note"}"#)?;
    for number in 1..65_535u32 {
        let written = write!(units, r#",{{"name":"n{number}","class":"plain"}}"#);
        if written.is_err() {
            return Err(AllocError);
        }
    }
    units.push_str("]}")?;
    Ok(units)
}

// There is room for the first unit that is asked for, and for no second one: the run ends full, with no line that ends
// the execution, and the native is closed.
#[test]
fn asks_that_fill_the_blackboard(rt: HostRuntime) -> Result<(), Fail> {
    let alloc = rt.alloc();
    let units = notes(alloc)?;
    let texts = Texts {
        schema: r#"{"classes":[{"name":"note"},{"name":"plain"}]}"#,
        units: units.as_str(),
        sources: ON_NOTES,
    };
    let ended = run_asker(alloc, texts, Role::CreatesTwo, "")?;
    assert!(rt; matches!(ended.finish, Finish::Full));
    let expected = "cycle 1 act 1 asker unit 1 rating 1\n\
        create 65536 note\n\
        finish full\n\
        closed asker 1\n";
    assert!(rt; ended.trace.as_slice().ends_with(expected.as_bytes()));
    Ok(())
}
