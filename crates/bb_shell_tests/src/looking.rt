//! A native that reads links, and which numbers were units.

ghost use Rattle.std.specs.Prelude.{◌≡◌, true, map, IfOk};
ghost use Rattle.bb_shell.specs.Roster.{all_open};

use bb_schema::UnitId;
use bb_shell::{Ask, Finish, Memory, NativeSource, Pipe, View, run_texts};
use std::alloc::{AllocError, Global};
use std::cell::Cell;
use std::fmt::Write;
use std::rc::Rc;
use std::test::Fail;

// A native that leaves what it sees in a cell.
#[derive(Drop)]
struct Looker {
    seen: Rc<Cell<String>>,
    is_open: bool,
}

impl NativeSource for Looker {
    ghost use Rattle.std.specs.Prelude.{[], pos, codes};

    ghost meaning = { λ looker. record {
      name = codes "looker";
      held = [];
      is_open = looker.is_open;
      asks = λ held unit seen. [];
      next = λ held unit seen. held;
      closing = λ held. pos 0;
    } };

    fn name(&self) -> &str {
        "looker"
    }

    fn act(&mut self, alloc: Global, unit: UnitId, view: &View<'_>) -> Result<Vec<Ask>, Memory> {
        let mut seen = self.seen.replace(String::new(alloc));
        let looked = look(&mut seen, unit, view);
        drop(self.seen.replace(seen));
        looked?;
        Ok(Vec::new(alloc))
    }

    fn close(&mut self) -> i64 {
        self.is_open = false;
        0
    }
}

// Appends a line: the number of the next unit, the parts of a unit and what it is a part of, and which of the first
// numbers are 0 or were things.
fn look(text: &mut String, unit: UnitId, view: &View<'_>) -> Result<(), Memory> {
    let Some(class) = view.schema().class("thing") else {
        return Ok(());
    };
    let (Some(parts), Some(whole)) = (
        view.schema().slot(class, "parts"),
        view.schema().slot(class, "whole"),
    ) else {
        return Ok(());
    };
    add_number(text, view.next())?;
    text.push_str(" parts")?;
    for part in view.links(unit, parts)? {
        add_number(text, part)?;
    }
    text.push_str(" whole")?;
    if let Some(owner) = view.one(unit, whole) {
        add_number(text, owner)?;
    }
    text.push_str(" was")?;
    for number in 0..6 {
        if view.was(number, class) {
            add_number(text, number)?;
        }
    }
    text.push_str("\n")
}

fn add_number(text: &mut String, number: u64) -> Result<(), Memory> {
    match write!(text, " {number}") {
        Ok(()) => Ok(()),
        Err(_) => Err(AllocError),
    }
}

const THINGS: &str = r#"{"classes":[{"name":"thing",
    "links":[{"name":"parts","to":"thing","many":true,"inverse":"whole"},
             {"name":"whole","to":"thing","many":false,"inverse":"parts"}]}]}"#;

// Three things, of which the first has the others as its parts.
const UNITS: &str =
    r#"{"units":[{"name":"a","class":"thing"},{"name":"b","class":"thing"},{"name":"c","class":"thing"}],
    "links":[["a","parts","c"],["a","parts","b"]]}"#;

// One looker.
fn one_looker(alloc: Global, seen: &Rc<Cell<String>>) -> Result<Vec<Looker>, Memory>
    ensures { IfOk result (λ natives. all_open (map ⟦<Looker as NativeSource>⟧.meaning natives.items) ≡ true) }
{
    let mut natives = Vec::new(alloc);
    natives.push(Looker {
        seen: seen.clone()?,
        is_open: true,
    })?;
    Ok(natives)
}

#[test]
fn links_and_numbers_are_seen(rt: HostRuntime) -> Result<(), Fail> {
    let alloc = rt.alloc();
    let source = "source looker on thing { when create thing; rate 1; native; }";
    let seen = Rc::new(alloc, Cell::new(String::new(alloc)))?;
    let natives = one_looker(alloc, &seen)?;
    let mut out = Pipe::new(Vec::new(alloc));
    let finish = run_texts(alloc, THINGS, UNITS, source, "", natives, 100, 0, &mut out)?;
    assert!(rt; matches!(finish, Finish::Quiescence));
    let expected =
        " 4 parts 3 2 whole was 0 1 2 3\n 4 parts whole 1 was 0 1 2 3\n 4 parts whole 1 was 0 1 2 3\n";
    let text = seen.replace(String::new(alloc));
    assert_eq!(rt; text.as_str(), expected);
    Ok(())
}
