//! Tests of rosters: natives of several types and of one name, with enough memory, and natives that record their close.

ghost use Rattle.std.specs.Prelude.{◌≡◌, true, map, IfOk};
ghost use Rattle.bb_native.specs.Roster.{all_open};

use bb_basis::{Memory, Text};
use bb_board::Board;
use bb_native::{Ask, Closed, Denial, NativeSource, Refusal, Roster, View, apply};
use bb_schema::{Schema, UnitId};
use std::alloc::Global;
use std::cell::Cell;
use std::fmt::Write;
use std::rc::Rc;
use std::test::Fail;

// Counts its executions, and says how many there were at its close.
#[derive(Drop)]
struct Counter {
    count: i64,
    is_open: bool,
}

impl NativeSource for Counter {
    ghost use Rattle.std.specs.Prelude.{[], ◌∷◌, ◌+ℤ◌, pos, codes, slice_index_or, map};
    ghost use Rattle.std.specs.Int.{saturate_signed, w64};

    ghost meaning = { λ counter. record {
      name = codes "counter";
      held = counter.count ∷ [];
      is_open = counter.is_open;
      asks = λ held unit seen. [];
      next = λ held unit seen. map (λ count. saturate_signed w64 (count +ℤ pos 1)) held;
      closing = λ held. slice_index_or held 0 (pos 0);
    } };

    fn name(&self) -> &str {
        "counter"
    }

    fn act(&mut self, alloc: Global, _unit: UnitId, _view: &View<'_>) -> Result<Vec<Ask>, Memory> {
        self.count = self.count.saturating_add(1);
        Ok(Vec::new(alloc))
    }

    fn close(&mut self) -> i64 {
        self.is_open = false;
        self.count
    }
}

// Asks that its unit be deleted.
#[derive(Drop)]
struct Reaper {
    is_open: bool,
}

impl NativeSource for Reaper {
    ghost use Rattle.std.specs.Prelude.{[], ◌∷◌, pos, codes};
    ghost use Rattle.bb_native.specs.declared.ask.Ask.TheVariants.{Delete};

    ghost meaning = { λ reaper. record {
      name = codes "reaper";
      held = [];
      is_open = reaper.is_open;
      asks = λ held unit seen. Delete unit ∷ [];
      next = λ held unit seen. held;
      closing = λ held. pos 0;
    } };

    fn name(&self) -> &str {
        "reaper"
    }

    fn act(&mut self, alloc: Global, unit: UnitId, _view: &View<'_>) -> Result<Vec<Ask>, Memory> {
        let mut asks = Vec::new(alloc);
        asks.push(Ask::Delete { unit })?;
        Ok(asks)
    }

    fn close(&mut self) -> i64 {
        self.is_open = false;
        0
    }
}

// Has a number, and at its close puts it after those that were put before.
#[derive(Drop)]
struct Recorder {
    number: u64,
    closings: Rc<Cell<u64>>,
    is_open: bool,
}

impl NativeSource for Recorder {
    ghost use Rattle.std.specs.Prelude.{[], pos, codes};

    ghost meaning = { λ recorder. record {
      name = codes "recorder";
      held = [];
      is_open = recorder.is_open;
      asks = λ held unit seen. [];
      next = λ held unit seen. held;
      closing = λ held. pos 0;
    } };

    fn name(&self) -> &str {
        "recorder"
    }

    fn act(&mut self, alloc: Global, _unit: UnitId, _view: &View<'_>) -> Result<Vec<Ask>, Memory> {
        Ok(Vec::new(alloc))
    }

    fn close(&mut self) -> i64 {
        self.is_open = false;
        let before = self.closings.get();
        self.closings
            .set(before.wrapping_mul(10).wrapping_add(self.number));
        0
    }
}

impl Recorder {
    fn new(number: u64, closings: &Rc<Cell<u64>>) -> Result<Recorder, Memory>
        ensures { IfOk result (λ recorder. recorder.is_open ≡ true) }
    {
        Ok(Recorder {
            number,
            closings: closings.clone()?,
            is_open: true,
        })
    }
}

// A blackboard of one class, before anything was created.
fn board(alloc: Global) -> Result<Board, Fail> {
    let schema = Schema::read(alloc, r#"{"classes":[{"name":"note"}]}"#)?;
    Ok(Board::new(alloc, schema)?)
}

// What the first native of a name asks.
fn asks<N: NativeSource>(
    alloc: Global,
    roster: &mut Roster<N>,
    name: &str,
    unit: UnitId,
    board: &Board,
) -> Result<Vec<Ask>, Memory> {
    match roster.place(name) {
        Some(place) => roster.act(alloc, place, unit, &View::new(board)),
        None => Ok(Vec::new(alloc)),
    }
}

// Has natives act one after another, and returns the number of their asks and what they said at their close.
fn acted<N: NativeSource>(
    alloc: Global,
    natives: Vec<N>,
    board: &Board,
    names: &[&str],
) -> Result<(usize, Closed), Memory>
    requires { all_open (map N.meaning natives.items) ≡ true }
{
    let mut roster = Roster::new(alloc, natives)?;
    let mut made = 0usize;
    for name in names {
        match asks(alloc, &mut roster, name, 1, board) {
            Ok(asks) => made = made.wrapping_add(asks.len()),
            Err(refused) => {
                drop(roster.close_all());
                return Err(refused);
            }
        }
    }
    Ok((made, roster.close_all()))
}

// What natives said at their close, with their names.
fn said(alloc: Global, closed: &Closed) -> Result<String, Fail> {
    let mut text = String::new(alloc);
    for closing in closed.as_slice() {
        write!(text, "{} {}, ", closing.name.as_str(), closing.number)?;
    }
    Ok(text)
}

#[test]
fn natives_of_two_types(rt: HostRuntime) -> Result<(), Fail> {
    let alloc = rt.alloc();
    let board = board(alloc)?;
    let mut natives: Vec<Box<dyn NativeSource>> = Vec::new(alloc);
    natives.push(Box::new(
        alloc,
        Counter {
            count: 0,
            is_open: true,
        },
    )?)?;
    natives.push(Box::new(alloc, Reaper { is_open: true })?)?;
    let names = ["counter", "reaper", "counter", "sweeper"];
    let (asks, closed) = acted(alloc, natives, &board, &names)?;
    assert_eq!(rt; asks, 1);
    let text = said(alloc, &closed)?;
    assert_eq!(rt; text.as_str(), "counter 2, reaper 0, ");
    Ok(())
}

#[test]
fn natives_of_one_name(rt: HostRuntime) -> Result<(), Fail> {
    let alloc = rt.alloc();
    let board = board(alloc)?;
    let mut natives = Vec::new(alloc);
    natives.push(Counter {
        count: 5,
        is_open: true,
    })?;
    natives.push(Counter {
        count: 10,
        is_open: true,
    })?;
    let (asks, closed) = acted(alloc, natives, &board, &["counter"])?;
    assert_eq!(rt; asks, 0);
    let text = said(alloc, &closed)?;
    assert_eq!(rt; text.as_str(), "counter 6, counter 10, ");
    Ok(())
}

#[test]
fn each_is_closed_once_in_order(rt: HostRuntime) -> Result<(), Fail> {
    let alloc = rt.alloc();
    let closings = Rc::new(alloc, Cell::new(0u64))?;
    let mut natives = Vec::new(alloc);
    natives.push(Recorder::new(1, &closings)?)?;
    natives.push(Recorder::new(2, &closings)?)?;
    natives.push(Recorder::new(3, &closings)?)?;
    // Whether a roster is made or refused: `tools/refuse` refuses it.
    if let Ok(roster) = Roster::new(alloc, natives) {
        drop(roster.close_all());
    }
    assert_eq!(rt; closings.get(), 123);
    Ok(())
}

// Asks for a unit of a class.
fn asks_for(alloc: Global, class: &str, board: &mut Board) -> Result<Result<(), Denial>, Memory> {
    let class = Text::from_str(alloc, class)?;
    Ok(apply(alloc, Ask::New { class }, board))
}

#[test]
fn asks_one_by_one(rt: HostRuntime) -> Result<(), Fail> {
    let alloc = rt.alloc();
    let mut board = board(alloc)?;
    assert!(rt; asks_for(alloc, "note", &mut board)? == Ok(()));
    assert!(rt; board.live(1));
    let refused = Err(Denial::Refused(Refusal::Class));
    assert!(rt; asks_for(alloc, "word", &mut board)? == refused);
    assert!(rt; apply(alloc, Ask::Delete { unit: 1 }, &mut board) == Ok(()));
    assert!(rt; !board.live(1));
    let refused = Err(Denial::Refused(Refusal::Deleted));
    assert!(rt; apply(alloc, Ask::Delete { unit: 1 }, &mut board) == refused);
    assert_eq!(rt; board.next(), 2);
    Ok(())
}
