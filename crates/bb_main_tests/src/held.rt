//! Tests of held runs that no case can make: moves, and reading the trace in pieces.

use bb_c_run::{Held, OpenFault, ResumeFault, SlotKind, Stands, Step, Waits, why_refused};
use bb_shell::{Ask, Text, Value};
use std::alloc::Global;
use std::test::Fail;

const INPUT: &str = "%schema\n\
    {\"classes\":[{\"name\":\"note\"}]}\n\
    %sources\n\
    source hail on note { when create note; rate 100; do { say \"hello\"; } }\n";

#[test]
fn a_day(rt: HostRuntime) -> Result<(), Fail> {
    let alloc = rt.alloc();
    let Ok(held) = Held::open(alloc, INPUT.as_bytes(), "", 0) else {
        return Err(Fail::from("the run begins"));
    };
    let mut held = held;
    assert_eq!(rt; held.turn(), Stands::Resting);
    held.ask(Ask::New {
        class: Text::from_str(alloc, "note")?,
    })?;
    assert_eq!(rt; held.next_unit(), 1);
    assert_eq!(rt; held.post(), Stands::Going);
    assert_eq!(rt; held.advance(5), Stands::Resting);
    assert_eq!(rt; held.finish(), Stands::Resting);
    assert_eq!(rt; held.turn(), Stands::Finished);
    let mut taken = Vec::new(alloc);
    let mut room = [0u8; 7];
    for _piece in 0..100 {
        let count = held.read(&mut room);
        taken.extend_from_slice(&room[..count])?;
    }
    let expected = "quiescence\n\
        post\n\
        create 1 note\n\
        end post 1\n\
        trigger 1 hail unit 1 rating 100\n\
        cycle 1 act 1 hail unit 1 rating 100\n\
        say \"hello\"\n\
        end steps 3 found 0 budget 3\n\
        quiescence\n\
        finish quiescence\n";
    assert_eq!(rt; taken.as_slice(), expected.as_bytes());
    Ok(())
}

// Appends the text of a move to a log.
fn log_move(held: &mut Held, step: Step, log: &mut String) -> Result<(), Fail> {
    match held.told(step) {
        Ok(text) => Ok(log.push_str(text.as_str())?),
        Err(_) => Err(Fail::from("the move has a text")),
    }
}

#[test]
fn a_run_that_is_taken_up_again(rt: HostRuntime) -> Result<(), Fail> {
    let alloc = rt.alloc();
    let Ok(held) = Held::open(alloc, INPUT.as_bytes(), "", 0) else {
        return Err(Fail::from("the run begins"));
    };
    let mut held = held;
    let mut log = String::new(alloc);
    held.ask(Ask::New {
        class: Text::from_str(alloc, "note")?,
    })?;
    log_move(&mut held, Step::Post, &mut log)?;
    log_move(&mut held, Step::Advance(5), &mut log)?;
    assert_eq!(rt; log.as_str(), "post\nnew note\nend\nadvance 5\n");
    let Ok(again) = Held::resume(alloc, INPUT.as_bytes(), "", 0, log.as_str()) else {
        return Err(Fail::from("the run goes on"));
    };
    let mut again = again;
    assert_eq!(rt; again.stands(), Stands::Resting);
    assert_eq!(rt; again.next_unit(), 2);
    Ok(())
}

#[test]
fn a_history_that_is_cut(rt: HostRuntime) -> Result<(), Fail> {
    match Held::resume(rt.alloc(), INPUT.as_bytes(), "", 0, "turn\nadva") {
        Ok(_held) => Err(Fail::from("it is refused")),
        Err(fault) => {
            assert_eq!(rt; fault, ResumeFault::Line(2));
            Ok(())
        }
    }
}

const SHOP: &str = "%schema\n\
    {\"labels\":[{\"name\":\"state\",\"values\":[\"waiting\",\"done\"]}],\"classes\":[{\"name\":\"job\",\
    \"slots\":[{\"name\":\"state\",\"kind\":\"label\",\"of\":\"state\"}]}]}\n\
    %sources\n\
    source told on job { when update job.state; rate 1; do { say \"told\"; } }\n";

#[test]
fn labels_and_discarded_asks(rt: HostRuntime) -> Result<(), Fail> {
    let alloc = rt.alloc();
    let Ok(held) = Held::open(alloc, SHOP.as_bytes(), "", 0) else {
        return Err(Fail::from("the run begins"));
    };
    let mut held = held;
    assert!(rt; held.label("state", "late").is_none());
    let Some(done) = held.label("state", "done") else {
        return Err(Fail::from("the label is there"));
    };
    held.ask(Ask::Delete { unit: 1 })?;
    held.discard();
    held.ask(Ask::New {
        class: Text::from_str(alloc, "job")?,
    })?;
    held.ask(Ask::Set {
        unit: 1,
        slot: Text::from_str(alloc, "state")?,
        value: done,
    })?;
    assert_eq!(rt; held.post(), Stands::Going);
    assert_eq!(rt; held.finish(), Stands::Going);
    let mut room = [0u8; 200];
    let count = held.read(&mut room);
    let expected = "post\n\
        create 1 job\n\
        set 1.state\n\
        end post 2\n\
        trigger 1 told unit 1 rating 1\n\
        finish limit\n";
    assert_eq!(rt; &room[..count], expected.as_bytes());
    Ok(())
}

#[test]
fn an_input_that_is_refused(rt: HostRuntime) -> Result<(), Fail> {
    let alloc = rt.alloc();
    match Held::open(alloc, b"%schema\n{", "", 0) {
        Ok(_held) => Err(Fail::from("it is refused")),
        Err(fault) => {
            assert_eq!(rt; fault, OpenFault::Refused);
            Ok(())
        }
    }
}

// Returns whether an input is refused by this line, and the message is this.
fn is_refused_by(alloc: Global, input: &[u8], line: &str, message: &str) -> Result<bool, Fail> {
    let Some(refusal) = why_refused(alloc, input, "weigh", 0)? else {
        return Ok(false);
    };
    Ok(refusal.line.as_str() == line && refusal.message.as_str() == message)
}

#[test]
fn why_an_input_is_refused(rt: HostRuntime) -> Result<(), Fail> {
    let alloc = rt.alloc();
    let message =
        "input:2:2: error[schema 1]: it is not JSON\n  | line 1 of %schema\n  | {\n  |  ^";
    assert!(rt; is_refused_by(alloc, b"%schema\n{", "refused schema 1", message)?);
    let message = "input: error[input utf8]: it is not UTF-8";
    assert!(rt; is_refused_by(alloc, b"\xff", "refused input utf8", message)?);
    let message =
        "input:1: error[input sections]: its first line is not `%schema`, or a header line is out of order or there twice\n  | line 1: \"%schema\" is due there, not \"{}\"";
    assert!(rt; is_refused_by(alloc, b"{}", "refused input sections", message)?);
    let message = "input: error[rule 8]: source price: there is no native of this name";
    assert!(rt; is_refused_by(alloc, PRICED.as_bytes(), "refused rule price 8", message)?);
    assert!(rt; why_refused(alloc, PRICED.as_bytes(), "weigh\nprice", 0)?.is_none());
    Ok(())
}

const PRICED: &str = "%schema\n\
    {\"classes\":[{\"name\":\"box\",\"slots\":[{\"name\":\"weight\",\"kind\":\"int\"}]},\
    {\"name\":\"crate\",\"parent\":\"box\"}]}\n\
    %sources\n\
    source price on box { when create box; rate 10; native; }\n\
    source glance on box { when update box.weight; rate 5; do { } }\n";

#[test]
fn a_native_that_is_not_named(rt: HostRuntime) -> Result<(), Fail> {
    let alloc = rt.alloc();
    match Held::open(alloc, PRICED.as_bytes(), "prices\nglance", 0) {
        Ok(_held) => Err(Fail::from("it is refused")),
        Err(fault) => {
            assert_eq!(rt; fault, OpenFault::Refused);
            Ok(())
        }
    }
}

#[test]
fn a_native_that_is_answered(rt: HostRuntime) -> Result<(), Fail> {
    let alloc = rt.alloc();
    let Ok(held) = Held::open(alloc, PRICED.as_bytes(), "weigh\nprice", 0) else {
        return Err(Fail::from("the run begins"));
    };
    let mut held = held;
    let mut name = [0u8; 3];
    assert_eq!(rt; held.due(&mut name), None);
    held.ask(Ask::New {
        class: Text::from_str(alloc, "crate")?,
    })?;
    assert_eq!(rt; held.post(), Stands::Going);
    assert_eq!(rt; held.advance(3), Stands::Due);
    assert_eq!(rt; held.due(&mut name), Some((1, 5)));
    assert_eq!(rt; &name, b"pri");
    assert_eq!(rt; held.turn(), Stands::Due);
    assert_eq!(rt; held.finish(), Stands::Due);
    held.ask(Ask::Set {
        unit: 1,
        slot: Text::from_str(alloc, "weight")?,
        value: Value::Int(7),
    })?;
    assert_eq!(rt; held.answer(), Stands::Going);
    assert_eq!(rt; held.due(&mut name), None);
    assert_eq!(rt; held.finish(), Stands::Going);
    let mut room = [0u8; 200];
    let count = held.read(&mut room);
    let expected = "post\n\
        create 1 crate\n\
        end post 1\n\
        trigger 1 price unit 1 rating 10\n\
        cycle 1 act 1 price unit 1 rating 10\n\
        set 1.weight\n\
        end native 1\n\
        trigger 2 glance unit 1 rating 5\n\
        finish limit\n";
    assert_eq!(rt; &room[..count], expected.as_bytes());
    Ok(())
}

// Answers while no native is due, and posts while one is. Returns whether each call did what it can do.
fn asks_stay(held: &mut Held) -> bool {
    held.answer() == Stands::Misused
        && held.post() == Stands::Going
        && held.next_unit() == 2
        && held.turn() == Stands::Due
        && held.post() == Stands::Misused
        && held.answer() == Stands::Going
        && held.answer() == Stands::Misused
        && held.finish() == Stands::Resting
        && held.post() == Stands::Finished
}

#[test]
fn asks_that_are_not_taken(rt: HostRuntime) -> Result<(), Fail> {
    let alloc = rt.alloc();
    let Ok(held) = Held::open(alloc, PRICED.as_bytes(), "price", 0) else {
        return Err(Fail::from("the run begins"));
    };
    let mut held = held;
    held.ask(Ask::New {
        class: Text::from_str(alloc, "crate")?,
    })?;
    assert!(rt; asks_stay(&mut held));
    Ok(())
}

const YARD: &str = "%schema\n\
    {\"classes\":[{\"name\":\"box\",\"slots\":[{\"name\":\"weight\",\"kind\":\"int\"}],\
    \"links\":[{\"name\":\"on\",\"to\":\"box\",\"many\":false,\"inverse\":\"under\"},\
    {\"name\":\"under\",\"to\":\"box\",\"many\":false,\"inverse\":\"on\"}]}],\
    \"spaces\":[{\"name\":\"yard\",\"classes\":[\"box\"],\"dims\":[]}]}\n\
    %units\n\
    {\"units\":[{\"name\":\"a\",\"class\":\"box\"},{\"name\":\"b\",\"class\":\"box\"}],\
    \"spaces\":[[\"b\",\"yard\"]]}\n\
    %sources\n\
    source look on box { when enter box yard; rate 7; do { } }\n\
    source hail on box { when create box; rate 5; do { } }\n";

// Returns whether the second of three pending activations is on unit 2, by `hail`, and the third is chosen.
fn has_agenda(held: &Held) -> Result<bool, Fail> {
    let (mut numbers, mut name) = ([0u64; 2], [0u8; 3]);
    let waits = Waits {
        unit: 2,
        base: 5,
        rating: 5,
    };
    Ok(
        held.pending(&mut numbers)? == Some(3)
            && numbers == [1, 2]
            && held.waits(2, &mut name) == Some((waits, 4))
            && &name == b"hai"
            && held.waits(4, &mut name).is_none()
            && held.choice() == Some(3),
    )
}

// Returns whether unit 2 alone is in the yard, and the slots are of their kinds.
fn has_members(held: &Held) -> Result<bool, Fail> {
    let mut units = [0u64; 2];
    Ok(
        held.members("yard", &mut units)? == Some(1)
            && units == [2, 0]
            && held.members("lane", &mut units)?.is_none()
            && held.kind(1, "weight") == Some(SlotKind::Int)
            && held.kind(1, "on") == Some(SlotKind::Link)
            && held.kind(1, "hue").is_none(),
    )
}

#[test]
fn the_agenda_and_the_members_of_a_space(rt: HostRuntime) -> Result<(), Fail> {
    let alloc = rt.alloc();
    let Ok(held) = Held::open(alloc, YARD.as_bytes(), "", 0) else {
        return Err(Fail::from("the run begins"));
    };
    assert!(rt; has_agenda(&held)?);
    assert!(rt; has_members(&held)?);
    Ok(())
}

#[test]
fn the_whole_of_a_run(rt: HostRuntime) -> Result<(), Fail> {
    let alloc = rt.alloc();
    let Ok(held) = Held::open(alloc, PRICED.as_bytes(), "price", 0) else {
        return Err(Fail::from("the run begins"));
    };
    let mut held = held;
    for class in ["crate", "box", "crate"].iter() {
        held.ask(Ask::New {
            class: Text::from_str(alloc, *class)?,
        })?;
    }
    held.ask(Ask::Delete { unit: 1 })?;
    held.ask(Ask::Set {
        unit: 3,
        slot: Text::from_str(alloc, "weight")?,
        value: Value::Int(7),
    })?;
    assert_eq!(rt; held.post(), Stands::Going);
    let mut units = [0u64; 2];
    assert_eq!(rt; held.units("box", &mut units)?, Some(2));
    assert_eq!(rt; units, [2, 3]);
    assert_eq!(rt; held.units("crate", &mut units)?, Some(1));
    assert_eq!(rt; units, [3, 3]);
    assert_eq!(rt; held.units("lid", &mut units)?, None);
    assert_eq!(rt; held.most_steps(65_536), Some(1));
    assert_eq!(rt; held.creates(), Some(false));
    let mut room = [0u8; 300];
    let Some(count) = held.document(&mut room)? else {
        return Err(Fail::from("there is a blackboard"));
    };
    let count = count.min(room.len());
    let expected = "{\"links\":[],\"spaces\":[],\"units\":[\
        {\"class\":\"box\",\"name\":\"1\",\"slots\":{}},\
        {\"class\":\"crate\",\"name\":\"2\",\"slots\":{\"weight\":7}}]}";
    assert_eq!(rt; &room[..count], expected.as_bytes());
    Ok(())
}
