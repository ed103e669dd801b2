//! Tests of the agenda with enough memory: every call that can need it, what becomes of each activation, and an agenda
//! compared with plain lists.

use bb_agenda::{Activation, Agenda, Focus, Numbers, RatedSource, Status};
use bb_basis::Text;
use bb_schema::{ClassId, Schema, SharedSchema, UnitId};
use std::alloc::Global;
use std::test::Fail;

// Class 0 is `focus`, so `thing` and `word` are 1 and 2.
const SCHEMA: &str = r#"{"classes":[{"name":"thing"},{"name":"word","parent":"thing"}]}"#;

fn source(alloc: Global, name: &str, class: ClassId) -> Result<RatedSource, Fail> {
    Ok(RatedSource {
        name: Text::from_str(alloc, name)?,
        class,
    })
}

// An agenda of `hail`, which works on things, and of `echo`, which works on words.
fn agenda(alloc: Global) -> Result<Agenda, Fail> {
    let mut sources = Vec::new(alloc);
    sources.push(source(alloc, "hail", 1)?)?;
    sources.push(source(alloc, "echo", 2)?)?;
    let schema = Schema::read(alloc, SCHEMA)?;
    Ok(Agenda::new(alloc, SharedSchema::new(alloc, schema)?, sources))
}

// A focus on `echo` by its name and by the class above its own.
fn echo_on_things(alloc: Global) -> Result<Focus, Fail> {
    Ok(Focus {
        source: Text::from_str(alloc, "echo")?,
        area: Text::from_str(alloc, "thing")?,
        weight: 30,
        active: true,
    })
}

// Numbers as a list.
fn listed(alloc: Global, numbers: Numbers<'_>) -> Result<Vec<u64>, Fail> {
    let mut list = Vec::new(alloc);
    for number in numbers {
        list.push(number)?;
    }
    Ok(list)
}

// The numbers of the pending activations.
fn pending(alloc: Global, agenda: &Agenda) -> Result<Vec<u64>, Fail> {
    let mut list = Vec::new(alloc);
    for number in agenda.pending() {
        list.push(*number)?;
    }
    Ok(list)
}

#[test]
fn agenda_after_changes(rt: HostRuntime) -> Result<(), Fail> {
    let alloc = rt.alloc();
    let mut agenda = agenda(alloc)?;
    assert_eq!(rt; agenda.add(0, 1, 100), Ok(1));
    assert_eq!(rt; agenda.add(1, 1, 100), Ok(2));
    assert_eq!(rt; agenda.choose(0), Some(1));
    assert_eq!(rt; agenda.rerate(2, 150), Ok(()));
    assert_eq!(rt; agenda.choose(0), Some(2));
    assert_eq!(rt; agenda.choose(151), None);
    assert_eq!(rt; pending(alloc, &agenda)?.as_slice(), [1, 2].as_slice());
    assert_eq!(rt;
        listed(alloc, agenda.pending_for(1))?.as_slice(),
        [2].as_slice()
    );
    assert_eq!(rt;
        listed(alloc, agenda.pending_on(0, 1))?.as_slice(),
        [1].as_slice()
    );
    assert_eq!(rt;
        listed(alloc, agenda.pending_on(0, 2))?.as_slice(),
        [].as_slice()
    );
    assert_eq!(rt; agenda.obviate(2), Ok(()));
    assert_eq!(rt; agenda.executed(1), Ok(()));
    assert_eq!(rt; pending(alloc, &agenda)?.as_slice(), [].as_slice());
    assert_eq!(rt;
        listed(alloc, agenda.pending_for(1))?.as_slice(),
        [].as_slice()
    );
    assert_eq!(rt; agenda.choose(0), None);
    assert_eq!(rt; agenda.status(2), Some(Status::Obviated));
    assert_eq!(rt; agenda.status(1), Some(Status::Executed));
    assert_eq!(rt; agenda.status(3), None);
    Ok(())
}

#[test]
fn foci_on_the_agenda(rt: HostRuntime) -> Result<(), Fail> {
    let alloc = rt.alloc();
    let mut agenda = agenda(alloc)?;
    assert_eq!(rt; agenda.add(0, 1, 100), Ok(1));
    assert_eq!(rt; agenda.add(1, 1, 100), Ok(2));
    assert_eq!(rt; agenda.focus_set(9, echo_on_things(alloc)?), Ok(()));
    assert_eq!(rt; agenda.choose(130), Some(2));
    assert_eq!(rt; agenda.focus_gone(9), Ok(()));
    assert_eq!(rt; agenda.choose(0), Some(1));
    Ok(())
}

// Makes one of eight changes, and returns whether it was made.
fn is_changed(alloc: Global, agenda: &mut Agenda, turn: u32) -> Result<bool, Fail> {
    let focus = echo_on_things(alloc)?;
    Ok(match turn {
        0 => agenda.add(0, 1, 100).is_ok(),
        1 => agenda.add(1, 2, 50).is_ok(),
        2 => agenda.rerate(1, 70).is_ok(),
        3 => agenda.focus_set(9, focus).is_ok(),
        4 => agenda.obviate(1).is_ok(),
        5 => agenda.focus_gone(9).is_ok(),
        6 => agenda.executed(2).is_ok(),
        _ => agenda.add(0, 3, 1).is_ok(),
    })
}

// What an agenda answers of its first two activations.
fn answers(agenda: &Agenda) -> (usize, Option<u64>, Option<Status>, Option<Status>) {
    (
        agenda.pending().len(),
        agenda.choose(0),
        agenda.status(1),
        agenda.status(2),
    )
}

// No change is made after one to which memory is refused, and what is read answers as before. Here memory suffices for
// all; `tools/refuse` runs this test once for each request for memory, which is refused then.
#[test]
fn no_change_after_a_refused_one(rt: HostRuntime) -> Result<(), Fail> {
    let alloc = rt.alloc();
    let mut agenda = agenda(alloc)?;
    let mut refused = false;
    for turn in 0..8 {
        let before = answers(&agenda);
        if is_changed(alloc, &mut agenda, turn)? {
            assert!(rt; !refused, "change {turn} after a refused one");
        } else {
            assert!(rt; answers(&agenda) == before, "change {turn}");
            refused = true;
        }
    }
    let obviated = Some(Status::Obviated);
    let executed = Some(Status::Executed);
    assert!(rt; refused || answers(&agenda) == (1, Some(3), obviated, executed));
    Ok(())
}

// An agenda as plain lists, which are walked for each answer.
#[derive(Drop)]
struct Plain {
    pending: Vec<Activation>,
    // The unit of a focus, the source that it is on, if on one, and its weight.
    foci: Vec<(UnitId, Option<u16>, i64)>,
}

impl Plain {
    fn rating(&self, activation: &Activation) -> i128 {
        let mut sum = i128::from(activation.base);
        for focus in &self.foci {
            let matches = match focus.1 {
                None => true,
                Some(source) => source == activation.source,
            };
            if matches {
                sum = sum.wrapping_add(i128::from(focus.2));
            }
        }
        sum
    }

    fn choose(&self, floor: i64) -> Option<u64> {
        let mut best: Option<(i128, u64)> = None;
        for activation in &self.pending {
            let rating = self.rating(activation);
            let behind = match best {
                None => rating < i128::from(floor),
                Some((highest, _)) => rating <= highest,
            };
            if !behind {
                best = Some((rating, activation.number));
            }
        }
        let (_, number) = best?;
        Some(number)
    }

    fn take(&mut self, number: u64) {
        self.pending
            .retain(|activation| activation.number != number);
    }

    fn rerate(&mut self, number: u64, base: i64) {
        for activation in self.pending.iter_mut() {
            if activation.number == number {
                activation.base = base;
            }
        }
    }

    fn focus_gone(&mut self, unit: UnitId) {
        self.foci.retain(|focus| focus.0 != unit);
    }

    // Whether an agenda has the same activations, ratings and choice.
    fn agrees(&self, agenda: &Agenda) -> bool {
        let numbers = agenda.pending();
        if numbers.len() != self.pending.len() {
            return false;
        }
        for (number, activation) in numbers.zip(self.pending.iter()) {
            if *number != activation.number
                || agenda.rating_of(activation) != self.rating(activation)
            {
                return false;
            }
        }
        agenda.choose(12) == self.choose(12)
    }
}

// A focus on `hail`, on `echo` or on all sources, with the source's index.
fn some_focus(alloc: Global, pick: u64, weight: i64) -> Result<(Focus, Option<u16>), Fail> {
    let (name, source) = match pick {
        0 => ("hail", Some(0)),
        1 => ("echo", Some(1)),
        _ => ("", None),
    };
    let focus = Focus {
        source: Text::from_str(alloc, name)?,
        area: Text::from_str(alloc, "")?,
        weight,
        active: true,
    };
    Ok((focus, source))
}

// Makes one change, chosen by a number, to an agenda and to plain lists.
fn change(alloc: Global, agenda: &mut Agenda, plain: &mut Plain, seed: u64) -> Result<(), Fail> {
    let (source, base) = (((seed >> 40) % 2) as u16, ((seed >> 42) % 8) as i64);
    let unit = (seed >> 46) % 3;
    let number = match plain.pending.get(((seed >> 20) % 16) as usize) {
        None => 0,
        Some(activation) => activation.number,
    };
    match (seed >> 60) % 16 {
        0..=2 => {
            agenda.obviate(number)?;
            plain.take(number);
        }
        3 | 4 => {
            agenda.rerate(number, base)?;
            plain.rerate(number, base);
        }
        5 => {
            agenda.focus_gone(unit)?;
            plain.focus_gone(unit);
        }
        6 | 7 => {
            let (focus, on) = some_focus(alloc, (seed >> 50) % 3, base)?;
            agenda.focus_set(unit, focus)?;
            plain.focus_gone(unit);
            plain.foci.push((unit, on, base))?;
        }
        8..=10 => {
            if let Some(number) = agenda.choose(0) {
                agenda.executed(number)?;
                plain.take(number);
            }
        }
        _ => {
            if let Ok(number) = agenda.add(source, unit, base) {
                let activation = Activation {
                    number,
                    source,
                    unit,
                    base,
                };
                plain.pending.push(activation)?;
            }
        }
    }
    Ok(())
}

// Whether an agenda and plain lists choose the same after each of `times` changes, and now and then agree in all.
fn agree(alloc: Global, times: u64) -> Result<bool, Fail> {
    let mut agenda = agenda(alloc)?;
    let mut plain = Plain {
        pending: Vec::new(alloc),
        foci: Vec::new(alloc),
    };
    let mut seed: u64 = 1;
    for turn in 0..times {
        seed = seed
            .wrapping_mul(6_364_136_223_846_793_005)
            .wrapping_add(1_442_695_040_888_963_407);
        change(alloc, &mut agenda, &mut plain, seed)?;
        if agenda.choose(0) != plain.choose(0) {
            return Ok(false);
        }
        if turn % 32 == 0 && !plain.agrees(&agenda) {
            return Ok(false);
        }
    }
    Ok(true)
}

#[test]
fn as_plain_lists(rt: HostRuntime) -> Result<(), Fail> {
    assert!(rt; agree(rt.alloc(), 2_000)?);
    Ok(())
}
