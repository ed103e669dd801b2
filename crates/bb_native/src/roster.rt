//! The natives that a host passes to a run. The run looks up natives here by name, makes them act, and closes them.

ghost use Rattle.std.specs.Prelude.{◌≡◌, ◌<◌, pos, true, length, map, position, IfSome, IfOk, OnOk, OnErr};
ghost use Rattle.std.specs.Str.{bytes_eq};
ghost use Rattle.bb_native.specs.Native.{asks_of, after_act, closing_of};
ghost use Rattle.bb_native.specs.Roster.{all_open, unclosed, place_of as place_among, asks_at, after_act_at, closings_of, sum_said};

use crate::ask::Ask;
use crate::closing::Closing;
use crate::native_source::NativeSource;
use crate::view::View;
use bb_basis::{Items, Memory, Text};
use bb_schema::UnitId;
use std::alloc::Global;

/// The names of a roster's natives and the numbers that they said when they were closed, in the order of the roster.
pub type Closed = Items<Closing>;

/// Natives in the order they were passed in, all open. Contracts see the list of their meanings,
/// `map N.meaning roster.natives.items`. A roster can't be dropped, and only `close_all` consumes it. Therefore no
/// native is dropped while it is open, and none is called after it is closed.
pub struct Roster<N: NativeSource> {
    natives: Vec<N>,
    closings: Vec<Closing>,
    ghost opened: { all_open (map N.meaning natives.items) ≡ true },
    ghost named: { closings.items ≡ map unclosed (map N.meaning natives.items) },
}

impl<N: NativeSource> Roster<N> {
    /// Makes a roster of open natives. On an error, closes every native, in order.
    pub fn new(alloc: Global, natives: Vec<N>) -> Result<Roster<N>, Memory>
        requires { all_open (map N.meaning natives.items) ≡ true }
        ensures { IfOk result (λ roster. map N.meaning roster.natives.items ≡ map N.meaning natives.items) }
    {
        match unclosed_all(alloc, &natives) {
            Ok(closings) => Ok(Roster { natives, closings }),
            Err(refused) => {
                close_each(natives);
                Err(refused)
            }
        }
    }

    /// Returns the index of the first native with a name, if there is one.
    pub fn place(&self, name: &str) -> Option<usize>
        ensures place { result ≡ place_among (map N.meaning self.now.natives.items) name.now }
        ensures within { IfSome result (λ place. place < length (map N.meaning self.now.natives.items)) }
    {
        place_of(&self.closings, name)
    }

    /// Returns the names of the natives, each with number 0, in the order they were passed in.
    pub fn handed_in(&self) -> &[Closing]
        ensures { result.now ≡ map unclosed (map N.meaning self.now.natives.items) }
    {
        &self.closings
    }

    /// Returns the asks of the native at an index for a unit and its view of the blackboard, in order. The native then
    /// holds its next list. On an error, nothing changes.
    pub fn act(
        &mut self,
        alloc: Global,
        place: usize,
        unit: UnitId,
        view: &View<'_>,
    ) -> Result<Vec<Ask>, Memory>
        requires { place < length (map N.meaning self.old.natives.items) }
        ensures asks { IfOk result (λ asks.
            asks.items ≡ asks_at (map N.meaning self.old.natives.items) place unit view.now) }
        ensures ok { OnOk result
            (map N.meaning self.new.natives.items
            ≡ after_act_at (map N.meaning self.old.natives.items) place unit view.now) }
        ensures err { OnErr result (map N.meaning self.new.natives.items ≡ map N.meaning self.old.natives.items) }
    {
        self.natives[place].act(alloc, unit, view)
    }

    /// Closes every native once, in order, drops it, and returns the numbers that they said. Allocates nothing.
    pub fn close_all(self) -> Closed
        ensures { result ≡ closings_of (map N.meaning self.natives.items) }
    {
        let Roster { natives, closings } = self;
        Items::from(close_into(natives, closings))
    }
}

// The index of the first closing with a name.
fn place_of(closings: &[Closing], name: &str) -> Option<usize>
    ensures { result ≡ position (λ (c : Closing). bytes_eq c.name name.now) closings.now }
{
    closings
        .iter()
        .position(|closing| closing.name.as_str() == name)
}

// The name of a native, with number 0.
fn unclosed<N: NativeSource>(alloc: Global, native: &N) -> Result<Closing, Memory>
    ensures { IfOk result (λ closing. closing ≡ unclosed (N.meaning native.now)) }
{
    Ok(Closing {
        name: Text::from_str(alloc, native.name())?,
        number: 0,
    })
}

// The names of natives, each with number 0.
fn unclosed_all<N: NativeSource>(alloc: Global, natives: &[N]) -> Result<Vec<Closing>, Memory>
    ensures { IfOk result (λ closings. closings.items ≡ map unclosed (map N.meaning natives.now)) }
{
    let mut closings = Vec::new(alloc);
    for native in natives {
        closings.push(unclosed(alloc, native)?)?;
    }
    Ok(closings)
}

// Closes a native, drops it, and returns the number that it said.
fn close<N: NativeSource>(native: N) -> i64
    requires { (N.meaning native).is_open ≡ true }
    ensures { result ≡ closing_of (N.meaning native) }
{
    let mut native = native;
    native.close()
}

/// Closes every one of some open natives once, in order, drops it, and returns the sum of the numbers that they said,
/// wrapping around at 64 bits. Only a close gives a native's number. Allocates nothing.
pub fn close_each<N: NativeSource>(natives: Vec<N>) -> i64
    requires { all_open (map N.meaning natives.items) ≡ true }
    ensures { result ≡ sum_said (pos 0) (map N.meaning natives.items) }
{
    let mut sum: i64 = 0;
    for native in natives {
        sum = sum.wrapping_add(close(native));
    }
    sum
}

// Closes natives and drops them, in order, and sets the number of each next to its name.
fn close_into<N: NativeSource>(natives: Vec<N>, closings: Vec<Closing>) -> Vec<Closing>
    requires opened { all_open (map N.meaning natives.items) ≡ true }
    requires named { closings.items ≡ map unclosed (map N.meaning natives.items) }
    ensures { result.items ≡ closings_of (map N.meaning natives.items) }
{
    let mut closings = closings;
    let mut at = 0;
    for native in natives {
        closings[at].number = close(native);
        at += 1;
    }
    closings
}
