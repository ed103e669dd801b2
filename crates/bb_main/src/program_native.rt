//! The natives of the program, `tally` and `reaper`. `program` hands them in.

ghost use Rattle.std.specs.Prelude.{◌≡◌, pos, true, map, IfOk};
ghost use Rattle.bb_main.specs.Natives.{asks_by, name_of, program_natives};

use bb_shell::{Ask, Memory, NativeSource, Text, UnitId, Value, View};
use std::alloc::Global;

/// The natives that the program has.
#[derive(Clone, Copy, Debug, PartialEq, Eq)]
pub enum Trade {
    /// `tally` sets the slot `count` of its unit to the number of its executions, this one included.
    Tally,
    /// `reaper` deletes its unit.
    Reaper,
}

/// A native of the program. It counts its executions, and says their number when it is closed.
#[derive(Debug, Drop)]
pub struct ProgramNative {
    trade: Trade,
    count: i64,
    is_open: bool,
}

impl NativeSource for ProgramNative {
    ghost use Rattle.bb_main.specs.Natives.{meant};

    ghost meaning = { λ native. meant native.trade native.count native.is_open };

    fn name(&self) -> &str {
        name_of(self.trade)
    }

    fn act(&mut self, alloc: Global, unit: UnitId, _view: &View<'_>) -> Result<Vec<Ask>, Memory> {
        let count = self.count.saturating_add(1);
        let asks = asks_by(alloc, self.trade, unit, count)?;
        self.count = count;
        Ok(asks)
    }

    fn close(&mut self) -> i64 {
        self.is_open = false;
        self.count
    }
}

// Returns the name of a native.
fn name_of(trade: Trade) -> &'static str
    ensures { result.now ≡ name_of trade }
{
    match trade {
        Trade::Tally => "tally",
        Trade::Reaper => "reaper",
    }
}

// Returns the asks of a native for a unit at execution number `count`.
fn asks_by(alloc: Global, trade: Trade, unit: UnitId, count: i64) -> Result<Vec<Ask>, Memory>
    ensures { IfOk result (λ asks. asks.items ≡ asks_by trade unit count) }
{
    let mut asks = Vec::new(alloc);
    match trade {
        Trade::Tally => asks.push(Ask::Set {
            unit,
            slot: Text::from_str(alloc, "count")?,
            value: Value::Int(count),
        })?,
        Trade::Reaper => asks.push(Ask::Delete { unit })?,
    }
    Ok(asks)
}

// Returns a native that was not called yet.
fn idle(trade: Trade) -> ProgramNative
    ensures { result ≡ record { trade = trade; count = pos 0; is_open = true } }
{
    ProgramNative {
        trade,
        count: 0,
        is_open: true,
    }
}

/// Returns the natives of the program, which were not called yet. `Memory`: memory ran out.
pub fn program_natives(alloc: Global) -> Result<Vec<ProgramNative>, Memory>
    ensures { IfOk result (λ natives. map ⟦<ProgramNative as NativeSource>⟧.meaning natives.items ≡ program_natives) }
{
    let mut natives = Vec::new(alloc);
    natives.push(idle(Trade::Tally))?;
    natives.push(idle(Trade::Reaper))?;
    Ok(natives)
}
