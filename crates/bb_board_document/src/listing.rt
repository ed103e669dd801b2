//! A blackboard with a list of its live units, which determines the units' names. `document.rt` makes one, and the
//! writers of entries use it.

ghost use Rattle.std.specs.Prelude.{◌≡◌, ◌≤◌, IfOk, decimal, filter, length, nat_lt};
ghost use Rattle.std.specs.List.Sorted.{IsStrictlySortedBy};
ghost use Rattle.std.specs.Ordering.{nat_cmp};
ghost use Rattle.serde_json.specs.Data.{string};
ghost use Rattle.serde_json.specs.View.{view};
ghost use Rattle.bb_units.specs.Units.{live_units};
ghost use Rattle.bb_board_document.specs.Document.{name_of};

use bb_basis::Memory;
use bb_native::View;
use bb_schema::{Schema, UnitId};
use serde_json::Value as Json;
use std::alloc::Global;
use std::marker::Model;

/// A blackboard and its live units, ascending. Contracts see the view that a native has of the blackboard.
#[derive(Drop)]
pub(crate) struct Listing<'a> {
    view: &'a View<'a>,
    live: Vec<UnitId>,
}

impl<'a> Model for Listing<'a> {
    ghost use Rattle.std.specs.Prelude.{◌≡◌};
    ghost use Rattle.bb_native.specs.Sight.{Sight};
    ghost use Rattle.bb_native.specs.proving.Codes.{sight_code};
    ghost use Rattle.bb_units.specs.Units.{live_units};

    ghost Value = { Sight };

    ghost coded = { sight_code };

    ghost view = { λ l. l.view.now };

    ghost invariant = { λ l. l.live.items ≡ live_units l.view.now.world.units };
}

// The number of units in an ascending list that are lower than a unit.
fn lower(live: &[UnitId], unit: UnitId) -> usize
    requires { IsStrictlySortedBy nat_cmp live.now }
    ensures count { result ≡ length (filter (λ n. nat_lt n unit) live.now) }
    ensures bound { result ≤ length live.now }
{
    match live.binary_search(&unit) {
        Ok(place) => place,
        Err(place) => place,
    }
}

// A number as a text in JSON.
fn numbered(alloc: Global, number: u64) -> Result<Json, Memory>
    ensures { IfOk result (λ json. view json ≡ string (decimal number)) }
{
    Ok(Json::String(format!(in alloc; "{number}")?))
}

impl<'a> Listing<'a> {
    /// Makes the listing of a blackboard. Fails only if memory runs out.
    pub(crate) fn new(view: &'a View<'a>) -> Result<Listing<'a>, Memory>
        ensures { IfOk result (λ listing. listing ≡ view.now) }
    {
        Ok(Listing {
            view,
            live: view.units()?,
        })
    }

    /// Returns the blackboard.
    pub(crate) fn view(&self) -> &View<'a>
        ensures { result.now ≡ self.now }
    {
        self.view
    }

    /// Returns the schema.
    pub(crate) fn schema(&self) -> &Schema
        ensures { result.now ≡ self.now.schema }
    {
        self.view.schema()
    }

    /// Returns the live units, ascending.
    pub(crate) fn units(&self) -> &[UnitId]
        ensures { result.now ≡ live_units self.now.world.units }
    {
        &self.live
    }

    /// Returns the name of a unit: 1 plus the count of live units with lower numbers, in decimal.
    pub(crate) fn name(&self, alloc: Global, unit: UnitId) -> Result<Json, Memory>
        ensures { IfOk result (λ json. view json ≡ string (name_of self.now unit)) }
    {
        numbered(alloc, lower(&self.live, unit) as u64 + 1)
    }
}
