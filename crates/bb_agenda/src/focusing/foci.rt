//! The foci that are set, and what they add to ratings. steering.rt keeps them.

ghost use Rattle.std.specs.Prelude.{◌≡◌, ◌+ℤ◌, Bool, Some, IfOk, OnOk, OnErr, option_map};
ghost use Rattle.std.specs.FinMap as fin;
ghost use Rattle.bb_agenda.specs.declared.focusing.focus.Focus.{Focus as Weighing};
ghost use Rattle.bb_agenda.specs.focusing.Rating.{rating_at};
ghost use Rattle.bb_agenda.specs.focusing.proving.Weights.{weight_by, part_of, IsSum};
ghost use Rattle.bb_agenda.specs.focusing.proving.Entries.{foci_of};

use crate::focusing::aim::Aim;
use crate::focusing::focus::Focus;
use crate::focusing::setting::Setting;
use bb_basis::Memory;
use bb_schema::UnitId;
use std::alloc::Global;
use std::collections::BTreeMap;
use std::marker::Model;

/// Foci, each under the number of its unit.
#[derive(Drop)]
pub(crate) struct Foci {
    foci: BTreeMap<UnitId, Focus>,
}

impl Model for Foci {
    ghost use Rattle.bb_agenda.specs.focusing.Foci.{Foci as Set};
    ghost use Rattle.bb_agenda.specs.focusing.proving.Codes.{foci_code};
    ghost use Rattle.bb_agenda.specs.focusing.proving.Entries.{foci_of};

    ghost Value = { Set };

    ghost coded = { foci_code };

    ghost view = { λ f. foci_of f.foci.entries };

    ghost use Rattle.std.specs.List.{AllByRecursion};
    ghost use Rattle.bb_agenda.specs.focusing.proving.Weights.{IsWeight};

    ghost invariant = { λ f. AllByRecursion (λ e. IsWeight e.1.weight) f.foci.entries };
}

// A base plus the weights of all foci that match the source at a place.
fn weighed(foci: &BTreeMap<UnitId, Focus>, setting: &Setting, place: usize, base: i64) -> i128
    ensures { result ≡ rating_at setting.now.schema setting.now.sources (foci_of foci.now.entries) place base }
{
    let mut sum = i128::from(base);
    for focus in foci.values() {
        sum += i128::from(Aim::new(setting, focus).part(place));
    }
    sum
}

impl Foci {
    /// Creates an empty set of foci. Allocates nothing.
    pub(crate) fn new(alloc: Global) -> Foci
        ensures { result ≡ fin.empty }
    {
        Foci {
            foci: BTreeMap::new(alloc),
        }
    }

    /// Returns the rating of an activation of the source at an index.
    pub(crate) fn rating(&self, setting: &Setting, place: usize, base: i64) -> i128
        ensures { result ≡ rating_at setting.now.schema setting.now.sources self.now place base }
    {
        weighed(&self.foci, setting, place, base)
    }

    /// Returns the focus of a unit, if it has one.
    pub(crate) fn get(&self, unit: UnitId) -> Option<&Focus>
        ensures { option_map (λ f. f.now) result ≡ fin.get self.now unit }
    {
        self.foci.get(&unit)
    }

    /// Does nothing; its contract states that no weights have too large a sum.
    pub(crate) fn fits(&self)
        ensures { (p : Weighing → Bool) → IsSum (weight_by p self.now) }
    {
        let _count = self.foci.len();
    }

    /// Sets the focus of a unit and returns its former focus. An error changes nothing.
    pub(crate) fn set(&mut self, unit: UnitId, focus: Focus) -> Result<Option<Focus>, Memory>
        ensures ok { OnOk result (self.new ≡ fin.insert self.old unit focus) }
        ensures there { OnOk result (fin.get self.new unit ≡ Some focus) }
        ensures weights { IfOk result (λ gone. (p : Weighing → Bool) →
            weight_by p self.new +ℤ part_of p gone ≡ weight_by p self.old +ℤ part_of p (Some focus)) }
        ensures err { OnErr result (self.new ≡ self.old) }
    {
        Ok(self.foci.insert(unit, focus)?)
    }

    /// Removes the focus of a unit and returns it, if it had one.
    pub(crate) fn remove(&mut self, unit: UnitId) -> Option<Focus>
        ensures foci { self.new ≡ fin.remove self.old unit }
        ensures weights { (p : Weighing → Bool) →
            weight_by p self.new +ℤ part_of p result ≡ weight_by p self.old }
    {
        // Read, so that the proof knows that the keys ascend.
        let _count = self.foci.len();
        self.foci.remove(&unit)
    }
}
