//! The basis of ratings: the foci, the schema and sources that they are matched with, and the sums of their weights.
//! agenda.rt keeps it.

ghost use Rattle.std.specs.Prelude.{◌≡◌, pos, OnOk, OnErr, length, option_map, slice_get};
ghost use Rattle.std.specs.Option.{option_map_or};
ghost use Rattle.std.specs.FinMap as fin;
ghost use Rattle.bb_agenda.specs.focusing.Foci.{with_foci};
ghost use Rattle.bb_agenda.specs.focusing.Rating.{rating, rating_at};
ghost use Rattle.bb_agenda.specs.focusing.proving.Aims.{aimed, aimed_part};
ghost use Rattle.bb_agenda.specs.focusing.proving.Weights.{AreShifted, AreSums, AreWeights};

use crate::focusing::activation::Activation;
use crate::focusing::aim::Aim;
use crate::focusing::foci::Foci;
use crate::focusing::focus::Focus;
use crate::focusing::setting::Setting;
use bb_basis::Memory;
use bb_schema::UnitId;
use std::alloc::Global;
use std::marker::Model;

/// The foci that are set, and the schema and sources that they are matched with. It keeps the total weight of the foci
/// that match each source: a rating scans no foci, and setting or removing a focus scans only the sources.
pub struct Steering {
    setting: Setting,
    foci: Foci,
    // The sum of each source at its index, once a focus was set.
    weights: Vec<i128>,
}

// By hand: proofs then meet one call per drop, not one per part.
impl Drop for Steering {
    fn drop(self) {
        let Steering {
            setting: _,
            foci: _,
            weights: _,
        } = self;
    }
}

impl Model for Steering {
    ghost use Rattle.bb_agenda.specs.focusing.proving.Codes.{steered_code};
    ghost use Rattle.bb_agenda.specs.focusing.Foci.{Steered};
    ghost use Rattle.bb_agenda.specs.focusing.proving.Weights.{AreWeights};

    ghost Value = { Steered };

    ghost coded = { steered_code };

    ghost view = { λ s. record { setting = s.setting; foci = s.foci } };

    ghost invariant = { λ s. AreWeights s.setting s.foci s.weights.items };
}

// The sum of the source at a place, if it is kept.
fn weight_at(weights: &[i128], place: usize) -> Option<i128>
    ensures { result ≡ slice_get weights.now place }
{
    weights.get(place).copied()
}

// A focus aimed at the sources, if there is one.
fn aim<'a>(setting: &'a Setting, focus: Option<&'a Focus>) -> Option<Aim<'a>>
    ensures { result ≡ option_map (λ f. aimed setting.now f.now) focus.entry }
{
    Some(Aim::new(setting, focus?))
}

// What a focus adds to the ratings of the source at a place, if there is one.
fn part_of(aim: &Option<Aim>, place: usize) -> i64
    ensures { result ≡ option_map_or (aimed_part place) aim.now (pos 0) }
{
    match aim {
        None => 0,
        Some(aim) => aim.part(place),
    }
}

// Adds the sums of the sources that have none yet. An error changes no sum.
fn reach(weights: &mut Vec<i128>, setting: &Setting, foci: &Foci) -> Result<(), Memory>
    requires { AreWeights setting.now foci.now weights.old.items }
    ensures { AreWeights setting.now foci.now weights.new.items }
{
    // For the proof: the invariant of the foci.
    foci.fits();
    for place in weights.len()..setting.source_count() {
        weights.push(foci.rating(setting, place, 0))?;
    }
    Ok(())
}

// Updates all sums for a focus that was removed and one that was set.
fn shift(weights: &mut Vec<i128>, setting: &Setting, gone: Option<&Focus>, new: Option<&Focus>)
    requires { AreSums weights.old.items }
    ensures { AreShifted setting.now (option_map (λ f. f.now) gone.entry) (option_map (λ f. f.now) new.entry)
        (length weights.old.items) weights.old.items weights.new.items }
{
    let gone = aim(setting, gone);
    let new = aim(setting, new);
    for place in 0..weights.len() {
        let less = i128::from(part_of(&gone, place));
        let more = i128::from(part_of(&new, place));
        weights[place] += more - less;
    }
}

impl Steering {
    /// Creates a steering without foci, in a setting. Allocates nothing.
    pub fn new(alloc: Global, setting: Setting) -> Steering
        ensures { result ≡ record { setting = setting; foci = fin.empty } }
    {
        Steering {
            setting,
            foci: Foci::new(alloc),
            weights: Vec::new(alloc),
        }
    }

    /// Returns the rating of an activation of the source at an index.
    pub fn rating_at(&self, place: usize, base: i64) -> i128
        ensures { let s = self.now in result ≡ rating_at s.setting.schema s.setting.sources s.foci place base }
    {
        match weight_at(&self.weights, place) {
            Some(weight) => i128::from(base) + weight,
            None => self.foci.rating(&self.setting, place, base),
        }
    }

    /// Returns the rating of an activation.
    pub fn rating(&self, activation: &Activation) -> i128
        ensures { result ≡ rating self.now.setting.schema self.now.setting.sources self.now.foci activation.now }
    {
        self.rating_at(activation.source as usize, activation.base)
    }

    /// Sets the focus of a unit, replacing any that it had. An error changes nothing.
    pub fn set(&mut self, unit: UnitId, focus: Focus) -> Result<(), Memory>
        ensures ok { OnOk result (self.new ≡ with_foci self.old (fin.insert self.old.foci unit focus)) }
        ensures err { OnErr result (self.new ≡ self.old) }
    {
        reach(&mut self.weights, &self.setting, &self.foci)?;
        let gone = self.foci.set(unit, focus)?;
        // For the proof: the invariant of the foci.
        self.foci.fits();
        shift(
            &mut self.weights,
            &self.setting,
            gone.as_ref(),
            self.foci.get(unit),
        );
        Ok(())
    }

    /// Removes the focus of a unit, if it had one.
    pub fn remove(&mut self, unit: UnitId)
        ensures { self.new ≡ with_foci self.old (fin.remove self.old.foci unit) }
    {
        // Most units are not foci, and removing them changes nothing.
        let Some(gone) = self.foci.remove(unit) else {
            return;
        };
        // For the proof: the invariant of the foci.
        self.foci.fits();
        shift(&mut self.weights, &self.setting, Some(&gone), None);
    }
}
