//! All spaces. The board changes them, and queries read them.

ghost use Rattle.std.specs.Prelude.{◌≡◌, ◌<◌, IfOk, IfSome, OnOk, OnErr, length, not, option_map, filter};
ghost use Rattle.std.specs.FinMap as fin;
ghost use Rattle.bb_space.specs.Fits.{Fits};
ghost use Rattle.bb_space.specs.Spaces.{no_spaces, is_member, values_in, membership, members};
ghost use Rattle.bb_space.specs.Spaces.{AreCandidates, spaces_of};
ghost use Rattle.bb_space.specs.Candidates.{candidates_of};
ghost use Rattle.bb_space.specs.Passing.{passes, passes_one, HaveAllPassing};
ghost use Rattle.bb_space.specs.Spaces.{after_enter, after_leave, after_moved, after_moves, after_forget};
ghost use Rattle.bb_space.specs.proving.Indexed.{seen, AreIndexed};
ghost use Rattle.bb_space.specs.proving.Standing.{AreStanding};

use crate::index::Leaf;
use crate::members::Members;
use crate::moving::{move_all, move_one};
use crate::standing::Standing;
use bb_basis::{Items, Memory};
use bb_pattern::DimValue;
use bb_schema::{Schema, SpaceId, UnitId};
use std::alloc::Global;
use std::collections::BTreeMap;
use std::marker::Model;

/// The spaces of a blackboard: the units in each, with the values last given for them, one for each dimension in order
/// (GBBopen Reference Manual, space instances).
#[derive(Drop)]
pub struct Spaces {
    alloc: Global,
    spaces: Vec<Members>,
    standing: Standing,
}

impl Model for Spaces {
    ghost use Rattle.bb_space.specs.Spaces.{Spaces as Told};
    ghost use Rattle.bb_space.specs.proving.Codes.{spaces_code};
    ghost use Rattle.bb_space.specs.proving.Indexed.{seen, AreIndexed};
    ghost use Rattle.bb_space.specs.proving.Standing.{AreStanding};

    ghost Value = { Told };

    ghost coded = { spaces_code };

    ghost view = { λ s. seen s.spaces.items };

    ghost invariant = { λ s. AreIndexed s.spaces.items × AreStanding (seen s.spaces.items) s.standing };
}

// Adds a unit to a space.
fn enter(
    spaces: &mut Vec<Members>,
    space: SpaceId,
    unit: UnitId,
    values: Items<DimValue>,
) -> Result<bool, Memory>
    requires indexed { AreIndexed spaces.old.items }
    requires space { space < length spaces.old.items }
    ensures new { IfOk result (λ new. new ≡ not (is_member (seen spaces.old.items) space unit)) }
    ensures entered { OnOk result (seen spaces.new.items ≡ after_enter (seen spaces.old.items) space unit values) }
    ensures err { OnErr result (seen spaces.new.items ≡ seen spaces.old.items) }
    ensures indexed { AreIndexed spaces.new.items }
{
    spaces[space as usize].enter(unit, values)
}

// Removes a unit from a space.
fn leave(spaces: &mut Vec<Members>, space: SpaceId, unit: UnitId) -> bool
    requires indexed { AreIndexed spaces.old.items }
    requires space { space < length spaces.old.items }
    ensures was { result ≡ is_member (seen spaces.old.items) space unit }
    ensures left { seen spaces.new.items ≡ after_leave (seen spaces.old.items) space unit }
    ensures indexed { AreIndexed spaces.new.items }
{
    spaces[space as usize].leave(unit)
}

// Adds a unit to a space, and the space to the unit's list.
fn enter_new(
    spaces: &mut Vec<Members>,
    standing: &mut Standing,
    space: SpaceId,
    unit: UnitId,
    values: Items<DimValue>,
) -> Result<bool, Memory>
    requires indexed { AreIndexed spaces.old.items }
    requires standing { AreStanding (seen spaces.old.items) standing.old }
    requires space { space < length spaces.old.items }
    ensures new { IfOk result (λ new. new ≡ not (is_member (seen spaces.old.items) space unit)) }
    ensures entered { OnOk result (seen spaces.new.items ≡ after_enter (seen spaces.old.items) space unit values) }
    ensures err { OnErr result (seen spaces.new.items ≡ seen spaces.old.items) }
    ensures indexed { AreIndexed spaces.new.items }
    ensures standing { AreStanding (seen spaces.new.items) standing.new }
{
    if spaces[space as usize].contains(unit) {
        return Ok(false);
    }
    standing.put(unit, space)?;
    match enter(spaces, space, unit, values) {
        Ok(new) => Ok(new),
        Err(refused) => {
            standing.remove(unit, space);
            Err(refused)
        }
    }
}

// Removes a unit from the listed spaces, which are all that it is in.
fn leave_each(spaces: &mut Vec<Members>, unit: UnitId, list: &[SpaceId])
    requires indexed { AreIndexed spaces.old.items }
    requires all { list.now ≡ spaces_of (seen spaces.old.items) unit }
    ensures left { seen spaces.new.items ≡ after_forget (seen spaces.old.items) unit }
    ensures indexed { AreIndexed spaces.new.items }
{
    for space in list {
        let index = *space as usize;
        if index >= spaces.len() {
            continue;
        }
        spaces[index].leave(unit);
    }
}

impl Spaces {
    /// Creates the spaces of a schema, without members.
    pub fn new(alloc: Global, schema: &Schema) -> Result<Spaces, Memory>
        ensures { IfOk result (λ spaces. spaces ≡ no_spaces schema.now) }
    {
        let mut spaces = Vec::new(alloc);
        for _ in 0..schema.space_count() {
            spaces.push(Members::new(alloc))?;
        }
        Ok(Spaces {
            alloc,
            spaces,
            standing: Standing::new(alloc),
        })
    }

    /// Returns the number of spaces.
    pub fn count(&self) -> usize
        ensures { result ≡ length self.now.spaces }
    {
        self.spaces.len()
    }

    /// Adds a unit to a space with these values, and returns whether it was not a member. A member stays unchanged. An
    /// error changes nothing.
    pub fn enter(
        &mut self,
        space: SpaceId,
        unit: UnitId,
        values: Items<DimValue>,
    ) -> Result<bool, Memory>
        requires { space < length self.old.spaces }
        ensures new { IfOk result (λ new. new ≡ not (is_member self.old space unit)) }
        ensures entered { OnOk result (self.new ≡ after_enter self.old space unit values) }
        ensures err { OnErr result (self.new ≡ self.old) }
    {
        enter_new(&mut self.spaces, &mut self.standing, space, unit, values)
    }

    /// Removes a unit from a space, and returns whether it was a member.
    pub fn leave(&mut self, space: SpaceId, unit: UnitId) -> bool
        requires { space < length self.old.spaces }
        ensures was { result ≡ is_member self.old space unit }
        ensures left { self.new ≡ after_leave self.old space unit }
    {
        self.standing.remove(unit, space);
        leave(&mut self.spaces, space, unit)
    }

    /// Gives a member of a space other values. Does nothing if the unit is not a member. An error changes nothing.
    pub fn moved(
        &mut self,
        space: SpaceId,
        unit: UnitId,
        values: Items<DimValue>,
    ) -> Result<(), Memory>
        requires { space < length self.old.spaces }
        ensures moved { OnOk result (self.new ≡ after_moved self.old space unit values) }
        ensures err { OnErr result (self.new ≡ self.old) }
    {
        move_one(&mut self.spaces, space, unit, values)
    }

    /// Gives a unit other values in some spaces, in order, if it is a member there. An error changes nothing.
    pub fn moved_all(
        &mut self,
        unit: UnitId,
        moves: Vec<(SpaceId, Items<DimValue>)>,
    ) -> Result<(), Memory>
        ensures moved { OnOk result (self.new ≡ after_moves self.old unit moves.items) }
        ensures err { OnErr result (self.new ≡ self.old) }
    {
        move_all(&mut self.spaces, unit, moves)
    }

    /// Removes a unit from all spaces.
    pub fn forget(&mut self, unit: UnitId)
        ensures { self.new ≡ after_forget self.old unit }
    {
        let list = self.standing.take(unit);
        leave_each(&mut self.spaces, unit, &list);
    }

    /// Returns the spaces that a unit is in, ascending.
    pub fn spaces_of(&self, unit: UnitId) -> &[SpaceId]
        ensures { result.now ≡ spaces_of self.now unit }
    {
        self.standing.of(unit)
    }

    /// Returns whether a unit is in a space.
    pub fn contains(&self, space: SpaceId, unit: UnitId) -> bool
        requires { space < length self.now.spaces }
        ensures { result ≡ is_member self.now space unit }
    {
        self.spaces[space as usize].contains(unit)
    }

    /// Returns the values last given for a member of a space, or `None` if the unit is not a member.
    pub fn values(&self, space: SpaceId, unit: UnitId) -> Option<&[DimValue]>
        requires { space < length self.now.spaces }
        ensures { option_map (λ v. v.now) result ≡ values_in self.now space unit }
    {
        self.spaces[space as usize].values(unit)
    }

    /// Returns the number of members of a space.
    pub fn member_count(&self, space: SpaceId) -> usize
        requires { space < length self.now.spaces }
        ensures { result ≡ fin.len (membership self.now space) }
    {
        self.spaces[space as usize].count()
    }

    /// Returns the members of a space with the values last given for them, to be visited in ascending order.
    pub fn told(&self, space: SpaceId) -> &BTreeMap<UnitId, Items<DimValue>>
        requires { space < length self.now.spaces }
        ensures { fin.from_entries result.now.entries ≡ membership self.now space }
    {
        self.spaces[space as usize].told()
    }

    /// Returns the members of a space, ascending.
    pub fn members(&self, space: SpaceId) -> Result<Vec<UnitId>, Memory>
        requires { space < length self.now.spaces }
        ensures { IfOk result (λ list. list.items ≡ members self.now space) }
    {
        self.spaces[space as usize].list(self.alloc)
    }

    /// Returns the members of a space whose value, as last given, can pass a test, judged by the low end of an interval
    /// or by the label. They are ascending, and include all that pass.
    pub fn candidates(&self, space: SpaceId, leaf: &Leaf) -> Result<Vec<UnitId>, Memory>
        requires { space < length self.now.spaces }
        ensures chosen { IfOk result (λ list. AreCandidates self.now space leaf.now list.items) }
        ensures near { IfOk result (λ list. list.items ≡ candidates_of (membership self.now space) leaf.now) }
    {
        self.spaces[space as usize].candidates(self.alloc, leaf)
    }

    /// Returns the candidates in a space for a test, or `None` if more than `most` intervals or labels can pass it.
    /// Visits a number of these that is at most proportional to `most`, plus the reversed intervals (high end below the
    /// low end) of the dimension, which are candidates but not counted.
    pub fn few(
        &self,
        space: SpaceId,
        leaf: &Leaf,
        most: usize,
    ) -> Result<Option<Vec<UnitId>>, Memory>
        requires { space < length self.now.spaces }
        ensures { IfOk result (λ few. IfSome few (λ list. AreCandidates self.now space leaf.now list.items)) }
    {
        self.spaces[space as usize].few(self.alloc, leaf, most)
    }

    /// Returns the number of members of a space whose values, as last given, pass a test, if the index by itself
    /// determines it, as for a label, or for `More` if no interval is reversed. Visits only the members that pass.
    pub fn count_passing(&self, space: SpaceId, leaf: &Leaf) -> Option<usize>
        requires { space < length self.now.spaces }
        ensures { IfSome result (λ n.
            n ≡ length (filter (passes_one (membership self.now space) leaf.now) (members self.now space))) }
    {
        self.spaces[space as usize].count_passing(leaf)
    }

    /// Returns members of a space, ascending, including all whose values, as last given, pass all of some tests. Uses
    /// two tests of neighbouring dimensions, the first test asking for one low end or one label; the first dimension
    /// follows the last. `None` if no two such tests exist, or more than `most` values can pass both. Visits a number
    /// of these that is at most proportional to `most` for each such two, plus reversed intervals, which are not
    /// counted.
    pub fn few_passing(
        &self,
        space: SpaceId,
        tests: &[Leaf],
        most: usize,
    ) -> Result<Option<Vec<UnitId>>, Memory>
        requires { space < length self.now.spaces }
        ensures { IfOk result (λ few. IfSome few (λ list.
            HaveAllPassing (membership self.now space) tests.now list.items)) }
    {
        self.spaces[space as usize].few_passing(self.alloc, tests, most)
    }

    /// Returns the units of a list that are members of a space and whose values, as last given, pass all of some tests,
    /// in the order of the list. It is faster if the units are ascending: then few of them need a look-up each.
    pub fn passing(
        &self,
        space: SpaceId,
        tests: &[Leaf],
        among: &[UnitId],
    ) -> Result<Vec<UnitId>, Memory>
        requires { space < length self.now.spaces }
        ensures { IfOk result (λ list.
            list.items ≡ filter (passes (membership self.now space) tests.now) among.now) }
    {
        self.spaces[space as usize].passing(self.alloc, tests, among)
    }

    /// Does nothing, but states what always holds of the spaces: the members of each are strictly ascending.
    pub fn fits(&self)
        ensures { Fits self.now }
    {
        let _ = &self.spaces;
    }
}
