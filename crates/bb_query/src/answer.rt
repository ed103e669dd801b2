//! The answer of a query. The board's `find` calls it.

ghost use Rattle.std.specs.Prelude.{◌≡◌, IfOk, IfSome, IsTrue, Ok, Some, filter, length};
ghost use Rattle.std.specs.List.{list_all};
ghost use Rattle.bb_schema.specs.Schema.{descends};
ghost use Rattle.bb_pattern.specs.Fits.{query_fits};
ghost use Rattle.bb_space.specs.Spaces.{values_in, members};
ghost use Rattle.bb_query.specs.Answer.{is_of_class, answer};
ghost use Rattle.bb_query.specs.Knows.{Knows};
ghost use Rattle.bb_query.specs.proving.Searches.{Suits, AreOfClass, is_answer};

use crate::narrow::{is_all, test_of};
use crate::near::near;
use crate::search::Search;
use bb_basis::Memory;
use bb_pattern::{DimValue, Query};
use bb_schema::{Schema, UnitId};
use bb_schema_classes::ClassId;
use bb_space::Spaces;
use bb_units::Units;
use std::alloc::Global;

// Whether a unit is live and belongs to a query's class or one below it.
fn is_of_class(schema: &Schema, units: &Units, query: &Query, unit: UnitId) -> bool
    ensures { result ≡ is_of_class schema.now units.now query.now unit }
{
    match units.class_if_live(unit) {
        None => false,
        Some(class) => schema.descends(class, query.class),
    }
}

// Whether all of some classes are a class or descend from it.
fn all_descend(schema: &Schema, classes: &[ClassId], ancestor: ClassId) -> bool
    ensures { result ≡ list_all (λ c. descends schema.now c ancestor) classes.now }
{
    classes
        .iter()
        .all(|class| schema.descends(*class, ancestor))
}

// Whether all members of a query's space are known to be of its class, because all classes that the space lists are. No
// member then needs a look-up. If the space lists more than `most` classes, looking up the units costs no more.
fn is_sure(search: &Search, most: usize) -> bool
    requires { Suits search.now }
    ensures { IsTrue result → AreOfClass search.now }
{
    // For the proof: the parent of a class comes before it.
    search.schema.fits();
    let listed = search.schema.classes_in(search.query.space);
    if listed.len() > most {
        return false;
    }
    all_descend(search.schema, listed, search.query.class)
}

// Whether the answer contains a member of its space, judged by the values that the space was given. The pattern is
// tested first: most candidates for one test fail another. The unit is looked up only if its class is not sure.
fn answers_told(search: &Search, sure: bool, unit: UnitId, values: &[DimValue]) -> bool
    requires suits { Suits search.now }
    requires sure { IsTrue sure → AreOfClass search.now }
    requires told { values_in search.now.spaces.now search.now.query.now.space unit ≡ Some values.now }
    ensures { result ≡ is_answer search.now unit }
{
    if !search.query.pattern.holds(search.operands, values) {
        return false;
    }
    if sure {
        return true;
    }
    is_of_class(search.schema, search.units, search.query, unit)
}

// Whether the answer contains a unit.
fn answers(search: &Search, sure: bool, unit: UnitId) -> bool
    requires suits { Suits search.now }
    requires sure { IsTrue sure → AreOfClass search.now }
    ensures { result ≡ is_answer search.now unit }
{
    match search.spaces.values(search.query.space, unit) {
        None => false,
        Some(values) => answers_told(search, sure, unit, values),
    }
}

// The units of a list that the answer contains, in the order of the list.
fn answered(alloc: Global, search: &Search, among: &[UnitId]) -> Result<Vec<UnitId>, Memory>
    requires { Suits search.now }
    ensures { IfOk result (λ found. found.items ≡ filter (is_answer search.now) among.now) }
{
    let sure = is_sure(search, among.len());
    let mut found = Vec::new(alloc);
    for unit in among {
        if answers(search, sure, *unit) {
            found.push(*unit)?;
        }
    }
    Ok(found)
}

// The members of its space that the answer contains, ascending, by one scan of all of them.
fn scanned(alloc: Global, search: &Search, sure: bool) -> Result<Vec<UnitId>, Memory>
    requires suits { Suits search.now }
    requires sure { IsTrue sure → AreOfClass search.now }
    ensures { IfOk result (λ found.
        found.items ≡ filter (is_answer search.now) (members search.now.spaces.now search.now.query.now.space)) }
{
    let mut found = Vec::new(alloc);
    for (member, values) in search.spaces.told(search.query.space).iter() {
        if answers_told(search, sure, *member, values.as_slice()) {
            found.push(*member)?;
        }
    }
    Ok(found)
}

// Whether the answer is known to contain all members of its space: all are of its class, and the pattern holds of
// everything.
fn answers_all(search: &Search, sure: bool) -> bool
    requires suits { Suits search.now }
    requires sure { IsTrue sure → AreOfClass search.now }
    ensures { IsTrue result → filter (is_answer search.now) (members search.now.spaces.now search.now.query.now.space)
        ≡ members search.now.spaces.now search.now.query.now.space }
{
    if !sure {
        return false;
    }
    is_all(&search.query.pattern)
}

// The members of its space that the answer contains, ascending: all of them, or the result of a scan.
fn walked(alloc: Global, search: &Search) -> Result<Vec<UnitId>, Memory>
    requires { Suits search.now }
    ensures { IfOk result (λ found.
        found.items ≡ filter (is_answer search.now) (members search.now.spaces.now search.now.query.now.space)) }
{
    let space = search.query.space;
    let sure = is_sure(search, search.spaces.member_count(space));
    if answers_all(search, sure) {
        return search.spaces.members(space);
    }
    scanned(alloc, search, sure)
}

/// Finds the units in the query's space, of its class or one below it, that satisfy its pattern, in ascending order
/// (GBBopen Reference Manual, find-instances). The query must fit the schema, members must be live and have classes
/// that their space admits, and the spaces must have been given their present values. A test whose operand has another
/// sort holds of no unit.
pub fn find(
    alloc: Global,
    schema: &Schema,
    units: &Units,
    spaces: &Spaces,
    query: &Query,
    operands: &[DimValue],
) -> Result<Vec<UnitId>, Memory>
    requires knows { Knows schema.now units.now spaces.now }
    requires fits { query_fits schema.now query.now ≡ Ok tt }
    ensures { IfOk result (λ found. found.items ≡ answer schema.now units.now spaces.now query.now operands.now) }
{
    let search = Search {
        schema,
        units,
        spaces,
        query,
        operands,
    };
    let among = near(alloc, &search)?;
    match among {
        None => walked(alloc, &search),
        Some(list) => answered(alloc, &search, &list),
    }
}

// The number of units in the answer, if the index determines it: all members of the space are known to be of the
// query's class, and the pattern holds of everything or is a test whose passing members the index can count.
fn counted(search: &Search) -> Option<usize>
    requires { Suits search.now }
    ensures { IfSome result (λ n.
        n ≡ length (filter (is_answer search.now) (members search.now.spaces.now search.now.query.now.space))) }
{
    let space = search.query.space;
    let member_count = search.spaces.member_count(space);
    let sure = is_sure(search, member_count);
    if answers_all(search, sure) {
        return Some(member_count);
    }
    if !sure {
        return None;
    }
    let test = test_of(&search.query.pattern, search.operands)?;
    search.spaces.count_passing(space, &test)
}

/// Returns the number of units in the answer of a query: the length of the list that `find` returns, under the same
/// conditions. Builds no list if the index determines the number.
pub fn count(
    alloc: Global,
    schema: &Schema,
    units: &Units,
    spaces: &Spaces,
    query: &Query,
    operands: &[DimValue],
) -> Result<usize, Memory>
    requires knows { Knows schema.now units.now spaces.now }
    requires fits { query_fits schema.now query.now ≡ Ok tt }
    ensures { IfOk result (λ n. n ≡ length (answer schema.now units.now spaces.now query.now operands.now)) }
{
    let search = Search {
        schema,
        units,
        spaces,
        query,
        operands,
    };
    if let Some(number) = counted(&search) {
        return Ok(number);
    }
    let found = find(alloc, schema, units, spaces, query, operands)?;
    Ok(found.len())
}
