//! The members of a space that may satisfy a pattern, without a scan of all members. The answer of a query begins here.
//! The numbers that decide its choices, with their reasons, are in `index/costs.rt` of bb_space.

ghost use Rattle.std.specs.Prelude.{IfOk, IfSome};
ghost use Rattle.bb_pattern.specs.Holds.{holds, holds_each, holds_some};
ghost use Rattle.bb_pattern.specs.View.{trees_of};
ghost use Rattle.bb_query.specs.proving.Searches.{HasSpace, HasAll, matches};
ghost use Rattle.bb_query.specs.proving.Tests.{AskNoMore};

use crate::effort::Effort;
use crate::narrow::{test_of, tests_of};
use crate::search::Search;
use bb_basis::Memory;
use bb_pattern::{Node, Pattern};
use bb_schema::UnitId;
use bb_space::Leaf;
use bb_space::index::{ROUNDS, rise};
use std::alloc::Global;

// The candidates for a pattern that is a test, or `None` if they are too many, or the operand is of another sort.
fn near_test(
    search: &Search,
    pattern: &Pattern,
    effort: &mut Effort,
) -> Result<Option<Vec<UnitId>>, Memory>
    requires { HasSpace search.now }
    ensures { IfOk result (λ near. IfSome near (λ list. HasAll search.now
        (λ values. holds search.now.operands.now values pattern.now) list.items)) }
{
    let Some(test) = test_of(pattern, search.operands) else {
        return Ok(None);
    };
    let most = effort.most_of(&test);
    let few = search.spaces.few(search.query.space, &test, most)?;
    effort.spend(most, &few);
    Ok(few)
}

// Members, ascending, including all that satisfy all of some patterns: the candidates for the first pattern that has
// few.
#[cycle(near)]
fn near_each(
    alloc: Global,
    search: &Search,
    patterns: &[Pattern],
    effort: &mut Effort,
) -> Result<Option<Vec<UnitId>>, Memory>
    requires { HasSpace search.now }
    ensures { IfOk result (λ near. IfSome near (λ list. HasAll search.now
        (λ values. holds_each search.now.operands.now values (trees_of patterns.now)) list.items)) }
{
    for pattern in patterns {
        let near = near_pattern(alloc, search, pattern, effort)?;
        if let Some(list) = near {
            return Ok(Some(list));
        }
    }
    Ok(None)
}

// Members, ascending, including all that satisfy one of some patterns: the candidates for all patterns, if each has few
// within the effort left.
#[cycle(near)]
fn near_some(
    alloc: Global,
    search: &Search,
    patterns: &[Pattern],
    effort: &mut Effort,
) -> Result<Option<Vec<UnitId>>, Memory>
    requires { HasSpace search.now }
    ensures { IfOk result (λ near. IfSome near (λ list. HasAll search.now
        (λ values. holds_some search.now.operands.now values (trees_of patterns.now)) list.items)) }
{
    let mut found = Vec::new(alloc);
    for pattern in patterns {
        let Some(list) = near_pattern(alloc, search, pattern, effort)? else {
            return Ok(None);
        };
        found.extend_from_slice(&list)?;
    }
    rise(&mut found);
    Ok(Some(found))
}

// Members, ascending, including all that satisfy a pattern, or `None` if the pattern doesn't limit them to few
// candidates.
#[cycle(near)]
fn near_pattern(
    alloc: Global,
    search: &Search,
    pattern: &Pattern,
    effort: &mut Effort,
) -> Result<Option<Vec<UnitId>>, Memory>
    requires { HasSpace search.now }
    ensures { IfOk result (λ near. IfSome near (λ list. HasAll search.now
        (λ values. holds search.now.operands.now values pattern.now) list.items)) }
{
    match pattern.node() {
        Node::All => Ok(None),
        Node::And(parts) => near_each(alloc, search, parts.as_slice(), effort),
        Node::Or(parts) => near_some(alloc, search, parts.as_slice(), effort),
        Node::Not(_) => Ok(None),
        Node::Ordered { .. } | Node::Is { .. } => near_test(search, pattern, effort),
    }
}

// Members, ascending, including all that satisfy the query's pattern, by two of the tests that it is an `and` of. The
// first of the two asks for one low end or one label.
fn near_both(
    search: &Search,
    tests: &[Leaf],
    effort: &mut Effort,
) -> Result<Option<Vec<UnitId>>, Memory>
    requires space { HasSpace search.now }
    requires ask { AskNoMore (matches search.now) tests.now }
    ensures { IfOk result (λ near. IfSome near (λ list. HasAll search.now (matches search.now) list.items)) }
{
    let pairs = tests.iter().filter(|test| test.has_one_key()).count();
    if pairs == 0 {
        return Ok(None);
    }
    let most = effort.most_of_each(pairs);
    let few = search.spaces.few_passing(search.query.space, tests, most)?;
    effort.spend(most.saturating_mul(pairs), &few);
    Ok(few)
}

// Members, ascending, including all that satisfy the query's pattern, by two of the tests that it is an `and` of, or
// else by one test.
fn near_within(
    alloc: Global,
    search: &Search,
    tests: &[Leaf],
    effort: &mut Effort,
) -> Result<Option<Vec<UnitId>>, Memory>
    requires space { HasSpace search.now }
    requires ask { AskNoMore (matches search.now) tests.now }
    ensures { IfOk result (λ near. IfSome near (λ list. HasAll search.now (matches search.now) list.items)) }
{
    let both = near_both(search, tests, effort)?;
    if let Some(list) = both {
        return Ok(Some(list));
    }
    near_pattern(alloc, search, &search.query.pattern, effort)
}

// Members, ascending, including all that satisfy the query's pattern, or `None` if a scan of all members costs no more.
// The maximum number of candidates for a test starts small and grows. An `and` therefore uses the first part with so
// few, which has at most sixteen times as many as the part with the fewest (`MORE_CANDIDATES` times `SORTED`), and
// costs no more if that part is last. Two tests that are asked together count as one.
fn near_few(alloc: Global, search: &Search, tests: &[Leaf]) -> Result<Option<Vec<UnitId>>, Memory>
    requires space { HasSpace search.now }
    requires ask { AskNoMore (matches search.now) tests.now }
    ensures { IfOk result (λ near. IfSome near (λ list. HasAll search.now (matches search.now) list.items)) }
{
    let mut effort = Effort::new(search.spaces.member_count(search.query.space));
    for _ in 0..ROUNDS {
        let near = near_within(alloc, search, tests, &mut effort)?;
        if let Some(list) = near {
            return Ok(Some(list));
        }
        if !effort.grow() {
            break;
        }
    }
    Ok(None)
}

/// Returns members of the query's space, ascending, including all that satisfy its pattern, or `None` if a scan of all
/// members costs no more. Leaves out members that fail a test which the pattern is an `and` of.
pub(crate) fn near(alloc: Global, search: &Search) -> Result<Option<Vec<UnitId>>, Memory>
    requires { HasSpace search.now }
    ensures { IfOk result (λ near. IfSome near (λ list. HasAll search.now (matches search.now) list.items)) }
{
    let tests = tests_of(alloc, &search.query.pattern, search.operands)?;
    let Some(list) = near_few(alloc, search, &tests)? else {
        return Ok(None);
    };
    if tests.len() < 2 {
        return Ok(Some(list));
    }
    let left = search.spaces.passing(search.query.space, &tests, &list)?;
    Ok(Some(left))
}
