//! Searches that find nothing. The warnings about a code (warning.rt) check for them.

ghost use Rattle.std.specs.Prelude.{◌≡◌, IfOk, filter, length, map};
ghost use Rattle.std.specs.List.{list_any, range_with_len};
ghost use Rattle.bb_lint.specs.Finds.{admitted_classes, finds_nothing, is_barren};
ghost use Rattle.bb_lint.specs.proving.Admitted.{AreAdmitted};
ghost use Rattle.bb_schema.specs.Schema.{descends};

use bb_basis::Memory;
use bb_code::{ClassId, Code, Op, Query};
use bb_schema::{Schema, SpaceId};
use std::alloc::Global;

/// For each space of a schema, the classes that it admits, in ascending order. They are listed once, because untrusted
/// codes may have many queries.
#[derive(Drop)]
pub(crate) struct Admitted {
    lists: Vec<Vec<ClassId>>,
}

// Lists the classes that a space admits.
fn admitted_classes(alloc: Global, schema: &Schema, space: SpaceId) -> Result<Vec<ClassId>, Memory>
    ensures { IfOk result (λ v. v.items ≡ admitted_classes schema.now space) }
{
    let count = schema.class_count() as ClassId;
    (0..count)
        .filter(|class| schema.allowed(space, *class))
        .collect(alloc)
}

// Lists the classes that each space admits, in the order of the spaces.
fn admitted_by_space(alloc: Global, schema: &Schema) -> Result<Vec<Vec<ClassId>>, Memory>
    ensures { IfOk result (λ lists. AreAdmitted schema.now lists.items) }
{
    let mut lists = Vec::new(alloc);
    for space in 0..schema.space_count() {
        lists.push(admitted_classes(alloc, schema, space as SpaceId)?)?;
    }
    Ok(lists)
}

// Returns whether one of the classes is `class` or below it.
fn has_below(schema: &Schema, classes: &[ClassId], class: ClassId) -> bool
    ensures { result ≡ list_any (λ c. descends schema.now c class) classes.now }
{
    classes.iter().any(|one| schema.descends(*one, class))
}

impl Admitted {
    /// Lists the classes that the spaces of a schema admit.
    pub(crate) fn of(alloc: Global, schema: &Schema) -> Result<Admitted, Memory>
        ensures { IfOk result (λ admitted. AreAdmitted schema.now admitted.lists.items) }
    {
        let lists = admitted_by_space(alloc, schema)?;
        Ok(Admitted { lists })
    }

    // Returns whether a query finds nothing: its space admits neither its class nor one below it.
    fn is_barren(&self, alloc: Global, schema: &Schema, query: &Query) -> Result<bool, Memory>
        requires { AreAdmitted schema.now self.now.lists.items }
        ensures { IfOk result (λ barren. barren ≡ is_barren schema.now query.now) }
    {
        match self.lists.get(query.space as usize) {
            Some(classes) => Ok(!has_below(schema, classes, query.class)),
            None => {
                let classes = admitted_classes(alloc, schema, query.space)?;
                Ok(!has_below(schema, &classes, query.class))
            }
        }
    }

    /// Returns, for every query of a code, whether it finds nothing.
    pub(crate) fn barren_queries(
        &self,
        alloc: Global,
        schema: &Schema,
        code: &Code,
    ) -> Result<Vec<bool>, Memory>
        requires { AreAdmitted schema.now self.now.lists.items }
        ensures { IfOk result (λ v. v.items ≡ map (is_barren schema.now) code.now.queries) }
    {
        let mut barren = Vec::new(alloc);
        for query in code.queries() {
            barren.push(self.is_barren(alloc, schema, query)?)?;
        }
        Ok(barren)
    }
}

/// Returns whether an op's query finds nothing, given that for every query.
pub(crate) fn finds_nothing(schema: &Schema, code: &Code, barren: &[bool], op: Op) -> bool
    requires { barren.now ≡ map (is_barren schema.now) code.now.queries }
    ensures { result ≡ finds_nothing schema.now code.now op }
{
    match op {
        Op::Find(query) => *barren.get(query as usize).unwrap_or(&false),
        _ => false,
    }
}
