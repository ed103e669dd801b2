//! Tests whether two schemas are the same, which no input shows.

use bb_schema::{Schema, SchemaFault};
use std::alloc::Global;
use std::test::Fail;

// Whether two documents mean the same schema.
fn mean_the_same(alloc: Global, document: &str, other: &str) -> Result<bool, SchemaFault> {
    let schema = Schema::read(alloc, document)?;
    let second = Schema::read(alloc, other)?;
    Ok(schema.same(&second))
}

#[test]
fn same_schemas(rt: HostRuntime) -> Result<(), Fail> {
    let plain = r#"{"classes":[{"name":"a"},{"name":"b"}]}"#;
    let spaced = r#"{ "classes":[{"name":"a"}, {"name":"b"}] }"#;
    let swapped = r#"{"classes":[{"name":"b"},{"name":"a"}]}"#;
    let deeper = r#"{"classes":[{"name":"a"},{"name":"b","parent":"a"}]}"#;
    assert!(rt; mean_the_same(rt.alloc(), plain, spaced)?);
    assert!(rt; !mean_the_same(rt.alloc(), plain, swapped)?);
    assert!(rt; !mean_the_same(rt.alloc(), plain, deeper)?);
    Ok(())
}
