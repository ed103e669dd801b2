//! Tests of the facts known at a statement, with enough memory: the names of a part, and what a loop's body leaves.

use bb_basis::Text;
use bb_code::{Kind, LocalId};
use bb_compile_scope::{Part, Scope, kill_under};
use bb_lang::{ActText, Block, parse};
use bb_schema::Schema;
use std::alloc::Global;
use std::test::Fail;

// Whether a name is that of a local of that kind.
fn knows(scope: &Scope, name: &str, local: LocalId, kind: Kind) -> bool {
    scope.local_of(name) == Some(local) && scope.kind_of(name) == Some(kind)
}

#[test]
fn names_of_a_part(rt: HostRuntime) -> Result<(), Fail> {
    let mut scope = Scope::of_part(rt.alloc(), Part::Obviate { class: 1, of: 2 })?;
    scope.name_local(rt.alloc(), "level", 2, Kind::Int)?;
    assert!(rt; knows(&scope, "it", 0, Kind::Old(1)));
    assert!(rt; knows(&scope, "ev", 1, Kind::Old(2)));
    assert!(rt; knows(&scope, "level", 2, Kind::Int));
    Ok(())
}

// Class 0 is `focus`, so these are 1 and 2.
const SCHEMA: &str = r#"{"classes":[{"name":"note"},{"name":"word"}]}"#;

// The body of a loop over notes by the name `each`.
const BODY: &str =
    "source s on note { when create note; rate 1; do { one = each; delete other; } }";

// Two notes and a word.
fn three_names(alloc: Global) -> Result<Scope, Fail> {
    let mut scope = Scope::of_part(alloc, Part::Do { class: 1 })?;
    scope.name_local(alloc, "one", 1, Kind::Ref(1))?;
    scope.name_local(alloc, "other", 2, Kind::Ref(2))?;
    scope.name_local(alloc, "third", 3, Kind::Ref(1))?;
    Ok(scope)
}

// What is known of the three names after a body.
fn behind(alloc: Global, schema: &Schema, body: &Block) -> Result<Scope, Fail> {
    let each = Text::from_str(alloc, "each")?;
    let mut scope = three_names(alloc)?;
    kill_under(alloc, schema, &mut scope, &each, Some(1), body)?;
    Ok(scope)
}

// Whether a note that is assigned and a word of which one is deleted may be gone, and another note not.
fn is_killed(scope: &Scope) -> bool {
    knows(scope, "one", 1, Kind::Old(1))
        && knows(scope, "other", 2, Kind::Old(2))
        && knows(scope, "third", 3, Kind::Ref(1))
        && scope.kind_of("each").is_none()
}

// Whether `is_killed` holds after the body of each source of a text.
fn all_killed(alloc: Global, text: &str) -> Result<bool, Fail> {
    let schema = Schema::read(alloc, SCHEMA)?;
    let mut all = true;
    for source in parse(alloc, text)? {
        all = match &source.act {
            ActText::Do(part) => all && is_killed(&behind(alloc, &schema, &part.block)?),
            ActText::Native => false,
        };
    }
    Ok(all)
}

#[test]
fn names_behind_a_body(rt: HostRuntime) -> Result<(), Fail> {
    assert!(rt; all_killed(rt.alloc(), BODY)?);
    Ok(())
}
