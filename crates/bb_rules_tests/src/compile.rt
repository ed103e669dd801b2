//! Tests of the compiler: the bundle of a source, and the fault of another.

use bb_bundle::{SourceCode, bundle};
use bb_compile::{CompileFault, Place, TextFlaw, compile};
use bb_lang::parse;
use bb_schema::Schema;
use std::alloc::Global;
use std::test::Fail;

const NOTE_SCHEMA: &str = "{\"classes\":[{\"name\":\"note\"}]}";

const HAIL: &str = "source hail on note { when create note; rate 100; do { say \"hello\"; } }";

const HAIL_BUNDLE: &str = "source hail note 100
when create note
do 42424301010001000568656c6c6f000000000000000302000029012e
";

// No name `x` is in scope.
const FAULTY: &str = "source hail on note { when create note; rate 100; do { say x; } }";

fn compile_all(alloc: Global, text: &str) -> Result<Vec<SourceCode>, Fail> {
    let schema = Schema::read(alloc, NOTE_SCHEMA)?;
    let mut codes = Vec::new(alloc);
    for source in parse(alloc, text)? {
        codes.push(compile(alloc, &schema, &source)?)?;
    }
    Ok(codes)
}

#[test]
fn first_run(rt: HostRuntime) -> Result<(), Fail> {
    let codes = compile_all(rt.alloc(), HAIL)?;
    assert_eq!(rt; bundle(rt.alloc(), &codes)?.as_str(), HAIL_BUNDLE);
    Ok(())
}

#[test]
fn faulty_text(rt: HostRuntime) -> Result<(), Fail> {
    let schema = Schema::read(rt.alloc(), NOTE_SCHEMA)?;
    for source in parse(rt.alloc(), FAULTY)? {
        let place = Place {
            line: 1,
            column: 56,
        };
        let flaw = TextFlaw::Unknown;
        match compile(rt.alloc(), &schema, &source) {
            Ok(_) => panic!(rt; "a name that is not in scope"),
            Err(fault) => assert_eq!(rt; fault, CompileFault::At { flaw, place }),
        }
    }
    Ok(())
}
