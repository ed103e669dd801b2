//! Tests of bundles: their contents as read and as written, with enough memory, and the numbers of faults.

use bb_bundle::{ActDraft, BundleFault, ChangeText, ClauseText, bundle, unbundle};
use bb_code::{CodeFault, Op};
use std::alloc::{AllocError, Global};
use std::test::Fail;

// One text, "hello", and three ops that say it.
const HELLO: &str = "42424301010001000568656c6c6f000000000000000302000029012e";

fn hail(alloc: Global, rate: &str, code: &str) -> Result<String, AllocError> {
    format!(in alloc; "source hail note {rate}\nwhen create note\ndo {code}\n")
}

// The class of a clause on a created unit.
fn created_class(clause: &ClauseText) -> Option<&str> {
    match clause {
        ClauseText::Change {
            kind: ChangeText::Create,
            class,
        } => Some(class.as_str()),
        _ => None,
    }
}

#[test]
fn one_source(rt: HostRuntime) -> Result<(), Fail> {
    let text = hail(rt.alloc(), "100", HELLO)?;
    let sources = unbundle(rt.alloc(), &text)?;
    assert_eq!(rt; sources.len(), 1);
    for source in sources {
        let draft = source.draft();
        assert_eq!(rt; draft.header.name.as_str(), "hail");
        assert_eq!(rt; draft.header.class.as_str(), "note");
        assert_eq!(rt; draft.header.rate, 100);
        assert_eq!(rt; draft.header.triggers.len(), 1);
        for clause in draft.header.triggers.as_slice() {
            assert_eq!(rt; created_class(clause), Some("note"));
        }
        let ActDraft::Do(code) = &draft.act else {
            panic!(rt; "a native");
        };
        assert_eq!(rt;
            code.ops(),
            [Op::PushText(0), Op::Say(1), Op::Done].as_slice()
        );
    }
    Ok(())
}

// Two sources as they are written: one with all parts, whose codes are the op Done alone, and one that says "hello".
const WRITTEN: &str = "source echo word -5
when update thing.score
when create word
require 4242430101000000000000000000012e
obviate thing 4242430101000000000000000000012e
when enter word desk
when leave word desk
when delete thing
retrigger word 4242430101000000000000000000012e
when quiescence
when link thing.parts
when unlink thing.mate
revalidate 4242430101000000000000000000012e
native
source hail note 9223372036854775807
when create note
do 42424301010001000568656c6c6f000000000000000302000029012e
";

// The sources of `WRITTEN`, with what a reader takes and a writer does not write: empty lines, a carriage return before
// a line feed, leading zeros, digits in upper case, and no line feed at the end.
const LOOSE: &str = "
source echo word -05\r
when update thing.score
when create word\r

require 4242430101000000000000000000012E
obviate thing 4242430101000000000000000000012E
when enter word desk
when leave word desk
when delete thing
retrigger word 4242430101000000000000000000012E
when quiescence
when link thing.parts
when unlink thing.mate
revalidate 4242430101000000000000000000012E
native
\r
source hail note 009223372036854775807
when create note
do 42424301010001000568656C6C6F000000000000000302000029012E";

// What is written of the sources of a text.
fn written_again(alloc: Global, text: &str) -> Result<String, BundleFault> {
    let sources = unbundle(alloc, text)?;
    Ok(bundle(alloc, &sources)?)
}

#[test]
fn written_as_read(rt: HostRuntime) -> Result<(), Fail> {
    let written = written_again(rt.alloc(), LOOSE)?;
    assert_eq!(rt; written.as_str(), WRITTEN);
    let again = written_again(rt.alloc(), &written)?;
    assert_eq!(rt; again.as_str(), WRITTEN);
    Ok(())
}

#[test]
fn numbers_of_bundle_faults(rt: HostRuntime) {
    let fault = CodeFault::Magic;
    assert_eq!(rt; BundleFault::Line { line: 9 }.number(), 1);
    assert_eq!(rt; BundleFault::Hex { line: 9 }.number(), 2);
    assert_eq!(rt; BundleFault::Code { line: 9, fault }.number(), 3);
    assert_eq!(rt; BundleFault::Memory.number(), 4);
}
