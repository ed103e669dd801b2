//! Tests of the code of a part, with enough memory, and of the flaw of a part that does not end.

use bb_code::{Calculation, Op};
use bb_compile::{Place, emit_part};
use bb_compile_scope::{CompileFault, Part, TextFlaw};
use bb_lang::{ActText, parse};
use bb_schema::Schema;
use std::test::Fail;

const SCHEMA: &str = r#"{"classes":[{"name":"note"}]}"#;

const TEXT: &str = "source s on note {
  when create note;
  rate 1;
  do { let x = 1; say x + 2; }
}";

// Local 0 has the unit, and local 1 is that of `x`. As `require` the block would have to end by a rating.
#[test]
fn a_part(rt: HostRuntime) -> Result<(), Fail> {
    let schema = Schema::read(rt.alloc(), SCHEMA)?;
    let ops = [
        Op::PushInt(1),
        Op::Store(1),
        Op::Load(1),
        Op::PushInt(2),
        Op::Calculate(Calculation::Add),
        Op::Say(1),
        Op::Done,
    ];
    for source in parse(rt.alloc(), TEXT)? {
        let ActText::Do(text) = &source.act else {
            panic!(rt; "a native");
        };
        let part = Part::Do { class: 1 };
        let code = emit_part(rt.alloc(), &schema, part, text.place, &text.block)?;
        assert_eq!(rt; code.locals(), 2);
        assert_eq!(rt; code.ops(), ops.as_slice());
        let part = Part::Require { class: 1 };
        let fault = emit_part(rt.alloc(), &schema, part, text.place, &text.block).err();
        let place = Place { line: 4, column: 3 };
        let flaw = TextFlaw::NoEnd;
        assert_eq!(rt; fault, Some(CompileFault::At { flaw, place }));
    }
    Ok(())
}
