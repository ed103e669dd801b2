//! Tests of the source language: a text with its tree, and for every fault its first and last locations.

use bb_lang::{
    ActText, Action, Atom, ChangeText, ClauseText, Division, Expr, ExprNode, LangFault, Operator,
    Place, Statement, Step, Variable, parse,
};
use std::alloc::{AllocError, Global};
use std::test::Fail;

// What `parse` returns for a text: how many sources it has, or the fault with its place.
fn said(alloc: Global, text: &str) -> Result<String, AllocError> {
    let (place, number) = match parse(alloc, text) {
        Ok(sources) => return format!(in alloc; "ok {}", sources.len()),
        Err(LangFault::Character { place }) => (place, 1),
        Err(LangFault::Token { place }) => (place, 2),
        Err(LangFault::Nesting { place }) => (place, 3),
        Err(LangFault::Twice { place }) => (place, 4),
        Err(LangFault::Limit { place }) => (place, 5),
        Err(LangFault::Memory) => return Err(AllocError),
    };
    format!(in alloc; "{number} {}:{}", place.line, place.column)
}

// A text whose second line is the body of a source.
fn with_body(alloc: Global, body: &str) -> Result<String, AllocError> {
    format!(in alloc; "source a on c {{ when quiescence; rate 1; do {{\n{body}\n}} }}")
}

// A text `count` times.
fn times(alloc: Global, text: &str, count: usize) -> Result<String, AllocError> {
    let mut all = String::new(alloc);
    for _turn in 0..count {
        all.push_str(text)?;
    }
    Ok(all)
}

// Bodies, each after what is said of it. A source and a body have two brackets open.
const BODIES: &str = "ok 1 |
ok 1 | let x = 1; x = x + 2 * 3 - 4 / 5 % 6; say x, \"\\\"\\\\\\n\\t\", true or false and not(1 < 2); // ~ \"
ok 1 | if it = ev { let x = 1; } else { let x = 2; } let x = [low(it.at), max(1, 2)];
ok 1 | with x = it as thing { let y = x; } else { let x = 1; } with x = it.whole { } let x = hue: red;
ok 1 | for x in find thing in floor where and(at within [1, 2], not(hue is hue: red), or()) { delete x; }
ok 1 | for x in it.all { new y: thing; set y.find = -1; link y.it x; unlink y.ev x; enter x floor; leave ev floor; }
ok 1 | rate size(find thing in floor where all) + size(it.parts); decline; answer 1 <= 2; say;
1 2:1 | ~
1 2:12 | let\tx\r= 1; ~
1 2:12 | say \"\u{e9}\u{20ac}\u{1f600}\", ~;
1 2:5 | say \"a
1 2:5 | say \"\\x\";
1 2:5 | say \"\t\";
1 2:11 | let x = 1 A;
2 2:5 | let 1 = 2;
2 2:5 | let rate = 1;
2 2:1 | it = 1;
2 3:1 | let x = 1 + 2
2 2:7 | say 1 2;
2 2:13 | let x = 1 / -1;
2 2:15 | let x = 1 < 2 < 3;
2 2:7 | let x abcdefghijklmnopqrstuvwxyz012345;
2 2:5 | let 9223372036854775808 = 1;
4 2:16 | let x = 1; let x ~
4 2:24 | with x = it as c { let x = 1; }
4 2:21 | for x in it.s { new x: c; }
ok 1 | let x = 9223372036854775807; let y = -009223372036854775808; let z = 1 / 9223372036854775807;
5 2:9 | let x = 9223372036854775808;
5 2:10 | let x = -9223372036854775809;
5 2:13 | let x = 1 / 0;
5 2:13 | let x = 1 % 9223372036854775808;
ok 1 | let abcdefghijklmnopqrstuvwxyz01234 = it.abcdefghijklmnopqrstuvwxyz01234;
5 2:5 | let abcdefghijklmnopqrstuvwxyz012345 = 1;
5 2:12 | let x = it.abcdefghijklmnopqrstuvwxyz012345;";

#[test]
fn bodies(rt: HostRuntime) -> Result<(), Fail> {
    for row in BODIES.lines() {
        let (wanted, body) = row.split_once('|').ok_or("no row")?;
        let text = with_body(rt.alloc(), body.trim_start())?;
        let given = said(rt.alloc(), &text)?;
        assert_eq!(rt; given.as_str(), wanted.trim());
    }
    Ok(())
}

// Whole texts, each after what is said of it; a `^` begins a new line.
const TEXTS: &str = "ok 0 |
ok 0 |// none
2 1:1 |when
1 1:1 |#
2 1:16 |source a on c {
2 2:1 |source a on c {^
2 1:17 |source a on c { }
2 1:34 |source a on c { when quiescence; do { } }
2 1:41 |source a on c { when create c; rate - 1 native; }
5 1:38 |source a on c { when create c; rate -9223372036854775809; native; }
4 2:8 |source a on c { when create c; rate 1; native; }^source a ~
2 1:72 |source a on c { when update c.rate; rate 1; require { } revalidate { } obviate on c when create c; { } native; }";

#[test]
fn texts(rt: HostRuntime) -> Result<(), Fail> {
    for row in TEXTS.lines() {
        let (wanted, text) = row.split_once('|').ok_or("no row")?;
        let mut lines = String::new(rt.alloc());
        for (index, line) in text.split('^').enumerate() {
            if index > 0 {
                lines.push_str("\n")?;
            }
            lines.push_str(line)?;
        }
        let given = said(rt.alloc(), &lines)?;
        assert_eq!(rt; given.as_str(), wanted.trim());
    }
    Ok(())
}

// The first brackets of a body that make 64 open, and 65; a text constant of 65,535 bytes, and of one more; 256
// sources, and one more.
#[test]
fn limits(rt: HostRuntime) -> Result<(), Fail> {
    for (count, wanted) in [(62, "ok 1"), (63, "3 2:67")] {
        let open = times(rt.alloc(), "(", count)?;
        let close = times(rt.alloc(), ")", count)?;
        let body = format!(in rt.alloc(); "say {open}1{close};")?;
        let given = said(rt.alloc(), &with_body(rt.alloc(), &body)?)?;
        assert_eq!(rt; given.as_str(), wanted);
    }
    for (count, wanted) in [(21_845, "ok 1"), (21_846, "5 2:5")] {
        let text = times(rt.alloc(), "\u{20ac}", count)?;
        let body = format!(in rt.alloc(); "say \"{text}\";")?;
        let given = said(rt.alloc(), &with_body(rt.alloc(), &body)?)?;
        assert_eq!(rt; given.as_str(), wanted);
    }
    for (count, wanted) in [(256, "ok 256"), (257, "5 257:1")] {
        let mut text = String::new(rt.alloc());
        for number in 0..count {
            let name = format!(in rt.alloc(); "s{number}")?;
            text.push_str("source ")?;
            text.push_str(&name)?;
            text.push_str(" on c { when quiescence; rate 1; native; }\n")?;
        }
        let given = said(rt.alloc(), &text)?;
        assert_eq!(rt; given.as_str(), wanted);
    }
    Ok(())
}

const SOURCE: &str = "source a on c { when update c.at; rate -5;
  do { let x = it.at - 2 / 3; }
}";

#[test]
fn tree(rt: HostRuntime) -> Result<(), Fail> {
    for source in parse(rt.alloc(), SOURCE)? {
        assert_eq!(rt; source.header.name.as_str(), "a");
        assert_eq!(rt;
            source.header.on,
            Place {
                line: 1,
                column: 10
            }
        );
        assert_eq!(rt; source.header.class.as_str(), "c");
        let [
            ClauseText::Change {
                kind: ChangeText::Update(slot),
                class,
            },
        ] = source.clauses.as_slice()
        else {
            panic!(rt; "no clause of an update");
        };
        assert_eq!(rt; slot.as_str(), "at");
        assert_eq!(rt; class.as_str(), "c");
        assert_eq!(rt; source.rate, -5);
        let ActText::Do(part) = &source.act else {
            panic!(rt; "a native");
        };
        assert_eq!(rt; part.place, Place { line: 2, column: 3 });
        let [first] = part.block.statements() else {
            panic!(rt; "no single statement");
        };
        assert_eq!(rt; first.place, Place { line: 2, column: 8 });
        let Statement::Action(Action::Let { name, value }) = &first.statement else {
            panic!(rt; "no `let`");
        };
        assert_eq!(rt; name.as_str(), "x");
        assert!(rt; is_difference(value));
    }
    Ok(())
}

// Whether an expression is `it.at - 2 / 3`: a difference, whose second operand is the quotient.
fn is_difference(value: &Expr) -> bool {
    let ExprNode::Chain { first, steps } = value.node() else {
        return false;
    };
    let [
        Step::Apply {
            operator: Operator::Minus,
            operand,
        },
    ] = steps.as_slice()
    else {
        return false;
    };
    is_slot_of_it(first) && is_quotient(operand)
}

fn is_slot_of_it(value: &Expr) -> bool {
    match value.node() {
        ExprNode::Atom(
            Atom::Slot {
                unit: Variable::It,
                slot,
            },
        ) => slot.as_str() == "at",
        _ => false,
    }
}

fn is_quotient(value: &Expr) -> bool {
    let ExprNode::Chain { first, steps } = value.node() else {
        return false;
    };
    let [
        Step::Divide {
            division: Division::Quotient,
            divisor: 3,
        },
    ] = steps.as_slice()
    else {
        return false;
    };
    matches!(first.node(), ExprNode::Atom(Atom::Int(2)))
}
