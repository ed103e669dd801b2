//! Tests of words: the options they choose, or the number of the fault; and a line of each text.

use bb_main_options::{OptionsFault, VERSION, options};
use std::alloc::Global;
use std::test::Fail;

// What words choose, or the number of their fault.
const ROWS: &str = " = Run 1000000 0
check --limit=7 --floor=-5 = Check 7 -5
--floor=-5 --limit=7 check = Check 7 -5
run = Run 1000000 0
compile = Compile 1000000 0
units = Units 1000000 0
units --limit=7 --floor=-5 = Units 7 -5
--limit 3 = Run 3 0
--limit=0 = Run 0 0
--limit 4294967295 run = Run 4294967295 0
--limit 4294967296 = 2
--limit=x = 2
--limit=-1 = 2
--limit= = 2
--limit = 2
--limit 1 --limit 2 = 2
--floor 12 = Run 1000000 12
--floor=-9223372036854775808 = Run 1000000 -9223372036854775808
--floor=9223372036854775807 = Run 1000000 9223372036854775807
--floor=9223372036854775808 = 2
--floor=-9223372036854775809 = 2
check run = 2
verify = 2
Check = 2
Units = 2
--fast = 2
-- check = Check 1000000 0
--help = 1
-h = 1
check --help = 1
--version = 1
-V = 1
--limit=x --help = 2
";

#[test]
fn words(rt: HostRuntime) -> Result<(), Fail> {
    let alloc = rt.alloc();
    for row in ROWS.lines() {
        let (words, wanted) = row.split_once(" = ").ok_or("a row with no answer")?;
        let given = chosen(alloc, words)?;
        assert!(rt; given.as_str() == wanted, "{words}: {given}");
    }
    Ok(())
}

fn chosen(alloc: Global, words: &str) -> Result<String, Fail> {
    let words: Vec<&str> = words.split_whitespace().collect(alloc)?;
    Ok(match options(alloc, words.as_slice()) {
        Ok(options) => {
            let (mode, limit, floor) = (options.mode, options.limit, options.floor);
            format!(in alloc; "{mode:?} {limit} {floor}")?
        }
        Err(fault) => {
            let number = fault.number();
            format!(in alloc; "{number}")?
        }
    })
}

// The end of help, which says what each status of the program means.
const STATUSES: &str = "

Exit status:
  0  The run came to quiescence, or the check or the bundle was written
  2  The input is refused, or these words are
  3  The run made as many cycles as its limit
  4  The run found no room for one more unit or activation
  5  Memory ran out
  6  The output took no more
";

// Words that show what was meant, and what the end of the text says of it.
const TIPS: &[(&[&str], &str)] = &[
    (
        &["--floor", "-5"],
        "error: a negative floor is written '--floor=-5'\n",
    ),
    (
        &["check", "--floor", "-12", "desk.bb"],
        "error: a negative floor is written '--floor=-12'\n",
    ),
    (
        &["desk.bb"],
        "\n  tip: the input comes on standard input: bb < desk.bb\n",
    ),
    (
        &["check", "runs/desk"],
        "\n  tip: the input comes on standard input: bb < runs/desk\n",
    ),
    (&["--floor", "-x"], "For more information, try '--help'.\n"),
    (&["verify"], "For more information, try '--help'.\n"),
];

#[test]
fn tips(rt: HostRuntime) -> Result<(), Fail> {
    for (words, end) in TIPS {
        let Err(OptionsFault::Words(text)) = options(rt.alloc(), words) else {
            return Err(Fail::from("taken"));
        };
        assert!(rt; text.as_str().ends_with(end), "{text}");
    }
    Ok(())
}

#[test]
fn texts(rt: HostRuntime) -> Result<(), Fail> {
    let alloc = rt.alloc();
    let Err(OptionsFault::Help(help)) = options(alloc, &["--help"]) else {
        return Err(Fail::from("no help"));
    };
    assert!(rt;
        help.as_str().contains("Usage: bb [OPTIONS] [MODE]\n"),
        "{help}"
    );
    assert!(rt; help.as_str().contains("check"), "{help}");
    assert!(rt; help.as_str().ends_with(STATUSES), "{help}");
    let Err(OptionsFault::Help(version)) = options(alloc, &["-V"]) else {
        return Err(Fail::from("no version"));
    };
    assert!(rt;
        version.as_str().trim_end().strip_prefix("bb ") == Some(VERSION),
        "{version}"
    );
    let Err(OptionsFault::Words(refusal)) = options(alloc, &["verify"]) else {
        return Err(Fail::from("taken"));
    };
    assert!(rt;
        refusal
            .as_str()
            .contains("invalid value 'verify' for '[MODE]'"),
        "{refusal}"
    );
    Ok(())
}
