//! The command line as declared to `clap`: its words, their values, and the help. `options` parses words with it.

ghost use Rattle.std.specs.Prelude.{◌≡◌, IfOk, List};
ghost use Rattle.clap.specs.Words.{app_of};
ghost use Rattle.clap.specs.declared.builder.value_parser.ValueParser.TheVariants.{Values};
ghost use Rattle.bb_main_options.specs.CommandLine.{command_with, names_in};
ghost use Rattle.bb_main_options.specs.CommandLine.{mode_names};

use clap::builder::PossibleValue;
use clap::{Arg, Command, value_parser};
use std::alloc::{AllocError, Global};

/// The version of the program, and the logic of the kit that its proofs hold in.
pub const VERSION: &str = "0.9.0 (proved in logic dac8208d650f15bf)";

// The end of the help: the exit statuses.
const STATUSES: &str = "Exit status:
  0  The run came to quiescence, or the check or the bundle was written
  2  The input is refused, or these words are
  3  The run made as many cycles as its limit
  4  The run found no room for one more unit or activation
  5  Memory ran out
  6  The output took no more";

/// Returns the modes, each with its line of the help.
pub(crate) fn mode_values() -> [PossibleValue<'static>; 4]
    ensures { names_in result ≡ mode_names }
{
    [
        PossibleValue::new("run").help("Run the sources and write the trace"),
        PossibleValue::new("check").help("Verify all sources and write what their parts cost"),
        PossibleValue::new("compile").help("Write the bundle of the sources that are text"),
        PossibleValue::new("units").help("Run the sources and write the units that are left"),
    ]
}

/// Returns the command, whose mode is one of the values of `modes`.
pub(crate) fn command<'a>(
    alloc: Global,
    modes: &'a [PossibleValue<'a>],
) -> Result<Command<'a>, AllocError>
    ensures { IfOk result (λ c. app_of c ≡ command_with (Values modes.entry)) }
{
    let mode = Arg::new(alloc, "mode")
        .value_name("MODE")
        .value_parser(modes)
        .help("What to do with the input [default: run]");
    let limit = Arg::new(alloc, "limit")
        .long("limit")
        .value_name("N")
        .value_parser(value_parser!(u32))
        .help("The most cycles of a run [default: 1000000]");
    let floor = Arg::new(alloc, "floor")
        .long("floor")
        .value_name("N")
        .value_parser(value_parser!(i64))
        .help("The least rating that is chosen, a negative one as --floor=-5 [default: 0]");
    Command::new(alloc, "bb")
        .version(VERSION)
        .about("A blackboard shell: reads an input from standard input")
        .after_help(STATUSES)
        .no_binary_name(true)
        .arg(mode)?
        .arg(limit)?
        .arg(floor)
}
