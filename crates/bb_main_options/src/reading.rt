//! Reads the words of a command line. The program (bb) passes its own.

ghost use Rattle.std.specs.Prelude.{◌≡◌, map};
ghost use Rattle.clap.specs.Words.{found_of, rows_of};
ghost use Rattle.bb_main_options.specs.CommandLine.{floor_in, limit_in, mode_in, mode_of, options_in};
ghost use Rattle.bb_main_options.specs.Answers.{Answers, IsRefusal};

use crate::choice::{CYCLE_LIMIT, FLOOR, Mode, Options};
use crate::command::{command, mode_values};
use crate::fault::OptionsFault;
use crate::tip::with_tip;
use clap::error::ErrorKind;
use clap::{ArgMatches, Error};
use std::alloc::Global;
use std::convert::AsStr;

/// Returns the options chosen by the words after the program's name: `[MODE] [--limit N] [--floor N]`, in any order. A
/// mode is `run` (the default), `check`, `compile` or `units`; a limit is a u32, 1000000 by default; a floor is an i64,
/// 0 by default. `Help`: the words ask for help or the version. `Words`: `clap` does not accept the words. `Memory`:
/// memory ran out.
pub fn options<S: AsStr>(alloc: Global, words: &[S]) -> Result<Options, OptionsFault>
    ensures { Answers (map S.text words.now) result }
{
    let modes = mode_values();
    let command = command(alloc, modes.as_slice())?;
    match command.try_get_matches_from(words) {
        Ok(matches) => Ok(chosen(&matches)),
        Err(error) => Err(refusal(alloc, &error, words)),
    }
}

// Returns the options of the matches.
fn chosen(matches: &ArgMatches<'_>) -> Options
    ensures { result ≡ options_in (rows_of (found_of matches.now)) }
{
    Options {
        mode: mode(matches),
        limit: limit(matches),
        floor: floor(matches),
    }
}

fn mode(matches: &ArgMatches<'_>) -> Mode
    ensures { result ≡ mode_in (rows_of (found_of matches.now)) }
{
    mode_of(matches.get_str("mode").unwrap_or("run"))
}

fn mode_of(name: &str) -> Mode
    ensures { result ≡ mode_of name.now }
{
    if name == "check" {
        Mode::Check
    } else if name == "compile" {
        Mode::Compile
    } else if name == "units" {
        Mode::Units
    } else {
        Mode::Run
    }
}

fn limit(matches: &ArgMatches<'_>) -> u32
    ensures { result ≡ limit_in (rows_of (found_of matches.now)) }
{
    matches.get_one::<u32>("limit").unwrap_or(CYCLE_LIMIT)
}

fn floor(matches: &ArgMatches<'_>) -> i64
    ensures { result ≡ floor_in (rows_of (found_of matches.now)) }
{
    matches.get_one::<i64>("floor").unwrap_or(FLOOR)
}

// Returns why `clap` gave no matches for these words: its text, with a tip if one helps.
fn refusal<S: AsStr>(alloc: Global, error: &Error, words: &[S]) -> OptionsFault
    ensures { IsRefusal error.now result }
{
    let Ok(text) = format!(in alloc; "{error}") else {
        return OptionsFault::Memory;
    };
    match error.kind() {
        ErrorKind::OutOfMemory => OptionsFault::Memory,
        ErrorKind::DisplayHelp | ErrorKind::DisplayVersion => OptionsFault::Help(text),
        _ => match with_tip(alloc, text, words) {
            Ok(text) => OptionsFault::Words(text),
            Err(_) => OptionsFault::Memory,
        },
    }
}
