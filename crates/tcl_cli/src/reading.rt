// The words, read with `clap`.

ghost use Rattle.std.specs.Prelude.{◌≡◌, IfOk, IfErr, map, [], Some, None, string_bytes};
ghost use Rattle.std.specs.List.{list_any};
ghost use Rattle.clap.specs.Faults.{fault_of};
ghost use Rattle.clap.specs.Matches.{found_of, first_value};
ghost use Rattle.clap.specs.Simple.{matches_of};
ghost use Rattle.clap.specs.Walk.{rows_of};
ghost use Rattle.tcl_cli.specs.Table.{entry_of};
ghost use Rattle.tcl_cli.specs.Rules.{tool_app, is_in_words};
ghost use Rattle.tcl_cli.specs.Words.{is_dashes};
ghost use Rattle.tcl_cli.specs.Options.{flag_at, number_at, options_from, options_of};

use crate::command::command;
use crate::fault::UsageFault;
use crate::options::{Options, Tool};
use crate::table::{BUDGET, Entry, JOBS, Kind, PROOFS, SPLIT, TRACE};
use crate::value::value_in;
use clap::ArgMatches;
use clap::error::ErrorKind;
use clap::parser::ValueSource;
use std::alloc::Global;

/// Reads the words that follow the program's name.
///
/// Each option is given at most once, in any order, and its value is the next word or stands after `=`: 1 to 7
/// decimal digits within the option's range. `Words` is answered for every other list of words, `Memory` where
/// memory runs out. The words are read by Rust's `clap`, as one command whose values are texts.
pub fn read_words(alloc: Global, tool: Tool, words: &[String]) -> Result<Options, UsageFault>
    ensures options { IfOk result (λ o. options_of tool (map string_bytes words.now) ≡ Some o) }
    ensures usage { IfErr result (λ e. e ≡ UsageFault.Words → options_of tool (map string_bytes words.now) ≡ None) }
{
    if has_dashes(words) {
        return Err(UsageFault::Words);
    }
    match found_in(alloc, words) {
        Err(fault) => Err(fault),
        Ok(matches) => match options_in(tool, &matches) {
            Some(options) => Ok(options),
            None => Err(UsageFault::Words),
        },
    }
}

/// Whether one of the words is `--`, which `clap` takes.
fn has_dashes(words: &[String]) -> bool
    ensures { result ≡ list_any (λ w. is_dashes (string_bytes w)) words.now }
{
    words.iter().any(|word| is_dashes_word(word))
}

/// Whether the word is `--`.
fn is_dashes_word(word: &String) -> bool
    ensures { result ≡ is_dashes (string_bytes word.now) }
{
    word.as_str() == "--"
}

/// What `clap` finds in the words.
fn found_in<'a>(alloc: Global, words: &'a [String]) -> Result<ArgMatches<'a>, UsageFault>
    ensures ok { IfOk result (λ m. (fault_of tool_app (map string_bytes words.now) ≡ []) × (rows_of (found_of m) ≡ matches_of tool_app (map string_bytes words.now))) }
    ensures err { IfErr result (λ e. e ≡ UsageFault.Words → fault_of tool_app (map string_bytes words.now) ≡ [] → ⊥) }
{
    let Ok(app) = command(alloc) else {
        return Err(UsageFault::Memory);
    };
    match app.try_get_matches_from(words) {
        Ok(matches) => Ok(matches),
        Err(error) => match error.kind() {
            ErrorKind::OutOfMemory => Err(UsageFault::Memory),
            _ => Err(UsageFault::Words),
        },
    }
}

/// What `clap` found, as options; none where a value is out of form or an option is not for the tool.
fn options_in(tool: Tool, matches: &ArgMatches<'_>) -> Option<Options>
    ensures { result ≡ options_from tool (first_value (found_of matches.now)) (is_in_words (found_of matches.now)) }
{
    let jobs = number(tool, JOBS, matches)?;
    let budget = number(tool, BUDGET, matches)?;
    let split = number(tool, SPLIT, matches)?;
    let proofs = flag(tool, PROOFS, matches)?;
    let trace = flag(tool, TRACE, matches)?;
    Options::new(jobs, budget, split, proofs, trace)
}

/// The number of an option, its initial one where it was not given; none where the text is out of form or range, or
/// the option is not for the tool.
fn number(tool: Tool, entry: Entry, matches: &ArgMatches<'_>) -> Option<u32>
    ensures { result ≡ number_at tool (entry_of entry) (first_value (found_of matches.now) entry.name.now) }
{
    let Kind::Number {
        least,
        most,
        initial,
    } = entry.kind
    else {
        return None;
    };
    match matches.get_str(entry.name) {
        None => Some(initial),
        Some(text) => if entry.users.include(tool) {
            value_in(text, least, most)
        } else {
            None
        },
    }
}

/// Whether a flag was given; none where it was, and is not for the tool.
fn flag(tool: Tool, entry: Entry, matches: &ArgMatches<'_>) -> Option<bool>
    ensures { result ≡ flag_at tool (entry_of entry) (is_in_words (found_of matches.now) entry.name.now) }
{
    let given = is_given(matches, entry.name);
    if given && !entry.users.include(tool) {
        return None;
    }
    Some(given)
}

/// Whether the words give the option, rather than its default.
fn is_given(matches: &ArgMatches<'_>, name: &str) -> bool
    ensures { result ≡ is_in_words (found_of matches.now) name.now }
{
    match matches.value_source(name) {
        Some(ValueSource::CommandLine) => true,
        _ => false,
    }
}
