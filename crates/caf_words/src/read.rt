ghost use Rattle.std.specs.Prelude.{◌≡◌, Some, map};
ghost use Rattle.std.specs.Option.{option_map};
ghost use Rattle.clap.specs.Matches.{found_of};
ghost use Rattle.clap.specs.Walk.{rows_of};
ghost use Rattle.caf_words.specs.Clap.{sorted_in};
ghost use Rattle.caf_words.specs.Requests.{Answers, asked_as, asked_of, request_of};
ghost use Rattle.caf_words.specs.Sorted.{if_named};

use crate::order::of_command;
use crate::sort::{may_all_stand, may_name, sort};
use crate::{Asked, WordFault};
use clap::ArgMatches;
use std::alloc::Global;

/// What a command asks for with sorted words.
fn asked<'a>(command: &str, matches: &ArgMatches<'a>) -> Option<Asked<'a>>
    ensures { option_map request_of result ≡ asked_as command.now (if_named (Some (sorted_in (rows_of (found_of matches.now))))) }
{
    let trace = matches.get_str("trace");
    if !may_name(trace) {
        return None;
    }
    match matches.get_raw("words") {
        Some(words) => of_command(command, words, trace),
        None => of_command(command, &[], trace),
    }
}

/// What the words of a command line ask for, without the program's name.
///
/// The first is a command: `run`, `step`, `replay`, `check`, `list` or `gen`. Its words follow in their order, and for
/// `run` and `step` `--trace NAME` or `--trace=NAME` may stand anywhere among them, once.
///
/// # Errors
///
/// `Usage` exactly where they ask for nothing of this, and `Memory` for want of memory.
pub fn read_words<'a>(alloc: Global, words: &'a [&'a str]) -> Result<Asked<'a>, WordFault>
    ensures { Answers (asked_of (map (λ word. word.now) words.now)) result }
{
    let Some((command, rest)) = words.split_first() else {
        return Err(WordFault::Usage);
    };
    if !may_all_stand(rest) {
        return Err(WordFault::Usage);
    }
    let matches = sort(alloc, rest)?;
    match asked(command, &matches) {
        Some(asked) => Ok(asked),
        None => Err(WordFault::Usage),
    }
}
