ghost use Rattle.std.specs.Prelude.{◌≡◌, IfOk, false, map, true};
ghost use Rattle.clap.specs.Values.{kind_of};
ghost use Rattle.clap.specs.Simple.{app_of};
ghost use Rattle.caf_words.specs.Clap.{Sorts, sorter, word_fault};
ghost use Rattle.caf_words.specs.Sorted.{all_stand, any_from, may_name, may_stand};
ghost use Rattle.caf_words.specs.Requests.{text_of};

use crate::WordFault;
use clap::error::ErrorKind;
use clap::{Arg, ArgAction, ArgMatches, Command, Error};
use std::alloc::{AllocError, Global};

/// Whether the word has no dash in front, or begins an option `--trace`.
fn may_stand(word: &str) -> bool
    ensures { result ≡ may_stand word.now }
{
    !word.starts_with('-') || word == "--trace" || word.starts_with("--trace=")
}

/// Whether each word has no dash in front, or begins an option `--trace`.
pub(crate) fn may_all_stand(words: &[&str]) -> bool
    ensures { result ≡ all_stand words.now }
{
    words.iter().all(|word| may_stand(word))
}

/// Whether a trace may have the name, if it is given one.
pub(crate) fn may_name(trace: Option<&str>) -> bool
    ensures { result ≡ may_name (text_of trace.entry) }
{
    match trace {
        Some(name) => !name.is_empty() && !name.starts_with('-'),
        None => true,
    }
}

/// The command that sorts the words.
fn sorting_command<'a>(alloc: Global) -> Result<Command<'a>, AllocError>
    ensures { IfOk result (λ command. app_of command ≡ sorter) }
{
    let trace = Arg::new(alloc, "trace")
        .long("trace")
        .action(ArgAction::Set);
    let words = Arg::new(alloc, "words").action(ArgAction::Append);
    Command::new(alloc, "caf")
        .no_binary_name(true)
        .disable_help_flag(true)
        .arg(trace)?
        .arg(words)
}

fn fault_of(error: &Error) -> WordFault
    ensures { result ≡ word_fault (kind_of error.now) }
{
    match error.kind() {
        ErrorKind::OutOfMemory => WordFault::Memory,
        _ => WordFault::Usage,
    }
}

/// The words sorted into an option `--trace` and the others.
pub(crate) fn sort<'a>(alloc: Global, words: &'a [&'a str]) -> Result<ArgMatches<'a>, WordFault>
    requires { all_stand words.now ≡ true }
    ensures { Sorts (any_from false (map (λ word. word.now) words.now)) result }
{
    let command = match sorting_command(alloc) {
        Ok(command) => command,
        Err(_) => return Err(WordFault::Memory),
    };
    match command.try_get_matches_from(words) {
        Ok(matches) => Ok(matches),
        Err(error) => Err(fault_of(&error)),
    }
}
