ghost use Rattle.std.specs.Prelude.{◌≡◌, ◌≢◌, [], IfErr, IfOk, true};
ghost use Rattle.clap.specs.Kinds.{FailsBy};
ghost use Rattle.clap.specs.Words.{app_of, fault_of, found_of, is_simple_and_free, kind_of, matches_of, rows_of};
ghost use Rattle.clap.specs.declared.error.kind.ErrorKind.TheVariants.{DisplayHelp, DisplayVersion, OutOfMemory};
ghost use Rattle.mt_file_programs.specs.CommandLine.{AreRefused, is_given_in};
ghost use Rattle.mt_file_programs.specs.Unasked.{IsEndOf, IsUnaskedBy};
ghost use Rattle.mt_program.specs.CommandLine.{texts_of};

use clap::error::ErrorKind;
use clap::{ArgMatches, Command, Error};
use mt_program::Unasked;
use std::alloc::Global;

/// What a command reads of its words, by `clap`'s definition of a simple command. The error is `clap`'s text of help, of
/// the version or of what is wrong, or want of memory.
pub fn matches_of<'a>(
    alloc: Global,
    command: Command<'a>,
    words: &'a [String],
) -> Result<ArgMatches<'a>, Unasked>
    requires { is_simple_and_free (app_of command) ≡ true }
    ensures rows { IfOk result (λ m. rows_of (found_of m)
        ≡ matches_of (app_of command.entry) (texts_of words.entry.now)) }
    ensures taken { IfOk result (λ _. fault_of (app_of command.entry) (texts_of words.entry.now)
        ≡ []) }
    ensures unasked { IfErr result (IsUnaskedBy (app_of command.entry)
        (AreRefused (app_of command.entry) (texts_of words.entry.now))
        (texts_of words.entry.now)) }
{
    match command.try_get_matches_from(words) {
        Ok(matches) => Ok(matches),
        Err(error) => Err(unasked_by(alloc, &error)),
    }
}

/// What is answered to an error of `clap`, with its text.
fn unasked_by(alloc: Global, error: &Error) -> Unasked
    ensures { IsEndOf (kind_of error.now) result }
{
    let Ok(text) = format!(in alloc; "{error}") else {
        return Unasked::Memory;
    };
    match error.kind() {
        ErrorKind::OutOfMemory => Unasked::Memory,
        ErrorKind::DisplayHelp | ErrorKind::DisplayVersion => Unasked::Told(text),
        _ => Unasked::Misuse(text),
    }
}

/// Whether the matches have an option without a value.
pub fn is_given(matches: &ArgMatches<'_>, name: &str) -> bool
    ensures { result ≡ is_given_in name.now (rows_of (found_of matches.now)) }
{
    match matches.get_str(name) {
        Some(text) => text == "true",
        None => false,
    }
}
