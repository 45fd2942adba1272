ghost use Rattle.std.specs.Prelude.{◌≡◌, ◌≢◌, [], ◌∷◌, IfErr, IfOk, Some, codes, false, map, option_map, string_bytes, true};
ghost use Rattle.std.specs.Option.{option_copied};
ghost use Rattle.clap.specs.Words.{fault_of, found_of, kind_of, matches_of, rows_of};
ghost use Rattle.clap.specs.declared.error.kind.ErrorKind.TheVariants.{DisplayHelp, DisplayVersion, OutOfMemory};
ghost use Rattle.mt_args.specs.CommandLine.{AreOrders, AsksForHelp, AsksForVersion, HasOptions, IfRun, IfRunInWays, IsMisuse, IsWithinLimits, OnHelp, OnUsage, OnVersion};
ghost use Rattle.mt_args.specs.CommandLine.{file_in, file_of, is_set, is_set_in, is_taken, nrmatch, number_in, number_of};
ghost use Rattle.mt_program.specs.CommandLine.{texts_of};

use crate::command::command;
use crate::{AskEnd, Asked};
use clap::error::ErrorKind;
use clap::{ArgMatches, Error};
use mt_program::path_by;
use mt_terms::Options;
use std::alloc::{AllocError, Global};

/// What the words after the program's name ask for, by `clap`'s definition of a simple command. The command is
/// `nrmatch [FILE] [--workers N] [--budget N] [--orders N] [--set-aside]`. If it takes the words, the result is the file
/// and the options that they name, or the defaults. If it doesn't, the result is `clap`'s text of help or of the
/// version.
///
/// `AskEnd::Usage` has `clap`'s text of what is wrong, if the words ask for neither. `AskEnd::Memory` comes if memory
/// was refused.
pub fn asked(alloc: Global, words: &[String]) -> Result<Asked, AskEnd>
    ensures taken { IfOk result (λ a. IfRun a (λ _ _. is_taken (texts_of words.now) ≡ true)) }
    ensures file { IfOk result (λ a. IfRun a (λ file _. file ≡ file_of (texts_of words.now))) }
    ensures workers { IfOk result (λ a. IfRun a (λ _ options.
        Some options.workers ≡ number_of (codes "workers") (texts_of words.now))) }
    ensures budget { IfOk result (λ a. IfRun a (λ _ options.
        Some options.budget ≡ number_of (codes "budget") (texts_of words.now))) }
    ensures limits { IfOk result (λ a. IfRun a (λ _ options. IsWithinLimits options)) }
    ensures orders { IfOk result (λ a. IfRunInWays a (λ orders _.
        Some orders ≡ number_of (codes "orders") (texts_of words.now))) }
    ensures set_aside { IfOk result (λ a. IfRunInWays a (λ _ set_aside.
        set_aside ≡ is_set (codes "set-aside") (texts_of words.now))) }
    ensures within { IfOk result (λ a. IfRunInWays a (λ orders _. AreOrders orders)) }
    ensures help { IfOk result (λ a. OnHelp a (AsksForHelp (texts_of words.now))) }
    ensures help_untaken { IfOk result (λ a. OnHelp a (is_taken (texts_of words.now) ≡ false)) }
    ensures version { IfOk result (λ a. OnVersion a (AsksForVersion (texts_of words.now))) }
    ensures version_untaken { IfOk result
        (λ a. OnVersion a (is_taken (texts_of words.now) ≡ false)) }
    ensures usage { IfErr result (λ e. OnUsage e (IsMisuse (texts_of words.now))) }
    ensures usage_untaken { IfErr result (λ e. OnUsage e (is_taken (texts_of words.now) ≡ false)) }
{
    match parsed(alloc, words) {
        Ok(matches) => run_of(alloc, &matches),
        Err(error) => end_of(alloc, &error),
    }
}

// The matches of the command, or `clap`'s error.
fn parsed<'a>(alloc: Global, words: &'a [String]) -> Result<ArgMatches<'a>, Error>
    ensures rows { IfOk result (λ m. rows_of (found_of m)
        ≡ matches_of nrmatch (texts_of words.entry.now)) }
    ensures options { IfOk result (λ m. HasOptions (rows_of (found_of m))) }
    ensures taken { IfOk result (λ _. is_taken (texts_of words.entry.now) ≡ true) }
    ensures err { IfErr result (λ e. kind_of e ≢ OutOfMemory
        → fault_of nrmatch (texts_of words.entry.now) ≡ kind_of e ∷ []) }
    ensures refused { IfErr result (λ e. kind_of e ≢ OutOfMemory
        → is_taken (texts_of words.entry.now) ≡ false) }
{
    command(alloc)?.try_get_matches_from(words)
}

// The run that the matches ask for.
fn run_of(alloc: Global, matches: &ArgMatches<'_>) -> Result<Asked, AskEnd>
    requires { HasOptions (rows_of (found_of matches.now)) }
    ensures run { IfOk result (λ a. OnHelp a ⊥) }
    ensures no_version { IfOk result (λ a. OnVersion a ⊥) }
    ensures file { IfOk result (λ a. IfRun a
        (λ file _. file ≡ file_in (rows_of (found_of matches.now)))) }
    ensures workers { IfOk result (λ a. IfRun a (λ _ options.
        Some options.workers ≡ number_in (codes "workers") (rows_of (found_of matches.now)))) }
    ensures budget { IfOk result (λ a. IfRun a (λ _ options.
        Some options.budget ≡ number_in (codes "budget") (rows_of (found_of matches.now)))) }
    ensures limits { IfOk result (λ a. IfRun a (λ _ options. IsWithinLimits options)) }
    ensures orders { IfOk result (λ a. IfRunInWays a (λ orders _.
        Some orders ≡ number_in (codes "orders") (rows_of (found_of matches.now)))) }
    ensures set_aside { IfOk result (λ a. IfRunInWays a (λ _ set_aside.
        set_aside ≡ is_set_in (codes "set-aside") (rows_of (found_of matches.now)))) }
    ensures within { IfOk result (λ a. IfRunInWays a (λ orders _. AreOrders orders)) }
    ensures err { IfErr result (λ e. OnUsage e ⊥) }
{
    let path = path_by(matches.get_str("FILE"));
    let file = owned(alloc, path).map_err(|_| AskEnd::Memory)?;
    let options = Options {
        workers: matches.get_one("workers").unwrap(),
        budget: matches.get_one("budget").unwrap(),
    };
    Ok(Asked::Run {
        file,
        options,
        orders: matches.get_one("orders").unwrap(),
        set_aside: matches.get_flag("set-aside"),
    })
}

// A text of its own.
fn owned(alloc: Global, text: Option<&str>) -> Result<Option<String>, AllocError>
    ensures { IfOk result (λ t. option_map string_bytes t ≡ option_copied text.entry) }
{
    match text {
        Some(text) => Ok(Some(String::from_str(alloc, text)?)),
        None => Ok(None),
    }
}

// The answer to an error of `clap`, with its text.
fn end_of(alloc: Global, error: &Error) -> Result<Asked, AskEnd>
    ensures run { IfOk result (λ a. IfRun a (λ _ _. ⊥)) }
    ensures help { IfOk result (λ a. OnHelp a (kind_of error.now ≡ DisplayHelp)) }
    ensures version { IfOk result (λ a. OnVersion a (kind_of error.now ≡ DisplayVersion)) }
    ensures usage { IfErr result (λ e. OnUsage e (kind_of error.now ≢ DisplayHelp)) }
    ensures usage_no_version { IfErr result (λ e. OnUsage e (kind_of error.now ≢ DisplayVersion)) }
    ensures memory { IfErr result (λ e. OnUsage e (kind_of error.now ≢ OutOfMemory)) }
{
    let text = format!(in alloc; "{error}").map_err(|_| AskEnd::Memory)?;
    match error.kind() {
        ErrorKind::OutOfMemory => Err(AskEnd::Memory),
        ErrorKind::DisplayHelp => Ok(Asked::Help(text)),
        ErrorKind::DisplayVersion => Ok(Asked::Version(text)),
        _ => Err(AskEnd::Usage(text)),
    }
}
