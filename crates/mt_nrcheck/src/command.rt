ghost use Rattle.std.specs.Prelude.{◌≡◌, ◌≢◌, IfErr, IfOk, None};
ghost use Rattle.clap.specs.Words.{app_of, first_of, found_of, rows_of};
ghost use Rattle.mt_nrcheck.specs.CommandLine.{
  AreMisuse,
  AskForCheck,
  AskForFaults,
  IsAskedBy,
  NameNoFiles,
  nrcheck,
};
ghost use Rattle.mt_program.specs.CommandLine.{texts_of};
ghost use Rattle.mt_file_programs.specs.Unasked.{IsMisuseBy, IsUnaskedBy};
ghost use Rattle.std.specs.Prelude.{codes};

use clap::{ArgMatches, Command};
use mt_file_programs::{
    MARKET_HELP, MATCH_HELP, TwoFiles, after_match_records, file_arg, flag_arg, is_given,
    matches_of, two_files,
};
use mt_program::{Unasked, misuse, plain_command};
use std::alloc::{AllocError, Global};

const ABOUT: &str = "\
With MATCH: whether a residency match is stable by the rank order lists of a
market. Any program may have made it. Without MATCH: all faults of the
market's file.

Writes CSV to standard output. With MATCH it is one line: that the match is
stable, or the first finding against it, or why it can't be judged. With --all
it is a line for each finding, and then how many they are. Without MATCH it is
a line for each fault, and then how many they are; or that the market is
accepted. Standard error says these faults in words.";

const ALL_HELP: &str = "With MATCH: write every finding, and how many they are";

const QUIET_HELP: &str = "Without MATCH: leave out the faults in words";

const AFTER_HELP: &str = after_match_records!(
    "\
Exit status:
  0   the match is stable, or without MATCH the market is accepted
  1   it isn't, or its counts don't fit it
  2   a file was refused
  4   memory ran out
  5   a read or a write failed
  64  the command line is wrong"
);

/// What is written if words are taken and name no file.
const NO_FILE: &str = "error: a file is needed, MARKET\n";

/// What is written if every finding is asked for and no match is named.
const NO_MATCH: &str = "error: --all needs a MATCH beside MARKET\n";

/// What words ask for.
#[derive(Drop)]
pub(crate) enum Request {
    /// All faults of one file.
    Faults {
        /// The word for the file.
        market: String,
        /// Whether they are left out in words.
        is_quiet: bool,
    },
    /// A check of a match.
    Check {
        /// The two files.
        files: TwoFiles,
        /// Whether every finding is asked for.
        is_all: bool,
    },
}

// The command `nrcheck MARKET [MATCH] [--all] [--quiet]`.
fn command<'a>(alloc: Global) -> Result<Command<'a>, AllocError>
    ensures { IfOk result (λ c. app_of c ≡ nrcheck) }
{
    plain_command(alloc, "nrcheck", ABOUT, AFTER_HELP)
        .arg(file_arg(alloc, "MARKET", true, MARKET_HELP))?
        .arg(file_arg(alloc, "MATCH", false, MATCH_HELP))?
        .arg(flag_arg(alloc, "all", ALL_HELP))?
        .arg(flag_arg(alloc, "quiet", QUIET_HELP))
}

/// The search for faults that the matches ask for, which name no match. With `--all` they are misuse.
fn faults_asked(alloc: Global, matches: &ArgMatches<'_>) -> Result<Request, Unasked>
    requires { first_of (codes "MATCH") (rows_of (found_of matches.now)) ≡ None }
    ensures request { IfOk result (AskForFaults (rows_of (found_of matches.now))) }
    ensures unasked { IfErr result (IsMisuseBy (NameNoFiles (rows_of (found_of matches.now)))) }
{
    let Some(market) = matches.get_str("MARKET") else {
        return Err(misuse(alloc, NO_FILE));
    };
    if is_given(matches, "all") {
        return Err(misuse(alloc, NO_MATCH));
    }
    Ok(Request::Faults {
        market: String::from_str(alloc, market)?,
        is_quiet: is_given(matches, "quiet"),
    })
}

/// The check that the matches ask for, which name a match.
fn check_asked(alloc: Global, matches: &ArgMatches<'_>) -> Result<Request, Unasked>
    requires { first_of (codes "MATCH") (rows_of (found_of matches.now)) ≢ None }
    ensures request { IfOk result (AskForCheck (rows_of (found_of matches.now))) }
    ensures unasked { IfErr result (IsMisuseBy (NameNoFiles (rows_of (found_of matches.now)))) }
{
    let files = two_files(alloc, matches)?;
    Ok(Request::Check {
        files,
        is_all: is_given(matches, "all"),
    })
}

/// What the words after the program's name ask for: a check of a match, or all faults of a market if they name no match.
/// The error is `clap`'s text of help, of the version or of what is wrong, or what is wrong with the files.
pub(crate) fn asked(alloc: Global, words: &[String]) -> Result<Request, Unasked>
    ensures request { IfOk result (IsAskedBy (texts_of words.now)) }
    ensures unasked { IfErr result (IsUnaskedBy nrcheck
        (AreMisuse (texts_of words.now)) (texts_of words.now)) }
{
    let matches = matches_of(alloc, command(alloc)?, words)?;
    match matches.get_str("MATCH") {
        Some(_) => check_asked(alloc, &matches),
        None => faults_asked(alloc, &matches),
    }
}
