ghost use Rattle.std.specs.Prelude.{◌≡◌, IfErr, IfOk, false, map, string_bytes};
ghost use Rattle.clap.specs.Words.{app_of, found_of, rows_of, rule_of};
ghost use Rattle.mt_nrexplain.specs.CommandLine.{IsAskedBy, id_rule, ids_in, nrexplain};
ghost use Rattle.mt_file_programs.specs.CommandLine.{AreMisuse};
ghost use Rattle.mt_program.specs.CommandLine.{texts_of};
ghost use Rattle.mt_file_programs.specs.Unasked.{IsUnaskedBy};

use clap::{Arg, ArgAction, ArgMatches, Command};
use mt_file_programs::{
    TwoFiles, after_match_records, flag_arg, is_given, named_files, two_files_command,
};
use mt_program::Unasked;
use std::alloc::{AllocError, Global};

const ABOUT: &str = "\
Why the applicants and couples of a residency match have what they have, by
the rank order lists of a market. Any program may have made the match.

Writes CSV to standard output: a line for what each of them has, and one for
each program of an option that it wants more, with why it isn't there.";

const ID_HELP: &str = "\
Applicants and couples, of which a couple's member names its couple;
all of them if left out";

const PUBLIC_HELP: &str = "Leave out ranks, quotas, and how many are ahead";

const AFTER_HELP: &str = after_match_records!(
    "\
Exit status:
  0   the lines were wholly written
  2   a file was refused, or an ID is none of the market
  4   memory ran out
  5   a read or a write failed
  64  the command line is wrong"
);

/// An explanation that words ask for.
#[derive(Drop)]
pub(crate) struct Request {
    /// The two files.
    pub(crate) files: TwoFiles,
    /// The ids of the agents, or none for all of them.
    pub(crate) ids: Vec<String>,
    /// Whether ranks, quotas and numbers of applicants are left out.
    pub(crate) is_public: bool,
}

// `[ID..]`.
fn ids<'a>(alloc: Global) -> Arg<'a>
    ensures rule { rule_of result ≡ id_rule }
    ensures local { result.global ≡ false }
{
    Arg::new(alloc, "ID")
        .action(ArgAction::Append)
        .help(ID_HELP)
}

// The command `nrexplain MARKET MATCH [ID..] [--public]`.
fn command<'a>(alloc: Global) -> Result<Command<'a>, AllocError>
    ensures { IfOk result (λ c. app_of c ≡ nrexplain) }
{
    let with_files = two_files_command(alloc, "nrexplain", ABOUT, AFTER_HELP)?;
    with_files
        .arg(ids(alloc))?
        .arg(flag_arg(alloc, "public", PUBLIC_HELP))
}

/// Texts of their own.
fn owned(alloc: Global, texts: &[&str]) -> Result<Vec<String>, AllocError>
    ensures { IfOk result (λ v. map string_bytes v.items ≡ map (λ text. text.now) texts.now) }
{
    let mut own = Vec::new(alloc);
    for text in texts {
        own.push(String::from_str(alloc, text)?)?;
    }
    Ok(own)
}

/// The ids that the matches name.
fn ids_of(alloc: Global, matches: &ArgMatches<'_>) -> Result<Vec<String>, AllocError>
    ensures { IfOk result (λ v. map string_bytes v.items ≡ ids_in (rows_of (found_of matches.now))) }
{
    match matches.get_strs("ID") {
        Some(ids) => owned(alloc, ids),
        None => Ok(Vec::new(alloc)),
    }
}

/// The explanation that the words after the program's name ask for. The error is `clap`'s text of help, of the version or
/// of what is wrong, or what is wrong with the files.
pub(crate) fn asked(alloc: Global, words: &[String]) -> Result<Request, Unasked>
    ensures request { IfOk result (IsAskedBy (texts_of words.now)) }
    ensures unasked { IfErr result (IsUnaskedBy nrexplain
        (AreMisuse nrexplain (texts_of words.now)) (texts_of words.now)) }
{
    let (files, matches) = named_files(alloc, command(alloc)?, words)?;
    Ok(Request {
        files,
        ids: ids_of(alloc, &matches)?,
        is_public: is_given(&matches, "public"),
    })
}
