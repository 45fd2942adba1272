ghost use Rattle.std.specs.Prelude.{◌≡◌, ◌&&◌, IfErr, IfOk, string_bytes, true};
ghost use Rattle.clap.specs.Words.{app_of, found_of, is_simple_and_free, matches_of, rows_of};
ghost use Rattle.mt_file_programs.specs.CommandLine.{AreMisuse, NameFiles, NameFilesIn, NameNoFilesIn};
ghost use Rattle.mt_file_programs.specs.Unasked.{IsMisuseBy, IsUnaskedBy};
ghost use Rattle.mt_program.specs.CommandLine.{is_standard, texts_of};

use crate::matching::matches_of;
use clap::{ArgMatches, Command};
use mt_program::{Unasked, is_standard, misuse};
use std::alloc::{AllocError, Global};

/// The words for the two files of a program. `-` means standard input, for one of them at most.
#[derive(Drop)]
pub struct TwoFiles {
    /// The market.
    pub market: String,
    /// The match.
    pub matched: String,
}

/// What is written if words are taken and don't name two files.
const NO_FILES: &str = "error: two files are needed, MARKET and MATCH\n";

/// What is written if both files are standard input.
const ONE_INPUT: &str = "error: MARKET and MATCH can't both be standard input (-)\n";

/// Whether both of two words for files mean standard input.
fn are_standard(market: &str, matched: &str) -> bool
    ensures { result ≡ (is_standard market.now && is_standard matched.now) }
{
    is_standard(market) && is_standard(matched)
}

/// Two files with texts of their own.
fn owned(alloc: Global, market: &str, matched: &str) -> Result<TwoFiles, AllocError>
    ensures market { IfOk result (λ files. string_bytes files.market ≡ market.now) }
    ensures matched { IfOk result (λ files. string_bytes files.matched ≡ matched.now) }
{
    Ok(TwoFiles {
        market: String::from_str(alloc, market)?,
        matched: String::from_str(alloc, matched)?,
    })
}

/// The two files that the matches name by MARKET and MATCH. The error is misuse if one of them is missing, or both are
/// standard input.
pub fn two_files(alloc: Global, matches: &ArgMatches<'_>) -> Result<TwoFiles, Unasked>
    ensures files { IfOk result (λ files. NameFilesIn (rows_of (found_of matches.now))
        (string_bytes files.market) (string_bytes files.matched)) }
    ensures unasked { IfErr result (IsMisuseBy (NameNoFilesIn (rows_of (found_of matches.now)))) }
{
    let Some(market) = matches.get_str("MARKET") else {
        return Err(misuse(alloc, NO_FILES));
    };
    let Some(matched) = matches.get_str("MATCH") else {
        return Err(misuse(alloc, NO_FILES));
    };
    if are_standard(market, matched) {
        return Err(misuse(alloc, ONE_INPUT));
    }
    match owned(alloc, market, matched) {
        Ok(files) => Ok(files),
        Err(_) => Err(Unasked::Memory),
    }
}

/// The two files that words name by a command, and what it reads of the words. The error is `clap`'s text of help, of the
/// version or of what is wrong, or what is wrong with the files.
pub fn named_files<'a>(
    alloc: Global,
    command: Command<'a>,
    words: &'a [String],
) -> Result<(TwoFiles, ArgMatches<'a>), Unasked>
    requires { is_simple_and_free (app_of command) ≡ true }
    ensures files { IfOk result (λ r. NameFiles (app_of command.entry) (texts_of words.entry.now)
        (string_bytes r.0.market) (string_bytes r.0.matched)) }
    ensures rows { IfOk result (λ r. rows_of (found_of r.1)
        ≡ matches_of (app_of command.entry) (texts_of words.entry.now)) }
    ensures unasked { IfErr result (IsUnaskedBy (app_of command.entry)
        (AreMisuse (app_of command.entry) (texts_of words.entry.now))
        (texts_of words.entry.now)) }
{
    let matches = matches_of(alloc, command, words)?;
    let files = two_files(alloc, &matches)?;
    Ok((files, matches))
}
