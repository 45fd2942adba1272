ghost use Rattle.std.specs.Prelude.{◌≡◌, IfErr, IfOk};
ghost use Rattle.clap.specs.Words.{app_of};
ghost use Rattle.mt_nrreport.specs.CommandLine.{IsAskedBy, form_by, nrreport};
ghost use Rattle.mt_file_programs.specs.CommandLine.{AreMisuse};
ghost use Rattle.mt_program.specs.CommandLine.{texts_of};
ghost use Rattle.mt_file_programs.specs.Unasked.{IsUnaskedBy};

use clap::Command;
use mt_file_programs::{
    TwoFiles, after_match_records, flag_arg, is_given, named_files, two_files_command,
};
use mt_program::Unasked;
use mt_reported::Form;
use std::alloc::{AllocError, Global};

const ABOUT: &str = "\
The numbers of a residency match by the rank order lists of a market. Any
program may have made the match.

Writes lines of CSV to standard output: counts of choices, couples, programs
and posts, and a line for each program, or one line why there are none.";

const HTML_HELP: &str = "Write a page of HTML";

const AFTER_HELP: &str = after_match_records!(
    "\
Exit status:
  0   the numbers are written
  2   a file was refused
  4   memory ran out
  5   a read or a write failed
  64  the command line is wrong"
);

/// A report that words ask for.
#[derive(Drop)]
pub(crate) struct Request {
    /// The two files.
    pub(crate) files: TwoFiles,
    /// How the numbers are written.
    pub(crate) form: Form,
}

// The command `nrreport MARKET MATCH [--html]`.
fn command<'a>(alloc: Global) -> Result<Command<'a>, AllocError>
    ensures { IfOk result (λ c. app_of c ≡ nrreport) }
{
    let with_files = two_files_command(alloc, "nrreport", ABOUT, AFTER_HELP)?;
    with_files.arg(flag_arg(alloc, "html", HTML_HELP))
}

/// A page, or lines.
fn form_by(is_page: bool) -> Form
    ensures { result ≡ form_by is_page }
{
    if is_page { Form::Page } else { Form::Lines }
}

/// The report that the words after the program's name ask for. The error is `clap`'s text of help, of the version or of
/// what is wrong, or what is wrong with the files.
pub(crate) fn asked(alloc: Global, words: &[String]) -> Result<Request, Unasked>
    ensures request { IfOk result (IsAskedBy (texts_of words.now)) }
    ensures unasked { IfErr result (IsUnaskedBy nrreport
        (AreMisuse nrreport (texts_of words.now)) (texts_of words.now)) }
{
    let (files, matches) = named_files(alloc, command(alloc)?, words)?;
    Ok(Request {
        files,
        form: form_by(is_given(&matches, "html")),
    })
}
