ghost use Rattle.std.specs.Prelude.{◌≡◌, IfOk, false};
ghost use Rattle.clap.specs.Words.{app_of, rule_of};
ghost use Rattle.mt_file_programs.specs.CommandLine.{file_rule, flag_rule, two_files_app};

use clap::{Arg, ArgAction, Command};
use mt_program::plain_command;
use std::alloc::{AllocError, Global};

/// The help of MARKET.
pub const MARKET_HELP: &str = "\
CSV file with a record for each program, applicant and couple, and
their rank order lists, as nrmatch takes it; - is standard input";

/// The help of MATCH.
pub const MATCH_HELP: &str = "\
CSV file with a record `applicant,ID,PLACE` for each applicant, as
nrmatch writes it; - is standard input";

/// An argument that names a file, which may be left out if it isn't required.
pub fn file_arg<'a>(alloc: Global, name: &'a str, required: bool, help: &'a str) -> Arg<'a>
    ensures rule { rule_of result ≡ file_rule name.entry.now required }
    ensures local { result.global ≡ false }
{
    Arg::new(alloc, name).required(required).help(help)
}

/// An option `--NAME` without a value.
pub fn flag_arg<'a>(alloc: Global, name: &'a str, help: &'a str) -> Arg<'a>
    ensures rule { rule_of result ≡ flag_rule name.entry.now }
    ensures local { result.global ≡ false }
{
    Arg::new(alloc, name)
        .long(name)
        .action(ArgAction::SetTrue)
        .help(help)
}

/// The command `NAME MARKET MATCH`, to which options are added.
pub fn two_files_command<'a>(
    alloc: Global,
    name: &'a str,
    about: &'a str,
    statuses: &'a str,
) -> Result<Command<'a>, AllocError>
    ensures { IfOk result (λ c. app_of c ≡ two_files_app name.entry.now) }
{
    plain_command(alloc, name, about, statuses)
        .arg(file_arg(alloc, "MARKET", true, MARKET_HELP))?
        .arg(file_arg(alloc, "MATCH", true, MATCH_HELP))
}

/// The end of the help of a program over two files: sample records of a match, and then what the program adds.
#[macro_export]
macro_rules! after_match_records {
    ($rest:literal) => {
        concat!(
            "\
Records of MATCH, in any order; only those of applicants have to be there:
  match,1,published          the first line of nrmatch
  applicant,a2,P1            id and place, or - for none
  program,P1,2,1,0           id, posts, filled posts, proposals
  totals,2,1,2,1             applicants, unmatched, posts, unfilled posts

",
            $rest
        )
    };
}
