ghost use Rattle.std.specs.Prelude.{◌≡◌, IfOk, false};
ghost use Rattle.clap.specs.Words.{app_of, rule_of};
ghost use Rattle.mt_args.specs.CommandLine.{budget_rule, nrmatch, option_rule, orders_rule, set_aside_rule, workers_rule};

use clap::builder::ValueParser;
use clap::{Arg, ArgAction, Command, value_parser};
use mt_program::plain_command;
use std::alloc::{AllocError, Global};

const ABOUT: &str = "\
The main residency match: applicants are matched to training programs, and
couples to pairs of programs, by the rank order lists of all of them.

Writes CSV to standard output: the match (a place for each applicant; the
quota, the places filled and the proposals of each program; totals), or one
line that says why there is none.";

const FILE_HELP: &str = "\
CSV file with a record for each program, applicant and couple, and
their rank order lists; standard input if left out or -";

const WORKERS_HELP: &str = "Worker threads, 1 to 64; the match is the same for any";

const BUDGET_HELP: &str = "Most rounds for the couples, 1 to 4294967295";

const ORDERS_HELP: &str = "Most orders of the couples to try, 1 to 1000";

const SET_ASIDE_HELP: &str = "Set couples aside, one by one, if no order ends";

const AFTER_HELP: &str = "\
Records of FILE:
  match,2                    the version, first; the others come in any order
  program,P1,2,a1,a2         id, posts, and whom it wants, most wanted first
  applicant,a1,P1            id, and the programs that it wants
  couple,c,a2,a3,P1,P1,P1,-  id, two members, and the pairs that it wants
  withdraw,applicant,a1      takes that record out

Exit status:
  0   the match was published and wholly written
  2   the input was refused
  3   the couples' rounds exceed the budget
  4   memory ran out
  5   a read or a write failed
  6   a match was published with couples set aside
  64  the command line is wrong";

// An option `--NAME N`, with the range of N and its default.
fn option<'a>(
    alloc: Global,
    name: &'a str,
    range: ValueParser<'a>,
    default: &'a str,
    help: &'a str,
) -> Arg<'a>
    ensures rule { rule_of result ≡ option_rule name.entry.now range.entry default.entry.now }
    ensures local { result.global ≡ false }
{
    Arg::new(alloc, name)
        .long(name)
        .value_name("N")
        .action(ArgAction::Set)
        .value_parser(range)
        .default_value(default)
        .help(help)
}

// `[--workers N]`.
fn workers<'a>(alloc: Global) -> Arg<'a>
    ensures rule { rule_of result ≡ workers_rule }
    ensures local { result.global ≡ false }
{
    let range = value_parser!(u32).range(1..=64);
    option(alloc, "workers", range, "4", WORKERS_HELP)
}

// `[--budget N]`.
fn budget<'a>(alloc: Global) -> Arg<'a>
    ensures rule { rule_of result ≡ budget_rule }
    ensures local { result.global ≡ false }
{
    let range = value_parser!(u32).range(1..);
    option(alloc, "budget", range, "1000000", BUDGET_HELP)
}

// `[--orders N]`.
fn orders<'a>(alloc: Global) -> Arg<'a>
    ensures rule { rule_of result ≡ orders_rule }
    ensures local { result.global ≡ false }
{
    let range = value_parser!(u32).range(1..=1000);
    option(alloc, "orders", range, "1", ORDERS_HELP)
}

// `[--set-aside]`.
fn set_aside<'a>(alloc: Global) -> Arg<'a>
    ensures rule { rule_of result ≡ set_aside_rule }
    ensures local { result.global ≡ false }
{
    Arg::new(alloc, "set-aside")
        .long("set-aside")
        .action(ArgAction::SetTrue)
        .value_parser(value_parser!(bool))
        .help(SET_ASIDE_HELP)
}

/// The command `nrmatch`, whose words begin after the program's name: FILE and the options.
pub(crate) fn command<'a>(alloc: Global) -> Result<Command<'a>, AllocError>
    ensures { IfOk result (λ c. app_of c ≡ nrmatch) }
{
    let file = Arg::new(alloc, "FILE").help(FILE_HELP);
    let with_file = plain_command(alloc, "nrmatch", ABOUT, AFTER_HELP).arg(file)?;
    let with_limits = with_file.arg(workers(alloc))?.arg(budget(alloc))?;
    with_limits.arg(orders(alloc))?.arg(set_aside(alloc))
}
