//! The program `nrcheck`: whether the match in one file is stable by the market in another, or all faults of a market.
#![tactic(auto)]

ghost use Rattle.std.specs.Prelude.{◌+◌, ◌<◌, ◌^◌};
ghost use Rattle.mt_program.specs.CommandLine.{texts_of};
ghost use Rattle.mt_nrcheck.specs.Program.{IsCheckBy, IsExitFor, IsExitForTaken, IsFaultList};
ghost use Rattle.mt_report.specs.Drains.{contents_of, failures_of};

mod command;

use crate::command::{Request, asked};
use mt_check::check;
use mt_fault_sentences::Teller;
use mt_fault_text::check_market;
use mt_file_programs::{TwoFiles, end_unasked, exit_status, no_memory, say_unopened_files};
use mt_findings::check_all;
use mt_lists::Tap;
use mt_program::{Input, NO_MEMORY, UNWRITTEN, say_unopened, tell};
use mt_report::Drain;
use std::alloc::Global;
use std::io::{Read, Write};
use std::process::ExitCode;
use std::thread::Threads;

/// Checks the match that one reader gives by the market that another gives, with the first finding against it or with all
/// of them. It gives the exit status.
fn check_match<T: Threads + Sync, R: Read + Drop, S: Read + Drop, W: Write>(
    rt: &T,
    alloc: Global,
    is_all: bool,
    market: R,
    matched: S,
    drain: &mut Drain<W>,
) -> u8
    requires { failures_of drain.old + 1 < 2 ^ 64 }
    ensures { IsCheckBy is_all (R.remaining market) (S.remaining matched)
        (contents_of W.contents drain.old) (contents_of W.contents drain.new) result }
{
    if is_all {
        let (mut market, mut matched) = (Tap::new(market), Tap::new(matched));
        check_all(rt, alloc, &mut market, &mut matched, drain).status()
    } else {
        let (mut market, mut matched) = (Tap::new(market), Tap::new(matched));
        check(rt, alloc, &mut market, &mut matched, drain).status()
    }
}

/// Lists all faults of the market that a reader gives, and gives the exit status. The teller says them in words.
fn list_faults<T: Threads + Sync, R: Read + Drop, W: Write, E: Write>(
    rt: &T,
    alloc: Global,
    market: R,
    drain: &mut Drain<W>,
    teller: &mut Teller<E>,
) -> u8
    requires { failures_of drain.old + 1 < 2 ^ 64 }
    ensures { IsFaultList (R.remaining market)
        (contents_of W.contents drain.old) (contents_of W.contents drain.new) result }
{
    check_market(rt, alloc, &mut Tap::new(market), drain, teller).status()
}

/// Checks the match of two files, and gives the exit status.
fn check_files<T: Threads + Sync>(rt: &HostRuntime, crew: &T, files: &TwoFiles, is_all: bool) -> u8
    ensures { IsExitForTaken result }
{
    let mut out = Drain::new(rt.stdout());
    let mut market = Input::at(rt, files.market.as_str());
    let mut matched = Input::at(rt, files.matched.as_str());
    let alloc = rt.alloc();
    let status = check_match(crew, alloc, is_all, &mut market, &mut matched, &mut out);
    let mut err = Drain::new(rt.stderr());
    say_unopened_files(&mut err, alloc, "nrcheck", &market, &matched);
    status
}

/// Lists all faults of a market's file, and gives the exit status.
fn list_file<T: Threads + Sync>(rt: &HostRuntime, crew: &T, market: &str, is_quiet: bool) -> u8
    ensures { IsExitForTaken result }
{
    let alloc = rt.alloc();
    let mut out = Drain::new(rt.stdout());
    let mut err = Drain::new(rt.stderr());
    let mut input = Input::at(rt, market);
    let Ok(mut teller) = Teller::new(alloc, Drain::new(rt.stderr()), market, is_quiet) else {
        return tell(
            &mut out,
            no_memory(b"check").as_bytes(),
            NO_MEMORY,
            UNWRITTEN,
        );
    };
    let status = list_faults(crew, alloc, &mut input, &mut out, &mut teller);
    say_unopened(&mut err, alloc, "nrcheck", &input);
    status
}

/// Does what the words ask for, and gives the exit status. `crew` is `rt` too: only `main` may take it for a handle that
/// starts threads.
fn obey<T: Threads + Sync>(rt: &HostRuntime, crew: &T, words: &[String]) -> u8
    ensures { IsExitFor (texts_of words.now) result }
{
    match asked(rt.alloc(), words) {
        Ok(Request::Faults { market, is_quiet }) => {
            list_file(rt, crew, market.as_str(), is_quiet)
        }
        Ok(Request::Check { files, is_all }) => check_files(rt, crew, &files, is_all),
        Err(unasked) => end_unasked(rt, b"check", &unasked),
    }
}

fn main(rt: HostRuntime) -> ExitCode {
    ExitCode::from(exit_status(&rt, b"check", |words| obey(&rt, &rt, words)))
}
