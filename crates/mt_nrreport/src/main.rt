//! The program `nrreport`: the numbers of the match in one file, by the market in another.
#![tactic(auto)]

ghost use Rattle.std.specs.Prelude.{◌+◌, ◌<◌, ◌^◌};
ghost use Rattle.mt_program.specs.CommandLine.{texts_of};
ghost use Rattle.mt_nrreport.specs.Program.{IsReport, IsExitFor};
ghost use Rattle.mt_report.specs.Drains.{contents_of, failures_of};

mod command;

use crate::command::asked;
use mt_file_programs::{end_unasked, exit_status, say_unopened_files};
use mt_lists::Tap;
use mt_program::Input;
use mt_report::Drain;
use mt_reported::{Form, report};
use std::alloc::Global;
use std::io::{Read, Write};
use std::process::ExitCode;
use std::thread::Threads;

/// Reports in a form on the match that one reader gives by the market that another gives, and gives the exit status.
fn report_match<T: Threads + Sync, R: Read + Drop, S: Read + Drop, W: Write>(
    rt: &T,
    alloc: Global,
    form: Form,
    market: R,
    matched: S,
    drain: &mut Drain<W>,
) -> u8
    requires { failures_of drain.old + 1 < 2 ^ 64 }
    ensures { IsReport form (R.remaining market) (S.remaining matched)
        (contents_of W.contents drain.old) (contents_of W.contents drain.new) result }
{
    report(
        rt,
        alloc,
        form,
        &mut Tap::new(market),
        &mut Tap::new(matched),
        drain,
    )
    .status()
}

/// Does what the words ask for, and gives the exit status. `crew` is `rt` too: only `main` may take it for a handle that
/// starts threads.
fn obey<T: Threads + Sync>(rt: &HostRuntime, crew: &T, words: &[String]) -> u8
    ensures { IsExitFor (texts_of words.now) result }
{
    match asked(rt.alloc(), words) {
        Ok(request) => {
            let form = request.form;
            let mut market = Input::at(rt, request.files.market.as_str());
            let mut matched = Input::at(rt, request.files.matched.as_str());
            let mut out = Drain::new(rt.stdout());
            let alloc = rt.alloc();
            let status = report_match(crew, alloc, form, &mut market, &mut matched, &mut out);
            let mut err = Drain::new(rt.stderr());
            say_unopened_files(&mut err, alloc, "nrreport", &market, &matched);
            status
        }
        Err(unasked) => end_unasked(rt, b"report", &unasked),
    }
}

fn main(rt: HostRuntime) -> ExitCode {
    ExitCode::from(exit_status(&rt, b"report", |words| obey(&rt, &rt, words)))
}
