//! The program `nrmatch`: the residency match of one CSV file.
#![tactic(auto)]

ghost use Rattle.std.specs.Prelude.{◌≡◌, ◌+◌, ◌<◌, ◌≤◌, ◌^◌, []};
ghost use Rattle.mt_app.specs.Program.{IsExitFor, IsExitOfRun, IsRun, SaysEntering};
ghost use Rattle.mt_program.specs.CommandLine.{texts_of};
ghost use Rattle.mt_program.specs.Told.{IsTold};
ghost use Rattle.mt_terms.specs.Text.{refused as refused_text};
ghost use Rattle.mt_terms.specs.declared.codes.TheConstants.{OUT_OF_MEMORY};
ghost use Rattle.mt_report.specs.Drains.{contents_of, failures_of};
ghost use Rattle.mt_report.specs.Status.{status_of};

use mt_args::{AskEnd, Asked, asked};
use mt_lists::Tap;
use mt_program::{Input, MISUSE, NO_MEMORY, UNWRITTEN, say_unopened, tell, tell_unasked, words_of};
use mt_report::{Drain, refused};
use mt_run::{EndedInWays, Options, Ways, run_in_ways};
use mt_spent::say_spent;
use mt_terms::codes::OUT_OF_MEMORY;
use std::alloc::Global;
use std::io::{Read, Write};
use std::process::ExitCode;
use std::sync::Wait;
use std::thread::Threads;

/// Runs the match of what the reader gives, in the ways in which couples may enter.
fn run_match<T: Threads + Wait + Sync, R: Read + Drop, W: Write>(
    rt: &T,
    alloc: Global,
    reader: R,
    drain: &mut Drain<W>,
    options: Options,
    ways: Ways,
) -> EndedInWays
    requires failures { failures_of drain.old + 1 < 2 ^ 64 }
    requires workers { (1 ≤ options.workers) × (options.workers ≤ 64) }
    requires orders { (1 ≤ ways.orders) × (ways.orders ≤ 1000) }
    ensures { IsRun (R.remaining reader) options.budget ways
        (contents_of W.contents drain.old) (contents_of W.contents drain.new) result }
{
    let mut tap = Tap::new(reader);
    run_in_ways(rt, alloc, &mut tap, drain, options, ways)
}

/// The exit status of a run. If its budget was spent, the couple that was entering is named on standard error.
fn status_told<W: Write>(
    err: &mut Drain<W>,
    alloc: Global,
    ended: &EndedInWays,
    options: Options,
    ways: Ways,
) -> u8
    requires { failures_of err.old + 1 < 2 ^ 64 }
    ensures status { result ≡ status_of ended.now.ended.code ended.now.ended.whole }
    ensures says { SaysEntering ended.now.entering options.budget ways.orders
        (contents_of W.contents err.old) (contents_of W.contents err.new) }
{
    if let Some(entering) = &ended.entering {
        say_spent(err, alloc, entering, options.budget, ways.orders);
    }
    ended.ended.status()
}

/// Writes the refusal of a run for which there is no memory, and gives the exit status.
fn refuse<W: Write>(drain: &mut Drain<W>) -> u8
    requires { failures_of drain.old + 1 < 2 ^ 64 }
    ensures { IsTold W.contents drain.old drain.new (refused_text OUT_OF_MEMORY 0 []) 4 5 result }
{
    let line = refused(OUT_OF_MEMORY, 0, b"");
    tell(drain, line.as_bytes(), NO_MEMORY, UNWRITTEN)
}

/// The word for a file, or `-`, standard input, if there is none.
fn word_of(file: &Option<String>) -> &str {
    match file {
        Some(path) => path.as_str(),
        None => "-",
    }
}

/// Matches the file that a word names, and gives the exit status. Standard error gets why the file can't be opened, and which
/// couple was entering at a spent budget.
fn match_file<T: Threads + Wait + Sync>(
    rt: &HostRuntime,
    crew: &T,
    word: &str,
    options: Options,
    ways: Ways,
) -> u8
    requires workers { (1 ≤ options.workers) × (options.workers ≤ 64) }
    requires orders { (1 ≤ ways.orders) × (ways.orders ≤ 1000) }
    ensures { IsExitOfRun ways.set_aside result }
{
    let alloc = rt.alloc();
    let mut out = Drain::new(rt.stdout());
    let mut input = Input::at(rt, word);
    let ended = run_match(crew, alloc, &mut input, &mut out, options, ways);
    let mut err = Drain::new(rt.stderr());
    say_unopened(&mut err, alloc, "nrmatch", &input);
    status_told(&mut err, alloc, &ended, options, ways)
}

/// Does what the words ask for, and gives the exit status. `crew` is `rt` too: only `main` may take it for a handle that
/// starts threads and waits for them.
fn obey<T: Threads + Wait + Sync>(rt: &HostRuntime, crew: &T, words: &[String]) -> u8
    ensures { IsExitFor (texts_of words.now) result }
{
    let mut out = Drain::new(rt.stdout());
    let mut err = Drain::new(rt.stderr());
    match asked(rt.alloc(), words) {
        Ok(
            Asked::Run {
                file,
                options,
                orders,
                set_aside,
            },
        ) => match_file(
            rt,
            crew,
            word_of(&file),
            options,
            Ways { orders, set_aside },
        ),
        Ok(Asked::Help(text) | Asked::Version(text)) => {
            tell(&mut out, text.as_bytes(), 0, UNWRITTEN)
        }
        Err(AskEnd::Usage(text)) => tell(&mut err, text.as_bytes(), MISUSE, MISUSE),
        Err(AskEnd::Memory) => refuse(&mut out),
    }
}

fn main(rt: HostRuntime) -> ExitCode {
    let status = match words_of(&rt) {
        Ok(words) => obey(&rt, &rt, words.as_slice()),
        Err(unasked) => tell_unasked(
            &mut Drain::new(rt.stdout()),
            &mut Drain::new(rt.stderr()),
            refused(OUT_OF_MEMORY, 0, b"").as_bytes(),
            &unasked,
        ),
    };
    ExitCode::from(status)
}
