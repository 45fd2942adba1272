ghost use Rattle.std.specs.Prelude.{◌+◌, ◌<◌, ◌≤◌, ◌^◌};
ghost use Rattle.mt_program.specs.Reasons.{SaysReason, SaysReasonFor};
ghost use Rattle.mt_report.specs.Drains.{contents_of, failures_of};

use crate::input::Input;
use mt_report::{Drain, put_all};
use std::alloc::Global;
use std::io::{self, Write};

/// The system's words in the text of an error, without the number after them.
fn words_in(said: &str) -> &str {
    match said.split_once(" (os error ") {
        Some((words, _)) => words,
        None => said,
    }
}

/// Says why a file can't be opened, in the system's words, after the program's name and the file's path. If there is
/// no memory for the line, it says nothing. The writer fails once, at the most.
fn say_why<W: Write>(
    drain: &mut Drain<W>,
    alloc: Global,
    program: &str,
    path: &str,
    error: &io::Error,
)
    requires { failures_of drain.old + 1 < 2 ^ 64 }
    ensures says { SaysReason program.now path.now
        (contents_of W.contents drain.old) (contents_of W.contents drain.new) }
    ensures failures { failures_of drain.new ≤ failures_of drain.old + 1 }
{
    let Ok(said) = format!(in alloc; "{error}") else {
        return;
    };
    let words = words_in(said.as_str());
    if let Ok(line) = format!(in alloc; "{program}: {path}: {words}\n") {
        put_all(drain, line.as_bytes());
    }
}

/// Says why the file of an input couldn't be opened, if a read tried to. The line has the program's name, the file's path
/// and the system's words. If there is no memory for the line, it says nothing. The writer fails once, at the most.
pub fn say_unopened<W: Write>(drain: &mut Drain<W>, alloc: Global, program: &str, input: &Input<'_>)
    requires { failures_of drain.old + 1 < 2 ^ 64 }
    ensures says { SaysReasonFor input.now.unopened program.now input.now.path.now
        (contents_of W.contents drain.old) (contents_of W.contents drain.new) }
    ensures failures { failures_of drain.new ≤ failures_of drain.old + 1 }
{
    if let Some(error) = input.unopened() {
        say_why(drain, alloc, program, input.path(), &error);
    }
}
