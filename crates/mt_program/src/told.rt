ghost use Rattle.std.specs.Prelude.{◌+◌, ◌<◌, ◌^◌, IfErr};
ghost use Rattle.mt_report.specs.Drains.{failures_of};
ghost use Rattle.mt_program.specs.Told.{IsTold};
ghost use Rattle.mt_program.specs.Unasked.{IsMisuseWith, not_utf8};

use crate::unasked::{Unasked, misuse};
use mt_report::{Drain, put_all};
use std::alloc::Global;
use std::env;
use std::io::{self, ErrorKind, Write};

/// The exit status of a command line that is wrong.
pub const MISUSE: u8 = 64;

/// The exit status of want of memory.
pub const NO_MEMORY: u8 = 4;

/// The exit status of a text that couldn't be written.
pub const UNWRITTEN: u8 = 5;

/// What a word that is no text is answered with.
const NO_TEXT: &str = "error: invalid UTF-8 was detected in one or more arguments\n";

/// The words after the program's name, or std's error.
fn read_words(rt: &HostRuntime) -> io::Result<Vec<String>> {
    let mut words = Vec::new(rt.alloc());
    for word in env::args(rt)?.skip(1) {
        words.push(word)?;
    }
    Ok(words)
}

/// What is answered to std's error: want of memory, or a word that is no text.
fn unreadable(alloc: Global, error: &io::Error) -> Unasked
    ensures { IsMisuseWith not_utf8 result }
{
    if error.kind() == ErrorKind::OutOfMemory {
        return Unasked::Memory;
    }
    misuse(alloc, NO_TEXT)
}

// No clause can say which words these are, since std says nothing of what it gives.
/// The words after the program's name. The error is misuse, of a word that is not UTF-8, or want of memory.
pub fn words_of(rt: &HostRuntime) -> Result<Vec<String>, Unasked>
    ensures { IfErr result (IsMisuseWith not_utf8) }
{
    match read_words(rt) {
        Ok(words) => Ok(words),
        Err(error) => Err(unreadable(rt.alloc(), &error)),
    }
}

/// Writes a text, and gives the one exit status if it was wholly written, and the other if the writer failed.
pub fn tell<W: Write>(drain: &mut Drain<W>, text: &[u8], done: u8, undone: u8) -> u8
    requires { failures_of drain.old + 1 < 2 ^ 64 }
    ensures { IsTold W.contents drain.old drain.new text.now done undone result }
{
    let wrote = put_all(drain, text);
    if wrote.whole { done } else { undone }
}
