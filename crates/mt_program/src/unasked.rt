ghost use Rattle.std.specs.Prelude.{◌≡◌, ◌+◌, ◌<◌, ◌^◌};
ghost use Rattle.mt_report.specs.Drains.{failures_of};
ghost use Rattle.mt_program.specs.Unasked.{IsMisuseWith, IsToldFor};

use crate::told::{MISUSE, NO_MEMORY, UNWRITTEN, tell};
use mt_report::Drain;
use std::alloc::{AllocError, Global};
use std::io::Write;

/// Why the words of a command line ask for no run.
#[derive(Drop)]
pub enum Unasked {
    /// They ask for the help text, or for the text of the version, which goes to standard output.
    Told(String),
    /// They are wrong. The text says how, and goes to standard error.
    Misuse(String),
    /// Memory was refused.
    Memory,
}

impl From<AllocError> for Unasked {
    ghost use Rattle.mt_program.specs.declared.unasked.Unasked.TheVariants.{Memory};

    ghost from_gives = { λ _ unasked. unasked ≡ Memory };

    fn from(_error: AllocError) -> Self {
        Unasked::Memory
    }
}

/// Misuse with this text, or want of memory.
pub fn misuse(alloc: Global, text: &str) -> Unasked
    ensures { IsMisuseWith text.now result }
{
    match String::from_str(alloc, text) {
        Ok(text) => Unasked::Misuse(text),
        Err(_) => Unasked::Memory,
    }
}

/// Writes what words ask for in place of a run, and gives the exit status. `line` is the whole line for want of memory.
pub fn tell_unasked<O: Write, E: Write>(
    out: &mut Drain<O>,
    err: &mut Drain<E>,
    line: &[u8],
    unasked: &Unasked,
) -> u8
    requires out { failures_of out.old + 1 < 2 ^ 64 }
    requires err { failures_of err.old + 1 < 2 ^ 64 }
    ensures { IsToldFor O.contents E.contents unasked.now line.now
        out.old out.new err.old err.new result }
{
    match unasked {
        Unasked::Told(text) => tell(out, text.as_bytes(), 0, UNWRITTEN),
        Unasked::Misuse(text) => tell(err, text.as_bytes(), MISUSE, MISUSE),
        Unasked::Memory => tell(out, line, NO_MEMORY, UNWRITTEN),
    }
}
