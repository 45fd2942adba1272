ghost use Rattle.std.specs.Prelude.{◌≤◌, length};
ghost use Rattle.mt_program.specs.Unasked.{IsStatusFor};

use crate::memory::no_memory;
use mt_program::{Unasked, tell_unasked};
use mt_report::Drain;

// What a stream of the host holds is known to no clause. `tell_unasked` says what is written.
/// Writes what words ask for in place of a run to the streams of the host, and gives the exit status. The line for want of
/// memory begins with this word.
pub fn end_unasked(rt: &HostRuntime, word: &[u8], unasked: &Unasked) -> u8
    requires { length word.now ≤ 7 }
    ensures { IsStatusFor unasked.now result }
{
    let line = no_memory(word);
    let mut out = Drain::new(rt.stdout());
    let mut err = Drain::new(rt.stderr());
    tell_unasked(&mut out, &mut err, line.as_bytes(), unasked)
}
