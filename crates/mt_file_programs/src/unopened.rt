ghost use Rattle.std.specs.Prelude.{◌+◌, ◌<◌, ◌≤◌, ◌^◌};
ghost use Rattle.mt_program.specs.Reasons.{SaysReasonFor};
ghost use Rattle.mt_report.specs.Drains.{contents_of, failures_of};

use mt_program::{Input, say_unopened};
use mt_report::Drain;
use std::alloc::Global;
use std::io::Write;

/// Says why each of the two files couldn't be opened, if a read tried to, in the words of
/// [`say_unopened`](mt_program::say_unopened). The writer fails twice, at the most.
pub fn say_unopened_files<W: Write>(
    drain: &mut Drain<W>,
    alloc: Global,
    program: &str,
    market: &Input<'_>,
    matched: &Input<'_>,
)
    requires { failures_of drain.old + 2 < 2 ^ 64 }
    ensures says { (between : _)
        × SaysReasonFor market.now.unopened program.now market.now.path.now
        (contents_of W.contents drain.old) between
        × SaysReasonFor matched.now.unopened program.now matched.now.path.now
        between (contents_of W.contents drain.new) }
    ensures failures { failures_of drain.new ≤ failures_of drain.old + 2 }
{
    say_unopened(drain, alloc, program, market);
    say_unopened(drain, alloc, program, matched);
}
