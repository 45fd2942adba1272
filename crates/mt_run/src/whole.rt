ghost use Rattle.std.specs.Prelude.{◌≡◌, ◌+◌, ◌<◌, ◌≤◌, ◌^◌, ◌↔◌, if◌then◌else◌, IfErr, IfOk, IsTrue};
ghost use Rattle.mt_lists.specs.Tap.{LosesAtMost, bytes_left, failures_of as read_failures_of, reads_of};
ghost use Rattle.mt_terms.specs.declared.codes.TheConstants.{READ_FAULT};
ghost use Rattle.mt_report.specs.Drains.{contents_of, failures_of, is_flushed};
ghost use Rattle.mt_input.specs.Files.{most_bytes};
ghost use Rattle.mt_input.specs.Left.{RisesAtMost, TakesFile};
ghost use Rattle.mt_input.specs.Refusals.{code_of};
ghost use Rattle.mt_run_laws.specs.Answer.{Answers, IsAnswerTo};
ghost use Rattle.mt_run_laws.specs.Refusals.{IsRefusalTo, PublishesSingles};

use mt_answer::answer_to_market;
use mt_couples::RothPeranson;
use mt_input::read_market;
use mt_lists::Tap;
use mt_report::{Drain, Ended, end, refused};
use mt_terms::{Options, Refusal};
use std::alloc::Global;
use std::io::{Read, Write};
use std::sync::Wait;
use std::thread::Threads;

/// The answer to all that a reader gives.
fn answer_to_input<T: Threads + Wait + Sync, R: Read>(
    rt: &T,
    alloc: Global,
    tap: &mut Tap<R>,
    options: Options,
) -> Result<Vec<u8>, Refusal>
    requires reads { reads_of tap.old + most_bytes < u64.MAX }
    requires workers { (1 ≤ options.workers) × (options.workers ≤ 64) }
    ensures text { IfOk result (λ text. IsAnswerTo
        (bytes_left R.remaining tap.old) options.budget 0 text.items) }
    ensures refused { IfErr result (IsRefusalTo (bytes_left R.remaining tap.old) options.budget) }
    ensures fault { (code_of result ≡ READ_FAULT)
        ↔ (read_failures_of tap.old < read_failures_of tap.new) }
    ensures tap { TakesFile R.remaining tap.old tap.new }
{
    match read_market(rt, alloc, tap) {
        Ok(roster) => answer_to_market::<RothPeranson, T>(rt, alloc, &roster, options),
        Err(refusal) => Err(refusal),
    }
}

/// The whole run: reads all that the reader gives, and writes the text of a match stable by the lists in those
/// bytes, or one refusal line. The text is complete before the first byte is written.
pub fn run<T: Threads + Wait + Sync, R: Read, W: Write>(
    rt: &T,
    alloc: Global,
    tap: &mut Tap<R>,
    drain: &mut Drain<W>,
    options: Options,
) -> Ended
    requires reads { reads_of tap.old + most_bytes < u64.MAX }
    requires failures { failures_of drain.old + 1 < 2 ^ 64 }
    requires workers { (1 ≤ options.workers) × (options.workers ≤ 64) }
    ensures answers { Answers (bytes_left R.remaining tap.old) options.budget
        (contents_of W.contents drain.old) (contents_of W.contents drain.new)
        result.code result.written result.whole }
    ensures singles { PublishesSingles (bytes_left R.remaining tap.old) result.code }
    ensures writer { failures_of drain.new
        ≡ failures_of drain.old + (if result.whole then 0 else 1) }
    ensures flushed { IsTrue result.whole → IsTrue (is_flushed drain.new) }
    ensures fault { (result.code ≡ READ_FAULT)
        ↔ (read_failures_of tap.old < read_failures_of tap.new) }
    ensures taken { LosesAtMost (most_bytes + 1) (bytes_left R.remaining tap.old)
        (bytes_left R.remaining tap.new) }
    ensures reads { RisesAtMost (most_bytes + 1) (reads_of tap.old) (reads_of tap.new) }
    ensures failures { RisesAtMost 1 (read_failures_of tap.old) (read_failures_of tap.new) }
{
    match answer_to_input(rt, alloc, tap, options) {
        Ok(text) => end(drain, 0, &text),
        Err(refusal) => {
            let line = refused(refusal.code, refusal.row, refusal.id.as_bytes());
            end(drain, refusal.code, line.as_bytes())
        }
    }
}
