ghost use Rattle.std.specs.Prelude.{◌≡◌, ◌+◌, ◌<◌, ◌≤◌, ◌^◌, ◌↔◌, ◌⊎◌, if◌then◌else◌, IfErr, IfOk, IsTrue};
ghost use Rattle.mt_lists.specs.Tap.{LosesAtMost, bytes_left, failures_of as read_failures_of, reads_of};
ghost use Rattle.mt_terms.specs.declared.codes.TheConstants.{READ_FAULT};
ghost use Rattle.mt_report.specs.Drains.{contents_of, failures_of, is_flushed};
ghost use Rattle.mt_report.specs.declared.ended.TheConstants.{SET_ASIDE};
ghost use Rattle.mt_input.specs.Files.{most_bytes};
ghost use Rattle.mt_input.specs.Left.{RisesAtMost, TakesFile};
ghost use Rattle.mt_run_laws.specs.Refusals.{PublishesSingles};
ghost use Rattle.mt_run.specs.Unmatched.{code_of, IsUnmatchedBy};
ghost use Rattle.mt_run_laws.specs.Ways.{AnswersInWays, IsAnswerInTo, IsRefusalIn, NamesEntering};

use mt_answer::{Answer, Entering, Unanswered, Ways, answer_in_ways};
use mt_couples::RothPeranson;
use mt_input::read_market;
use mt_lists::Tap;
use mt_report::{Drain, Ended, end, refused};
use mt_terms::codes::{BUDGET_SPENT, OUT_OF_MEMORY};
use mt_terms::{Options, Refusal};
use std::alloc::Global;
use std::io::{Read, Write};
use std::sync::Wait;
use std::thread::Threads;

/// How a run ended in which the couples could enter in several ways.
#[derive(Drop)]
pub struct EndedInWays {
    /// How it ended.
    pub ended: Ended,
    /// The couple that was entering, if the budget was spent.
    pub entering: Option<Entering>,
}

/// Why there is no match, and the couple that was entering if the budget was spent.
#[derive(Drop)]
pub(crate) struct Unmatched {
    refusal: Refusal,
    entering: Option<Entering>,
}

/// Why a market has no match, as a refusal.
fn why_unmatched(unanswered: Unanswered) -> Unmatched
    ensures { IsUnmatchedBy unanswered result }
{
    match unanswered {
        Unanswered::BudgetSpent(entering) => Unmatched {
            refusal: Refusal::alone(BUDGET_SPENT),
            entering: Some(entering),
        },
        Unanswered::Memory => Unmatched {
            refusal: Refusal::alone(OUT_OF_MEMORY),
            entering: None,
        },
    }
}

/// What answers all that a reader gives, if the couples may enter in several ways.
fn answer_to_input_in_ways<T: Threads + Wait + Sync, R: Read>(
    rt: &T,
    alloc: Global,
    tap: &mut Tap<R>,
    options: Options,
    ways: Ways,
) -> Result<Answer, Unmatched>
    requires reads { reads_of tap.old + most_bytes < u64.MAX }
    requires workers { (1 ≤ options.workers) × (options.workers ≤ 64) }
    requires orders { (1 ≤ ways.orders) × (ways.orders ≤ 1000) }
    ensures text { IfOk result (λ a. IsAnswerInTo (bytes_left R.remaining tap.old) options.budget ways
        a.code a.text.items) }
    ensures published { IfOk result (λ a. (a.code ≡ 0) ⊎ (a.code ≡ SET_ASIDE)) }
    ensures refused { IfErr result (λ n.
        IsRefusalIn (bytes_left R.remaining tap.old) options.budget ways n.refusal) }
    ensures entering { IfErr result (λ n.
        NamesEntering (bytes_left R.remaining tap.old) options.budget n.refusal.code n.entering) }
    ensures fault { (code_of result ≡ READ_FAULT)
        ↔ (read_failures_of tap.old < read_failures_of tap.new) }
    ensures tap { TakesFile R.remaining tap.old tap.new }
{
    match read_market(rt, alloc, tap) {
        Ok(roster) => match answer_in_ways::<RothPeranson, T>(rt, alloc, &roster, options, ways) {
            Ok(answer) => Ok(answer),
            Err(unanswered) => Err(why_unmatched(unanswered)),
        },
        Err(refusal) => Err(Unmatched {
            refusal,
            entering: None,
        }),
    }
}

/// The whole run as [`run`](crate::run) makes it, if the couples may enter in several ways. With one order, and no couple
/// set aside, it writes what `run` writes.
pub fn run_in_ways<T: Threads + Wait + Sync, R: Read, W: Write>(
    rt: &T,
    alloc: Global,
    tap: &mut Tap<R>,
    drain: &mut Drain<W>,
    options: Options,
    ways: Ways,
) -> EndedInWays
    requires reads { reads_of tap.old + most_bytes < u64.MAX }
    requires failures { failures_of drain.old + 1 < 2 ^ 64 }
    requires workers { (1 ≤ options.workers) × (options.workers ≤ 64) }
    requires orders { (1 ≤ ways.orders) × (ways.orders ≤ 1000) }
    ensures answers { AnswersInWays (bytes_left R.remaining tap.old) options.budget ways
        (contents_of W.contents drain.old) (contents_of W.contents drain.new)
        result.ended.code result.ended.written result.ended.whole }
    ensures entering { NamesEntering (bytes_left R.remaining tap.old) options.budget
        result.ended.code result.entering }
    ensures singles { PublishesSingles (bytes_left R.remaining tap.old) result.ended.code }
    ensures writer { failures_of drain.new
        ≡ failures_of drain.old + (if result.ended.whole then 0 else 1) }
    ensures flushed { IsTrue result.ended.whole → IsTrue (is_flushed drain.new) }
    ensures fault { (result.ended.code ≡ READ_FAULT)
        ↔ (read_failures_of tap.old < read_failures_of tap.new) }
    ensures taken { LosesAtMost (most_bytes + 1) (bytes_left R.remaining tap.old)
        (bytes_left R.remaining tap.new) }
    ensures reads { RisesAtMost (most_bytes + 1) (reads_of tap.old) (reads_of tap.new) }
    ensures failures { RisesAtMost 1 (read_failures_of tap.old) (read_failures_of tap.new) }
{
    match answer_to_input_in_ways(rt, alloc, tap, options, ways) {
        Ok(answer) => EndedInWays {
            ended: end(drain, answer.code, &answer.text),
            entering: None,
        },
        Err(none) => {
            let refusal = &none.refusal;
            let line = refused(refusal.code, refusal.row, refusal.id.as_bytes());
            EndedInWays {
                ended: end(drain, refusal.code, line.as_bytes()),
                entering: none.entering,
            }
        }
    }
}
