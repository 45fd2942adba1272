ghost use Rattle.std.specs.Prelude.{◌≡◌, ◌⊎◌, ◌+◌, ◌<◌, ◌-◌, ◌^◌, ◌↔◌, if◌then◌else◌, IfOk, IsTrue, length};
ghost use Rattle.mt_lists.specs.Tap.{bytes_left, failures_of as read_failures_of, reads_of};
ghost use Rattle.mt_terms.specs.Places.{ArePlaces};
ghost use Rattle.mt_terms.specs.declared.codes.TheConstants.{READ_FAULT};
ghost use Rattle.mt_report.specs.Drains.{contents_of, failures_of, is_flushed};
ghost use Rattle.mt_input.specs.Files.{most_bytes};
ghost use Rattle.mt_input.specs.Left.{TakesFile};
ghost use Rattle.mt_judged.specs.Answer.{finding_answer, judged_answer};
ghost use Rattle.mt_check.specs.Answer.{Answers, answer_seen};
ghost use Rattle.mt_first_finding.specs.Findings.{finding_of};

use crate::found::Found;
use crate::judging::judge;
use crate::text::finding_line;
use mt_files::{Files, Refused, Source, read_files, refuse};
use mt_lists::Tap;
use mt_market::Roster;
use mt_match_file::SubmittedMatch;
use mt_reordered::set_aside;
use mt_report::{Drain, Ended, end};
use mt_terms::Refusal;
use mt_terms::codes::OUT_OF_MEMORY;
use std::alloc::{AllocError, Global};
use std::io::{Read, Write};
use std::thread::Threads;

/// The finding on a match by all lists of a market, with its line.
fn found<T: Threads + Sync>(
    rt: &T,
    alloc: Global,
    roster: &Roster,
    submitted: &SubmittedMatch,
) -> Result<Found, AllocError>
    requires { ArePlaces roster.now.market submitted.now.places }
    ensures { IfOk result (λ found. answer_seen found
        ≡ finding_answer roster.now (length submitted.now.aside)
        (finding_of roster.now.market submitted.now)) }
{
    roster.is_of_a_file();
    let finding = judge(rt, alloc, roster, submitted)?;
    Ok(Found {
        code: finding.code(),
        text: finding_line(alloc, roster, submitted.aside().len(), &finding)?,
    })
}

/// The finding on a match, with its line. The couples that the match sets aside want nothing.
fn judged<T: Threads + Sync>(rt: &T, alloc: Global, files: &Files) -> Result<Found, AllocError>
    requires { ArePlaces files.now.roster.market files.now.submitted.places }
    ensures { IfOk result (λ found. answer_seen found
        ≡ judged_answer files.now.roster files.now.submitted) }
{
    let roster = &files.roster;
    let submitted = &files.submitted;
    let aside = submitted.aside();
    if aside.is_empty() {
        return found(rt, alloc, roster, submitted);
    }
    let others = set_aside(alloc, roster, aside)?;
    found(rt, alloc, &others, submitted)
}

/// The whole check: reads a market and a match, and writes one line. The line says that the match is stable by the
/// market's lists and that its counts agree with it, or names the first finding against it. Couples that the match sets
/// aside want nothing, and the line of a stable match says how many they are. If a file is refused, the line names the
/// refusal. The market is read and judged first, and a market that is refused leaves the match unread.
/// The line is complete before the first byte is written.
pub fn check<T: Threads + Sync, R: Read, S: Read, W: Write>(
    rt: &T,
    alloc: Global,
    market: &mut Tap<R>,
    matched: &mut Tap<S>,
    drain: &mut Drain<W>,
) -> Ended
    requires market { reads_of market.old + most_bytes < u64.MAX }
    requires matched { reads_of matched.old + most_bytes < u64.MAX }
    requires failures { failures_of drain.old + 1 < 2 ^ 64 }
    ensures answers { Answers
        (bytes_left R.remaining market.old) (bytes_left S.remaining matched.old)
        (reads_of matched.new - reads_of matched.old)
        (contents_of W.contents drain.old) (contents_of W.contents drain.new)
        result.code result.written result.whole }
    ensures writer { failures_of drain.new
        ≡ failures_of drain.old + (if result.whole then 0 else 1) }
    ensures flushed { IsTrue result.whole → IsTrue (is_flushed drain.new) }
    ensures fault { (result.code ≡ READ_FAULT)
        ↔ ((read_failures_of market.old < read_failures_of market.new)
        ⊎ (read_failures_of matched.old < read_failures_of matched.new)) }
    ensures market_taken { TakesFile R.remaining market.old market.new }
    ensures match_taken { TakesFile S.remaining matched.old matched.new }
{
    match read_files(rt, alloc, market, matched) {
        Ok(files) => match judged(rt, alloc, &files) {
            Ok(found) => end(drain, found.code, &found.text),
            Err(_) => refuse(
                drain,
                b"check",
                Source::Match,
                &Refusal::alone(OUT_OF_MEMORY),
            ),
        },
        Err(Refused { source, refusal }) => refuse(drain, b"check", source, &refusal),
    }
}
