ghost use Rattle.std.specs.Prelude.{◌≡◌, ◌+◌, ◌<◌, ◌≤◌, ◌-◌, ◌^◌, if◌then◌else◌, IfOk, IsTrue, OnErr, length};
ghost use Rattle.mt_lists.specs.Tap.{bytes_left, reads_of};
ghost use Rattle.mt_terms.specs.Places.{ArePlaces};
ghost use Rattle.mt_report.specs.Drains.{contents_of, failures_of, is_flushed};
ghost use Rattle.mt_input.specs.Files.{most_bytes};
ghost use Rattle.mt_files.specs.Uses.{UsesFiles};
ghost use Rattle.mt_files.specs.Answer.{IsGiven};
ghost use Rattle.mt_judged.specs.Answer.{IsGivenOrMemory};
ghost use Rattle.mt_findings.specs.Answer.{Answers, findings_answer, found_answer, number_code};
ghost use Rattle.mt_findings.specs.Findings.{findings};

use crate::lines::FindingLines;
use crate::writing::write_all;
use mt_files::{Files, Refused, Source, read_files};
use mt_first_finding::Tally;
use mt_judged::{all_agents, judged, refuse_file};
use mt_lists::Tap;
use mt_match_file::SubmittedMatch;
use mt_pages::Outcome;
use mt_ranks::Ranks;
use mt_report::Drain;
use mt_terms::Refusal;
use mt_terms::codes::OUT_OF_MEMORY;
use mt_verify::MatchTables;
use std::alloc::{AllocError, Global};
use std::io::{Read, Write};
use std::thread::Threads;

/// The code of this number of findings: 0 if there is none, and else 1.
fn number_code(findings: u64) -> u16
    ensures { result ≡ number_code findings }
{
    if findings == 0 { 0 } else { 1 }
}

/// Does nothing. Its contract says that a match has no more records of counts than a count has room for.
fn has_few_counts(submitted: &SubmittedMatch)
    ensures { length submitted.now.counts ≤ 2 ^ 63 }
{
    let _size = submitted.counts().len();
}

/// Writes every finding by all lists of a market. The error is want of memory, and then nothing is written.
fn check_places<T: Threads + Sync, W: Write>(
    rt: &T,
    alloc: Global,
    files: &Files,
    drain: &mut Drain<W>,
) -> Result<Outcome, AllocError>
    requires places { ArePlaces files.now.roster.market files.now.submitted.places }
    requires failures { failures_of drain.old + 1 < 2 ^ 64 }
    ensures given { IfOk result (λ o. IsGiven (found_answer files.now.roster
        (length files.now.submitted.aside) (findings files.now.roster.market files.now.submitted))
        (contents_of W.contents drain.old) (contents_of W.contents drain.new) o.code o.whole) }
    ensures writer { IfOk result (λ o. failures_of drain.new
        ≡ failures_of drain.old + (if o.whole then 0 else 1)) }
    ensures flushed { IfOk result (λ o. IsTrue o.whole → IsTrue (is_flushed drain.new)) }
    ensures kept { OnErr result (drain.new ≡ drain.old) }
{
    let roster = &files.roster;
    let submitted = &files.submitted;
    roster.is_of_a_file();
    has_few_counts(submitted);
    let ranks = Ranks::build(rt, alloc, roster)?;
    let tables = MatchTables::new(rt, alloc, roster, &ranks, submitted.matched())?;
    let agents = all_agents(alloc, roster)?;
    let tally = Tally::of(alloc, roster, submitted.matched())?;
    let mut lines = FindingLines::new(alloc)?;
    let whole = write_all(drain, &mut lines, &tables, &agents, &tally, submitted).is_ok();
    Ok(Outcome {
        code: number_code(lines.count),
        whole,
    })
}

/// Writes every finding against a match. The couples that it sets aside want nothing. The error is want of memory, and
/// then nothing is written.
fn check_match<T: Threads + Sync, W: Write>(
    rt: &T,
    alloc: Global,
    files: Files,
    drain: &mut Drain<W>,
) -> Result<Outcome, AllocError>
    requires places { ArePlaces files.roster.market files.submitted.places }
    requires failures { failures_of drain.old + 1 < 2 ^ 64 }
    ensures given { IfOk result (λ o. IsGiven (findings_answer files.roster files.submitted)
        (contents_of W.contents drain.old) (contents_of W.contents drain.new) o.code o.whole) }
    ensures writer { IfOk result (λ o. failures_of drain.new
        ≡ failures_of drain.old + (if o.whole then 0 else 1)) }
    ensures flushed { IfOk result (λ o. IsTrue o.whole → IsTrue (is_flushed drain.new)) }
    ensures kept { OnErr result (drain.new ≡ drain.old) }
{
    let files = judged(alloc, files)?;
    check_places(rt, alloc, &files, drain)
}

/// Writes every finding against a match, or the refusal line for want of memory.
fn check_files<T: Threads + Sync, W: Write>(
    rt: &T,
    alloc: Global,
    files: Files,
    drain: &mut Drain<W>,
) -> Outcome
    requires places { ArePlaces files.roster.market files.submitted.places }
    requires failures { failures_of drain.old + 1 < 2 ^ 64 }
    ensures given { IsGivenOrMemory (findings_answer files.roster files.submitted)
        (contents_of W.contents drain.old) (contents_of W.contents drain.new) result.code result.whole }
    ensures writer { failures_of drain.new
        ≡ failures_of drain.old + (if result.whole then 0 else 1) }
    ensures flushed { IsTrue result.whole → IsTrue (is_flushed drain.new) }
{
    match check_match(rt, alloc, files, drain) {
        Ok(outcome) => outcome,
        Err(_) => refuse_file(drain, Source::Match, &Refusal::alone(OUT_OF_MEMORY)),
    }
}

/// The whole check for all findings: reads a market and a match, and writes a line for each finding against the match,
/// and then how many they are. If there is none, it writes the line of a stable match. Couples that the match sets
/// aside want nothing. If a file is refused, it writes one line that names the refusal. The market is read first, and
/// one that is refused leaves the match unread. All memory is taken before the first byte is written.
pub fn check_all<T: Threads + Sync, R: Read, S: Read, W: Write>(
    rt: &T,
    alloc: Global,
    market: &mut Tap<R>,
    matched: &mut Tap<S>,
    drain: &mut Drain<W>,
) -> Outcome
    requires market { reads_of market.old + most_bytes < u64.MAX }
    requires matched { reads_of matched.old + most_bytes < u64.MAX }
    requires failures { failures_of drain.old + 1 < 2 ^ 64 }
    ensures answers { Answers
        (bytes_left R.remaining market.old) (bytes_left S.remaining matched.old)
        (reads_of matched.new - reads_of matched.old)
        (contents_of W.contents drain.old) (contents_of W.contents drain.new)
        result.code result.whole }
    ensures uses { UsesFiles R.remaining S.remaining market.old market.new
        matched.old matched.new drain.old drain.new result.code result.whole }
{
    match read_files(rt, alloc, market, matched) {
        Ok(files) => check_files(rt, alloc, files, drain),
        Err(Refused { source, refusal }) => refuse_file(drain, source, &refusal),
    }
}
