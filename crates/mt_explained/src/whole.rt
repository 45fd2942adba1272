ghost use Rattle.std.specs.Prelude.{◌≡◌, ◌+◌, ◌<◌, ◌≤◌, ◌-◌, ◌^◌, [], length, All, if◌then◌else◌, IfOk, IsTrue, OnErr, is_ok};
ghost use Rattle.mt_lists.specs.Tap.{bytes_left, reads_of};
ghost use Rattle.mt_terms.specs.Places.{ArePlaces};
ghost use Rattle.mt_match_file.specs.Submitted.{shown};
ghost use Rattle.mt_terms.specs.Market.{IsAgentOf};
ghost use Rattle.mt_report.specs.Drains.{contents_of, failures_of, is_flushed};
ghost use Rattle.mt_input.specs.Files.{most_bytes};
ghost use Rattle.mt_files.specs.Uses.{UsesFiles};
ghost use Rattle.mt_explain_text.specs.Text.{agents_text};
ghost use Rattle.mt_explain_text.specs.View.{is_public_of, places_of, registered_of};
ghost use Rattle.mt_files.specs.Answer.{IsGiven};
ghost use Rattle.mt_judged.specs.Answer.{IsGivenOrMemory};
ghost use Rattle.mt_explained.specs.Answer.{Answers, match_answer, submitted_answer};
ghost use Rattle.mt_explained.specs.Text.{unknown_line};
ghost use Rattle.mt_explained.specs.View.{ids_of};

use crate::agents::agents_asked;
use crate::asked::Asked;
use crate::codes::NO_SUCH_AGENT;
use crate::sending::write_agents;
use itoa::Buffer;
use mt_explain_text::AgentLines;
use mt_files::{FileRefusalLine, Files, Refused, Source, read_files, refusal_line};
use mt_ids::is_id;
use mt_judged::{judged, refuse_file};
use mt_lists::Tap;
use mt_match_file::NamedAgents;
use mt_pages::{Outcome, Page, Unwritten, send};
use mt_ranks::Ranks;
use mt_report::{Drain, id_or_dash, put_all};
use mt_terms::codes::OUT_OF_MEMORY;
use mt_terms::{Agent, LIMITS_2, Refusal};
use mt_verify::MatchTables;
use std::alloc::{AllocError, Global};
use std::io::{Read, Write};
use std::thread::Threads;

/// A word if it is an id, which may be shown, and else nothing.
fn shown(word: &[u8]) -> &[u8]
    ensures shown { result.now ≡ shown word.now }
    ensures short { length result.now ≤ 64 }
{
    if is_id(LIMITS_2.id_bytes, word) {
        word
    } else {
        b""
    }
}

/// The refusal line of a word that names no agent.
fn unknown_line(word: &[u8]) -> FileRefusalLine
    ensures { result ≡ unknown_line word.now }
{
    let mut digits = Buffer::new();
    let code = digits.format(NO_SUCH_AGENT).as_bytes();
    refusal_line(
        b"check",
        code,
        b"NoSuchAgent",
        b"market",
        b"0",
        id_or_dash(shown(word)),
    )
}

/// Writes the one line of a refusal.
fn write_refusal<W: Write>(drain: &mut Drain<W>, code: u16, line: &[u8]) -> Outcome
    requires { failures_of drain.old + 1 < 2 ^ 64 }
    ensures given { IsGiven (record { code = code; text = line.now })
        (contents_of W.contents drain.old) (contents_of W.contents drain.new) result.code result.whole }
    ensures writer { failures_of drain.new
        ≡ failures_of drain.old + (if result.whole then 0 else 1) }
    ensures flushed { IsTrue result.whole → IsTrue (is_flushed drain.new) }
{
    let wrote = put_all(drain, line);
    Outcome {
        code,
        whole: wrote.whole,
    }
}

/// Writes the lines of all of these agents.
fn write_all<W: Write>(
    drain: &mut Drain<W>,
    page: &mut Page,
    lines: &AgentLines<'_>,
    agents: &[Agent],
) -> Result<(), Unwritten>
    requires page { page.old ≡ [] }
    requires agents { All (IsAgentOf (registered_of lines.now).market) agents.now }
    requires failures { failures_of drain.old + 1 < 2 ^ 64 }
    ensures given { IsGiven (record {
      code = 0;
      text = agents_text
          (registered_of lines.now) (places_of lines.now) (is_public_of lines.now) agents.now;
    })
        (contents_of W.contents drain.old) (contents_of W.contents drain.new) 0 (is_ok result) }
    ensures writer { failures_of drain.new
        ≡ failures_of drain.old + (if is_ok result then 0 else 1) }
    ensures flushed { IsTrue (is_ok result) → IsTrue (is_flushed drain.new) }
{
    write_agents(drain, page, lines, agents)?;
    send(drain, page)
}

/// Writes the lines of these agents of the market. The error is want of memory, and then nothing is written.
fn write_lines<T: Threads + Sync, W: Write>(
    rt: &T,
    alloc: Global,
    files: &Files,
    agents: &[Agent],
    is_public: bool,
    drain: &mut Drain<W>,
) -> Result<Outcome, AllocError>
    requires places { ArePlaces files.now.roster.market files.now.submitted.places }
    requires agents { All (IsAgentOf files.now.roster.market) agents.now }
    requires failures { failures_of drain.old + 1 < 2 ^ 64 }
    ensures given { IfOk result (λ o. IsGiven (record {
      code = 0;
      text = agents_text
          files.now.roster files.now.submitted.places is_public agents.now;
    })
        (contents_of W.contents drain.old) (contents_of W.contents drain.new) o.code o.whole) }
    ensures writer { IfOk result (λ o. failures_of drain.new
        ≡ failures_of drain.old + (if o.whole then 0 else 1)) }
    ensures flushed { IfOk result (λ o. IsTrue o.whole → IsTrue (is_flushed drain.new)) }
    ensures kept { OnErr result (drain.new ≡ drain.old) }
{
    let ranks = Ranks::build(rt, alloc, &files.roster)?;
    let tables = MatchTables::new(rt, alloc, &files.roster, &ranks, files.submitted.matched())?;
    let mut page = Page::new(alloc)?;
    let lines = AgentLines::of(tables, is_public);
    let whole = write_all(drain, &mut page, &lines, agents).is_ok();
    Ok(Outcome { code: 0, whole })
}

/// Writes the answer to the places of a match by all lists of its market. The error is want of memory, and then nothing
/// is written.
fn explain_places<T: Threads + Sync, W: Write>(
    rt: &T,
    alloc: Global,
    files: &Files,
    asked: Asked<'_>,
    drain: &mut Drain<W>,
) -> Result<Outcome, AllocError>
    requires places { ArePlaces files.now.roster.market files.now.submitted.places }
    requires failures { failures_of drain.old + 1 < 2 ^ 64 }
    ensures given { IfOk result (λ o. IsGiven (match_answer files.now.roster
        files.now.submitted.places (ids_of asked.entry) asked.entry.is_public)
        (contents_of W.contents drain.old) (contents_of W.contents drain.new) o.code o.whole) }
    ensures writer { IfOk result (λ o. failures_of drain.new
        ≡ failures_of drain.old + (if o.whole then 0 else 1)) }
    ensures flushed { IfOk result (λ o. IsTrue o.whole → IsTrue (is_flushed drain.new)) }
    ensures kept { OnErr result (drain.new ≡ drain.old) }
{
    files.roster.is_of_a_file();
    match agents_asked(alloc, &files.roster, asked.ids)? {
        NamedAgents::Unknown(word) => {
            let line = unknown_line(word.as_bytes());
            Ok(write_refusal(drain, NO_SUCH_AGENT, line.as_bytes()))
        }
        NamedAgents::Agents(agents) => write_lines(
            rt,
            alloc,
            files,
            &agents,
            asked.is_public,
            drain,
        ),
    }
}

/// Writes the answer to a market and a match. The couples that the match sets aside want nothing. The error is want of
/// memory, and then nothing is written.
fn explain_match<T: Threads + Sync, W: Write>(
    rt: &T,
    alloc: Global,
    files: Files,
    asked: Asked<'_>,
    drain: &mut Drain<W>,
) -> Result<Outcome, AllocError>
    requires places { ArePlaces files.roster.market files.submitted.places }
    requires failures { failures_of drain.old + 1 < 2 ^ 64 }
    ensures given { IfOk result (λ o. IsGiven (submitted_answer (ids_of asked.entry)
        asked.entry.is_public files.roster files.submitted)
        (contents_of W.contents drain.old) (contents_of W.contents drain.new) o.code o.whole) }
    ensures writer { IfOk result (λ o. failures_of drain.new
        ≡ failures_of drain.old + (if o.whole then 0 else 1)) }
    ensures flushed { IfOk result (λ o. IsTrue o.whole → IsTrue (is_flushed drain.new)) }
    ensures kept { OnErr result (drain.new ≡ drain.old) }
{
    let files = judged(alloc, files)?;
    explain_places(rt, alloc, &files, asked, drain)
}

/// Writes the answer to a market and a match, or the refusal line for want of memory.
fn explain_files<T: Threads + Sync, W: Write>(
    rt: &T,
    alloc: Global,
    files: Files,
    asked: Asked<'_>,
    drain: &mut Drain<W>,
) -> Outcome
    requires places { ArePlaces files.roster.market files.submitted.places }
    requires failures { failures_of drain.old + 1 < 2 ^ 64 }
    ensures given { IsGivenOrMemory (submitted_answer (ids_of asked.entry)
        asked.entry.is_public files.roster files.submitted)
        (contents_of W.contents drain.old) (contents_of W.contents drain.new) result.code result.whole }
    ensures writer { failures_of drain.new
        ≡ failures_of drain.old + (if result.whole then 0 else 1) }
    ensures flushed { IsTrue result.whole → IsTrue (is_flushed drain.new) }
{
    match explain_match(rt, alloc, files, asked, drain) {
        Ok(outcome) => outcome,
        Err(_) => refuse_file(drain, Source::Match, &Refusal::alone(OUT_OF_MEMORY)),
    }
}

/// The whole explanation: reads a market and a match, and writes the lines of the agents asked for. Each has a line for
/// what it has, and one for each place that an option names that it wants more. Couples that the match sets aside want
/// nothing. If a file is refused, or a word names no agent, it writes one line that names the refusal. The market is
/// read first, and one that is refused leaves the match unread. All memory is taken before the first byte is written.
pub fn explain<T: Threads + Sync, R: Read, S: Read, W: Write>(
    rt: &T,
    alloc: Global,
    market: &mut Tap<R>,
    matched: &mut Tap<S>,
    asked: Asked<'_>,
    drain: &mut Drain<W>,
) -> Outcome
    requires market { reads_of market.old + most_bytes < u64.MAX }
    requires matched { reads_of matched.old + most_bytes < u64.MAX }
    requires failures { failures_of drain.old + 1 < 2 ^ 64 }
    ensures answers { Answers (ids_of asked.entry) asked.entry.is_public
        (bytes_left R.remaining market.old) (bytes_left S.remaining matched.old)
        (reads_of matched.new - reads_of matched.old)
        (contents_of W.contents drain.old) (contents_of W.contents drain.new)
        result.code result.whole }
    ensures uses { UsesFiles R.remaining S.remaining market.old market.new
        matched.old matched.new drain.old drain.new result.code result.whole }
{
    match read_files(rt, alloc, market, matched) {
        Ok(files) => explain_files(rt, alloc, files, asked, drain),
        Err(Refused { source, refusal }) => refuse_file(drain, source, &refusal),
    }
}
