ghost use Rattle.std.specs.Prelude.{◌≡◌, ◌≢◌, ◌+◌, ◌<◌, ◌≤◌, ◌^◌, ◌↔◌, [], if◌then◌else◌, length, IsSome, IsTrue, Some, None, OnErr, OnOk};
ghost use Rattle.std.specs.Result.{result_ok};
ghost use Rattle.mt_lists.specs.Records.{without_mark};
ghost use Rattle.mt_lists.specs.Tap.{bytes_left, failures_of as read_failures_of, reads_of};
ghost use Rattle.mt_terms.specs.Registration.{market_of};
ghost use Rattle.mt_terms.specs.declared.codes.TheConstants.{OUT_OF_MEMORY, READ_FAULT};
ghost use Rattle.mt_report.specs.Drains.{contents_of, failures_of, is_flushed};
ghost use Rattle.mt_files.specs.Answer.{IsGiven};
ghost use Rattle.mt_pages.specs.Sending.{Breaks, Sends};
ghost use Rattle.mt_input.specs.Files.{most_bytes};
ghost use Rattle.mt_input.specs.Left.{TakesFile};
ghost use Rattle.mt_files.specs.Text.{is_code_of};
ghost use Rattle.mt_fault_terms.specs.Faults.{fault_alone};
ghost use Rattle.mt_fault_sink.specs.Seen.{fault_seen};
ghost use Rattle.mt_fault_text.specs.Answer.{
  Answers,
  IsAnswerGiven,
  IsGivenOrCut,
  IsGivenOrNoMemory,
  answer_to,
  code_in,
  faults_in,
  lines_alone,
  refusal,
};
ghost use Rattle.mt_fault_text.specs.Text.{accepted_line, count_line};

use crate::accepted::{list_entries, push_accepted};
use crate::front::{Front, push_number};
use crate::lines::write_fault;
use crate::seed::seed_of;
use crate::sending::write;
use crate::sink::FaultLines;
use mt_fault_sentences::{Cursor, Teller, tell_alone, warn_of_none};
use mt_fault_sink::Fault;
use mt_faults::find_faults;
use mt_files::{Source, refused};
use mt_input::bytes_of;
use mt_line_numbers::LineNumbers;
use mt_lists::{ListFault, Rows, Tap, records};
use mt_market::Roster;
use mt_pages::{Outcome, Page, Unwritten, make_room, send};
use mt_report::{Drain, put_all};
use mt_roster::{RosterError, faultless_roster, roster};
use mt_terms::codes::{NO_VERSION, OUT_OF_MEMORY, TOO_LARGE, TWO_MARKS};
use std::alloc::Global;
use std::io::{Read, Write};
use std::thread::Threads;

/// Writes the refusal line of the file for a code that names no record.
fn refuse<W: Write>(drain: &mut Drain<W>, code: u16) -> Outcome
    requires known { IsTrue (is_code_of Source.Market code) }
    requires failures { failures_of drain.old + 1 < 2 ^ 64 }
    ensures given { IsGiven (record { code = code; text = refusal code })
        (contents_of W.contents drain.old) (contents_of W.contents drain.new) result.code result.whole }
    ensures writer { failures_of drain.new
        ≡ failures_of drain.old + (if result.whole then 0 else 1) }
    ensures flushed { IsTrue result.whole → IsTrue (is_flushed drain.new) }
{
    let line = refused(b"check", Source::Market, code, 0, b"");
    let wrote = put_all(drain, line.as_bytes());
    Outcome {
        code,
        whole: wrote.whole,
    }
}

/// Writes the line of how many faults there are, and all that is on the page.
fn finish<W: Write>(drain: &mut Drain<W>, page: &mut Page, count: u64) -> Result<(), Unwritten>
    requires failures { failures_of drain.old + 1 < 2 ^ 64 }
    ensures sends { OnOk result (Sends (contents_of W.contents drain.old)
        (contents_of W.contents drain.new) page.old [] (count_line count)) }
    ensures flushed { OnOk result (IsTrue (is_flushed drain.new)) }
    ensures none_failed { OnOk result (failures_of drain.new ≡ failures_of drain.old) }
    ensures breaks { OnErr result (Breaks (contents_of W.contents drain.old)
        (contents_of W.contents drain.new) page.old (count_line count)) }
    ensures one_failed { OnErr result (failures_of drain.new ≡ failures_of drain.old + 1) }
{
    make_room(drain, page)?;
    page.push(b"check,1,faults");
    push_number(page, count);
    page.push(b"\n");
    send(drain, page)
}

/// Writes the refusal line for want of memory, and all that is on the page.
fn cut_short<W: Write>(drain: &mut Drain<W>, page: &mut Page) -> Result<(), Unwritten>
    requires failures { failures_of drain.old + 1 < 2 ^ 64 }
    ensures sends { OnOk result (Sends (contents_of W.contents drain.old)
        (contents_of W.contents drain.new) page.old [] (refusal OUT_OF_MEMORY)) }
    ensures flushed { OnOk result (IsTrue (is_flushed drain.new)) }
    ensures none_failed { OnOk result (failures_of drain.new ≡ failures_of drain.old) }
    ensures breaks { OnErr result (Breaks (contents_of W.contents drain.old)
        (contents_of W.contents drain.new) page.old (refusal OUT_OF_MEMORY)) }
    ensures one_failed { OnErr result (failures_of drain.new ≡ failures_of drain.old + 1) }
{
    let line = refused(b"check", Source::Market, OUT_OF_MEMORY, 0, b"");
    write(drain, page, line.as_bytes())?;
    send(drain, page)
}

/// The code with which a match refuses a file's records, or that of want of memory.
fn code_of<T: Threads + Sync>(rt: &T, alloc: Global, rows: &Rows<'_>) -> u16
    requires { result_ok (market_of rows.now) ≡ None }
    ensures { result ≢ OUT_OF_MEMORY → code_in (market_of rows.now) ≡ Some result }
{
    match roster(rt, alloc, rows) {
        Ok(_) => unreachable!(),
        Err(RosterError::Fault(fault)) => fault.code,
        Err(RosterError::Memory) => OUT_OF_MEMORY,
    }
}

/// The code that was named.
fn named_code(named: Option<u16>) -> u16
    requires { IsSome named }
    ensures { named ≡ Some result }
{
    match named {
        Some(code) => code,
        None => unreachable!(),
    }
}

/// Writes the lines of all faults of a file's records, of which there is at least one.
fn list_faults<'a, T: Threads + Sync, W: Write, E: Write>(
    rt: &T,
    alloc: Global,
    bytes: &'a [u8],
    rows: &'a Rows<'a>,
    drain: &mut Drain<W>,
    teller: &mut Teller<E>,
) -> Outcome
    requires faulty { result_ok (market_of rows.now) ≡ None }
    requires failures { failures_of drain.old + 1 < 2 ^ 64 }
    ensures listed { IsAnswerGiven (without_mark bytes.now) rows.now
        (contents_of W.contents drain.old) (contents_of W.contents drain.new) result.code result.whole }
    ensures writer { failures_of drain.new
        ≡ failures_of drain.old + (if result.whole then 0 else 1) }
    ensures flushed { IsTrue result.whole → IsTrue (is_flushed drain.new) }
{
    let Ok(page) = Page::new(alloc) else {
        return refuse(drain, OUT_OF_MEMORY);
    };
    let Ok(front) = Front::new(alloc, NO_VERSION) else {
        return refuse(drain, OUT_OF_MEMORY);
    };
    let mut sink = FaultLines {
        drain,
        page,
        front,
        numbers: LineNumbers::new(bytes),
        cursor: Cursor::new(rows),
        teller,
        count: 0,
        named: None,
        is_broken: false,
    };
    let end = find_faults(alloc, seed_of(bytes), rows, &mut sink);
    let FaultLines {
        drain,
        mut page,
        front: _front,
        numbers: _,
        cursor: _,
        teller: _,
        count,
        named,
        is_broken,
    } = sink;
    if is_broken {
        let code = code_of(rt, alloc, rows);
        return Outcome { code, whole: false };
    }
    let (code, whole) = match end {
        Ok(()) => (named_code(named), finish(drain, &mut page, count).is_ok()),
        Err(_) => (OUT_OF_MEMORY, cut_short(drain, &mut page).is_ok()),
    };
    Outcome { code, whole }
}

/// Writes the line of a fault that leaves a file without records, and that there is one.
fn write_alone<W: Write>(
    drain: &mut Drain<W>,
    page: &mut Page,
    front: &mut Front,
    fault: &Fault<'_>,
) -> Result<(), Unwritten>
    requires alone { fault_seen fault.now ≡ fault_alone fault.now.code 0 }
    requires failures { failures_of drain.old + 1 < 2 ^ 64 }
    ensures sends { OnOk result (Sends (contents_of W.contents drain.old)
        (contents_of W.contents drain.new) page.old [] (lines_alone fault.now.code)) }
    ensures flushed { OnOk result (IsTrue (is_flushed drain.new)) }
    ensures none_failed { OnOk result (failures_of drain.new ≡ failures_of drain.old) }
    ensures breaks { OnErr result (Breaks (contents_of W.contents drain.old)
        (contents_of W.contents drain.new) page.old (lines_alone fault.now.code)) }
    ensures one_failed { OnErr result (failures_of drain.new ≡ failures_of drain.old + 1) }
{
    write_fault(drain, page, front, 0, 0, fault)?;
    finish(drain, page, 1)
}

/// Writes the lines of the one fault that leaves a file without records.
fn list_alone<W: Write, E: Write>(
    alloc: Global,
    code: u16,
    drain: &mut Drain<W>,
    teller: &mut Teller<E>,
) -> Outcome
    requires failures { failures_of drain.old + 1 < 2 ^ 64 }
    ensures given { IsGivenOrNoMemory (record { code = code; text = lines_alone code })
        (contents_of W.contents drain.old) (contents_of W.contents drain.new) result.code result.whole }
    ensures writer { failures_of drain.new
        ≡ failures_of drain.old + (if result.whole then 0 else 1) }
    ensures flushed { IsTrue result.whole → IsTrue (is_flushed drain.new) }
{
    let Ok(mut page) = Page::new(alloc) else {
        return refuse(drain, OUT_OF_MEMORY);
    };
    let Ok(mut front) = Front::new(alloc, code) else {
        return refuse(drain, OUT_OF_MEMORY);
    };
    let fault = Fault {
        code,
        field: 0,
        id: b"",
        first: 0,
    };
    tell_alone(teller, code);
    Outcome {
        code,
        whole: write_alone(drain, &mut page, &mut front, &fault).is_ok(),
    }
}

/// Writes the line of an accepted market.
fn accept<T: Threads + Sync, W: Write, E: Write>(
    rt: &T,
    alloc: Global,
    roster: &Roster,
    drain: &mut Drain<W>,
    teller: &mut Teller<E>,
) -> Outcome
    requires failures { failures_of drain.old + 1 < 2 ^ 64 }
    ensures given { IsGivenOrNoMemory (record { code = 0; text = accepted_line roster.now })
        (contents_of W.contents drain.old) (contents_of W.contents drain.new) result.code result.whole }
    ensures writer { failures_of drain.new
        ≡ failures_of drain.old + (if result.whole then 0 else 1) }
    ensures flushed { IsTrue result.whole → IsTrue (is_flushed drain.new) }
{
    let Ok(mut page) = Page::new(alloc) else {
        return refuse(drain, OUT_OF_MEMORY);
    };
    let Ok(mutual) = push_accepted(rt, alloc, roster, &mut page) else {
        return refuse(drain, OUT_OF_MEMORY);
    };
    if mutual == 0 && list_entries(roster) > 0 {
        warn_of_none(teller);
    }
    Outcome {
        code: 0,
        whole: send(drain, &mut page).is_ok(),
    }
}

/// Writes the answer to the bytes of a file.
fn answer_bytes<T: Threads + Sync, W: Write, E: Write>(
    rt: &T,
    alloc: Global,
    bytes: &[u8],
    drain: &mut Drain<W>,
    teller: &mut Teller<E>,
) -> Outcome
    requires few { length bytes.now ≤ most_bytes }
    requires failures { failures_of drain.old + 1 < 2 ^ 64 }
    ensures given { IsGivenOrCut (answer_to bytes.now) (without_mark bytes.now) (faults_in bytes.now)
        (contents_of W.contents drain.old) (contents_of W.contents drain.new) result.code result.whole }
    ensures writer { failures_of drain.new
        ≡ failures_of drain.old + (if result.whole then 0 else 1) }
    ensures flushed { IsTrue result.whole → IsTrue (is_flushed drain.new) }
{
    match records(alloc, bytes) {
        Ok(rows) => match faultless_roster(rt, alloc, &rows) {
            Ok(Some(roster)) => accept(rt, alloc, &roster, drain, teller),
            Ok(None) => list_faults(rt, alloc, bytes, &rows, drain, teller),
            Err(_) => refuse(drain, OUT_OF_MEMORY),
        },
        Err(ListFault::TwoMarks) => list_alone(alloc, TWO_MARKS, drain, teller),
        Err(ListFault::Memory) => refuse(drain, OUT_OF_MEMORY),
    }
}

/// The whole check of one file. It reads a market, and writes a line for each of its faults in the order of the file,
/// and then how many there are. If there is none, it writes how many applicants, programs, couples, list entries and
/// mutual entries the market has. If memory runs out, the refusal line for that comes after the lines of the first
/// faults. The teller says the same in sentences.
pub fn check_market<T: Threads + Sync, R: Read, W: Write, E: Write>(
    rt: &T,
    alloc: Global,
    market: &mut Tap<R>,
    drain: &mut Drain<W>,
    teller: &mut Teller<E>,
) -> Outcome
    requires market { reads_of market.old + most_bytes < u64.MAX }
    requires failures { failures_of drain.old + 1 < 2 ^ 64 }
    ensures answers { Answers (bytes_left R.remaining market.old)
        (contents_of W.contents drain.old) (contents_of W.contents drain.new)
        result.code result.whole }
    ensures writer { failures_of drain.new
        ≡ failures_of drain.old + (if result.whole then 0 else 1) }
    ensures flushed { IsTrue result.whole → IsTrue (is_flushed drain.new) }
    ensures fault { (result.code ≡ READ_FAULT)
        ↔ (read_failures_of market.old < read_failures_of market.new) }
    ensures market_taken { TakesFile R.remaining market.old market.new }
{
    let outcome = match bytes_of(alloc, market) {
        Ok(bytes) => answer_bytes(rt, alloc, &bytes, drain, teller),
        Err(refusal) => match refusal.code {
            TOO_LARGE => list_alone(alloc, TOO_LARGE, drain, teller),
            code => refuse(drain, code),
        },
    };
    teller.flush();
    outcome
}
