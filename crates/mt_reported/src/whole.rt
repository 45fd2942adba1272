ghost use Rattle.std.specs.Prelude.{◌≡◌, ◌+◌, ◌<◌, ◌-◌, ◌^◌, IfOk};
ghost use Rattle.mt_lists.specs.Tap.{bytes_left, reads_of};
ghost use Rattle.mt_terms.specs.Places.{ArePlaces};
ghost use Rattle.mt_report.specs.Drains.{contents_of, failures_of};
ghost use Rattle.mt_input.specs.Files.{most_bytes};
ghost use Rattle.mt_files.specs.Uses.{UsesFiles};
ghost use Rattle.mt_reported.specs.Answer.{Answers};
ghost use Rattle.mt_reported.specs.Headline.{text_in};

use crate::form::Form;
use mt_files::{Files, Refused, Source, read_files, refuse};
use mt_lists::Tap;
use mt_ranks::Ranks;
use mt_report::{Drain, Ended, end};
use mt_statistics::Statistics;
use mt_statistics_page::report_page;
use mt_statistics_text::report_text;
use mt_terms::Refusal;
use mt_terms::codes::OUT_OF_MEMORY;
use mt_verify::MatchTables;
use std::alloc::{AllocError, Global};
use std::io::{Read, Write};
use std::thread::Threads;

/// The numbers of a match in this form.
fn written_in(alloc: Global, form: Form, statistics: &Statistics<'_>) -> Result<Vec<u8>, AllocError>
    ensures { IfOk result (λ text. text.items
        ≡ text_in form statistics.now.registered statistics.now.places) }
{
    match form {
        Form::Lines => report_text(alloc, statistics),
        Form::Page => report_page(alloc, statistics),
    }
}

/// The text of the report on a match.
fn text_of<T: Threads + Sync>(
    rt: &T,
    alloc: Global,
    form: Form,
    files: &Files,
) -> Result<Vec<u8>, AllocError>
    requires { ArePlaces files.now.roster.market files.now.submitted.places }
    ensures { IfOk result (λ text. text.items
        ≡ text_in form files.now.roster files.now.submitted.places) }
{
    let roster = &files.roster;
    roster.is_of_a_file();
    let ranks = Ranks::build(rt, alloc, roster)?;
    let tables = MatchTables::new(rt, alloc, roster, &ranks, files.submitted.matched())?;
    let statistics = Statistics::new(alloc, tables)?;
    written_in(alloc, form, &statistics)
}

/// The whole report: reads a market and a match, and writes the numbers of the match in this form. If a file is refused, one line
/// names the refusal. The market is read and judged first, and a market that is refused leaves the match unread. The
/// text is complete before the first byte is written.
pub fn report<T: Threads + Sync, R: Read, S: Read, W: Write>(
    rt: &T,
    alloc: Global,
    form: Form,
    market: &mut Tap<R>,
    matched: &mut Tap<S>,
    drain: &mut Drain<W>,
) -> Ended
    requires market { reads_of market.old + most_bytes < u64.MAX }
    requires matched { reads_of matched.old + most_bytes < u64.MAX }
    requires failures { failures_of drain.old + 1 < 2 ^ 64 }
    ensures answers { Answers form
        (bytes_left R.remaining market.old) (bytes_left S.remaining matched.old)
        (reads_of matched.new - reads_of matched.old)
        (contents_of W.contents drain.old) (contents_of W.contents drain.new)
        result.code result.written result.whole }
    ensures uses { UsesFiles R.remaining S.remaining market.old market.new
        matched.old matched.new drain.old drain.new result.code result.whole }
{
    match read_files(rt, alloc, market, matched) {
        Ok(files) => match text_of(rt, alloc, form, &files) {
            Ok(text) => end(drain, 0, &text),
            Err(_) => refuse(
                drain,
                b"report",
                Source::Match,
                &Refusal::alone(OUT_OF_MEMORY),
            ),
        },
        Err(Refused { source, refusal }) => refuse(drain, b"report", source, &refusal),
    }
}
