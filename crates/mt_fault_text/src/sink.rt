ghost use Rattle.std.specs.Prelude.{◌≡◌, ◌+◌, ◌<◌, ◌^◌, false, [], ◌∷◌, OnErr, OnOk};
ghost use Rattle.mt_fault_terms.specs.Faults.{FileFault};
ghost use Rattle.mt_report.specs.Drains.{contents_of, failures_of};

use crate::front::Front;
use crate::lines::write_fault;
use crate::named::named_with;
use mt_fault_sentences::{Cursor, Teller, tell_fault};
use mt_fault_sink::{Fault, FaultSink, Stop};
use mt_line_numbers::LineNumbers;
use mt_pages::Page;
use mt_report::Drain;
use std::io::Write;

/// Where the lines of faults go.
#[derive(Drop)]
pub(crate) struct FaultLines<'a, 'd, 't, W: Write, E: Write> {
    pub(crate) drain: &'d mut Drain<W>,
    pub(crate) page: Page,
    pub(crate) front: Front,
    pub(crate) numbers: LineNumbers<'a>,
    pub(crate) cursor: Cursor<'a>,
    pub(crate) teller: &'t mut Teller<E>,
    /// How many faults it took.
    pub(crate) count: u64,
    /// The code of the fault that a match names, of those that it took.
    pub(crate) named: Option<u16>,
    /// Whether its writer failed.
    pub(crate) is_broken: bool,
}

impl<'a, 'd, 't, W: Write, E: Write> FaultSink for FaultLines<'a, 'd, 't, W, E> {
    ghost use Rattle.mt_fault_sink.specs.Seen.{fault_seen};
    ghost use Rattle.mt_fault_text.specs.Sinking.{CanTake, Stopped, Wrote};
    ghost use Rattle.mt_fault_text.specs.SinkLaws.{stopped_after, wrote_more, wrote_none};

    ghost takes = { CanTake };

    ghost told = { Wrote W.contents };

    ghost stopped = { Stopped W.contents };

    fn put(&mut self, number: u64, fault: &Fault<'_>) -> Result<(), Stop> {
        if self.count == u64::MAX {
            return Err(Stop);
        }
        self.count += 1;
        self.named = Some(named_with(self.named, fault.code));
        let line = self.numbers.line_of(number);
        let front = &mut self.front;
        let written = write_fault(self.drain, &mut self.page, front, number, line, fault);
        if written.is_err() {
            self.is_broken = true;
            return Err(Stop);
        }
        tell_fault(self.teller, &mut self.cursor, number, line, fault);
        Ok(())
    }

    ghost told_none = { wrote_none W.contents };

    ghost told_more = { wrote_more W.contents };

    ghost stopped_after = { stopped_after W.contents };
}
