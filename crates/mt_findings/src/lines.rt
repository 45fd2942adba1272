ghost use Rattle.std.specs.Prelude.{◌≡◌, ◌+◌, ◌<◌, ◌^◌, [], ◌∷◌, IfOk, IsTrue, OnErr, OnOk, length};
ghost use Rattle.mt_report.specs.Drains.{contents_of, failures_of, is_flushed};
ghost use Rattle.mt_first_finding.specs.Findings.{IsThere};
ghost use Rattle.mt_pages.specs.Sending.{Breaks, Sends};
ghost use Rattle.mt_findings.specs.Text.{last_line};
ghost use Rattle.mt_findings.specs.Writing.{Failed, Wrote, if_so};

use crate::pushing::{push_finding, push_last};
use mt_first_finding::Finding;
use mt_market::Roster;
use mt_pages::{Page, Unwritten, make_room, send};
use mt_report::Drain;
use std::alloc::{AllocError, Global};
use std::io::Write;

/// The lines of findings on their way to a writer.
#[derive(Drop)]
pub(crate) struct FindingLines {
    /// The last lines, which the writer doesn't have yet.
    pub(crate) page: Page,
    /// How many lines there are, with those that the writer has.
    pub(crate) count: u64,
}

impl FindingLines {
    /// No line yet. The error is want of memory.
    pub(crate) fn new(alloc: Global) -> Result<Self, AllocError>
        ensures page { IfOk result (λ lines. lines.page ≡ []) }
        ensures count { IfOk result (λ lines. lines.count ≡ 0) }
    {
        Ok(FindingLines {
            page: Page::new(alloc)?,
            count: 0,
        })
    }
}

/// Writes the line of a finding. It may stay on the page.
fn write_finding<W: Write>(
    drain: &mut Drain<W>,
    lines: &mut FindingLines,
    roster: &Roster,
    finding: &Finding,
) -> Result<(), Unwritten>
    requires there { IsThere roster.now.market finding.now }
    requires count { lines.old.count + 1 < 2 ^ 64 }
    requires failures { failures_of drain.old + 1 < 2 ^ 64 }
    ensures wrote { OnOk result (Wrote W.contents roster.now
        drain.old drain.new lines.old lines.new (finding.now ∷ [])) }
    ensures failed { OnErr result (Failed W.contents roster.now
        drain.old drain.new lines.old lines.new (finding.now ∷ [])) }
{
    lines.count += 1;
    make_room(drain, &mut lines.page)?;
    push_finding(&mut lines.page, roster, finding);
    Ok(())
}

/// Writes the line of a finding if it is so. It may stay on the page.
pub(crate) fn write_if<W: Write>(
    drain: &mut Drain<W>,
    lines: &mut FindingLines,
    roster: &Roster,
    is_so: bool,
    finding: &Finding,
) -> Result<(), Unwritten>
    requires there { IsThere roster.now.market finding.now }
    requires count { lines.old.count + length (if_so is_so finding.now) < 2 ^ 64 }
    requires failures { failures_of drain.old + 1 < 2 ^ 64 }
    ensures wrote { OnOk result (Wrote W.contents roster.now
        drain.old drain.new lines.old lines.new (if_so is_so finding.now)) }
    ensures failed { OnErr result (Failed W.contents roster.now
        drain.old drain.new lines.old lines.new (if_so is_so finding.now)) }
{
    if is_so {
        write_finding(drain, lines, roster, finding)
    } else {
        Ok(())
    }
}

/// Writes the last line, and all that is on the page.
pub(crate) fn finish<W: Write>(
    drain: &mut Drain<W>,
    lines: &mut FindingLines,
    aside: usize,
) -> Result<(), Unwritten>
    requires failures { failures_of drain.old + 1 < 2 ^ 64 }
    ensures sends { OnOk result (Sends (contents_of W.contents drain.old)
        (contents_of W.contents drain.new) lines.old.page [] (last_line aside lines.old.count)) }
    ensures flushed { OnOk result (IsTrue (is_flushed drain.new)) }
    ensures none_failed { OnOk result (failures_of drain.new ≡ failures_of drain.old) }
    ensures breaks { OnErr result (Breaks (contents_of W.contents drain.old)
        (contents_of W.contents drain.new) lines.old.page (last_line aside lines.old.count)) }
    ensures one_failed { OnErr result (failures_of drain.new ≡ failures_of drain.old + 1) }
    ensures count { lines.new.count ≡ lines.old.count }
{
    make_room(drain, &mut lines.page)?;
    push_last(&mut lines.page, aside, lines.count);
    send(drain, &mut lines.page)
}
