ghost use Rattle.std.specs.Prelude.{◌≡◌, ◌+◌, ◌<◌, ◌≤◌, ◌++◌, ◌^◌, length, OnErr, OnOk};
ghost use Rattle.mt_report.specs.Drains.{contents_of, failures_of};
ghost use Rattle.mt_fault_sink.specs.Seen.{fault_seen};
ghost use Rattle.mt_pages.specs.Sending.{Breaks, Sends};
ghost use Rattle.mt_fault_text.specs.Pieces.{fault_end};
ghost use Rattle.mt_fault_text.specs.Text.{fault_line_at};

use crate::front::{Front, push_digits};
use crate::sending::write;
use mt_fault_sink::Fault;
use mt_pages::{Page, Unwritten, make_room};
use mt_report::Drain;
use std::io::Write;

/// How many bytes an id has at most for which there is room at the end of each line.
const ID_ROOM: usize = 256;

/// Writes the line of a fault, which begins with this front.
fn write_line<W: Write>(
    drain: &mut Drain<W>,
    page: &mut Page,
    front: &[u8],
    fault: &Fault<'_>,
) -> Result<(), Unwritten>
    requires short { length front.now ≤ 258 }
    requires failures { failures_of drain.old + 1 < 2 ^ 64 }
    ensures sends { OnOk result (Sends (contents_of W.contents drain.old)
        (contents_of W.contents drain.new) page.old page.new
        (front.now ++ fault_end (fault_seen fault.now))) }
    ensures none_failed { OnOk result (failures_of drain.new ≡ failures_of drain.old) }
    ensures breaks { OnErr result (Breaks (contents_of W.contents drain.old)
        (contents_of W.contents drain.new) page.old (front.now ++ fault_end (fault_seen fault.now))) }
    ensures one_failed { OnErr result (failures_of drain.new ≡ failures_of drain.old + 1) }
{
    make_room(drain, page)?;
    page.push(front);
    push_digits(page, fault.field as u64);
    if fault.id.is_empty() {
        page.push(b",-\n");
        return Ok(());
    }
    page.push(b",");
    if fault.id.len() <= ID_ROOM {
        page.push(fault.id);
        page.push(b"\n");
        return Ok(());
    }
    write(drain, page, fault.id)?;
    write(drain, page, b"\n")
}

/// Writes the line of a fault of the record with this number, which begins on this line. The front becomes that of the
/// line.
pub(crate) fn write_fault<W: Write>(
    drain: &mut Drain<W>,
    page: &mut Page,
    front: &mut Front,
    number: u64,
    line: u64,
    fault: &Fault<'_>,
) -> Result<(), Unwritten>
    requires { failures_of drain.old + 1 < 2 ^ 64 }
    ensures sends { OnOk result (Sends (contents_of W.contents drain.old)
        (contents_of W.contents drain.new) page.old page.new
        (fault_line_at line (number, fault_seen fault.now))) }
    ensures none_failed { OnOk result (failures_of drain.new ≡ failures_of drain.old) }
    ensures breaks { OnErr result (Breaks (contents_of W.contents drain.old)
        (contents_of W.contents drain.new) page.old (fault_line_at line (number, fault_seen fault.now))) }
    ensures one_failed { OnErr result (failures_of drain.new ≡ failures_of drain.old + 1) }
{
    front.set(fault.code, number, line);
    write_line(drain, page, front.as_bytes(), fault)
}
