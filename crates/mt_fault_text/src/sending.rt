ghost use Rattle.std.specs.Prelude.{◌≡◌, ◌+◌, ◌<◌, ◌^◌, [], OnErr, OnOk};
ghost use Rattle.mt_report.specs.Drains.{contents_of, failures_of};
ghost use Rattle.mt_pages.specs.Sending.{Breaks, Sends};

use mt_pages::{Page, Unwritten, send};
use mt_report::{Drain, put_all};
use std::io::Write;

/// Puts bytes on an empty page, or writes them at once if they are more than a page has room for.
fn start<W: Write>(drain: &mut Drain<W>, page: &mut Page, bytes: &[u8]) -> Result<(), Unwritten>
    requires page { page.old ≡ [] }
    requires failures { failures_of drain.old + 1 < 2 ^ 64 }
    ensures sends { OnOk result (Sends (contents_of W.contents drain.old)
        (contents_of W.contents drain.new) page.old page.new bytes.now) }
    ensures none_failed { OnOk result (failures_of drain.new ≡ failures_of drain.old) }
    ensures breaks { OnErr result (Breaks (contents_of W.contents drain.old)
        (contents_of W.contents drain.new) page.old bytes.now) }
    ensures one_failed { OnErr result (failures_of drain.new ≡ failures_of drain.old + 1) }
{
    if page.has_room(bytes.len()) {
        page.push(bytes);
        return Ok(());
    }
    if put_all(drain, bytes).whole {
        Ok(())
    } else {
        Err(Unwritten)
    }
}

/// Writes bytes after what is on the page. If there is room, they stay on it.
pub(crate) fn write<W: Write>(
    drain: &mut Drain<W>,
    page: &mut Page,
    bytes: &[u8],
) -> Result<(), Unwritten>
    requires { failures_of drain.old + 1 < 2 ^ 64 }
    ensures sends { OnOk result (Sends (contents_of W.contents drain.old)
        (contents_of W.contents drain.new) page.old page.new bytes.now) }
    ensures none_failed { OnOk result (failures_of drain.new ≡ failures_of drain.old) }
    ensures breaks { OnErr result (Breaks (contents_of W.contents drain.old)
        (contents_of W.contents drain.new) page.old bytes.now) }
    ensures one_failed { OnErr result (failures_of drain.new ≡ failures_of drain.old + 1) }
{
    if bytes.is_empty() {
        return Ok(());
    }
    if page.has_room(bytes.len()) {
        page.push(bytes);
        return Ok(());
    }
    send(drain, page)?;
    start(drain, page, bytes)
}
