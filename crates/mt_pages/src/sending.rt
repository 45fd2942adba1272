ghost use Rattle.std.specs.Prelude.{◌≡◌, ◌+◌, ◌*◌, ◌<◌, ◌≤◌, ◌^◌, [], length, IsTrue, OnErr, OnOk};
ghost use Rattle.mt_report.specs.Drains.{contents_of, failures_of, is_flushed};
ghost use Rattle.mt_pages.specs.Sending.{Breaks, Sends};
ghost use Rattle.mt_pages.specs.declared.page.TheConstants.{LINE_LEN, PAGE_LEN};

use crate::page::{LINE_LEN, Page};
use mt_report::{Drain, put_all};
use std::io::Write;

/// A writer failed.
#[derive(Clone, Copy, Debug)]
pub struct Unwritten;

/// Writes what is on the page, and takes it off.
pub fn send<W: Write>(drain: &mut Drain<W>, page: &mut Page) -> Result<(), Unwritten>
    requires { failures_of drain.old + 1 < 2 ^ 64 }
    ensures sends { OnOk result (Sends (contents_of W.contents drain.old)
        (contents_of W.contents drain.new) page.old page.new []) }
    ensures page { OnOk result (page.new ≡ []) }
    ensures flushed { OnOk result (IsTrue (is_flushed drain.new)) }
    ensures none_failed { OnOk result (failures_of drain.new ≡ failures_of drain.old) }
    ensures breaks { OnErr result (Breaks (contents_of W.contents drain.old)
        (contents_of W.contents drain.new) page.old []) }
    ensures one_failed { OnErr result (failures_of drain.new ≡ failures_of drain.old + 1) }
{
    let wrote = put_all(drain, page.as_bytes());
    page.clear();
    if wrote.whole { Ok(()) } else { Err(Unwritten) }
}

/// Leaves room for two lines on the page: if there is too little, it writes what is on it.
pub fn make_room<W: Write>(drain: &mut Drain<W>, page: &mut Page) -> Result<(), Unwritten>
    requires { failures_of drain.old + 1 < 2 ^ 64 }
    ensures room { OnOk result (length page.new + 2 * LINE_LEN ≤ PAGE_LEN) }
    ensures sends { OnOk result (Sends (contents_of W.contents drain.old)
        (contents_of W.contents drain.new) page.old page.new []) }
    ensures none_failed { OnOk result (failures_of drain.new ≡ failures_of drain.old) }
    ensures breaks { OnErr result (Breaks (contents_of W.contents drain.old)
        (contents_of W.contents drain.new) page.old []) }
    ensures one_failed { OnErr result (failures_of drain.new ≡ failures_of drain.old + 1) }
{
    if page.has_room(2 * LINE_LEN) {
        return Ok(());
    }
    send(drain, page)
}
