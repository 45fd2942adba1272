use mt_pages::Page;
use mt_report::{Drain, put_all};
use std::alloc::{AllocError, Global};
use std::io::Write;

/// Lines on their way to a writer, on a page of fixed size. A writer that failed isn't asked again.
#[derive(Drop)]
pub(crate) struct Lines<E: Write> {
    drain: Drain<E>,
    page: Page,
}

impl<E: Write + Drop> Lines<E> {
    /// No lines yet. The error is want of memory.
    pub(crate) fn new(alloc: Global, drain: Drain<E>) -> Result<Self, AllocError> {
        Ok(Lines {
            drain,
            page: Page::new(alloc)?,
        })
    }
}

impl<E: Write> Lines<E> {
    /// Whether the writer failed.
    pub(crate) fn has_failed(&self) -> bool {
        self.drain.failures() > 0
    }

    /// Writes what is on the page, and takes it off.
    pub(crate) fn flush(&mut self) {
        if self.drain.failures() == 0 && !self.page.as_bytes().is_empty() {
            put_all(&mut self.drain, self.page.as_bytes());
        }
        self.page.clear();
    }

    /// Adds bytes, fewer than a page has room for.
    pub(crate) fn push(&mut self, bytes: &[u8]) {
        if bytes.is_empty() {
            return;
        }
        if !self.page.has_room(bytes.len()) {
            self.flush();
        }
        if self.page.has_room(bytes.len()) {
            self.page.push(bytes);
        }
    }
}
