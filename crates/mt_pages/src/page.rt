ghost use Rattle.std.specs.Prelude.{◌≡◌, ◌+◌, ◌-◌, ◌≤◌, ◌++◌, [], codes, length, nat_le, IfOk};
ghost use Rattle.mt_pages.specs.declared.page.TheConstants.{PAGE_LEN};

use std::alloc::{AllocError, Global};
use std::marker::Model;

/// How many bytes a page has room for.
pub const PAGE_LEN: usize = 65536;

/// How many bytes a line has at most: nine fields of 64 bytes, each with one byte after it.
pub const LINE_LEN: usize = 585;

/// Lines that wait to be written, in room that is taken once.
#[derive(Drop)]
pub struct Page {
    bytes: Vec<u8>,
    len: usize,
}

impl Model for Page {
    ghost use Rattle.std.specs.Prelude.{ℕ, ◌≡◌, ◌≤◌, List, length, take};
    ghost use Rattle.mt_pages.specs.declared.page.TheConstants.{PAGE_LEN};

    ghost Value = { List ℕ };

    ghost view = { λ p. take p.len p.bytes.items };

    ghost invariant = { λ p. (p.len ≤ PAGE_LEN) × (length p.bytes.items ≡ PAGE_LEN) };
}

/// This many zeros.
fn zeros(alloc: Global, count: usize) -> Result<Vec<u8>, AllocError>
    ensures { IfOk result (λ v. length v.items ≡ count) }
{
    vec![in alloc; 0u8; count]
}

impl Page {
    /// An empty page. The error is want of memory.
    pub fn new(alloc: Global) -> Result<Self, AllocError>
        ensures { IfOk result (λ page. page ≡ []) }
    {
        Ok(Page {
            bytes: zeros(alloc, PAGE_LEN)?,
            len: 0,
        })
    }

    /// The bytes on the page.
    pub fn as_bytes(&self) -> &[u8]
        ensures { result.now ≡ self.now }
    {
        &self.bytes[..self.len]
    }

    /// Whether the page has room for `more` bytes.
    pub fn has_room(&self, more: usize) -> bool
        ensures { result ≡ nat_le more (PAGE_LEN - length self.now) }
    {
        more <= PAGE_LEN - self.len
    }

    /// Takes all bytes off the page.
    pub fn clear(&mut self)
        ensures { self.new ≡ [] }
    {
        self.len = 0;
    }

    /// Adds a field after a comma, for which there is room.
    pub fn push_field(&mut self, field: &[u8])
        requires { length self.old + length field.now + 1 ≤ PAGE_LEN }
        ensures field { self.new ≡ (self.old ++ codes ",") ++ field.now }
        ensures length { length self.new ≡ length self.old + length field.now + 1 }
    {
        self.push(b",");
        self.push(field);
    }

    /// Adds bytes at the end, for which there is room.
    pub fn push(&mut self, text: &[u8])
        requires { length self.old + length text.now ≤ PAGE_LEN }
        ensures text { self.new ≡ self.old ++ text.now }
        ensures length { length self.new ≡ length self.old + length text.now }
    {
        let end = self.len + text.len();
        self.bytes[self.len..end].copy_from_slice(text);
        self.len = end;
    }
}
