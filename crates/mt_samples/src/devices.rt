//! Readers and writers that give or take little at a time, fail once, or never end.

use std::io::{self, ErrorKind, Read, Write};

/// The bytes of a slice, `size` in each read. The `fails_at`th read fails, and the reads after it go on. It counts
/// all reads, and keeps the length of the longest buffer.
#[derive(Drop)]
pub struct Pieces<'a> {
    left: &'a [u8],
    size: usize,
    pub calls: u32,
    pub longest: usize,
    fails_at: u32,
    failure: ErrorKind,
}

impl<'a> Pieces<'a> {
    pub fn new(left: &'a [u8], size: usize, fails_at: u32, failure: ErrorKind) -> Self {
        Pieces {
            left,
            size,
            calls: 0,
            longest: 0,
            fails_at,
            failure,
        }
    }
}

impl Read for Pieces<'_> {
    fn read(&mut self, buf: &mut [u8]) -> io::Result<usize> {
        self.calls = self.calls.saturating_add(1);
        self.longest = self.longest.max(buf.len());
        if self.calls == self.fails_at {
            return Err(io::Error::from(self.failure));
        }
        let count = self.size.min(buf.len()).min(self.left.len());
        let (front, rest) = self.left.split_at(count);
        buf[..count].copy_from_slice(front);
        self.left = rest;
        Ok(count)
    }
}

/// Bytes `a` without end, at most `size` in each read.
#[derive(Drop)]
pub struct Endless {
    pub size: usize,
}

impl Read for Endless {
    fn read(&mut self, buf: &mut [u8]) -> io::Result<usize> {
        let count = self.size.min(buf.len());
        buf[..count].fill(b'a');
        Ok(count)
    }
}

/// A writer that takes `at_once` bytes at a time and `room` bytes in all, and then fails or takes none. Its flush may
/// fail. It counts its flushes.
#[derive(Drop)]
pub struct Narrow {
    pub at_once: usize,
    pub room: usize,
    pub fails: bool,
    pub flush_fails: bool,
    pub flushes: u32,
    pub taken: Vec<u8>,
}

impl Write for Narrow {
    fn write(&mut self, buf: &[u8]) -> io::Result<usize> {
        let count = self.at_once.min(self.room).min(buf.len());
        if count == 0 && self.fails {
            return Err(ErrorKind::Interrupted.into());
        }
        self.taken.extend_from_slice(&buf[..count])?;
        self.room -= count;
        Ok(count)
    }

    fn flush(&mut self) -> io::Result<()> {
        self.flushes = self.flushes.saturating_add(1);
        if self.flush_fails {
            return Err(ErrorKind::Other.into());
        }
        Ok(())
    }
}

/// A writer that takes at most `at_once` bytes in a write. The `falters_at`th write fails, or takes none, and so does
/// the `flush_fails_at`th flush. The writes and flushes after it go on. It counts both.
#[derive(Drop)]
pub struct Faltering {
    pub at_once: usize,
    pub falters_at: u32,
    pub fails: bool,
    pub flush_fails_at: u32,
    pub writes: u32,
    pub flushes: u32,
    pub taken: Vec<u8>,
}

impl Write for Faltering {
    fn write(&mut self, buf: &[u8]) -> io::Result<usize> {
        self.writes = self.writes.saturating_add(1);
        if self.writes == self.falters_at {
            return if self.fails {
                Err(ErrorKind::Interrupted.into())
            } else {
                Ok(0)
            };
        }
        let count = self.at_once.min(buf.len());
        self.taken.extend_from_slice(&buf[..count])?;
        Ok(count)
    }

    fn flush(&mut self) -> io::Result<()> {
        self.flushes = self.flushes.saturating_add(1);
        if self.flushes == self.flush_fails_at {
            return Err(ErrorKind::Interrupted.into());
        }
        Ok(())
    }
}
