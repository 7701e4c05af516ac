//! Streams for tests: a reader that brings a text in pieces, and a writer that refuses some bytes.
use std::alloc::Global;
use std::io;
use std::io::{ErrorKind, Read, Write};

/// A reader of a text. Each second call is interrupted.
#[derive(Drop)]
pub(crate) struct Bits<'a> {
    /// The bytes that are left.
    pub(crate) left: &'a [u8],
    /// The most bytes that a call brings.
    pub(crate) most: usize,
    /// The number of bytes that it brings before each call fails.
    pub(crate) until: usize,
    /// The number of calls.
    pub(crate) calls: u32,
}

impl Read for Bits<'_> {
    fn read(&mut self, buf: &mut [u8]) -> io::Result<usize> {
        self.calls = self.calls.wrapping_add(1);
        if self.calls % 2 == 0 {
            return Err(io::Error::from(ErrorKind::Interrupted));
        }
        if self.until == 0 {
            return Err(io::Error::from(ErrorKind::InvalidInput));
        }
        let count = self
            .most
            .min(self.until)
            .min(self.left.len())
            .min(buf.len());
        buf[..count].copy_from_slice(&self.left[..count]);
        self.left = &self.left[count..];
        self.until = self.until.saturating_sub(count);
        Ok(count)
    }
}

/// A writer. If it is full, it refuses each further byte. If it took any, it then refuses a flush too, with
/// another error.
#[derive(Drop)]
pub(crate) struct Sink {
    /// The bytes that it took.
    pub(crate) taken: Vec<u8>,
    /// The number of bytes that it had taken at the end of each write.
    pub(crate) ends: Vec<usize>,
    /// The number of bytes that it takes.
    room: usize,
    /// The number of writes before the one that it refuses, if it refuses one. It takes the same bytes later.
    writes_before_refusal: Option<u32>,
}

impl Sink {
    /// Makes a writer with this room, and the number of writes before the one that it refuses.
    pub(crate) fn new(alloc: Global, room: usize, writes_before_refusal: Option<u32>) -> Sink {
        Sink {
            taken: Vec::new(alloc),
            ends: Vec::new(alloc),
            room,
            writes_before_refusal,
        }
    }

    /// Returns whether it will refuse a write. It refuses one at most.
    pub(crate) fn will_refuse(&self) -> bool {
        self.writes_before_refusal.is_some()
    }
}

impl Write for Sink {
    fn write(&mut self, buf: &[u8]) -> io::Result<usize> {
        let refusal = self.writes_before_refusal;
        self.writes_before_refusal = refusal.and_then(|writes| writes.checked_sub(1));
        if refusal == Some(0) {
            return Err(io::Error::from(ErrorKind::WouldBlock));
        }
        let count = buf.len().min(self.room.saturating_sub(self.taken.len()));
        if count == 0 && !buf.is_empty() {
            return Err(io::Error::from(ErrorKind::StorageFull));
        }
        self.taken.extend_from_slice(&buf[..count])?;
        self.ends.push(self.taken.len())?;
        Ok(count)
    }

    fn flush(&mut self) -> io::Result<()> {
        if self.room > 0 && self.taken.len() >= self.room {
            return Err(io::Error::from(ErrorKind::BrokenPipe));
        }
        Ok(())
    }
}
