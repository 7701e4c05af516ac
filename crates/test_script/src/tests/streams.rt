//! Streams that fail, and streams that move bytes in parts.
use std::alloc::Global;
use std::io;
use std::io::{Read, Write};

/// The way in which a stream moves bytes.
#[derive(Clone, Copy)]
pub enum Manner {
    /// It moves all bytes of a call.
    Whole,
    /// It moves one byte in each call.
    Single,
    /// It moves one byte in each call, and none after this many.
    Narrow(usize),
    /// It moves this many bytes, and then each call fails.
    Room(usize),
    /// It moves at most this many bytes in each call. The first call is interrupted, and then each second
    /// one.
    Halting(usize),
    /// It moves all bytes of a call, but the first call fails.
    Recovering,
    /// It moves none: each call fails.
    Broken,
    /// It takes all bytes of a call, but can't flush any.
    Stuck,
}

/// The number of calls of a stream, and the number of bytes that it moved.
#[derive(Clone, Copy)]
struct Pace {
    manner: Manner,
    calls: u32,
    moved: usize,
}

impl Pace {
    // Returns the pace of a stream that wasn't called.
    fn of(manner: Manner) -> Pace {
        let (calls, moved) = (0, 0);
        Pace {
            manner,
            calls,
            moved,
        }
    }

    // Returns how many bytes a call moves if it could move `most`.
    fn next(&mut self, most: usize) -> io::Result<usize> {
        self.calls = self.calls.saturating_add(1);
        let count = match self.manner {
            Manner::Whole | Manner::Stuck => most,
            Manner::Single => most.min(1),
            Manner::Narrow(room) => most.min(1).min(room.saturating_sub(self.moved)),
            Manner::Room(room) if room > self.moved && most > 0 => most.min(room - self.moved),
            Manner::Halting(count) if self.calls % 2 == 0 => most.min(count),
            Manner::Halting(_) => return Err(io::Error::from(io::ErrorKind::Interrupted)),
            Manner::Recovering if self.calls > 1 => most,
            Manner::Broken => return Err(io::Error::from(io::ErrorKind::InvalidData)),
            _ => return Err(io::Error::from(io::ErrorKind::StorageFull)),
        };
        self.moved = self.moved.saturating_add(count);
        Ok(count)
    }
}

/// A reader of these bytes.
#[derive(Drop)]
pub struct Source<'a> {
    pace: Pace,
    pub left: &'a [u8],
}

impl<'a> Source<'a> {
    /// Makes a reader.
    pub fn new(manner: Manner, left: &'a [u8]) -> Source<'a> {
        let pace = Pace::of(manner);
        Source { pace, left }
    }
}

impl Read for Source<'_> {
    fn read(&mut self, buf: &mut [u8]) -> io::Result<usize> {
        let count = self.pace.next(self.left.len().min(buf.len()))?;
        let count = count.min(self.left.len()).min(buf.len());
        buf[..count].copy_from_slice(&self.left[..count]);
        self.left = &self.left[count..];
        Ok(count)
    }
}

/// A writer, and the bytes that it received.
#[derive(Drop)]
pub struct Sink {
    pace: Pace,
    pub taken: Vec<u8>,
}

impl Sink {
    /// Makes a writer.
    pub fn new(alloc: Global, manner: Manner) -> Sink {
        Sink {
            pace: Pace::of(manner),
            taken: Vec::new(alloc),
        }
    }

    /// Returns whether it was asked to write.
    pub fn was_called(&self) -> bool {
        self.pace.calls > 0
    }
}

impl Write for Sink {
    fn write(&mut self, buf: &[u8]) -> io::Result<usize> {
        let count = self.pace.next(buf.len())?.min(buf.len());
        self.taken.extend_from_slice(&buf[..count])?;
        Ok(count)
    }

    fn flush(&mut self) -> io::Result<()> {
        match self.pace.manner {
            Manner::Stuck => Err(io::Error::from(io::ErrorKind::StorageFull)),
            _ => Ok(()),
        }
    }
}
