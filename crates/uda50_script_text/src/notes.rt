//! What a reader of a script has read last.

use crate::line::ScriptLine;
use crate::mistake::{ByteOrderMark, Mistake};
use memchr::memrchr;
use std::alloc::{AllocError, Global};
use std::cell::Cell;
use std::io;
use std::io::Read;

/// The most bytes that are read at once.
pub(crate) const READ_LIMIT: usize = 8_192;

/// The bytes of a script that were read last, as the file has them. They explain the mistake of a line that
/// the parser has read.
#[derive(Drop)]
pub struct ScriptNotes {
    recent: Cell<Option<RecentText>>,
}

impl ScriptNotes {
    /// Makes the notes of a script of which nothing was read.
    pub fn new(alloc: Global) -> Result<ScriptNotes, AllocError> {
        let recent = RecentText::new(alloc)?;
        Ok(ScriptNotes {
            recent: Cell::new(Some(recent)),
        })
    }

    /// Returns the first line among those that were read last that has a mistake. After a run that stopped at
    /// a mistake it is that line.
    pub fn faulty_line(&self) -> Option<ScriptLine> {
        self.recent.take()?.faulty_line()
    }

    // Lends the text to a function.
    pub(crate) fn take(&self) -> Option<RecentText> {
        self.recent.take()
    }

    pub(crate) fn put(&self, recent: RecentText) {
        self.recent.set(Some(recent));
    }
}

/// The bytes of the last read, and the beginning of the line in which they begin.
#[derive(Drop)]
pub(crate) struct RecentText {
    line: ScriptLine,
    room: Vec<u8>,
    filled: usize,
}

impl RecentText {
    fn new(alloc: Global) -> Result<RecentText, AllocError> {
        let mut room = Vec::with_capacity(alloc, READ_LIMIT)?;
        room.resize(READ_LIMIT, 0)?;
        Ok(RecentText {
            line: ScriptLine::new(),
            room,
            filled: 0,
        })
    }

    /// Returns the bytes of the last read.
    pub(crate) fn bytes(&self) -> &[u8] {
        first(&self.room, self.filled)
    }

    /// Reads the next bytes of a script, once, and returns how many there are.
    pub(crate) fn read<R: Read>(&mut self, input: &mut R) -> io::Result<usize> {
        end_lines(&mut self.line, first(&self.room, self.filled));
        self.filled = 0;
        self.filled = input.read(self.room.as_mut_slice())?;
        Ok(self.filled)
    }

    // Returns the first line that has a mistake.
    fn faulty_line(self) -> Option<ScriptLine> {
        let RecentText {
            mut line,
            room,
            filled,
        } = self;
        for bytes in first(&room, filled).split(|byte| *byte == b'\n') {
            line.extend(bytes);
            if line.mistake().is_some() {
                return Some(line);
            }
            line = ScriptLine::new();
        }
        None
    }
}

// Returns the first bytes of a room, or all that it has.
fn first(room: &[u8], count: usize) -> &[u8] {
    &room[..count.min(room.len())]
}

// Replaces a line by the one with which these bytes end, which go on with the line.
fn end_lines(line: &mut ScriptLine, bytes: &[u8]) {
    match memrchr(b'\n', bytes) {
        Some(end) => {
            *line = ScriptLine::new();
            line.extend(&bytes[end + 1..]);
        }
        None => line.extend(bytes),
    }
}
