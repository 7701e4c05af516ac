//! The beginning of a line, with the columns that its bytes have in the file.

use crate::blanks::Blanks;
use crate::mistake::{ByteOrderMark, Foreign, Intruder, Mistake};
use arrayvec::ArrayVec;
use uda_grammar::{explain, parse_line};

/// The most bytes of a line that are judged. Every statement is shorter.
const JUDGED: usize = 64;

/// The most bytes of a line that are kept: also those of a character that begins with the last byte judged.
const KEPT: usize = JUDGED + 3;

/// The beginning of a line in the form that the parser reads, with the columns in the file.
#[derive(Debug, Drop)]
pub struct ScriptLine {
    bytes: ArrayVec<u8, KEPT>,
    columns: ArrayVec<u64, KEPT>,
    blanks: Blanks,
    length: u64,
}

impl ScriptLine {
    /// Makes a line of which nothing was read.
    pub fn new() -> ScriptLine {
        ScriptLine {
            bytes: ArrayVec::new(),
            columns: ArrayVec::new(),
            blanks: Blanks::Indent,
            length: 0,
        }
    }

    /// Adds the next bytes of the line, as the file has them, without a line feed.
    pub fn extend(&mut self, bytes: &[u8]) {
        for byte in bytes {
            if self.bytes.is_full() {
                return;
            }
            self.push(*byte);
        }
    }

    // Adds the next byte of the line.
    fn push(&mut self, byte: u8) {
        self.length = self.length.saturating_add(1);
        let released = self.blanks.released(byte);
        let mut column = self.length.saturating_sub(released.len() as u64);
        for held in released {
            self.keep(*held, column);
            column = column.saturating_add(1);
        }
        if Blanks::is_passed(byte) {
            self.keep(byte, self.length);
        }
        self.blanks = self.blanks.next(byte);
    }

    // Keeps a byte with its column, if there is room.
    fn keep(&mut self, byte: u8, column: u64) {
        let _ = self.bytes.try_push(byte);
        let _ = self.columns.try_push(column);
    }

    /// Returns the mistake of the line, if it is not a statement, a comment or empty.
    pub fn mistake(&self) -> Option<Mistake> {
        let judged = &self.bytes[..self.bytes.len().min(JUDGED)];
        if parse_line(1, judged).is_ok() {
            return None;
        }
        let expected = explain(judged);
        let place = expected.column.saturating_sub(1);
        Some(Mistake {
            column: self.column(place),
            expected: expected.part,
            intruder: self.intruder(place),
        })
    }

    // Returns the column in the file of the byte at a place, or that after the last byte.
    fn column(&self, place: usize) -> u64 {
        match (self.columns.get(place), self.columns.last()) {
            (Some(column), _) => *column,
            (None, Some(last)) => last.saturating_add(1),
            (None, None) => 1,
        }
    }

    // Returns the first character that no statement has, in the word at a place.
    fn intruder(&self, place: usize) -> Option<Intruder> {
        let text = self.bytes.get(place..)?;
        let word = text.split(|byte| *byte == b' ').next()?;
        let (before, character) = Foreign::find(word)?;
        Some(Intruder {
            column: self.column(place.saturating_add(before)),
            character,
        })
    }

    /// Returns the byte order mark with which the line begins, if there is one.
    pub fn byte_order_mark(&self) -> Option<ByteOrderMark> {
        match self.columns.first() {
            Some(1) => ByteOrderMark::of_text(&self.bytes),
            _ => None,
        }
    }
}
