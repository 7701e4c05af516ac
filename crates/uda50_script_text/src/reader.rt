//! Readers of scripts.
ghost use Rattle.std.specs.Prelude.{◌≤◌, length};

use crate::blanks::{Blanks, is_plain};
use crate::line::ScriptLine;
use crate::notes::{READ_LIMIT, RecentText, ScriptNotes};
use memchr::memchr;
use std::alloc::{AllocError, Global};
use std::io;
use std::io::{BufRead, BufReader, ErrorKind, Read};
use uda_grammar::PartEnd;

/// The most bytes that are held back.
const MOST_HELD: usize = 2;

/// A reader of a script, which passes its text on in the form that the parser reads.
///
/// It holds back only blanks and carriage returns until it has read the next byte. It reads when the parser
/// needs a byte, and then once, unless that read has nothing else.
#[derive(Drop)]
pub struct ScriptReader<'n, R> {
    input: R,
    notes: &'n ScriptNotes,
    blanks: Blanks,
    passed: Vec<u8>,
    taken: usize,
}

impl<'n, R: Read> ScriptReader<'n, R> {
    /// Makes a reader of a script, with the notes that it keeps.
    pub fn new(
        alloc: Global,
        notes: &'n ScriptNotes,
        input: R,
    ) -> Result<ScriptReader<'n, R>, AllocError>
    where
        R: Drop,
    {
        Ok(ScriptReader {
            input,
            notes,
            blanks: Blanks::Indent,
            passed: Vec::with_capacity(alloc, READ_LIMIT + MOST_HELD)?,
            taken: 0,
        })
    }

    // Returns the bytes that are left to pass on.
    fn left(&self) -> &[u8] {
        &self.passed[self.taken.min(self.passed.len())..]
    }

    // Reads until there is a byte to pass on, and returns whether there is one.
    fn fill(&mut self) -> io::Result<bool> {
        for _ in 0..u64::MAX {
            if self.taken < self.passed.len() {
                return Ok(true);
            }
            if !self.read_once()? {
                return Ok(false);
            }
        }
        Ok(false)
    }

    // Reads once, and returns whether there was a byte.
    fn read_once(&mut self) -> io::Result<bool> {
        let Some(mut recent) = self.notes.take() else {
            return Ok(false);
        };
        let read = recent.read(&mut self.input);
        let passed = self.pass(&recent);
        self.notes.put(recent);
        let read = read?;
        passed?;
        Ok(read > 0)
    }

    // Puts the bytes of the last read into the form that the parser reads. Between the first word and the
    // last one they mostly have that form.
    fn pass(&mut self, recent: &RecentText) -> Result<(), AllocError> {
        self.passed.clear();
        self.taken = 0;
        let (first, middle, last) = between_words(recent.bytes());
        self.squeeze(first)?;
        if is_plain(middle) {
            self.passed.extend_from_slice(middle)?;
        } else {
            self.squeeze(middle)?;
        }
        self.squeeze(last)
    }

    // Puts bytes into the form that the parser reads.
    fn squeeze(&mut self, bytes: &[u8]) -> Result<(), AllocError> {
        self.blanks = self.blanks.squeeze(bytes, &mut self.passed)?;
        Ok(())
    }
}

// Splits a text after the first byte of its first word, and after its last word.
fn between_words(bytes: &[u8]) -> (&[u8], &[u8], &[u8]) {
    let start = match bytes.iter().position(is_of_word) {
        Some(place) => place + 1,
        None => bytes.len(),
    };
    let (first, rest) = bytes.split_at(start);
    let end = match rest.iter().rposition(is_of_word) {
        Some(place) => place + 1,
        None => 0,
    };
    let (middle, last) = rest.split_at(end);
    (first, middle, last)
}

// Returns whether a byte is part of a word.
fn is_of_word(byte: &u8) -> bool {
    *byte > b' '
}

impl<R: Read> Read for ScriptReader<'_, R> {
    fn read(&mut self, buf: &mut [u8]) -> io::Result<usize> {
        if !self.fill()? {
            return Ok(0);
        }
        let count = copy_fitting(buf, self.left());
        self.taken = self.taken.saturating_add(count);
        Ok(count)
    }
}

// Copies as many bytes as there is room for, and returns their number.
fn copy_fitting(buf: &mut [u8], bytes: &[u8]) -> usize
    ensures { result ≤ length buf.old }
{
    let count = bytes.len().min(buf.len());
    buf[..count].copy_from_slice(&bytes[..count]);
    count
}

/// Reads the lines of a script one by one.
#[derive(Drop)]
pub struct LineReader<R> {
    input: BufReader<R>,
}

impl<R: Read + Drop> LineReader<R> {
    /// Makes a reader of the lines of a script.
    pub fn new(alloc: Global, input: R) -> io::Result<LineReader<R>> {
        let input = BufReader::new(alloc, input)?;
        Ok(LineReader { input })
    }

    /// Reads the next line. Returns `None` at the end of the text, also after a line feed.
    pub fn next_line(&mut self) -> io::Result<Option<ScriptLine>> {
        let mut line = ScriptLine::new();
        let mut is_begun = false;
        for _ in 0..u64::MAX {
            match self.read_part(&mut line)? {
                PartEnd::Open => is_begun = true,
                PartEnd::LineFeed => return Ok(Some(line)),
                PartEnd::Text => break,
            }
        }
        Ok(if is_begun { Some(line) } else { None })
    }

    // Reads a part of a line.
    fn read_part(&mut self, line: &mut ScriptLine) -> io::Result<PartEnd> {
        let bytes = match self.input.fill_buf() {
            Ok(bytes) => bytes,
            Err(error) if error.kind() == ErrorKind::Interrupted => return Ok(PartEnd::Open),
            Err(error) => return Err(error),
        };
        if bytes.is_empty() {
            return Ok(PartEnd::Text);
        }
        let (count, end) = match memchr(b'\n', bytes) {
            Some(end) => {
                line.extend(&bytes[..end]);
                (end + 1, PartEnd::LineFeed)
            }
            None => {
                line.extend(bytes);
                (bytes.len(), PartEnd::Open)
            }
        };
        self.input.consume(count);
        Ok(end)
    }
}
