//! The text of a script, read line by line from a stream.

ghost use Rattle.std.specs.Prelude.{◌≡◌, ◌≤◌, ◌+◌, ◌++◌, List, None, take, length, OnOk, IfOk, IfErr};
ghost use Rattle.std.specs.Io.KnownBytes.{Consumes, IsAtEnd};
ghost use Rattle.std.specs.Option.{option_to_list};
ghost use Rattle.uda_grammar.specs.declared.script.Line.{Line as Request};
ghost use Rattle.uda_script_run.specs.Lines.{ReadsLine, ReadsBatch, IsUnreadText, text_at, TakesPart, line_room};

use crate::growth::push;
use crate::text_error::TextError;
use crate::text_reader::TextReader;
use arrayvec::ArrayVec;
use memchr::memchr;
use std::io::{ErrorKind, Read};
use uda_grammar::{Expected, Line, PartEnd, ScriptError, explain, parse_line};

/// The most requests that are executed in one batch.
pub(crate) const BATCH: usize = 64;

/// The most bytes of a line that are kept. Every statement is shorter.
const LINE_ROOM: usize = 64;

/// The first bytes of a line.
type LineStart = ArrayVec<u8, LINE_ROOM>;

/// The item that follows the lines that were read.
#[derive(Clone, Copy)]
pub(crate) enum Next {
    /// More of the text.
    More,
    /// Nothing: the text ended.
    End,
    /// A line that is not a statement. Its number counts from 1.
    Fault { line: u64, expected: Expected },
}

/// A stream with the text of a script, and the number of its lines that were read.
#[derive(Drop)]
pub(crate) struct Source<T> {
    pub(crate) text: T,
    pub(crate) lines_read: u64,
}

// Appends bytes to those of a line that are kept, as many as there is room for.
fn keep(line: &mut LineStart, bytes: &[u8])
    ensures kept { line.new.items ≡ take line_room (line.old.items ++ bytes.now) }
{
    let count = line.remaining_capacity().min(bytes.len());
    let _ = line.try_extend_from_slice(&bytes[..count]);
}

// Reads the next byte, and returns `None` at the end of the text. Repeats an interrupted read.
fn read_byte<T: Read>(text: &mut T) -> Result<Option<u8>, TextError>
    ensures byte { IfOk result (λ byte.
        Consumes (T.remaining text.old) (T.remaining text.new) (option_to_list byte)) }
    ensures end { IfOk result (λ byte. byte ≡ None → IsAtEnd (T.remaining text.new)) }
    ensures error { IfErr result (λ e. e ≡ TextError.Unreadable) }
{
    let mut bytes = [0];
    for _ in 0..u64::MAX {
        match text.read(&mut bytes) {
            Ok(0) => return Ok(None),
            Ok(_) => return Ok(Some(bytes[0])),
            Err(error) => {
                if error.kind() != ErrorKind::Interrupted {
                    return Err(TextError::Unreadable);
                }
            }
        }
    }
    Err(TextError::Unreadable)
}

// Reads the next byte of the line, and returns what it ends.
fn read_next<T: TextReader>(text: &mut T, line: &mut LineStart) -> Result<PartEnd, TextError>
    ensures part { IfOk result (λ end.
        TakesPart (T.remaining text.old) (T.remaining text.new) line.old.items line.new.items end) }
    ensures error { IfErr result (λ e. e ≡ TextError.Unreadable) }
{
    match read_byte(text)? {
        None => Ok(PartEnd::Text),
        Some(b'\n') => Ok(PartEnd::LineFeed),
        Some(byte) => {
            keep(line, &[byte]);
            Ok(PartEnd::Open)
        }
    }
}

// Reads a part of the line: what the reader has of it already, or else one byte. Returns what ended the part.
fn read_part<T: TextReader>(text: &mut T, line: &mut LineStart) -> Result<PartEnd, TextError>
    ensures part { IfOk result (λ end.
        TakesPart (T.remaining text.old) (T.remaining text.new) line.old.items line.new.items end) }
    ensures error { IfErr result (λ e. e ≡ TextError.Unreadable) }
{
    let bytes = text.bytes_ahead();
    if bytes.is_empty() {
        return read_next(text, line);
    }
    match memchr(b'\n', bytes) {
        Some(end) => {
            keep(line, &bytes[..end]);
            text.skip(end + 1);
            Ok(PartEnd::LineFeed)
        }
        None => {
            keep(line, bytes);
            let count = bytes.len();
            text.skip(count);
            Ok(PartEnd::Open)
        }
    }
}

// Reads the next line, and returns whether a line feed ended it. It keeps only the beginning of a long
// line.
fn read_line<T: TextReader>(text: &mut T, line: &mut LineStart) -> Result<bool, TextError>
    ensures line { IfOk result (λ ended.
        ReadsLine (T.remaining text.old) (T.remaining text.new) line.new.items ended) }
    ensures error { IfErr result (λ e. e ≡ TextError.Unreadable) }
{
    line.clear();
    for _ in 0..u64::MAX {
        match read_part(text, line)? {
            PartEnd::Open => {}
            PartEnd::LineFeed => return Ok(true),
            PartEnd::Text => return Ok(false),
        }
    }
    Err(TextError::Unreadable)
}

// Appends a request, if there is one.
fn append(lines: &mut Vec<Line>, request: Option<Line>) -> Result<(), ScriptError>
    ensures items { OnOk result (lines.new.items ≡ lines.old.items ++ option_to_list request) }
    ensures error { IfErr result (λ e. e ≡ ScriptError.NoMemory) }
{
    match request {
        Some(request) => push(lines, request),
        None => Ok(()),
    }
}

impl<T: TextReader> Source<T> {
    // Reads one line, and appends the request that it makes, if any.
    fn read_statement(&mut self, lines: &mut Vec<Line>) -> Result<Next, TextError>
        ensures read { IfOk result (λ next. (made : List Request)
            × (lines.new.items ≡ lines.old.items ++ made)
            × ReadsBatch (text_at self.old.lines_read (T.remaining self.old.text))
            (text_at self.new.lines_read (T.remaining self.new.text)) made next) }
        ensures one { IfOk result (λ _. length lines.new.items ≤ length lines.old.items + 1) }
        ensures error { IfErr result IsUnreadText }
    {
        let Some(number) = self.lines_read.checked_add(1) else {
            return Err(TextError::Unreadable);
        };
        let mut line = LineStart::new();
        let is_ended = read_line(&mut self.text, &mut line)?;
        self.lines_read = number;
        let Ok(request) = parse_line(number, &line) else {
            let expected = explain(&line);
            return Ok(Next::Fault {
                line: number,
                expected,
            });
        };
        append(lines, request)?;
        if is_ended {
            Ok(Next::More)
        } else {
            Ok(Next::End)
        }
    }

    /// Reads lines until they make [`BATCH`] requests, the text ends, or a line is not a statement. Puts
    /// the requests into `lines`.
    pub(crate) fn read_batch(&mut self, lines: &mut Vec<Line>) -> Result<Next, TextError>
        ensures read { IfOk result (λ next.
            ReadsBatch (text_at self.old.lines_read (T.remaining self.old.text))
            (text_at self.new.lines_read (T.remaining self.new.text)) lines.new.items next) }
        ensures few { IfOk result (λ _. length lines.new.items ≤ 64) }
        ensures error { IfErr result IsUnreadText }
    {
        lines.clear();
        for _ in 0..u64::MAX {
            if lines.len() >= BATCH {
                return Ok(Next::More);
            }
            match self.read_statement(lines)? {
                Next::More => {}
                next => return Ok(next),
            }
        }
        Err(TextError::Unreadable)
    }
}
