//! The reads of a script's text, compared with those of a loop that reads it byte by byte.
use super::batches::driver_of_fives;
use super::streams::{Manner, Sink};
use arrayvec::ArrayVec;
use std::alloc::{AllocError, Global};
use std::io;
use std::io::{BufRead, BufReader, ErrorKind, Read, Write};
use std::process::Abort;
use std::test::Fail;
use uda_disk::Answer;
use uda_driver::{Driver, Unwatched};
use uda_grammar::{Expected, Line, ScriptError, explain, parse_line};
use uda_image::MemImage;
use uda_script_run::{
    Channels, ReportStyle, ScriptOutcome, TextError, read_requests, run_buffered_text, run_text,
};

// ---- the slower form

/// The item that follows the lines that were read.
#[derive(Clone, Copy)]
enum Next {
    More,
    End,
    Fault { line: u64, expected: Expected },
}

// A text, and the number of its lines that were read.
#[derive(Drop)]
struct Slow<T> {
    text: T,
    lines_read: u64,
}

// Reads the next byte, and returns `None` at the end of the text. Repeats an interrupted read.
fn read_byte<T: Read>(text: &mut T) -> Result<Option<u8>, TextError> {
    let mut bytes = [0];
    for _ in 0..u64::MAX {
        match text.read(&mut bytes) {
            Ok(0) => return Ok(None),
            Ok(_) => return Ok(Some(bytes[0])),
            Err(error) => {
                if error.kind() != ErrorKind::Interrupted {
                    return Err(TextError::Unreadable);
                }
            }
        }
    }
    Err(TextError::Unreadable)
}

// Reads the next line, and returns whether a line feed ended it. It keeps only the beginning of a long
// line.
fn read_line<T: Read>(text: &mut T, line: &mut ArrayVec<u8, 64>) -> Result<bool, TextError> {
    line.clear();
    for _ in 0..u64::MAX {
        match read_byte(text)? {
            None => return Ok(false),
            Some(b'\n') => return Ok(true),
            Some(byte) => {
                if !line.is_full() {
                    line.push(byte);
                }
            }
        }
    }
    Err(TextError::Unreadable)
}

// Appends the request that a line makes, if any. Returns what follows the line.
fn keep_request(
    number: u64,
    line: &[u8],
    is_ended: bool,
    lines: &mut Vec<Line>,
) -> Result<Next, TextError> {
    match parse_line(number, line) {
        Ok(Some(request)) => lines.push(request).map_err(|_| ScriptError::NoMemory)?,
        Ok(None) => {}
        Err(_) => {
            let expected = explain(line);
            return Ok(Next::Fault {
                line: number,
                expected,
            });
        }
    }
    Ok(if is_ended { Next::More } else { Next::End })
}

impl<T: Read> Slow<T> {
    // Reads one line, and appends the request that it makes, if any.
    fn read_statement(&mut self, lines: &mut Vec<Line>) -> Result<Next, TextError> {
        let number = self.lines_read.saturating_add(1);
        let mut line = ArrayVec::<u8, 64>::new();
        let is_ended = read_line(&mut self.text, &mut line)?;
        self.lines_read = number;
        keep_request(number, &line, is_ended, lines)
    }

    // Reads lines until they make 64 requests, the text ends, or a line is not a statement.
    fn read_batch(&mut self, lines: &mut Vec<Line>) -> Result<Next, TextError> {
        lines.clear();
        for _ in 0..u64::MAX {
            if lines.len() >= 64 {
                return Ok(Next::More);
            }
            match self.read_statement(lines)? {
                Next::More => {}
                next => return Ok(next),
            }
        }
        Err(TextError::Unreadable)
    }
}

// Writes the bytes of answers.
fn print_bytes(answers: &[Answer], out: &mut Sink) -> io::Result<()> {
    for answer in answers {
        if let Answer::Data { bytes, .. } = answer {
            out.write_all(bytes)?;
        }
    }
    Ok(())
}

// Writes the lines of answers. The first has this number.
fn print_lines(answers: &[Answer], first: usize, report: &mut Sink) -> io::Result<()> {
    let mut number = first;
    for answer in answers {
        writeln!(report, "{number} {answer}")?;
        number = number.saturating_add(1);
    }
    Ok(())
}

/// The streams of a run.
type Streams<'a> = Channels<&'a [u8], Sink, Sink, Unwatched>;

// Executes the requests of lines. The first answer has this number. Returns how many answers there are, and
// whether all succeeded.
fn run_lines(
    alloc: Global,
    lines: &[Line],
    first: usize,
    streams: &mut Streams<'_>,
    driver: &mut Driver<MemImage>,
) -> Result<(usize, bool), TextError> {
    let requests = read_requests(alloc, lines, &mut streams.input)?;
    let answers = driver.run(&requests).map_err(|_| ScriptError::NoMemory)?;
    print_bytes(&answers, &mut streams.out).map_err(|_| ScriptError::Write)?;
    print_lines(&answers, first, &mut streams.report).map_err(|_| ScriptError::Write)?;
    Ok((
        answers.len(),
        answers.iter().all(|answer| is_success(answer)),
    ))
}

// The slower form of `run_text`, in the plain style.
fn run_slowly<T: Read + Drop>(
    alloc: Global,
    text: T,
    streams: &mut Streams<'_>,
    driver: &mut Driver<MemImage>,
) -> Result<ScriptOutcome, TextError> {
    let mut source = Slow {
        text,
        lines_read: 0,
    };
    let mut lines = Vec::new(alloc);
    let mut first = 1usize;
    let mut outcome = ScriptOutcome::AllSucceeded;
    for _ in 0..u64::MAX {
        let next = source.read_batch(&mut lines)?;
        let (count, succeeded) = run_lines(alloc, &lines, first, streams, driver)?;
        first = first.saturating_add(count);
        if !succeeded {
            outcome = ScriptOutcome::SomeFailed;
        }
        match next {
            Next::More => {}
            Next::End => return Ok(outcome),
            Next::Fault { line, expected } => return Err(TextError::Syntax { line, expected }),
        }
    }
    Err(TextError::Unreadable)
}

// Returns whether a request of the texts below succeeded.
fn is_success(answer: &Answer) -> bool {
    match answer {
        Answer::TooLong => false,
        Answer::Plain { status }
        | Answer::Online { status, .. }
        | Answer::Status { status, .. }
        | Answer::Moved { status, .. }
        | Answer::Data { status, .. } => *status == 0 || *status == 0x100,
    }
}

// ---- readers that note what is asked of them

/// How a reader brings its bytes.
#[derive(Clone, Copy, PartialEq)]
struct Pace {
    /// The most bytes that a read brings.
    most: usize,
    /// Whether each second read is interrupted.
    halts: bool,
    /// The number of bytes that it still brings before each read fails.
    until: usize,
}

/// The bytes that a reader has left, how it brings them, and the reads that it saw.
#[derive(Drop, PartialEq)]
struct Note<'t> {
    left: &'t [u8],
    pace: Pace,
    /// The length of each read.
    reads: Vec<usize>,
    /// The number of calls of `fill_buf`. No form makes any.
    fills: usize,
}

/// A reader that keeps a note. As a `BufRead` it shows all bytes that it has left.
#[derive(Drop)]
struct Noted<'n, 't> {
    note: &'n mut Note<'t>,
}

impl Note<'_> {
    // Notes a read, and returns how many bytes it may bring.
    fn next(&mut self, length: usize) -> io::Result<usize> {
        self.reads.push(length)?;
        if self.pace.halts && self.reads.len() % 2 == 0 {
            return Err(io::Error::from(ErrorKind::Interrupted));
        }
        if self.pace.until == 0 {
            return Err(io::Error::from(ErrorKind::InvalidData));
        }
        let count = self.pace.most.min(self.pace.until);
        self.pace.until = self
            .pace
            .until
            .saturating_sub(count.min(length).min(self.left.len()));
        Ok(count)
    }
}

impl Read for Noted<'_, '_> {
    fn read(&mut self, buf: &mut [u8]) -> io::Result<usize> {
        let note = &mut *self.note;
        let most = note.next(buf.len())?;
        let count = most.min(note.left.len()).min(buf.len());
        buf[..count].copy_from_slice(&note.left[..count]);
        note.left = &note.left[count..];
        Ok(count)
    }
}

impl BufRead for Noted<'_, '_> {
    fn fill_buf(&mut self) -> io::Result<&[u8]> {
        self.note.fills = self.note.fills.saturating_add(1);
        Ok(self.note.left)
    }

    fn consume(&mut self, amount: usize) {
        let count = amount.min(self.note.left.len());
        self.note.left = &self.note.left[count..];
    }
}

// ---- the comparison

/// The function that runs a text.
#[derive(Clone, Copy)]
enum Form {
    Slow,
    Plain,
    Buffered,
}

/// The kind of reader.
#[derive(Clone, Copy)]
enum Kind {
    /// A reader that keeps a note, without a buffer.
    Bare,
    /// A buffer of this capacity.
    Buffer(usize),
    /// A buffer of this capacity that is lent.
    Lent(usize),
    /// The first line, and then a buffer of this capacity.
    Chain(usize),
}

static KINDS: [Kind; 8] = [
    Kind::Bare,
    Kind::Buffer(0),
    Kind::Buffer(1),
    Kind::Buffer(5),
    Kind::Buffer(8_192),
    Kind::Lent(8_192),
    Kind::Chain(0),
    Kind::Chain(8_192),
];

static PACES: [Pace; 4] = [
    Pace {
        most: usize::MAX,
        halts: false,
        until: usize::MAX,
    },
    Pace {
        most: 3,
        halts: true,
        until: usize::MAX,
    },
    Pace {
        most: 4_096,
        halts: false,
        until: 70,
    },
    Pace {
        most: 1_000,
        halts: true,
        until: 4_100,
    },
];

impl Kind {
    // Returns the forms that can read from it.
    fn forms(self) -> &'static [Form] {
        match self {
            Kind::Buffer(_) => &[Form::Plain, Form::Buffered],
            _ => &[Form::Plain],
        }
    }
}

// The result of a run, with what its reader noted.
#[derive(Drop, PartialEq)]
struct Ran<'t> {
    done: Result<ScriptOutcome, TextError>,
    written: Vec<u8>,
    report: Vec<u8>,
    /// The bytes that a lent buffer has left.
    buffered: usize,
    note: Note<'t>,
}

// Runs a text from a reader without a buffer of its own.
fn run_any<T: BufRead + Drop>(
    alloc: Global,
    form: Form,
    text: T,
    streams: &mut Streams<'_>,
    driver: &mut Driver<MemImage>,
) -> Result<ScriptOutcome, TextError> {
    match form {
        Form::Slow => run_slowly(alloc, text, streams, driver),
        _ => run_text(alloc, ReportStyle::PLAIN, text, streams, driver),
    }
}

// Runs a text from a reader with a buffer.
fn run_buffer<T: Read + Drop>(
    alloc: Global,
    form: Form,
    text: BufReader<T>,
    streams: &mut Streams<'_>,
    driver: &mut Driver<MemImage>,
) -> Result<ScriptOutcome, TextError> {
    match form {
        Form::Buffered => run_buffered_text(alloc, ReportStyle::PLAIN, text, streams, driver),
        _ => run_any(alloc, form, text, streams, driver),
    }
}

// Runs a text from a buffer of this capacity.
fn run_buffer_of(
    alloc: Global,
    (form, capacity): (Form, usize),
    noted: Noted<'_, '_>,
    streams: &mut Streams<'_>,
    driver: &mut Driver<MemImage>,
) -> io::Result<Result<ScriptOutcome, TextError>> {
    let text = BufReader::with_capacity(alloc, capacity, noted)?;
    Ok(run_buffer(alloc, form, text, streams, driver))
}

// Runs a text from such a buffer that is lent. Returns how many bytes the buffer has left, too.
fn run_lent(
    alloc: Global,
    (form, capacity): (Form, usize),
    noted: Noted<'_, '_>,
    streams: &mut Streams<'_>,
    driver: &mut Driver<MemImage>,
) -> io::Result<(Result<ScriptOutcome, TextError>, usize)> {
    let mut text = BufReader::with_capacity(alloc, capacity, noted)?;
    let done = run_any(alloc, form, &mut text, streams, driver);
    Ok((done, text.buffer().len()))
}

// Runs a text whose first line comes before such a buffer.
fn run_chain(
    alloc: Global,
    (form, capacity): (Form, usize),
    noted: Noted<'_, '_>,
    streams: &mut Streams<'_>,
    driver: &mut Driver<MemImage>,
) -> io::Result<Result<ScriptOutcome, TextError>> {
    let first: &[u8] = b"online 0\n";
    let text = first.chain(BufReader::with_capacity(alloc, capacity, noted)?);
    Ok(run_any(alloc, form, text, streams, driver))
}

// Runs the text of a reader of this kind. Returns the result, and how many bytes a lent buffer has left.
fn run_kind(
    alloc: Global,
    (form, kind): (Form, Kind),
    note: &mut Note<'_>,
    streams: &mut Streams<'_>,
    driver: &mut Driver<MemImage>,
) -> io::Result<(Result<ScriptOutcome, TextError>, usize)> {
    let noted = Noted { note };
    let done = match kind {
        Kind::Bare => run_any(alloc, form, noted, streams, driver),
        Kind::Buffer(most) => run_buffer_of(alloc, (form, most), noted, streams, driver)?,
        Kind::Lent(most) => return run_lent(alloc, (form, most), noted, streams, driver),
        Kind::Chain(most) => run_chain(alloc, (form, most), noted, streams, driver)?,
    };
    Ok((done, 0))
}

// Runs a text, and returns the result.
fn run<'t>(
    alloc: Global,
    form: Form,
    (kind, pace): (Kind, Pace),
    script: &'t [u8],
    driver: &mut Driver<MemImage>,
) -> Result<Ran<'t>, Fail> {
    let mut streams = Channels {
        input: [7; 2_000].as_slice(),
        out: Sink::new(alloc, Manner::Whole),
        report: Sink::new(alloc, Manner::Whole),
        watch: Unwatched,
    };
    let mut note = Note {
        left: script,
        pace,
        reads: Vec::new(alloc),
        fills: 0,
    };
    let (done, buffered) = run_kind(alloc, (form, kind), &mut note, &mut streams, driver)?;
    Ok(Ran {
        done,
        written: streams.out.taken,
        report: streams.report.taken,
        buffered,
        note,
    })
}

/// The driver of the slower form, and that of the form that is compared with it. Both run the same texts, so
/// their units are in the same state.
#[derive(Drop)]
struct Drivers {
    slow: Driver<MemImage>,
    other: Driver<MemImage>,
}

impl Drivers {
    // Starts both, over eight blocks each.
    fn start(alloc: Global) -> Result<Drivers, Fail> {
        Ok(Drivers {
            slow: driver_of_fives(alloc)?,
            other: driver_of_fives(alloc)?,
        })
    }

    // Compares the forms over each kind of reader. The paces take turns, and begin with this one.
    fn compare(
        &mut self,
        rt: &(impl Alloc<A = Global> + Abort),
        script: &[u8],
        first: usize,
    ) -> Result<(), Fail> {
        for (n, kind) in KINDS.iter().enumerate() {
            let pace = (first % 4 + n) % 4;
            let setting = (*kind, PACES[pace]);
            for (m, form) in kind.forms().iter().enumerate() {
                let are_same = self.are_same(rt.alloc(), *form, setting, script)?;
                assert!(rt; are_same, "reader {n}, pace {pace}, form {m}");
            }
        }
        Ok(())
    }

    // Runs the slower form and another, and returns whether the results are the same.
    fn are_same(
        &mut self,
        alloc: Global,
        form: Form,
        setting: (Kind, Pace),
        script: &[u8],
    ) -> Result<bool, Fail> {
        let slow = run(alloc, Form::Slow, setting, script, &mut self.slow)?;
        let other = run(alloc, form, setting, script, &mut self.other)?;
        Ok(other == slow)
    }
}

// ---- the texts

static HEADS: [&str; 3] = ["online 0\n", "\n\n# a comment\nonline 0\n\n", ""];

// What follows a comment that brings the text to a length.
static TAILS: [&[u8]; 9] = [
    b"",
    b"\n",
    b"\n\n#",
    b"\nstatus 0",
    b"\nwrite 0 0 1\nread 0 0 1\n",
    b"\nread 0 0 00000000000000000000000000000000000000000000000000000000000000000001\n",
    b"\nst\0tus 0\nstatus 0\n",
    b"\nstatus \xff\xfe\n",
    b"\nread 0 8 1\n\n\n",
];

// Of the long texts, each length has three of the tails.
static LENGTHS: [usize; 10] = [0, 63, 64, 65, 4_095, 4_096, 4_097, 8_191, 8_192, 8_193];

// Returns a text: the head, a comment up to this length, and the tail.
fn made_text(alloc: Global, head: &str, length: usize, tail: &[u8]) -> Result<Vec<u8>, AllocError> {
    let mut text = Vec::new(alloc);
    text.extend_from_slice(head.as_bytes())?;
    for _ in head.len()..length {
        text.push(b'#')?;
    }
    text.extend_from_slice(tail)?;
    Ok(text)
}

impl Drivers {
    // Compares the forms over the texts of each length and tail.
    fn compare_texts(&mut self, rt: &(impl Alloc<A = Global> + Abort)) -> Result<(), Fail> {
        let mut count = 0usize;
        for &length in &LENGTHS {
            for (n, tail) in TAILS.iter().enumerate() {
                count = count.saturating_add(1);
                if length > 1_000 && (length % 3 + n) % 3 != 0 {
                    continue;
                }
                let text = made_text(rt.alloc(), HEADS[n % 3], length, tail)?;
                self.compare(rt, &text, count)?;
            }
        }
        Ok(())
    }

    // Compares the forms over a text, with each pace first.
    fn compare_each_pace(
        &mut self,
        rt: &(impl Alloc<A = Global> + Abort),
        text: &[u8],
    ) -> Result<(), Fail> {
        for first in 0..4 {
            self.compare(rt, text, first)?;
        }
        Ok(())
    }

    // Compares the forms over the texts of several batches.
    fn compare_long_texts(&mut self, rt: &(impl Alloc<A = Global> + Abort)) -> Result<(), Fail> {
        self.compare_each_pace(rt, &long_text(rt.alloc(), "status 0\n")?)?;
        self.compare_each_pace(rt, &long_text(rt.alloc(), "read 0 0 1\n")?)
    }
}

/// Texts of any length, whose lines end in a buffer, at its end or after it, from readers with and without
/// buffers, lent ones, and two in a row. Their reads are short, interrupted, or fail. Results, outputs, the
/// reads and what is left are those of the slower form.
#[test]
fn texts_are_as_read_byte_by_byte(rt: HostRuntime) -> Result<(), Fail> {
    let mut drivers = Drivers::start(rt.alloc())?;
    drivers.compare_texts(&rt)
}

// Returns a text of several batches, each of whose lines but the first is this one.
fn long_text(alloc: Global, line: &str) -> Result<Vec<u8>, AllocError> {
    let mut text = Vec::from_slice(alloc, b"online 0\n")?;
    for _ in 0..200 {
        text.extend_from_slice(line.as_bytes())?;
    }
    Ok(text)
}

/// A text of several batches.
#[test]
fn long_texts_are_as_read_byte_by_byte(rt: HostRuntime) -> Result<(), Fail> {
    let mut drivers = Drivers::start(rt.alloc())?;
    drivers.compare_long_texts(&rt)
}
