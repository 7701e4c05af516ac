//! The standard streams, and files that are read as streams.
ghost use Rattle.std.specs.Prelude.{◌≡◌};

use crate::fault::{Fault, STANDARD_INPUT};
use std::cell::Cell;
use std::fs::{File, OpenFile};
use std::io;
use std::io::{ErrorKind, IsTerminal, Read, Stdin, Write};

/// Opens files that replace closed standard streams. The caller keeps them open while it uses other files.
/// Without them an image could be opened in place of a closed stream, and printed text would be written to
/// it.
///
/// Returns `None` if neither `/dev/null` nor `/` can be opened.
pub(crate) fn fill_closed_streams(rt: &HostRuntime) -> Option<[File; 3]> {
    Some([nothing(rt)?, nothing(rt)?, nothing(rt)?])
}

/// What a verb reads as a stream.
#[derive(Drop)]
pub(crate) enum InputStream {
    /// A stream without bytes.
    Empty,
    /// Standard input.
    Standard(Stdin),
    /// A file.
    File(File),
}

impl InputStream {
    /// Opens a file, or standard input if the name is `-`.
    pub(crate) fn open<'w>(rt: &HostRuntime, name: &'w str) -> Result<InputStream, Fault<'w>> {
        match name {
            "-" => Ok(InputStream::Standard(rt.stdin())),
            path => {
                let file = Fault::of_call(path, File::open(rt, path))?;
                Ok(InputStream::File(file))
            }
        }
    }

    /// Returns what the data of a script is read from: standard input, unless the script is read from there.
    pub(crate) fn of_data(rt: &HostRuntime, script: &str) -> InputStream {
        match script {
            "-" => InputStream::Empty,
            _ => InputStream::Standard(rt.stdin()),
        }
    }
}

impl Read for InputStream {
    fn read(&mut self, buf: &mut [u8]) -> io::Result<usize> {
        match self {
            InputStream::Empty => Ok(0),
            InputStream::Standard(stream) => stream.read(buf),
            InputStream::File(file) => file.read(buf),
        }
    }
}

/// Returns the name of a stream in faults.
pub(crate) fn stream_name(name: &str) -> &str {
    match name {
        "-" => STANDARD_INPUT,
        path => path,
    }
}

/// The last error of a stream.
#[derive(Drop)]
pub(crate) struct LastError(Cell<Option<NotedError>>);

// What is kept of an error of the system: its number, or else its kind.
#[derive(Clone, Copy)]
enum NotedError {
    Number(i32),
    Kind(ErrorKind),
}

impl LastError {
    /// Makes the last error of a stream that had none.
    pub(crate) fn none() -> LastError {
        LastError(Cell::new(None))
    }

    // Notes an error, except that a call was interrupted, after which it is repeated.
    fn note(&self, error: &io::Error) {
        if error.kind() == ErrorKind::Interrupted {
            return;
        }
        self.0.set(Some(match error.raw_os_error() {
            Some(number) => NotedError::Number(number),
            None => NotedError::Kind(error.kind()),
        }));
    }

    // Returns the result of a call, whose error it notes.
    fn noted<T>(&self, called: io::Result<T>) -> io::Result<T>
        ensures same { result ≡ called }
    {
        if let Err(error) = &called {
            self.note(error);
        }
        called
    }

    /// Returns whether there was an error.
    pub(crate) fn is_some(&self) -> bool {
        self.0.get().is_some()
    }

    /// Returns the error, if there was one.
    pub(crate) fn get(&self) -> Option<io::Error> {
        match self.0.get()? {
            NotedError::Number(number) => Some(io::Error::from_raw_os_error(number)),
            NotedError::Kind(kind) => Some(io::Error::from(kind)),
        }
    }
}

/// A stream whose last error is noted.
#[derive(Drop)]
pub(crate) struct Noting<'e, S> {
    stream: S,
    last: &'e LastError,
}

impl<'e, S> Noting<'e, S> {
    /// Makes a stream whose last error is noted there.
    pub(crate) fn new(stream: S, last: &'e LastError) -> Noting<'e, S> {
        Noting { stream, last }
    }
}

impl<S: Read> Read for Noting<'_, S> {
    fn read(&mut self, buf: &mut [u8]) -> io::Result<usize> {
        let read = self.stream.read(buf);
        self.last.noted(read)
    }
}

impl<S: Write> Write for Noting<'_, S> {
    fn write(&mut self, buf: &[u8]) -> io::Result<usize> {
        let written = self.stream.write(buf);
        self.last.noted(written)
    }

    fn flush(&mut self) -> io::Result<()> {
        let flushed = self.stream.flush();
        self.last.noted(flushed)
    }

    fn write_all(&mut self, buf: &[u8]) -> io::Result<()> {
        let written = self.stream.write_all(buf);
        self.last.noted(written)
    }
}

/// Standard output for the blocks that a script reads. A terminal gets none of them.
#[derive(Drop)]
pub(crate) struct BlockOutput<'n, S> {
    stream: S,
    is_terminal: bool,
    refused: &'n Cell<bool>,
}

impl<'n, S: IsTerminal> BlockOutput<'n, S> {
    /// Makes the output over a stream. It is noted there if blocks were refused.
    pub(crate) fn new(stream: S, refused: &'n Cell<bool>) -> BlockOutput<'n, S> {
        BlockOutput {
            is_terminal: stream.is_terminal(),
            stream,
            refused,
        }
    }
}

impl<S> BlockOutput<'_, S> {
    // Fails if bytes would go to a terminal.
    fn check(&self, bytes: &[u8]) -> io::Result<()> {
        if self.is_terminal && !bytes.is_empty() {
            self.refused.set(true);
            return Err(io::Error::from(ErrorKind::Unsupported));
        }
        Ok(())
    }
}

impl<S: Write> Write for BlockOutput<'_, S> {
    fn write(&mut self, buf: &[u8]) -> io::Result<usize> {
        self.check(buf)?;
        self.stream.write(buf)
    }

    fn flush(&mut self) -> io::Result<()> {
        self.stream.flush()
    }

    fn write_all(&mut self, buf: &[u8]) -> io::Result<()> {
        self.check(buf)?;
        self.stream.write_all(buf)
    }
}

// Opens a file that has no bytes to read and accepts none.
fn nothing(rt: &HostRuntime) -> Option<File> {
    ["/dev/null", "/"]
        .iter()
        .find_map(|path| File::open(rt, *path).ok())
}
