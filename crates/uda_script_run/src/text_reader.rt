//! Readers of a script's text, some of which know the next bytes before they are read.

ghost use Rattle.std.specs.Prelude.{◌≡◌, ◌≤◌, ℕ, List, [], take, length};
ghost use Rattle.std.specs.Io.KnownBytes.{Consumes};

use std::io;
use std::io::{BufRead, BufReader, Read};

/// A reader of a text. It may have read the next bytes already.
pub(crate) trait TextReader: Read {
    ghost ahead: { Self → List ℕ };

    /// Returns the next bytes that the reader has already. It never reads, so it neither waits nor fails.
    fn bytes_ahead(&self) -> &[u8]
        ensures bytes { result.now ≡ ahead self.now };

    /// Takes the first `count` of these bytes.
    fn skip(&mut self, count: usize)
        requires { count ≤ length (ahead self.old) }
        ensures skipped { Consumes (Self.remaining self.old) (Self.remaining self.new)
            (take count (ahead self.old)) };
}

/// A reader whose bytes are read one by one, so that it reads nothing ahead of the text.
#[derive(Drop)]
pub(crate) struct ByteByByte<T>(pub(crate) T);

impl<T: Read> Read for ByteByByte<T> {
    ghost remaining = { λ text. T.remaining text.0 };

    fn read(&mut self, buf: &mut [u8]) -> io::Result<usize> {
        self.0.read(buf)
    }
}

impl<T: Read> TextReader for ByteByByte<T> {
    ghost ahead = { λ _. [] };

    fn bytes_ahead(&self) -> &[u8] {
        &[]
    }

    fn skip(&mut self, _count: usize) {}
}

impl<T: Read> TextReader for BufReader<T> {
    ghost use Rattle.std.specs.Io.Buffered.{reader_buffer};

    ghost ahead = { λ text. reader_buffer text };

    fn bytes_ahead(&self) -> &[u8] {
        self.buffer()
    }

    fn skip(&mut self, count: usize) {
        self.consume(count);
    }
}
