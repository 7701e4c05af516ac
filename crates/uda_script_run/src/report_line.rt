//! A line of a report, made from its end to its start.

ghost use Rattle.std.specs.Prelude.{◌≡◌, ◌+◌, ◌%◌, ◌≤◌, ◌∷◌, ◌++◌, [], length, false};
ghost use Rattle.std.specs.Fmt.{decimal, digit_glyph};
ghost use Rattle.uda_disk.specs.Display.{word_digits, answer_display};
ghost use Rattle.uda_disk.specs.Values.{answer_value};

use itoa::write_digits;
use std::marker::Model;
use uda_disk::Answer;

/// The capacity of a line in bytes. An answer has at most 30 of them: two words, a number of 20 digits, and
/// the spaces between them. The number of the request has at most 20, the name of a status 29, and what is
/// around them 5.
const LINE_ROOM: usize = 96;

/// The end of a line. What comes before it is put there piece by piece, the last piece first. Contracts see
/// its bytes.
#[derive(Drop)]
pub(crate) struct ReportLine {
    bytes: [u8; LINE_ROOM],
    start: usize,
}

impl Model for ReportLine {
    ghost use Rattle.std.specs.Prelude.{ℕ, List, ◌≤◌, drop};

    ghost Value = { List ℕ };

    ghost view = { λ line. drop line.start line.bytes };

    ghost invariant = { λ line. line.start ≤ 96 };
}

impl ReportLine {
    /// Returns the line feed that ends a line.
    pub(crate) fn line_feed() -> ReportLine
        ensures end { result ≡ 10 ∷ [] }
    {
        ReportLine {
            bytes: [b'\n'; LINE_ROOM],
            start: LINE_ROOM - 1,
        }
    }

    /// Returns the bytes.
    pub(crate) fn as_bytes(&self) -> &[u8]
        ensures bytes { result.now ≡ self.now }
    {
        &self.bytes[self.start..]
    }

    /// Puts a byte before the others.
    pub(crate) fn put_byte(&mut self, byte: u8)
        requires room { 1 + length self.old ≤ 96 }
        ensures before { self.new ≡ byte ∷ self.old }
        ensures long { length self.new ≡ 1 + length self.old }
    {
        self.start -= 1;
        self.bytes[self.start] = byte;
    }

    /// Puts a text before the others.
    pub(crate) fn put_text(&mut self, text: &[u8])
        requires room { length text.now + length self.old ≤ 96 }
        ensures before { self.new ≡ text.now ++ self.old }
        ensures long { length self.new ≡ length text.now + length self.old }
    {
        let end = self.start;
        self.start -= text.len();
        self.bytes[self.start..end].copy_from_slice(text);
    }

    /// Puts a number in decimal before the others.
    pub(crate) fn put_number(&mut self, number: u64)
        requires room { 20 + length self.old ≤ 96 }
        ensures before { self.new ≡ decimal number ++ self.old }
        ensures short { length self.new ≤ 20 + length self.old }
    {
        self.start = write_digits(number, &mut self.bytes, self.start);
    }

    /// Puts a word as four hexadecimal digits before the others.
    pub(crate) fn put_word(&mut self, word: u16)
        requires room { 4 + length self.old ≤ 96 }
        ensures before { self.new ≡ word_digits word ++ self.old }
        ensures long { length self.new ≡ 4 + length self.old }
    {
        self.put_text(&word_digits(word));
    }

    /// Puts the text of an answer before the others.
    pub(crate) fn put_answer(&mut self, answer: &Answer)
        requires room { 30 + length self.old ≤ 96 }
        ensures before { self.new ≡ answer_display (answer_value answer.now) ++ self.old }
        ensures short { length self.new ≤ 30 + length self.old }
    {
        match answer {
            Answer::TooLong => self.put_text(b"long"),
            Answer::Plain { status } => self.put_word(*status),
            Answer::Online {
                status,
                flags,
                size,
            } => {
                self.put_number(u64::from(*size));
                self.put_byte(b' ');
                self.put_flags(*status, *flags);
            }
            Answer::Status { status, flags } => self.put_flags(*status, *flags),
            Answer::Moved { status, bytes } => self.put_count(*status, u64::from(*bytes)),
            Answer::Data { status, bytes } => self.put_count(*status, bytes.len() as u64),
        }
    }

    // Puts a status and flags before the others.
    fn put_flags(&mut self, status: u16, flags: u16)
        requires room { 9 + length self.old ≤ 96 }
        ensures before { self.new ≡ word_digits status ++ 32 ∷ (word_digits flags ++ self.old) }
        ensures long { length self.new ≡ 9 + length self.old }
    {
        self.put_word(flags);
        self.put_byte(b' ');
        self.put_word(status);
    }

    // Puts a status and a number of bytes before the others.
    fn put_count(&mut self, status: u16, count: u64)
        requires room { 30 + length self.old ≤ 96 }
        ensures before { self.new ≡ word_digits status ++ 32 ∷ (decimal count ++ self.old) }
        ensures short { length self.new ≤ 30 + length self.old }
    {
        self.put_number(count);
        self.put_byte(b' ');
        self.put_word(status);
    }
}

// Returns the four hexadecimal digits of a word.
fn word_digits(word: u16) -> [u8; 4]
    ensures digits { result ≡ word_digits word }
{
    [
        digit(word >> 12),
        digit(word >> 8),
        digit(word >> 4),
        digit(word),
    ]
}

// Returns the hexadecimal digit of the low four bits.
fn digit(number: u16) -> u8
    ensures value { result ≡ digit_glyph false (number % 16) }
{
    b"0123456789abcdef"[usize::from(number & 15)]
}
