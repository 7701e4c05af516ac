//! The mistakes of lines.
ghost use Rattle.std.specs.Prelude.{◌≡◌, None};
ghost use Rattle.uda50_script_text.specs.Marks.{byte_order_mark};

use std::fmt;
use uda_grammar::{Expected, Part};

/// The mistake of a line that is not a statement.
#[derive(Clone, Copy, Debug, PartialEq, Eq)]
pub struct Mistake {
    /// The column in the file, from 1. It counts bytes.
    pub column: u64,
    /// The part that is expected there.
    pub expected: Part,
    /// The first character of the word there that no statement has, if there is one.
    pub intruder: Option<Intruder>,
}

/// A character that no statement has.
#[derive(Clone, Copy, Debug, PartialEq, Eq)]
pub struct Intruder {
    /// Its column in the file, from 1. It counts bytes.
    pub column: u64,
    /// The character.
    pub character: Foreign,
}

/// A control character, a character outside of ASCII, or a byte that is part of none.
#[derive(Clone, Copy, Debug, PartialEq, Eq)]
pub enum Foreign {
    /// A character.
    Character(char),
    /// A byte that is not valid in UTF-8.
    Byte(u8),
}

/// A byte order mark, at the beginning of a text.
#[derive(Clone, Copy, Debug, PartialEq, Eq)]
pub enum ByteOrderMark {
    /// That of UTF-8.
    Utf8,
    /// That of UTF-16, in either order of the bytes.
    Utf16,
}

impl Mistake {
    /// Returns the mistake of a line whose columns are those of the file.
    pub fn at(expected: Expected) -> Mistake
        ensures column { result.column ≡ expected.column }
        ensures expected { result.expected ≡ expected.part }
        ensures intruder { result.intruder ≡ None }
    {
        Mistake {
            column: expected.column as u64,
            expected: expected.part,
            intruder: None,
        }
    }
}

impl ByteOrderMark {
    /// Returns the byte order mark with which a text begins.
    pub fn of_text(text: &[u8]) -> Option<ByteOrderMark>
        ensures mark { result ≡ byte_order_mark text.now }
    {
        match text {
            [0xef, 0xbb, 0xbf, ..] => Some(ByteOrderMark::Utf8),
            [0xff, 0xfe, ..] | [0xfe, 0xff, ..] => Some(ByteOrderMark::Utf16),
            _ => None,
        }
    }
}

impl Foreign {
    /// Returns the first character of a text that no statement has, and the number of bytes before it.
    pub(crate) fn find(text: &[u8]) -> Option<(usize, Foreign)> {
        let place = text.iter().position(|byte| !matches!(byte, b' '..=b'~'))?;
        Some((place, Foreign::first(&text[place..])))
    }

    // Returns the first character of a text that isn't empty.
    fn first(text: &[u8]) -> Foreign {
        let valid = match text.utf8_chunks().next() {
            Some(chunk) => chunk.valid(),
            None => "",
        };
        match valid.chars().next() {
            Some(character) => Foreign::Character(character),
            None => Foreign::Byte(text.first().copied().unwrap_or(0)),
        }
    }
}

/// Writes a text such as `U+00A0` or `byte 0xff`. The name of a carriage return follows its number.
impl fmt::Display for Foreign {
    fn fmt<W: fmt::Write>(&self, f: &mut fmt::Formatter<W>) -> fmt::Result {
        match self {
            Foreign::Character('\r') => f.write_str("U+000D, a carriage return"),
            Foreign::Character(character) => write!(f, "U+{:04X}", u32::from(*character)),
            Foreign::Byte(byte) => write!(f, "byte {byte:#04x}"),
        }
    }
}

/// Writes a text such as `column 9 has U+00A0`.
impl fmt::Display for Intruder {
    fn fmt<W: fmt::Write>(&self, f: &mut fmt::Formatter<W>) -> fmt::Result {
        write!(f, "column {} has {}", self.column, self.character)
    }
}

/// Writes a text such as `column 8: expected a count, at most 32`. If the word there has a character that no
/// statement has, `; column 9 has U+00A0` follows.
impl fmt::Display for Mistake {
    fn fmt<W: fmt::Write>(&self, f: &mut fmt::Formatter<W>) -> fmt::Result {
        write!(f, "column {}: expected {}", self.column, self.expected)?;
        match self.intruder {
            Some(intruder) => write!(f, "; {intruder}"),
            None => Ok(()),
        }
    }
}

/// Writes the name of the encoding.
impl fmt::Display for ByteOrderMark {
    fn fmt<W: fmt::Write>(&self, f: &mut fmt::Formatter<W>) -> fmt::Result {
        f.write_str(match self {
            ByteOrderMark::Utf8 => "UTF-8",
            ByteOrderMark::Utf16 => "UTF-16",
        })
    }
}
