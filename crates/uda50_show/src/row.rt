//! Rows of a dump.
ghost use Rattle.std.specs.Prelude.{◌≡◌, ◌≤◌, ◌+◌, ◌<◌, Some, map};
ghost use Rattle.std.specs.Fmt.{WritesOnOk};
ghost use Rattle.uda50_show.specs.Rows.{hex_row, octal_row, hex_offset, octal_offset, row_text, printable};
ghost use Rattle.uda50_show.specs.Block.{words, word_at_offset};

use crate::cells::{hex_cells, octal_cells};
use crate::digits::{hex_byte, octal_word, table_digit, write_ascii, write_number};
use crate::text::printable;
use byteorder::{ByteOrder, LittleEndian};
use std::fmt;

/// Sixteen bytes of a block, with a text such as `1f0  44 45 43 ..  |DECRT11A    ....|`: the offset and the
/// bytes in hexadecimal, and the bytes as text.
#[derive(Clone, Copy, Debug, PartialEq, Eq)]
pub struct HexRow {
    /// The offset of the first byte in its block.
    pub offset: u16,
    /// The bytes.
    pub bytes: [u8; 16],
}

impl HexRow {
    /// Returns the text of a row of a block in one piece.
    pub fn text(&self) -> [u8; 72]
        requires block { self.now.offset < 512 }
        ensures text { result ≡ hex_row self.now.offset self.now.bytes }
    {
        let mut text = [b' '; 72];
        text[..4].copy_from_slice(&hex_offset(self.offset));
        text[4..52].copy_from_slice(&hex_cells(&self.bytes));
        text[52..].copy_from_slice(&characters(&self.bytes));
        text
    }
}

impl fmt::Display for HexRow {
    ghost output = { λ row. Some (hex_row row.offset row.bytes) };

    fn fmt<W: fmt::Write>(&self, f: &mut fmt::Formatter<W>) -> fmt::Result {
        write!(f, "{:03x} ", self.offset)?;
        for byte in &self.bytes {
            f.write_str(" ")?;
            write_number(f, &hex_byte(*byte))?;
        }
        write_characters(f, &self.bytes)
    }
}

/// Sixteen bytes of a block, with a text such as `760  042504 ..  |DECRT11A    ....|`: the offset and words
/// of two bytes in octal, and the bytes as text.
#[derive(Clone, Copy, Debug, PartialEq, Eq)]
pub struct OctalRow {
    /// The offset of the first byte in its block.
    pub offset: u16,
    /// The bytes.
    pub bytes: [u8; 16],
}

impl OctalRow {
    /// Returns the text of a row of a block in one piece.
    pub fn text(&self) -> [u8; 80]
        requires block { self.now.offset < 512 }
        ensures text { result ≡ octal_row self.now.offset self.now.bytes }
    {
        let mut text = [b' '; 80];
        text[..4].copy_from_slice(&octal_offset(self.offset));
        text[4..60].copy_from_slice(&octal_cells(&self.bytes));
        text[60..].copy_from_slice(&characters(&self.bytes));
        text
    }
}

impl fmt::Display for OctalRow {
    ghost output = { λ row. Some (octal_row row.offset row.bytes) };

    fn fmt<W: fmt::Write>(&self, f: &mut fmt::Formatter<W>) -> fmt::Result {
        write!(f, "{:03o} ", self.offset)?;
        for n in 0..8 {
            f.write_str(" ")?;
            write_number(f, &octal_word(word_at_offset(&self.bytes, 2 * n)))?;
        }
        write_characters(f, &self.bytes)
    }
}

// Writes bytes as characters between bars, after two spaces. Each character is a piece.
fn write_characters<W: fmt::Write>(f: &mut fmt::Formatter<W>, bytes: &[u8; 16]) -> fmt::Result
    ensures { WritesOnOk W.write_str_gives f.old result (row_text bytes.now) f.new }
{
    f.write_str("  |")?;
    for byte in bytes {
        write_ascii(f, &[printable(*byte)])?;
    }
    f.write_str("|")
}

// Returns the offset of a row of a block in hexadecimal, and a space.
fn hex_offset(offset: u16) -> [u8; 4]
    requires { offset < 512 }
    ensures text { result ≡ hex_offset offset }
{
    [
        table_digit(offset >> 8),
        table_digit(offset >> 4),
        table_digit(offset),
        b' ',
    ]
}

// Returns the offset of a row of a block in octal, and a space.
fn octal_offset(offset: u16) -> [u8; 4]
    requires { offset < 512 }
    ensures text { result ≡ octal_offset offset }
{
    [
        table_digit(offset >> 6 & 7),
        table_digit(offset >> 3 & 7),
        table_digit(offset & 7),
        b' ',
    ]
}

// Returns bytes as characters between bars, after two spaces.
fn characters(bytes: &[u8; 16]) -> [u8; 20]
    ensures text { result ≡ row_text bytes.now }
{
    let mut text = *b"  |................|";
    for n in 0..16 {
        text[n + 3] = printable(bytes[n]);
    }
    text
}

/// Returns the word at an offset, low byte first.
pub(crate) fn word_at_offset(bytes: &[u8; 16], offset: usize) -> u16
    requires { offset + 2 ≤ 16 }
    ensures { result ≡ word_at_offset offset bytes.now }
{
    LittleEndian::read_u16(&bytes[offset..])
}
