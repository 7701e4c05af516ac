//! Digits, and numbers in hexadecimal and octal with zeros before them.
ghost use Rattle.std.specs.Prelude.{◌≡◌, ◌≢◌, ◌<◌, ◌+◌, ◌%◌, ◌∷◌, ℕ, length, slice_index};
ghost use Rattle.std.specs.Str.{IsAscii};
ghost use Rattle.std.specs.Fmt.{WritesOnOk};
ghost use Rattle.uda50_show.specs.Rows.{glyph, octal_cell};
ghost use Rattle.uda50_show.specs.Hex.{hex_byte, hex_word, hex_long};

use std::fmt;

/// Returns the two hexadecimal digits of a byte.
#[tactic(auto, using(crate::proofs::Ascii::byte_ascii))]
pub(crate) fn hex_byte(byte: u8) -> [u8; 2]
    ensures digits { result ≡ hex_byte byte }
    ensures ascii { IsAscii result }
{
    let byte = u16::from(byte);
    [table_digit(byte >> 4), table_digit(byte)]
}

/// Returns the four hexadecimal digits of a word of two bytes.
#[tactic(auto, using(crate::proofs::Ascii::word_ascii))]
pub(crate) fn hex_word(word: u16) -> [u8; 4]
    ensures digits { result ≡ hex_word word }
    ensures ascii { IsAscii result }
{
    [
        table_digit(word >> 12),
        table_digit(word >> 8),
        table_digit(word >> 4),
        table_digit(word),
    ]
}

/// Returns the eight hexadecimal digits of a long word of four bytes.
#[tactic(auto, using(crate::proofs::Ascii::long_ascii))]
pub(crate) fn hex_long(long: u32) -> [u8; 8]
    ensures digits { result ≡ hex_long long }
    ensures ascii { IsAscii result }
{
    let [a, b, c, d] = hex_word((long >> 16) as u16);
    let [e, f, g, h] = hex_word((long & 0xffff) as u16);
    [a, b, c, d, e, f, g, h]
}

/// Returns the six octal digits of a word of two bytes.
#[tactic(auto, using(crate::proofs::Ascii::ascii))]
pub(crate) fn octal_word(word: u16) -> [u8; 6]
    ensures digits { 32 ∷ result ≡ octal_cell word }
    ensures ascii { IsAscii result }
{
    [
        table_digit(word >> 15),
        table_digit(word >> 12 & 7),
        table_digit(word >> 9 & 7),
        table_digit(word >> 6 & 7),
        table_digit(word >> 3 & 7),
        table_digit(word & 7),
    ]
}

/// Returns the digit of the low four bits, from a table.
pub(crate) fn table_digit(number: u16) -> u8
    ensures value { result ≡ glyph (number % 16) }
    ensures ascii { result < 128 }
{
    b"0123456789abcdef"[usize::from(number & 15)]
}

/// Returns the digit of a number below 16. The compiler can vectorize a loop that computes digits, but not one that
/// reads them from a table.
pub(crate) fn computed_digit(number: u8) -> u8
    requires number { number < 16 }
    ensures value { result ≡ glyph number }
{
    if number < 10 {
        b'0' + number
    } else {
        b'a' - 10 + number
    }
}

/// Writes the digits of a number in the pieces of a number with a width: the zeros before it, if it has
/// any, and its other digits.
pub(crate) fn write_number<W: fmt::Write>(f: &mut fmt::Formatter<W>, digits: &[u8]) -> fmt::Result
    requires some { 0 < length digits.now }
    requires ascii { IsAscii digits.now }
    ensures { WritesOnOk W.write_str_gives f.old result digits.now f.new }
{
    let zeros = leading_zeros(digits);
    if zeros > 0 {
        write_ascii(f, &digits[..zeros])?;
    }
    write_ascii(f, &digits[zeros..])
}

// Returns the number of zeros before a number. Its last digit is none of them.
fn leading_zeros(digits: &[u8]) -> usize
    requires { 0 < length digits.now }
    ensures before_last { result < length digits.now }
    ensures zeros { (n : ℕ) → n < result → slice_index digits.now n ≡ 48 }
    ensures all { result + 1 < length digits.now → slice_index digits.now result ≢ 48 }
{
    let last = digits.len() - 1;
    let mut zeros = 0;
    while zeros < last && digits[zeros] == b'0' {
        zeros += 1;
    }
    zeros
}

/// Writes bytes that are ASCII, without a look at them.
pub(crate) fn write_ascii<W: fmt::Write>(f: &mut fmt::Formatter<W>, bytes: &[u8]) -> fmt::Result
    requires { IsAscii bytes.now }
    ensures { WritesOnOk W.write_str_gives f.old result bytes.now f.new }
{
    f.write_str(ascii_text(bytes))
}

/// Returns bytes that are ASCII as text, without a look at them.
#[tactic(auto, using(crate::proofs::Ascii::utf8))]
pub(crate) fn ascii_text(bytes: &[u8]) -> &str
    requires { IsAscii bytes.now }
    ensures text { result.now ≡ bytes.now }
{
    unsafe { std::str::from_utf8_unchecked(bytes) }
}
