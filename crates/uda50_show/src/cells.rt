//! The cells of a row of a dump: the digits of its bytes or words, with a space before each number.
//!
//! The digits are computed by loops that the compiler vectorizes, and put in their order by shuffles. Each shuffle has two
//! vectors of sixteen lanes at the most. That is a few instructions, and one of longer vectors is many.
ghost use Rattle.std.specs.Prelude.{◌≡◌, ◌<◌, ◌^◌, map};
ghost use Rattle.std.specs.List.{flat_map};
ghost use Rattle.uda50_show.specs.Rows.{hex_cell, high_glyph, low_glyph, hex_columns, low_byte};
ghost use Rattle.uda50_show.specs.Rows.{octal_cell, octal_glyph, octal_columns};
ghost use Rattle.uda50_show.specs.Block.{words};

use crate::digits::computed_digit;
use crate::row::word_at_offset;
use std::simd::u8x16;

// The halves of a vector by turns.
const BY_TURNS: [usize; 16] = [0, 8, 1, 9, 2, 10, 3, 11, 4, 12, 5, 13, 6, 14, 7, 15];

// The first halves of two vectors by turns.
const FIRST_HALVES: [usize; 16] = [0, 16, 1, 17, 2, 18, 3, 19, 4, 20, 5, 21, 6, 22, 7, 23];

// The second halves of two vectors by turns.
const SECOND_HALVES: [usize; 16] = [8, 24, 9, 25, 10, 26, 11, 27, 12, 28, 13, 29, 14, 30, 15, 31];

// The pairs of lanes of the first halves of two vectors by turns.
const FIRST_PAIRS: [usize; 16] = [0, 1, 16, 17, 2, 3, 18, 19, 4, 5, 20, 21, 6, 7, 22, 23];

// The pairs of lanes of the second halves of two vectors by turns.
const SECOND_PAIRS: [usize; 16] = [8, 9, 24, 25, 10, 11, 26, 27, 12, 13, 28, 29, 14, 15, 30, 31];

// The lanes of two vectors from lane 8 on.
const FROM_EIGHT: [usize; 16] = [8, 9, 10, 11, 12, 13, 14, 15, 16, 17, 18, 19, 20, 21, 22, 23];

// The lanes of two vectors from lane 10 on.
const FROM_TEN: [usize; 16] = [
    10, 11, 12, 13, 14, 15, 16, 17, 18, 19, 20, 21, 22, 23, 24, 25,
];

// The characters 0 to 15 of the cells in hexadecimal, from the digits of the bytes 0 to 7 and a vector of spaces.
const HEX_FIRST: [usize; 16] = [16, 0, 1, 16, 2, 3, 16, 4, 5, 16, 6, 7, 16, 8, 9, 16];

// The characters 16 to 31, from the digits of the bytes 5 to 12 and a vector of spaces.
const HEX_SECOND: [usize; 16] = [0, 1, 16, 2, 3, 16, 4, 5, 16, 6, 7, 16, 8, 9, 16, 10];

// The characters 32 to 47, from the digits of the bytes 8 to 15 and a vector of spaces.
const HEX_THIRD: [usize; 16] = [5, 16, 6, 7, 16, 8, 9, 16, 10, 11, 16, 12, 13, 16, 14, 15];

// The characters 0 to 15 of the cells in octal, where these are digits. They come from the first four digits of the words
// 0 to 3, and from the last two digits of all words.
const OCTAL_FIRST_DIGITS: [usize; 16] = [0, 0, 1, 2, 3, 16, 17, 0, 4, 5, 6, 7, 18, 19, 0, 8];

// The characters 0 to 15, from these digits and a vector of spaces.
const OCTAL_FIRST: [usize; 16] = [16, 1, 2, 3, 4, 5, 6, 16, 8, 9, 10, 11, 12, 13, 16, 15];

// The digits among the characters 16 to 31, with the first four digits of the words 2 to 5.
const OCTAL_SECOND_DIGITS: [usize; 16] = [1, 2, 3, 20, 21, 0, 4, 5, 6, 7, 22, 23, 0, 8, 9, 10];

// The characters 16 to 31.
const OCTAL_SECOND: [usize; 16] = [0, 1, 2, 3, 4, 16, 6, 7, 8, 9, 10, 11, 16, 13, 14, 15];

// The digits among the characters 32 to 47, with the first four digits of the words 4 to 7.
const OCTAL_THIRD_DIGITS: [usize; 16] = [3, 24, 25, 0, 4, 5, 6, 7, 26, 27, 0, 8, 9, 10, 11, 28];

// The characters 32 to 47.
const OCTAL_THIRD: [usize; 16] = [0, 1, 2, 16, 4, 5, 6, 7, 8, 9, 16, 11, 12, 13, 14, 15];

// The digits among the characters 48 to 55, with the first four digits of the words 4 to 7.
const OCTAL_LAST_DIGITS: [usize; 16] = [29, 0, 12, 13, 14, 15, 30, 31, 0, 0, 0, 0, 0, 0, 0, 0];

// The characters 48 to 55.
const OCTAL_LAST: [usize; 8] = [0, 16, 2, 3, 4, 5, 6, 7];

/// Returns the bytes as cells in hexadecimal.
pub(crate) fn hex_cells(bytes: &[u8; 16]) -> [u8; 48]
    ensures cells { result ≡ flat_map hex_cell bytes.now }
{
    let [high, low] = hex_digits(bytes);
    let high = u8x16::from_array(high);
    let low = u8x16::from_array(low);
    // The digits of the bytes 0 to 7, 8 to 15, and 5 to 12.
    let front = high.shuffle::<16>(low, FIRST_HALVES);
    let back = high.shuffle::<16>(low, SECOND_HALVES);
    let middle = front.shuffle::<16>(back, FROM_TEN);
    let spaces = u8x16::splat(b' ');
    let mut cells = [0; 48];
    front
        .shuffle::<16>(spaces, HEX_FIRST)
        .copy_to_slice(&mut cells);
    middle
        .shuffle::<16>(spaces, HEX_SECOND)
        .copy_to_slice(&mut cells[16..]);
    back.shuffle::<16>(spaces, HEX_THIRD)
        .copy_to_slice(&mut cells[32..]);
    cells
}

// Returns the high hexadecimal digit of each byte, and the low one of each. It isn't inlined, so that the compiler
// vectorizes it.
#[inline(never)]
fn hex_digits(bytes: &[u8; 16]) -> [[u8; 16]; 2]
    ensures digits { result ≡ hex_columns bytes.now }
{
    [high_digits(bytes), low_digits(bytes)]
}

// Returns the high hexadecimal digit of each byte.
fn high_digits(bytes: &[u8; 16]) -> [u8; 16]
    ensures digits { result ≡ map high_glyph bytes.now }
{
    let mut digits = [0; 16];
    for n in 0..16 {
        digits[n] = computed_digit(bytes[n] >> 4);
    }
    digits
}

// Returns the low hexadecimal digit of each byte.
fn low_digits(bytes: &[u8; 16]) -> [u8; 16]
    ensures digits { result ≡ map low_glyph bytes.now }
{
    let mut digits = [0; 16];
    for n in 0..16 {
        digits[n] = computed_digit(bytes[n] & 15);
    }
    digits
}

/// Returns the words of the bytes as cells in octal.
pub(crate) fn octal_cells(bytes: &[u8; 16]) -> [u8; 56]
    ensures cells { result ≡ flat_map octal_cell (words 8 bytes.now) }
{
    cells_of_words(&row_words(bytes))
}

// Returns words as cells in octal.
fn cells_of_words(words: &[u16; 8]) -> [u8; 56]
    ensures cells { result ≡ flat_map octal_cell words.now }
{
    let digits = low_bytes(&octal_digits(words));
    // The first and the second digit of each word, the third and the fourth, the fifth and the sixth.
    let ab = u8x16::from_slice(&digits).swizzle::<16>(BY_TURNS);
    let cd = u8x16::from_slice(&digits[16..]).swizzle::<16>(BY_TURNS);
    let ef = u8x16::from_slice(&digits[32..]).swizzle::<16>(BY_TURNS);
    // The first four digits of the words 0 to 3, 4 to 7, and 2 to 5.
    let front = ab.shuffle::<16>(cd, FIRST_PAIRS);
    let back = ab.shuffle::<16>(cd, SECOND_PAIRS);
    let middle = front.shuffle::<16>(back, FROM_EIGHT);
    let spaces = u8x16::splat(b' ');
    let first = front.shuffle::<16>(ef, OCTAL_FIRST_DIGITS);
    let second = middle.shuffle::<16>(ef, OCTAL_SECOND_DIGITS);
    let third = back.shuffle::<16>(ef, OCTAL_THIRD_DIGITS);
    let last = back.shuffle::<16>(ef, OCTAL_LAST_DIGITS);
    let mut cells = [0; 56];
    first
        .shuffle::<16>(spaces, OCTAL_FIRST)
        .copy_to_slice(&mut cells);
    second
        .shuffle::<16>(spaces, OCTAL_SECOND)
        .copy_to_slice(&mut cells[16..]);
    third
        .shuffle::<16>(spaces, OCTAL_THIRD)
        .copy_to_slice(&mut cells[32..]);
    last.shuffle::<8>(spaces, OCTAL_LAST)
        .copy_to_slice(&mut cells[48..]);
    cells
}

// Returns the low byte of each digit, column after column. It isn't inlined, so that the compiler vectorizes it.
#[inline(never)]
fn low_bytes(columns: &[[u16; 8]; 6]) -> [u8; 48]
    ensures bytes { result ≡ map low_byte (flat_map (λ column. column) columns.now) }
{
    let digits = columns.as_flattened();
    let mut bytes = [0; 48];
    for n in 0..48 {
        bytes[n] = (digits[n] % 256) as u8;
    }
    bytes
}

// Returns the first octal digit of each word, the second one of each, and so on. They are as wide as the words, so that
// one vector has eight. It isn't inlined, so that the compiler vectorizes it.
#[inline(never)]
fn octal_digits(words: &[u16; 8]) -> [[u16; 8]; 6]
    ensures digits { result ≡ octal_columns words.now }
{
    [
        octal_column(words, 15),
        octal_column(words, 12),
        octal_column(words, 9),
        octal_column(words, 6),
        octal_column(words, 3),
        octal_column(words, 0),
    ]
}

// Returns the octal digit of each word whose lowest bit is `bit`.
fn octal_column(words: &[u16; 8], bit: u32) -> [u16; 8]
    requires { bit < 16 }
    ensures digits { result ≡ map (octal_glyph (2 ^ bit)) words.now }
{
    let mut digits = [0; 8];
    for n in 0..8 {
        digits[n] = u16::from(b'0') + (words[n] >> bit & 7);
    }
    digits
}

// Returns the eight words of a row.
fn row_words(bytes: &[u8; 16]) -> [u16; 8]
    ensures words { result ≡ words 8 bytes.now }
{
    let mut words = [0; 8];
    for n in 0..8 {
        words[n] = word_at_offset(bytes, 2 * n);
    }
    words
}
