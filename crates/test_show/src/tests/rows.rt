//! Rows of a dump, compared with rows that are formatted number by number.

use super::pieces::{compare, compare_in_each_room};
use rand_core::{Rng, SeedableRng};
use rand_pcg::Pcg32;
use std::fmt;
use std::process::Abort;
use std::test::Fail;
use uda50_show::{HexRow, OctalRow};

/// The slower form of a [`HexRow`].
#[derive(Drop)]
struct FormattedHexRow(HexRow);

impl fmt::Display for FormattedHexRow {
    fn fmt<W: fmt::Write>(&self, f: &mut fmt::Formatter<W>) -> fmt::Result {
        write!(f, "{:03x} ", self.0.offset)?;
        for byte in &self.0.bytes {
            write!(f, " {byte:02x}")?;
        }
        write_characters(f, &self.0.bytes)
    }
}

/// The slower form of an [`OctalRow`].
#[derive(Drop)]
struct FormattedOctalRow(OctalRow);

impl fmt::Display for FormattedOctalRow {
    fn fmt<W: fmt::Write>(&self, f: &mut fmt::Formatter<W>) -> fmt::Result {
        write!(f, "{:03o} ", self.0.offset)?;
        for n in 0..8 {
            let word = u16::from_le_bytes([self.0.bytes[2 * n], self.0.bytes[2 * n + 1]]);
            write!(f, " {word:06o}")?;
        }
        write_characters(f, &self.0.bytes)
    }
}

// Writes the characters of a row's bytes.
fn write_characters<W: fmt::Write>(f: &mut fmt::Formatter<W>, bytes: &[u8; 16]) -> fmt::Result {
    f.write_str("  |")?;
    for byte in bytes {
        f.write_char(printable(*byte))?;
    }
    f.write_str("|")
}

fn printable(byte: u8) -> char {
    if byte.is_ascii_graphic() || byte == b' ' {
        char::from(byte)
    } else {
        '.'
    }
}

// Compares the pieces of both rows of an offset and bytes with the slower forms, and a row of a block with
// its text in one piece.
fn compare_rows(rt: &(impl Alloc + Abort), offset: u16, bytes: [u8; 16]) -> Result<(), Fail> {
    let (hex, octal) = (HexRow { offset, bytes }, OctalRow { offset, bytes });
    compare(rt, &hex, &FormattedHexRow(hex), WHOLE)?;
    compare(rt, &octal, &FormattedOctalRow(octal), WHOLE)?;
    compare_texts(rt, &hex, &octal)
}

// Compares rows of a block with their texts in one piece.
fn compare_texts(rt: &(impl Alloc + Abort), hex: &HexRow, octal: &OctalRow) -> Result<(), Fail> {
    if hex.offset >= 512 || octal.offset >= 512 {
        return Ok(());
    }
    compare_text(rt, hex, &hex.text())?;
    compare_text(rt, octal, &octal.text())
}

// Returns the bytes of a row, which are of a text or any bytes.
fn random_bytes(rng: &mut Pcg32, is_text: bool) -> [u8; 16] {
    let mut bytes = [0; 16];
    rng.fill_bytes(&mut bytes);
    if is_text {
        return bytes.map(|byte| 32 + byte % 95);
    }
    bytes
}

// Compares a row with its text in one piece.
fn compare_text(
    rt: &(impl Alloc + Abort),
    row: &impl fmt::Display,
    text: &[u8],
) -> Result<(), Fail> {
    let formatted = format!(in rt.alloc(); "{row}")?;
    assert!(rt; formatted.as_bytes() == text, "{formatted}");
    Ok(())
}

/// Room for each row, also at offsets that no block has.
const WHOLE: usize = 90;

/// Offsets that most rows of a block don't have.
static OTHERS: [u16; 7] = [511, 512, 4_095, 4_096, 32_767, 32_768, 65_535];

// Compares twenty rows of random bytes at an offset. The first five are of text.
fn compare_random_rows(
    rt: &(impl Alloc + Abort),
    rng: &mut Pcg32,
    offset: u16,
) -> Result<(), Fail> {
    for round in 0..20 {
        compare_rows(rt, offset, random_bytes(rng, round < 5))?;
    }
    Ok(())
}

/// Rows of random bytes, of text, and of each byte, at each offset of a block and at others.
#[test]
fn rows_are_as_formatted(rt: HostRuntime) -> Result<(), Fail> {
    let mut rng = Pcg32::seed_from_u64(1);
    for byte in 0..=255u8 {
        compare_rows(&rt, u16::from(byte) * 2, [byte; 16])?;
    }
    for row in 0..32u16 {
        compare_random_rows(&rt, &mut rng, 16 * row)?;
    }
    for offset in &OTHERS {
        compare_random_rows(&rt, &mut rng, *offset)?;
    }
    Ok(())
}

/// Offsets of each number of digits.
static CUT_OFFSETS: [u16; 9] = [0, 7, 8, 16, 63, 64, 496, 4_095, 65_535];

/// Writers of each room hold of a row what they hold of the slower form.
#[test]
fn rows_end_in_each_room_as_formatted(rt: HostRuntime) -> Result<(), Fail> {
    let mut rng = Pcg32::seed_from_u64(4);
    for &offset in &CUT_OFFSETS {
        let mut bytes = [0; 16];
        rng.fill_bytes(&mut bytes[..14]);
        let (hex, octal) = (HexRow { offset, bytes }, OctalRow { offset, bytes });
        compare_in_each_room(&rt, &hex, &FormattedHexRow(hex), WHOLE)?;
        compare_in_each_room(&rt, &octal, &FormattedOctalRow(octal), WHOLE)?;
    }
    Ok(())
}
