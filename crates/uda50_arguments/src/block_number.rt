//! Numbers of blocks on the command line.
ghost use Rattle.std.specs.Prelude.{◌≤◌, IfOk};

use std::fmt;
use std::num::ParseIntError;
use std::str::FromStr;

/// The most blocks of an image.
pub(crate) const MAX_BLOCKS: u32 = 2_147_483_647;

/// A number in decimal, in hexadecimal after `0x`, or in octal after `0o`.
#[derive(Clone, Copy, Debug, PartialEq, Eq)]
pub(crate) struct Number(pub(crate) u32);

impl Number {
    /// Returns whether a text is in hexadecimal or in octal.
    pub(crate) fn has_prefix(text: &str) -> bool {
        text.starts_with("0x") || text.starts_with("0o")
    }
}

impl FromStr for Number {
    type Err = ParseIntError;

    fn from_str(text: &str) -> Result<Number, ParseIntError> {
        let number = if let Some(digits) = text.strip_prefix("0x") {
            u32::from_str_radix(digits, 16)
        } else if let Some(digits) = text.strip_prefix("0o") {
            u32::from_str_radix(digits, 8)
        } else {
            text.parse()
        };
        number.map(Number)
    }
}

/// The number of a block.
#[derive(Clone, Copy, Debug, PartialEq, Eq)]
pub(crate) struct BlockNumber(pub(crate) u32);

impl BlockNumber {
    /// The least one.
    pub(crate) const LEAST: u32 = 0;
}

impl FromStr for BlockNumber {
    type Err = WrongNumber;

    ghost from_str_gives = { λ _ r. IfOk r (λ number. number.0 ≤ 2147483647) };

    fn from_str(text: &str) -> Result<BlockNumber, WrongNumber> {
        number_from(BlockNumber::LEAST, text).map(BlockNumber)
    }
}

/// A number of blocks, never 0.
#[derive(Clone, Copy, Debug, PartialEq, Eq)]
pub(crate) struct BlockCount(pub(crate) u32);

impl BlockCount {
    /// The least one.
    pub(crate) const LEAST: u32 = 1;
}

impl FromStr for BlockCount {
    type Err = WrongNumber;

    ghost from_str_gives = { λ _ r. IfOk r (λ count. (1 ≤ count.0) × (count.0 ≤ 2147483647)) };

    fn from_str(text: &str) -> Result<BlockCount, WrongNumber> {
        number_from(BlockCount::LEAST, text).map(BlockCount)
    }
}

/// The error of a text that is not a number from `least` to the most blocks of an image.
#[derive(Clone, Copy, Debug, PartialEq, Eq)]
pub(crate) struct WrongNumber {
    least: u32,
}

impl fmt::Display for WrongNumber {
    fn fmt<W: fmt::Write>(&self, f: &mut fmt::Formatter<W>) -> fmt::Result {
        write!(f, "not a number in {}..={MAX_BLOCKS}", self.least)
    }
}

// Reads a number from `least` to the most blocks of an image.
fn number_from(least: u32, text: &str) -> Result<u32, WrongNumber>
    ensures within { IfOk result (λ number. (least ≤ number) × (number ≤ 2147483647)) }
{
    match text.parse() {
        Ok(Number(number)) if least <= number && number <= MAX_BLOCKS => Ok(number),
        _ => Err(WrongNumber { least }),
    }
}
