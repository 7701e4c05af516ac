//! Ranges of blocks.
ghost use Rattle.std.specs.Prelude.{◌≡◌, ◌+◌, ◌<◌, ◌≤◌, ◌↔◌, IfOk, IfSome, IsTrue, IsSome};

use crate::block_number::Number;
use std::fmt;
use std::num::ParseIntError;
use std::str::FromStr;

/// A range of blocks, never empty.
#[derive(Clone, Copy, Debug, PartialEq, Eq)]
pub struct BlockRange {
    /// The first block.
    pub start: u32,
    /// The block after the last one.
    pub end: u32,
}

impl FromStr for BlockRange {
    type Err = WrongRange;

    ghost from_str_gives = { λ _ r. IfOk r (λ range. range.start < range.end) };

    fn from_str(text: &str) -> Result<BlockRange, WrongRange>
        ensures nonempty { IfOk result (λ range. range.start < range.end) }
    {
        let (start, end) = text.split_once("..").ok_or(WrongRange)?;
        let Number(start) = start.parse()?;
        let Number(end) = end.parse()?;
        BlockRange::between(start, end).ok_or(WrongRange)
    }
}

/// The error of a text that is not a range such as `3..17`, or is an empty one.
#[derive(Clone, Copy, Debug, PartialEq, Eq)]
pub struct WrongRange;

impl fmt::Display for WrongRange {
    fn fmt<W: fmt::Write>(&self, f: &mut fmt::Formatter<W>) -> fmt::Result {
        f.write_str("expected a range of blocks, as 0..400176")
    }
}

impl From<ParseIntError> for WrongRange {
    fn from(_error: ParseIntError) -> WrongRange {
        WrongRange
    }
}

impl BlockRange {
    /// Returns the blocks from `start` to `end` - 1, or `None` if there are none.
    pub fn between(start: u32, end: u32) -> Option<BlockRange>
        ensures value { IfSome result (λ range. (range.start ≡ start) × (range.end ≡ end)) }
        ensures nonempty { IsSome result ↔ (start < end) }
    {
        let range = BlockRange { start, end };
        (start < end).then_some(range)
    }

    /// Returns `count` blocks from `start`. Returns `None` if there are none, or a number is too large.
    pub fn of_count(start: u32, count: u32) -> Option<BlockRange>
        ensures value { IfSome result (λ range. (range.start ≡ start) × (range.end ≡ start + count)) }
        ensures nonempty { IfSome result (λ range. range.start < range.end) }
    {
        BlockRange::between(start, start.checked_add(count)?)
    }

    /// Returns whether an image with this number of blocks has all of them.
    pub fn is_within(&self, blocks: u32) -> bool
        ensures value { IsTrue result ↔ (self.now.end ≤ blocks) }
    {
        self.end <= blocks
    }
}
