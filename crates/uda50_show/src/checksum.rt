//! Checksums of blocks.
ghost use Rattle.std.specs.Prelude.{◌≡◌, ◌≤◌, ◌+◌, ◌*◌};
ghost use Rattle.uda50_show.specs.Block.{word_at_offset, long_at_offset, word_sum, word_parity, checksum_of};

use byteorder::{ByteOrder, LittleEndian};
use std::fmt;

/// The result of checking a block's checksum.
#[derive(Clone, Copy, Debug, PartialEq, Eq)]
pub enum Checksum {
    /// The checksum is right for the bytes.
    Right,
    /// The checksum is wrong.
    Wrong,
    /// The format has no checksum, or none that is checked here.
    Unchecked,
}

impl Checksum {
    // Returns the result of a comparison.
    pub(crate) fn of(fits: bool) -> Checksum
        ensures { result ≡ checksum_of fits }
    {
        if fits {
            Checksum::Right
        } else {
            Checksum::Wrong
        }
    }
}

/// Writes a text such as `, checksum wrong`, or nothing if there is no checksum.
impl fmt::Display for Checksum {
    fn fmt<W: fmt::Write>(&self, f: &mut fmt::Formatter<W>) -> fmt::Result {
        f.write_str(match self {
            Checksum::Right => ", checksum right",
            Checksum::Wrong => ", checksum wrong",
            Checksum::Unchecked => "",
        })
    }
}

// Returns the word at an offset, low byte first.
pub(crate) fn word_at_offset(block: &[u8; 512], offset: usize) -> u16
    requires { offset + 2 ≤ 512 }
    ensures { result ≡ word_at_offset offset block.now }
{
    LittleEndian::read_u16(&block[offset..])
}

// Returns the long word at an offset, low byte first.
pub(crate) fn long_at_offset(block: &[u8; 512], offset: usize) -> u32
    requires { offset + 4 ≤ 512 }
    ensures { result ≡ long_at_offset offset block.now }
{
    LittleEndian::read_u32(&block[offset..])
}

// Returns the sum of the first words, modulo 2^16.
#[tactic(auto, unfolding(crate::specs::Block::words))]
pub(crate) fn word_sum(block: &[u8; 512], count: usize) -> u16
    requires { 2 * count ≤ 512 }
    ensures { result ≡ word_sum count block.now }
{
    let mut sum = 0u16;
    for n in 0..count {
        sum = sum.wrapping_add(word_at_offset(block, 2 * n));
    }
    sum
}

// Returns the exclusive or of words from an offset.
#[tactic(auto, unfolding(crate::specs::Block::word_parity))]
pub(crate) fn word_parity(block: &[u8; 512], offset: usize, count: usize) -> u16
    requires { offset + 2 * count ≤ 512 }
    ensures { result ≡ word_parity offset count block.now }
{
    let mut parity = 0u16;
    for n in 0..count {
        parity ^= word_at_offset(block, offset + 2 * n);
    }
    parity
}
