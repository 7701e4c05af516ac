//! Ranges of blocks with one status.
ghost use Rattle.std.specs.Prelude.{◌≡◌, ◌≤◌, ◌↔◌, min, max, true, IsTrue};
ghost use Rattle.uda50_copy.specs.Status.{status_character, status_of_text};

use std::fmt;

/// The status of blocks in a copy.
#[derive(Clone, Copy, Debug, PartialEq, Eq)]
pub enum BlockStatus {
    /// The blocks have not been tried yet, or not one by one.
    NonTried,
    /// The blocks can't be read.
    Bad,
    /// The blocks are copied.
    Finished,
}

impl BlockStatus {
    /// Returns the character of the status in a map.
    pub fn character(self) -> char
        ensures character { result ≡ status_character self }
    {
        match self {
            BlockStatus::NonTried => '?',
            BlockStatus::Bad => '-',
            BlockStatus::Finished => '+',
        }
    }

    /// Returns the status of a character. Blocks that were read in part have not been tried one by one.
    pub fn of_character(text: &str) -> Option<BlockStatus>
        ensures value { result ≡ status_of_text text.now }
    {
        match text {
            "?" | "*" | "/" => Some(BlockStatus::NonTried),
            "-" => Some(BlockStatus::Bad),
            "+" => Some(BlockStatus::Finished),
            _ => None,
        }
    }
}

/// Blocks with one status.
#[derive(Clone, Copy, Debug, PartialEq, Eq)]
pub struct MapEntry {
    /// The first block.
    pub start: u32,
    /// The block after the last one.
    pub end: u32,
    /// The status.
    pub status: BlockStatus,
}

impl MapEntry {
    /// Returns whether there are no blocks.
    pub fn is_empty(&self) -> bool
        ensures value { IsTrue result ↔ (self.now.end ≤ self.now.start) }
    {
        self.end <= self.start
    }

    /// Returns whether an entry goes on with the same status where this one ends.
    pub fn is_followed_by(&self, entry: &MapEntry) -> bool
        ensures status { result ≡ true → self.now.status ≡ entry.now.status }
        ensures end { result ≡ true → self.now.end ≡ entry.now.start }
        ensures followed { self.now.status ≡ entry.now.status → self.now.end ≡ entry.now.start
            → result ≡ true }
    {
        self.status == entry.status && self.end == entry.start
    }

    /// Returns the blocks of this entry that are before a block.
    pub fn before(&self, block: u32) -> MapEntry
        ensures value { result ≡ record self.now { end = min self.now.end block } }
    {
        MapEntry {
            end: self.end.min(block),
            ..*self
        }
    }

    /// Returns the blocks of this entry from a block on.
    pub fn from(&self, block: u32) -> MapEntry
        ensures value { result ≡ record self.now { start = max self.now.start block } }
    {
        MapEntry {
            start: self.start.max(block),
            ..*self
        }
    }
}

/// Writes the line of a map, with positions and sizes in bytes.
impl fmt::Display for MapEntry {
    fn fmt<W: fmt::Write>(&self, f: &mut fmt::Formatter<W>) -> fmt::Result {
        let position = 512 * u64::from(self.start);
        let size = 512 * u64::from(self.end.saturating_sub(self.start));
        let status = self.status.character();
        write!(f, "0x{position:08X}  0x{size:08X}  {status}")
    }
}
