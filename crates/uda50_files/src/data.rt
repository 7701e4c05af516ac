//! The blocks of a file that have data.
ghost use Rattle.std.specs.Prelude.{◌≡◌, ◌<◌, ◌≤◌, max};

use crate::ahead::{AHEAD_BYTES, ReadAhead};
use std::fs::File;
use std::ops::Range;

/// The most blocks that are read at once.
const AHEAD: u32 = (AHEAD_BYTES / 512) as u32;

/// The blocks that are compared with zeros at once: those of one transfer.
pub(crate) const PIECE: u32 = 32;

/// The blocks of an image that have data. The others are zeros.
#[derive(Drop)]
pub struct DataBlocks {
    search: Search,
}

// The way in which data is found.
#[derive(Drop)]
enum Search {
    // No block is data.
    None,
    // All blocks that are read are data.
    All(Reading),
    // The blocks that are read are searched.
    Searched(Reading),
}

// A file that is read, the part of it that was read last, and the blocks of that part.
#[derive(Drop)]
struct Reading {
    file: File,
    ahead: ReadAhead,
    part: Range<u32>,
}

impl DataBlocks {
    /// Makes the data of an image that has none.
    pub fn none() -> DataBlocks {
        DataBlocks {
            search: Search::None,
        }
    }

    /// Makes the data of a file, which is read to find it. The image of the file has another handle of what is read.
    pub(crate) fn searched(file: File, ahead: ReadAhead) -> DataBlocks {
        let reading = Reading::new(file, ahead);
        DataBlocks {
            search: Search::Searched(reading),
        }
    }

    /// Makes the data of a file in which all blocks are taken for data. The image of the file has another handle of what
    /// is read.
    pub(crate) fn all(file: File, ahead: ReadAhead) -> DataBlocks {
        let reading = Reading::new(file, ahead);
        DataBlocks {
            search: Search::All(reading),
        }
    }

    /// Returns the next of these blocks that have data. Those before them are zeros. Those after them have not been
    /// searched. Blocks that can't be read count as data. If there are no next blocks, all before the end of the range
    /// are zeros. Of no blocks there is none with data.
    pub fn next(&mut self, blocks: Range<u32>) -> Range<u32>
        ensures later { blocks.start ≤ result.start }
        ensures ordered { result.start ≤ result.end }
        ensures within { result.end ≤ max blocks.start blocks.end }
        ensures proceeds { blocks.start < blocks.end → blocks.start < result.end }
    {
        let Range { start, end } = blocks;
        if start >= end {
            return start..start;
        }
        match &mut self.search {
            Search::None => end..end,
            Search::All(reading) => start..reading.read_from(start, end),
            Search::Searched(reading) => reading.next(start..end),
        }
    }

    /// Returns the first of these blocks, all of which count as data. It is for blocks that the target has to get even
    /// if they are zeros.
    pub fn first(&mut self, blocks: Range<u32>) -> Range<u32>
        ensures start { result.start ≡ blocks.start }
        ensures within { result.end ≤ max blocks.start blocks.end }
        ensures some { blocks.start < blocks.end → blocks.start < result.end }
        ensures none { blocks.end ≤ blocks.start → result.end ≡ blocks.start }
    {
        let Range { start, end } = blocks;
        match &mut self.search {
            _ if start >= end => start..start,
            Search::None => start..end,
            Search::All(reading) | Search::Searched(reading) => {
                start..reading.read_from(start, end)
            }
        }
    }

    /// Ends the search. The image of the file reads all blocks from the file again.
    pub fn end(self) {
        match &self.search {
            Search::None => {}
            Search::All(reading) | Search::Searched(reading) => reading.ahead.forget(),
        }
    }
}

impl Reading {
    // Makes a file of which nothing was read.
    fn new(file: File, ahead: ReadAhead) -> Reading {
        Reading {
            file,
            ahead,
            part: 0..0,
        }
    }

    // Returns the next of these blocks that have data, as far as they are read at once.
    fn next(&mut self, blocks: Range<u32>) -> Range<u32>
        requires some { blocks.start < blocks.end }
        ensures later { blocks.start ≤ result.start }
        ensures ordered { result.start ≤ result.end }
        ensures within { result.end ≤ blocks.end }
        ensures proceeds { blocks.start < result.end }
    {
        let Range { start, end } = blocks;
        let end = self.read_from(start, end);
        let data = self.first_piece(start, end, false);
        let rest = data.saturating_add(PIECE).min(end);
        data..self.first_piece(rest, end, true)
    }

    // Reads blocks from one on, of those before `last`, unless it was read already. Returns the block after them.
    fn read_from(&mut self, block: u32, last: u32) -> u32
        requires some { block < last }
        ensures some { block < result }
        ensures within { result ≤ last }
    {
        if block < self.part.start || block >= self.part.end {
            let count = AHEAD.min(last - block);
            self.ahead.read(&self.file, byte_of(block), bytes_in(count));
            self.part = block..block + count;
        }
        self.part.end.min(last)
    }

    // Returns the start of the first piece, of those from a block up to `end`, that is known to be zeros, if `zeros`,
    // or that isn't, otherwise. Returns `end` if there is none.
    fn first_piece(&self, from: u32, end: u32, zeros: bool) -> u32
        requires ordered { from ≤ end }
        ensures later { from ≤ result }
        ensures within { result ≤ end }
    {
        let mut at = from;
        while at < end {
            let count = PIECE.min(end - at);
            if self.ahead.has_zeros(byte_of(at), bytes_in(count)) == zeros {
                break;
            }
            at += count;
        }
        at
    }
}

/// Returns the offset of a block in bytes.
pub(crate) fn byte_of(block: u32) -> u64 {
    512 * u64::from(block)
}

/// Returns the number of bytes of that many blocks.
pub(crate) fn bytes_in(count: u32) -> usize {
    512 * count as usize
}
