//! The zeros that a file holds already when a copy goes on with it.
ghost use Rattle.std.specs.Prelude.{◌≤◌, max};

use crate::ahead::ReadAhead;
use crate::data::{PIECE, byte_of, bytes_in};
use std::fs::File;
use std::ops::Range;

/// The zeros of a file that becomes an image. What is after its end are zeros too.
#[derive(Drop)]
pub struct TargetZeros {
    file: File,
    ahead: ReadAhead,
    // The number of blocks that the file has in part or as a whole.
    begun: u32,
}

impl TargetZeros {
    /// Makes the zeros of a file that has this many blocks in part or as a whole.
    pub(crate) fn new(file: File, ahead: ReadAhead, begun: u32) -> TargetZeros {
        TargetZeros { file, ahead, begun }
    }

    /// Returns the first of these blocks that have to be written so that all of them are zeros: those of a piece that the
    /// file doesn't hold as zeros, or that can't be read. The blocks before them are zeros. If there are none to write,
    /// all blocks before the end of the result are zeros. Of no blocks it returns none.
    pub fn first_other(&mut self, blocks: Range<u32>) -> Range<u32>
        ensures later { blocks.start ≤ result.start }
        ensures ordered { result.start ≤ result.end }
        ensures within { result.end ≤ max blocks.start blocks.end }
    {
        let Range { start, end } = blocks;
        let end = end.max(start);
        let last = self.begun.max(start).min(end);
        let other = self.first_piece(start, last);
        if other >= last {
            return end..end;
        }
        other..other.saturating_add(PIECE).min(last)
    }

    // Returns the start of the first piece, of those from a block up to `end`, that isn't known to be zeros. Returns
    // `end` if there is none.
    fn first_piece(&mut self, from: u32, end: u32) -> u32
        requires ordered { from ≤ end }
        ensures later { from ≤ result }
        ensures within { result ≤ end }
    {
        let mut at = from;
        while at < end {
            let count = PIECE.min(end - at);
            let (offset, bytes) = (byte_of(at), bytes_in(count));
            self.ahead.read(&self.file, offset, bytes);
            if !self.ahead.has_zeros(offset, bytes) {
                break;
            }
            at += count;
        }
        at
    }
}
