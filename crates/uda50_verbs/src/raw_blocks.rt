//! Raw blocks of images, for standard output.
ghost use Rattle.std.specs.Prelude.{◌≤◌};

use crate::fault::Fault;
use crate::image::NamedImage;
use crate::outcome::Outcome;
use std::io;
use std::io::{BufWriter, Write};
use std::ops::Range;

/// The bytes of a block.
const BLOCK: usize = 512;

/// The most blocks that are read before some of them are written.
const MOST: usize = 17;

/// The bytes of the blocks that are written at once: those of the buffer of standard output.
const WRITTEN: usize = 8_192;

/// Writes blocks of a plain file as they are. They are read in calls of 16 blocks, and written when one more
/// is read than the buffer of the output holds. So they go out as if each were read by itself and went
/// through that buffer.
pub(crate) fn write_blocks<'w, W: Write + Drop>(
    image: &mut NamedImage<'w>,
    blocks: Range<u32>,
    out: &mut BufWriter<W>,
) -> Result<Outcome, Fault<'w>> {
    let mut held = HeldBlocks::none();
    let Range { mut start, end } = blocks;
    for _ in 0..u32::MAX {
        let next = start.saturating_add(held.room()).min(end);
        if next <= start {
            break;
        }
        if let Err(fault) = held.read(image, start..next) {
            let _ = held.write_all(out);
            return Err(fault);
        }
        held.write_full(out)?;
        start = next;
    }
    held.write_all(out)?;
    Ok(Outcome::Done)
}

/// Blocks that were read, and are not written yet.
#[derive(Drop)]
pub(crate) struct HeldBlocks {
    bytes: [u8; BLOCK * MOST],
    count: usize,
}

impl HeldBlocks {
    /// Makes no blocks.
    pub(crate) fn none() -> HeldBlocks {
        HeldBlocks {
            bytes: [0; BLOCK * MOST],
            count: 0,
        }
    }

    /// Returns the number of blocks.
    pub(crate) fn count(&self) -> u32
        ensures few { result ≤ 17 }
    {
        self.count.min(MOST) as u32
    }

    /// Returns the first block, or zeros if there is none.
    pub(crate) fn first(&self) -> [u8; BLOCK] {
        let mut first = [0; BLOCK];
        if self.count > 0 {
            first.copy_from_slice(&self.bytes[..BLOCK]);
        }
        first
    }

    /// Returns for how many more blocks there is room.
    pub(crate) fn room(&self) -> u32
        ensures few { result ≤ 17 }
    {
        MOST.saturating_sub(self.count) as u32
    }

    /// Reads the next blocks in one call, if there are several. If that fails, reads each by itself up to the
    /// one that can't be read.
    pub(crate) fn read<'w>(
        &mut self,
        image: &mut NamedImage<'w>,
        blocks: Range<u32>,
    ) -> Result<(), Fault<'w>> {
        let Range { start, end } = blocks;
        let count = end.saturating_sub(start) as usize;
        let at = BLOCK * self.count.min(MOST);
        if let Some(to) = self.bytes.get_mut(at..at + BLOCK * count) {
            if count > 1 && image.try_read_blocks(start, to) {
                self.count = self.count.saturating_add(count);
                return Ok(());
            }
        }
        for block in start..end {
            self.read_one(image, block)?;
        }
        Ok(())
    }

    // Reads the next block.
    fn read_one<'w>(&mut self, image: &mut NamedImage<'w>, block: u32) -> Result<(), Fault<'w>> {
        let mut bytes = [0; BLOCK];
        image.read_block(block, &mut bytes)?;
        self.push(&bytes);
        Ok(())
    }

    /// Holds a block after the others.
    pub(crate) fn push(&mut self, block: &[u8; BLOCK]) {
        let at = BLOCK * self.count.min(MOST - 1);
        self.bytes[at..at + BLOCK].copy_from_slice(block);
        self.count = self.count.saturating_add(1);
    }

    /// Writes all blocks but the last, if no more can be held. If that fails, none is held any more.
    pub(crate) fn write_full<W: Write + Drop>(&mut self, out: &mut BufWriter<W>) -> io::Result<()> {
        if self.count >= MOST {
            self.count = 0;
            out.write_all(&self.bytes[..WRITTEN])?;
            self.bytes.copy_within(WRITTEN.., 0);
            self.count = 1;
        }
        Ok(())
    }

    /// Writes all blocks.
    pub(crate) fn write_all<W: Write + Drop>(&self, out: &mut BufWriter<W>) -> io::Result<()> {
        out.write_all(&self.bytes[..BLOCK * self.count.min(MOST)])
    }
}
