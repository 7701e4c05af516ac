//! The stores, the zeros and the followers of the copies.
use std::alloc::Global;
use std::ops::Range;
use std::test::Fail;
use uda_driver::Driver;
use uda_image::{BlockStore, Drive, MemImage, StoreError};
use uda50_copy::{BlockMap, Copier, CopyLog, Observer, ReportTrace, ZeroBlocks};

/// An image in memory with a block that can't be read or written. No promise is made of it.
#[derive(Drop)]
pub struct Worn {
    image: MemImage,
    block: u32,
}

impl Worn {
    /// The number of no block.
    pub const NONE: u32 = u32::MAX;
}

impl BlockStore for Worn {
    ghost use Rattle.std.specs.Prelude.{false};
    ghost use Rattle.uda_image.specs.Image.{image_state};
    ghost use Rattle.uda_image.specs.StoreLaws.{block_count-le, HasWholeBlocks-blocks_of};

    ghost state = { λ worn. record (image_state worn.image) {
      faithful = false;
      honest = false;
      never_fails = record { reads = false; writes = false };
    } };

    ghost within_limit = { λ worn. block_count-le worn.image };

    ghost is_image = { λ worn _. HasWholeBlocks-blocks_of worn.image };

    ghost is_image_if_sound = { λ worn _. HasWholeBlocks-blocks_of worn.image };

    fn size(&self) -> u32 {
        self.image.size()
    }

    fn read(&mut self, n: u32, to: &mut [u8; 512]) -> Result<(), StoreError> {
        if n == self.block {
            return Err(StoreError::Read);
        }
        self.image.read(n, to)
    }

    fn write(&mut self, n: u32, from: &[u8; 512]) -> Result<(), StoreError> {
        if n == self.block {
            return Err(StoreError::Write);
        }
        self.image.write(n, from)
    }
}

/// Returns a copier over a source of 40 blocks, none of which is zeros, and a target of 40 blocks of zeros. These blocks of
/// them can't be read or written.
pub fn copier_over(
    alloc: Global,
    lost: u32,
    unwritten: u32,
    skips_lost: bool,
) -> Result<Copier<Worn>, Fail> {
    let source = Worn {
        image: MemImage::from_bytes(alloc, &[9; 40 * 512])?,
        block: lost,
    };
    let target = Worn {
        image: MemImage::new(alloc, 40)?,
        block: unwritten,
    };
    let drives = [
        Some(Drive {
            store: source,
            hard: true,
        }),
        Some(Drive {
            store: target,
            hard: false,
        }),
        None,
        None,
    ];
    match Driver::start(alloc, drives) {
        Ok(driver) => Ok(Copier::new(alloc, driver, skips_lost)?),
        Err(_) => Err("no memory".into()),
    }
}

/// Follows a copy, and counts the reports that blocks are done.
#[derive(Drop)]
pub struct Followed {
    pub ends: u32,
    trace: ReportTrace,
}

impl Followed {
    /// Returns one that got no report.
    pub fn new() -> Followed {
        Followed {
            ends: 0,
            trace: ReportTrace::new(),
        }
    }
}

impl Observer for Followed {
    ghost reports = { λ followed. followed.trace.reports };

    fn reached(&mut self, end: u32) {
        self.trace.reached(end);
    }

    fn lost(&mut self, block: u32) {
        self.trace.lost(block);
    }
}

impl CopyLog for Followed {
    type Error = StoreError;

    fn reached(&mut self, _end: u32, _copied: u32) {
        self.ends = self.ends.saturating_add(1);
    }

    fn lost(&mut self, _block: u32) {}

    fn noted(&mut self, _map: &BlockMap, _lost: bool) -> Result<(), StoreError> {
        Ok(())
    }
}

/// Finds blocks 12, 13 and 14 to be zeros.
#[derive(Clone, Copy)]
pub struct KnownZeros;

impl ZeroBlocks for KnownZeros {
    ghost use Rattle.std.specs.Prelude.{◌≤◌, ◌<◌};

    ghost zeros = { λ _ n. (12 ≤ n) × (n < 15) };

    fn next(&mut self, blocks: Range<u32>) -> Range<u32> {
        if blocks.start < 12 {
            return blocks.start..blocks.end.min(12);
        }
        if blocks.start < 15 {
            return blocks.end.min(15)..blocks.end;
        }
        blocks
    }
}
