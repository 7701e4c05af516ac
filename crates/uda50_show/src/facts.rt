//! The facts of an image.
ghost use Rattle.std.specs.Prelude.{◌≡◌, ◌-◌, is_some, if◌then◌else◌};

use crate::{BootBlock, ContainerRecord, DiskLabel, ForeignFormat, HomeBlock};

/// The blocks that can hold a structure.
#[derive(Drop)]
pub struct StructureBlocks {
    /// Block 0.
    pub zero: [u8; 512],
    /// Block 1.
    pub one: [u8; 512],
    /// Block 31.
    pub thirty_one: [u8; 512],
}

/// The structures in the blocks of an image.
#[derive(Clone, Copy, Debug, PartialEq, Eq)]
pub struct Contents {
    /// The format of another program that begins with block 0.
    pub format: Option<ForeignFormat>,
    /// The bootstrap in block 0.
    pub boot: Option<BootBlock>,
    /// The label in block 0.
    pub label_0: Option<DiskLabel>,
    /// The home block in block 1.
    pub home: Option<HomeBlock>,
    /// The label in block 1.
    pub label_1: Option<DiskLabel>,
    /// The partition table in block 31.
    pub label_31: Option<DiskLabel>,
}

impl Contents {
    /// Reads the structures in blocks.
    pub fn read(blocks: &StructureBlocks) -> Contents {
        Contents {
            format: ForeignFormat::read(&blocks.zero),
            boot: BootBlock::read(&blocks.zero),
            label_0: DiskLabel::in_block_0(&blocks.zero),
            home: HomeBlock::read(&blocks.one),
            label_1: DiskLabel::in_block_1(&blocks.one),
            label_31: DiskLabel::in_block_31(&blocks.thirty_one),
        }
    }

    /// Returns whether there is no structure.
    pub fn is_empty(&self) -> bool {
        self.format.is_none()
            && self.boot.is_none()
            && self.label_0.is_none()
            && self.home.is_none()
            && self.label_1.is_none()
            && self.label_31.is_none()
    }
}

/// The facts of an image.
#[derive(Clone, Copy, Debug)]
pub struct ImageFacts<'w> {
    /// The path of the file.
    pub path: &'w str,
    /// The number of its blocks.
    pub blocks: u32,
    /// The record in its last block, if that isn't one of the volume.
    pub record: Option<ContainerRecord>,
    /// Whether the file may be opened for writing.
    pub writable: bool,
    /// Whether the unit has hardware write protection.
    pub protected: bool,
    /// The structures in its blocks.
    pub contents: Contents,
}

impl ImageFacts<'_> {
    /// Returns the number of blocks of the volume, which are all except that of a record.
    pub fn volume_blocks(&self) -> u32
        ensures volume { result ≡ (if is_some self.now.record then self.now.blocks - 1 else self.now.blocks) }
    {
        match self.record {
            Some(_) => self.blocks.saturating_sub(1),
            None => self.blocks,
        }
    }
}
