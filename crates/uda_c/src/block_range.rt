//! Blocks that the next turn uses of an image that C reads and writes, for C.
ghost use Rattle.std.specs.Prelude.{◌≡◌, option_map};
ghost use Rattle.uda_c.specs.BlockRange.{access_code, access_numbered, range_of, NO_BLOCKS};

use uda_exec::{BlockAccess, BlockUse};

/// Blocks that the next turn uses, in the form of C.
#[repr(C)]
#[derive(Clone, Copy, Debug, PartialEq, Eq)]
pub struct BlockRange {
    /// How the turn uses them: 1 if it reads them, 2 if it checks that they are readable, 3 if it writes them. It is
    /// 0 if there are none.
    pub access: u32,
    /// The unit.
    pub unit: u32,
    /// The first block.
    pub first: u32,
    /// The number of blocks.
    pub count: u32,
}

/// How C made blocks ready that it doesn't lend.
#[derive(Clone, Copy, Debug, PartialEq, Eq)]
pub enum Prepared {
    /// It checked that they are readable.
    Checked,
    /// It wrote them.
    Written,
}

impl BlockRange {
    /// No blocks.
    pub const NONE: BlockRange = BlockRange {
        access: 0,
        unit: 0,
        first: 0,
        count: 0,
    };

    /// Returns these blocks in the form of C.
    pub fn of(used: BlockUse) -> BlockRange
        ensures { result ≡ range_of used }
    {
        BlockRange {
            access: access_code(used.access),
            unit: u32::from(used.unit),
            first: used.first,
            count: used.count,
        }
    }

    /// Returns how the turn uses them, if there are any.
    pub fn use_of(self) -> Option<BlockAccess>
        ensures { result ≡ access_numbered self.access }
    {
        match self.access {
            1 => Some(BlockAccess::Reads),
            2 => Some(BlockAccess::Checks),
            3 => Some(BlockAccess::Writes),
            _ => None,
        }
    }
}

// Returns the number of a use in C.
fn access_code(access: BlockAccess) -> u32
    ensures { result ≡ access_code access }
{
    match access {
        BlockAccess::Reads => 1,
        BlockAccess::Checks => 2,
        BlockAccess::Writes => 3,
    }
}
