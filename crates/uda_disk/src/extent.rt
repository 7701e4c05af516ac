//! The range of a transfer.

/// The most bytes of one Read or Write: the size of one buffer of a driver.
pub const TRANSFER_LIMIT: u32 = 16_384;

/// The range of a transfer: its first block, its number of bytes from the start of that block, and whether
/// it changes them.
#[derive(Clone, Copy, Debug, PartialEq, Eq)]
pub struct Extent {
    /// The first logical block.
    pub lbn: u32,
    /// The number of bytes.
    pub bytes: u64,
    /// Whether the transfer changes blocks: true for a Write and an Erase.
    pub writes: bool,
}

impl Extent {
    ghost use Rattle.std.specs.Prelude.{◌≡◌, ◌+◌, ◌<◌, ◌^◌, nat_lt, max, min, IsTrue, ◌↔◌};
    ghost use Rattle.uda_disk.specs.Request.{blocks_for};

    /// Returns the number of blocks of the range. The last one may be a partial block.
    pub fn blocks(self) -> u64
        ensures blocks { result ≡ blocks_for self.bytes }
    {
        self.bytes.div_ceil(512)
    }

    /// Returns the first block past the range. The sum does not wrap.
    fn end(self) -> u128
        ensures end { result ≡ self.lbn + blocks_for self.bytes }
    {
        u128::from(self.lbn) + u128::from(self.blocks())
    }

    /// Returns whether some block lies in both ranges. An empty range shares no block.
    pub fn overlaps(self, other: Extent) -> bool
        ensures overlaps { result ≡ nat_lt (max self.lbn other.lbn)
            (min (self.lbn + blocks_for self.bytes) (other.lbn + blocks_for other.bytes)) }
    {
        u128::from(self.lbn.max(other.lbn)) < self.end().min(other.end())
    }
}
