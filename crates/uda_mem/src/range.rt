//! Ranges of bytes of host memory.
ghost use Rattle.std.specs.Prelude.{◌≡◌, length};
ghost use Rattle.uda_mem.specs.Slices.{IsMemory};
ghost use Rattle.uda_mem.specs.Ranges.{range_in, LiesIn};

/// A number of bytes of host memory, from an address on. C has the same struct.
#[repr(C)]
#[derive(Clone, Copy, Debug, PartialEq, Eq)]
pub struct ByteRange {
    /// The address of the first byte.
    pub at: u32,
    /// The number of bytes, which may be 0.
    pub bytes: u32,
}

impl ByteRange {
    /// The range without bytes.
    pub const EMPTY: ByteRange = ByteRange { at: 0, bytes: 0 };

    /// Returns the range of `bytes` bytes from the address `at` on, without those past the end of `memory`.
    pub fn clipped(at: u32, bytes: u32, memory: &[u8]) -> ByteRange
        requires memory { IsMemory memory.now }
        ensures range { result ≡ range_in memory.now at bytes }
        ensures within { LiesIn memory.now result }
    {
        let length = memory.len() as u32;
        ByteRange {
            at,
            bytes: bytes.min(length.saturating_sub(at)),
        }
    }
}
