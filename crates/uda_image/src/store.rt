//! The trait `BlockStore` for a store of a unit's blocks, and a drive that holds one.
ghost use Rattle.std.specs.Prelude.{length, ◌≡◌, ◌+◌, ◌*◌, ◌<◌, ◌≤◌, true, IfErr, IsOk};
ghost use Rattle.uda_image.specs.Store.{StoreState, HasWholeBlocks, KeepsAttributes, Reads, Writes, is_sound};
ghost use Rattle.uda_image.specs.AtOnce.{TriesToRead, TriesToWrite, ChecksBlocks};
ghost use Rattle.uda_image.specs.Limits.{store_limit};

use std::error::Error;
use std::fmt;

/// The most blocks of an image in memory, or in a file opened by [`crate::FileImage::open`]: the size that
/// an RA81 reports to its host. The manuals leave it open.
pub const BLOCK_LIMIT: u32 = 891_072;

/// The most blocks of any store. A store's own limit may be lower.
pub const STORE_LIMIT: u32 = 2_147_483_647;

/// The error of a store that could not read or write a block (MSCP Basic Disk Functions Manual: status
/// codes, drive error).
#[derive(Clone, Copy, Debug, PartialEq, Eq)]
pub enum StoreError {
    /// A block could not be read.
    Read,
    /// A block could not be written.
    Write,
}

impl fmt::Display for StoreError {
    ghost use Rattle.std.specs.Prelude.{Some};
    ghost use Rattle.uda_image.specs.Display.{store_error_display};

    ghost output = { λ error. Some (store_error_display error) };

    fn fmt<W: fmt::Write>(&self, f: &mut fmt::Formatter<W>) -> fmt::Result {
        match self {
            StoreError::Read => f.write_str("a block could not be read"),
            StoreError::Write => f.write_str("a block could not be written"),
        }
    }
}

impl Error for StoreError {}

/// The logical blocks of a unit (MSCP Basic Disk Functions Manual: logical blocks): blocks of 512 bytes,
/// numbered from 0. They are read and written one at a time, or several at once if the store can do so.
///
/// Contracts see a store as one value, its `state`:
///
/// - its blocks and their number;
/// - whether it is faithful, whether it has been honest until now, and whether its reads and its writes never fail;
/// - how many of its calls have failed;
/// - if it is known, which later call will fail; no other will;
/// - if a program makes blocks ready for the calls, which are ready, and the bytes that it has lent for them. No call
///   changes these bytes.
///
/// A faithful store returns the data that was written last. A call of it that fails changes no block except
/// the one that was being written. A store whose reads never fail returns `Ok` from every read, and so for writes.
///
/// Another store, such as a file that other programs may change, may say that it has been honest until now. Then
/// its calls have had the results that those of a faithful store would have had. A store that is no longer
/// honest is never honest again. Only its number of blocks is known then. A store is sound if it is faithful or
/// honest.
pub trait BlockStore {
    ghost state: { Self → StoreState };

    /// Returns the number of blocks, at most [`STORE_LIMIT`]. No call changes it.
    fn size(&self) -> u32
        ensures value { result ≡ (state self.now).size }
        ensures within_limit { result ≤ store_limit };

    /// Reads block `n` into `to`. `n` is less than the size. Fails with `Read`, and `to` may then hold any
    /// bytes.
    fn read(&mut self, n: u32, to: &mut [u8; 512]) -> Result<(), StoreError>
        requires { n < (state self.old).size }
        ensures attributes { KeepsAttributes (state self.old) (state self.new) }
        ensures error { IfErr result (λ e. e ≡ StoreError.Read) }
        ensures infallible { (state self.old).never_fails.reads ≡ true → IsOk result }
        ensures long { length to.new ≡ 512 }
        ensures reads { (state self.old).faithful ≡ true
            → Reads (state self.old) n (state self.new) to.new result }
        ensures reads_if_sound { is_sound (state self.new) ≡ true
            → Reads (state self.old) n (state self.new) to.new result };

    /// Writes `from` to block `n`. `n` is less than the size. Fails with `Write`, and the block may then
    /// hold any bytes.
    fn write(&mut self, n: u32, from: &[u8; 512]) -> Result<(), StoreError>
        requires { n < (state self.old).size }
        ensures attributes { KeepsAttributes (state self.old) (state self.new) }
        ensures error { IfErr result (λ e. e ≡ StoreError.Write) }
        ensures infallible { (state self.old).never_fails.writes ≡ true → IsOk result }
        ensures writes { (state self.old).faithful ≡ true
            → Writes (state self.old) n (state self.new) from.now result }
        ensures writes_if_sound { is_sound (state self.new) ≡ true
            → Writes (state self.old) n (state self.new) from.now result };

    /// Reads `count` blocks from block `n` into `to` at once, and returns whether it did so. If it did, the
    /// result is that of one `read` for each block, none of which failed.
    ///
    /// A store that only has single blocks declines: it returns false. So does a store that can't read all
    /// of them. The caller then reads one block at a time, which finds the block that fails.
    fn try_read_blocks(&mut self, n: u32, count: u32, to: &mut [u8]) -> bool
        requires on_unit { n + count ≤ (state self.old).size }
        requires long { length to.old ≡ 512 * count }
        ensures attributes { KeepsAttributes (state self.old) (state self.new) }
        ensures long { length to.new ≡ length to.old }
        ensures reads { (state self.old).faithful ≡ true
            → TriesToRead (state self.old) n count (state self.new) to.old to.new result }
        ensures reads_if_sound { is_sound (state self.new) ≡ true
            → TriesToRead (state self.old) n count (state self.new) to.old to.new result }
    {
        false
    }

    /// Writes `from` to `count` blocks from block `n` at once, and returns whether it did so. If it did,
    /// the result is that of one `write` for each block, none of which failed.
    ///
    /// A store that only has single blocks declines: it returns false. So does a store that can't write all
    /// of them. The caller then writes one block at a time. That includes blocks that a store that isn't
    /// faithful wrote before it declined.
    fn try_write_blocks(&mut self, n: u32, count: u32, from: &[u8]) -> bool
        requires on_unit { n + count ≤ (state self.old).size }
        requires long { length from.now ≡ 512 * count }
        ensures attributes { KeepsAttributes (state self.old) (state self.new) }
        ensures writes { (state self.old).faithful ≡ true
            → TriesToWrite (state self.old) n count (state self.new) from.now result }
        ensures writes_if_sound { is_sound (state self.new) ≡ true
            → TriesToWrite (state self.old) n count (state self.new) from.now result }
    {
        false
    }

    /// Reads blocks from block `n` on and drops their bytes, at most `count` of them, and returns how many it
    /// read. None of these reads failed.
    ///
    /// It is for a store that can tell that blocks are readable without their bytes. Any other store declines:
    /// it returns 0. The caller then reads the blocks that are left, which finds the block that fails.
    fn check_blocks(&mut self, n: u32, count: u32) -> u32
        requires on_unit { n + count ≤ (state self.old).size }
        ensures attributes { KeepsAttributes (state self.old) (state self.new) }
        ensures within { result ≤ count }
        ensures checks { (state self.old).faithful ≡ true
            → ChecksBlocks (state self.old) result (state self.new) }
        ensures checks_if_sound { is_sound (state self.new) ≡ true
            → ChecksBlocks (state self.old) result (state self.new) }
    {
        0
    }

    ghost within_limit: { (store : Self) → (state store).size ≤ store_limit };

    ghost is_image: { (store : Self) → (state store).faithful ≡ true
        → HasWholeBlocks (state store).size (state store).blocks };

    ghost is_image_if_sound: { (store : Self) → is_sound (state store) ≡ true
        → HasWholeBlocks (state store).size (state store).blocks };
}

/// A drive of a controller (MSCP Basic Disk Functions Manual: unit flags, hardware write protect).
#[derive(Debug, Drop)]
pub struct Drive<S> {
    /// The store of the blocks of the drive's medium.
    pub store: S,
    /// Whether the drive's own switch protects it from writes.
    pub hard: bool,
}
