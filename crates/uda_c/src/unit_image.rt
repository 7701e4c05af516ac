//! The image of a unit: bytes that C has lent, or blocks that C reads and writes by calls of its own.
ghost use Rattle.std.specs.Prelude.{◌≡◌, ◌≢◌, ◌+◌, ◌*◌, ◌<◌, ◌≤◌, true, false, [], length, option_map, Some, None};
ghost use Rattle.std.specs.Prelude.{IfOk, IfErr, IfSome, IsOk, is_ok, is_some, nat_le, ◌/◌, ◌%◌, if◌then◌else◌};
ghost use Rattle.std.specs.List.{concat};
ghost use Rattle.uda_image.specs.AtOnce.{TriesToRead, TriesToWrite, ChecksBlocks};
ghost use Rattle.uda_image.specs.Store.{Reads, Writes, KeepsAttributes, is_sound};
ghost use Rattle.uda_called.specs.CalledImage.{zero_image, bytes_in, as_lent};
ghost use Rattle.uda_c.specs.BorrowedImage.{IsWhole};
ghost use Rattle.uda_c.specs.UnitImage.{unit_state, is_called, bytes_of_store, store_failing, store_lent, ReadyAnswer, status_of};
ghost use Rattle.uda_c.specs.UnitImage.{called_begun, lent_from, lend_answer, allow_answer, store_prepared};
ghost use Rattle.uda_c.specs.UnitImage.{zero_state, lent_state};
ghost use Rattle.uda_c.specs.UnitImageLaws.{within_limit_of, whole_blocks_of};
ghost use Rattle.uda_image.specs.Limits.{store_limit};
ghost use Rattle.uda_c.specs.declared.call_status.CallStatus.TheVariants.{Done, OtherKind};

use crate::block_range::Prepared;
use crate::call_status::CallStatus;
use crate::lent_image::BorrowedImage;
use uda_called::{BorrowedBytes, CalledImage};
use uda_image::{BlockStore, StoreError};

/// The image of a unit.
#[derive(Drop)]
pub enum UnitImage {
    /// Bytes in memory that C has lent.
    Lent(BorrowedImage),
    /// An image by calls: C reads and writes its blocks before each turn, by calls of its own.
    Called(CalledImage),
}

impl UnitImage {
    /// Returns an image of the lent bytes. None of its calls fails.
    pub fn of_bytes(lent: BorrowedBytes) -> UnitImage
        requires whole { IsWhole lent.held }
        ensures state { unit_state result ≡ lent_state lent.held }
    {
        UnitImage::Lent(BorrowedImage::new(lent))
    }

    /// Returns an image of this many blocks that C reads and writes by calls of its own. Returns None if they
    /// are more than a store can have.
    pub fn of_calls(blocks: u64) -> Option<UnitImage>
        ensures fits { is_some result ≡ nat_le blocks store_limit }
        ensures state { IfSome result (λ image. unit_state image ≡ zero_state blocks) }
    {
        let blocks = u32::try_from(blocks).ok()?;
        let image = CalledImage::new(blocks)?;
        Some(UnitImage::Called(image))
    }

    /// Returns the lent bytes, or None if C has the blocks.
    pub fn into_lent(self) -> Option<BorrowedBytes>
        ensures bytes { option_map (λ lent. lent.held) result ≡ bytes_of_store (unit_state self) }
    {
        match self {
            UnitImage::Lent(image) => Some(image.into_lent()),
            UnitImage::Called(_image) => None,
        }
    }

    /// Returns whether C reads and writes the blocks.
    pub fn is_called(&self) -> bool
        ensures called { result ≡ is_called (unit_state self.now) }
    {
        matches!(self, UnitImage::Called(_))
    }

    /// Returns the number of the call that is to fail, counted from now on and from 1; 0 if that call is over.
    /// Returns None if no call was set to fail, or if C has the blocks.
    pub fn failing_call(&self) -> Option<u32>
        ensures call { result ≡ (unit_state self.now).failing_call }
    {
        match self {
            UnitImage::Lent(image) => image.failing_call(),
            UnitImage::Called(_) => None,
        }
    }

    /// Makes the image's call of this number from now on fail, and no other, if its bytes are in memory.
    pub fn set_failing_call(&mut self, call: Option<u32>)
        ensures state { unit_state self.new ≡ store_failing call (unit_state self.old) }
    {
        if let UnitImage::Lent(image) = self {
            image.set_failing_call(call);
        }
    }

    /// Drops what is ready of blocks that C reads and writes, and returns the bytes that C has lent for them. Those that
    /// are made ready next are those from this one on. Does nothing if the image has fewer blocks.
    pub fn begin(&mut self, first: u32) -> Option<BorrowedBytes>
        ensures state { unit_state self.new ≡ called_begun first (unit_state self.old) }
        ensures given_back { option_map as_lent result ≡ lent_from first (unit_state self.old) }
    {
        let UnitImage::Called(image) = self else {
            return None;
        };
        if first > image.size() {
            return None;
        }
        let lent = image.give_back();
        image.begin(first);
        lent
    }

    /// Takes bytes that C lends, as those of blocks from this one on. If it fails, it takes none.
    pub fn lend(&mut self, first: u32, from: &mut Option<BorrowedBytes>) -> Result<(), CallStatus>
        ensures state { unit_state self.new
            ≡ store_lent (is_ok result) first from.old (unit_state self.old) }
        ensures answer { status_of result ≡ lend_answer first (length (bytes_in from.old)) (unit_state self.old) }
        ensures kind { ReadyAnswer (is_called (unit_state self.old)) (status_of result) }
        ensures fits { IfOk result (λ _. (length (bytes_in from.old) % 512 ≡ 0)
            × (first + length (bytes_in from.old) / 512 ≤ (unit_state self.old).size)) }
        ensures has { IfOk result (λ _. lent_from first (unit_state self.new) ≡ option_map as_lent from.old) }
        ensures refused { IfErr result (λ status. status ≢ Done) }
        ensures taken { from.new ≡ (if is_ok result then None else from.old) }
    {
        match self {
            UnitImage::Lent(_) => Err(CallStatus::OtherKind),
            UnitImage::Called(image) => {
                if image.lend(first, from) {
                    Ok(())
                } else {
                    Err(CallStatus::BadLength)
                }
            }
        }
    }

    /// Makes the next blocks ready: they are readable, or a command may write them.
    pub fn allow(&mut self, prepared: Prepared, count: u32) -> Result<(), CallStatus>
        ensures state { unit_state self.new ≡ store_prepared (is_ok result) prepared count (unit_state self.old) }
        ensures answer { status_of result ≡ allow_answer prepared count (unit_state self.old) }
        ensures kind { ReadyAnswer (is_called (unit_state self.old)) (status_of result) }
        ensures fits { IfOk result (λ _. count ≤ (unit_state self.old).size) }
        ensures refused { IfErr result (λ status. status ≢ Done) }
    {
        let UnitImage::Called(image) = self else {
            return Err(CallStatus::OtherKind);
        };
        let has_room = match prepared {
            Prepared::Checked => image.check(count),
            Prepared::Written => image.allow(count),
        };
        if has_room {
            Ok(())
        } else {
            Err(CallStatus::BadLength)
        }
    }
}

impl BlockStore for UnitImage {
    ghost state = { unit_state };

    ghost within_limit = { within_limit_of };

    ghost is_image = { λ image _. whole_blocks_of image };

    ghost is_image_if_sound = { λ image _. whole_blocks_of image };

    fn size(&self) -> u32 {
        match self {
            UnitImage::Lent(image) => image.size(),
            UnitImage::Called(image) => image.size(),
        }
    }

    fn read(&mut self, n: u32, to: &mut [u8; 512]) -> Result<(), StoreError> {
        match self {
            UnitImage::Lent(image) => image.read(n, to),
            UnitImage::Called(image) => image.read(n, to),
        }
    }

    fn write(&mut self, n: u32, from: &[u8; 512]) -> Result<(), StoreError> {
        match self {
            UnitImage::Lent(image) => image.write(n, from),
            UnitImage::Called(image) => image.write(n, from),
        }
    }

    fn try_read_blocks(&mut self, n: u32, count: u32, to: &mut [u8]) -> bool {
        match self {
            UnitImage::Lent(image) => image.try_read_blocks(n, count, to),
            UnitImage::Called(image) => image.try_read_blocks(n, count, to),
        }
    }

    fn try_write_blocks(&mut self, n: u32, count: u32, from: &[u8]) -> bool {
        match self {
            UnitImage::Lent(image) => image.try_write_blocks(n, count, from),
            UnitImage::Called(image) => image.try_write_blocks(n, count, from),
        }
    }

    fn check_blocks(&mut self, n: u32, count: u32) -> u32 {
        match self {
            UnitImage::Lent(_) => 0,
            UnitImage::Called(image) => image.check_blocks(n, count),
        }
    }
}
