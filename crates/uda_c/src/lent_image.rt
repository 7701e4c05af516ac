//! Images in memory that a C program lends, for example of a mapped file.
ghost use Rattle.std.specs.Prelude.{length, ◌≡◌, ◌+◌, ◌*◌, ◌-◌, ◌<◌, ◌≤◌, ◌↔◌, true, false, None, Some};
ghost use Rattle.std.specs.Prelude.{is_ok, is_none, option_map, IsErr, IsOk, IfErr, if◌then◌else◌};
ghost use Rattle.uda_mem.specs.Put.{part, put};
ghost use Rattle.uda_image.specs.AtOnce.{TriesToRead, TriesToWrite};
ghost use Rattle.uda_image.specs.Image.{block_count_of, block_of, with_block, half_written};
ghost use Rattle.uda_image.specs.Store.{Reads, Writes, KeepsAttributes};
ghost use Rattle.uda_image.specs.StoreLaws.{block_count-le, HasWholeBlocks-blocks_of};
ghost use Rattle.uda_c.specs.BorrowedImage.{borrowed_state, with_failing_call, IsWhole};
ghost use Rattle.std.specs.List.{concat};

use std::marker::Model;
use uda_called::BorrowedBytes;
use uda_image::{BlockStore, StoreError, blocks};

/// An image in memory that C has lent: block after block.
///
/// It is faithful. None of its calls fails until
/// [`set_failing_call`](BorrowedImage::set_failing_call) sets one to fail.
#[derive(Drop)]
pub struct BorrowedImage {
    bytes: BorrowedBytes,
    size: u32,
    // The number of calls up to and including the failing one, 0 after that call. None if no call was set to
    // fail.
    left: Option<u32>,
}

impl Model for BorrowedImage {
    ghost use Rattle.std.specs.Prelude.{◌≡◌};
    ghost use Rattle.uda_image.specs.Image.{block_count_of};
    ghost use Rattle.uda_c.specs.BorrowedImage.{BorrowedBlocks, IsWhole};

    ghost Value = { BorrowedBlocks };

    ghost view = { λ image. record { bytes = image.bytes.held; left = image.left } };

    ghost invariant = { λ image. (image.size ≡ block_count_of image.bytes.held) × IsWhole image.bytes.held };
}

impl BorrowedImage {
    /// Returns an image of the lent bytes, of which no call fails.
    pub fn new(lent: BorrowedBytes) -> BorrowedImage
        requires whole { IsWhole lent.held }
        ensures image { result ≡ record { bytes = lent.held; left = None } }
    {
        let mut bytes = lent;
        let size = blocks::count(bytes.bytes_mut());
        BorrowedImage {
            bytes,
            size,
            left: None,
        }
    }

    /// Returns the lent bytes: the blocks in order.
    #[tactic(auto, using(crate::proofs::Images::image_laws))]
    pub fn into_lent(self) -> BorrowedBytes
        ensures bytes { result.held ≡ self.bytes }
        ensures blocks { result.held ≡ concat (borrowed_state self).blocks }
    {
        let BorrowedImage { bytes, .. } = self;
        bytes
    }

    /// Returns the number of the call that is to fail, counted from now on and from 1; 0 if that call is
    /// over.
    /// Returns None if no call was set to fail.
    pub fn failing_call(&self) -> Option<u32>
        ensures call { result ≡ (borrowed_state self.now).failing_call }
    {
        self.left
    }

    /// Makes the image's call of this number from now on fail, and no other. Reads and writes of blocks are
    /// counted together, from 1. If the number is 0 or None, none fails.
    pub fn set_failing_call(&mut self, call: Option<u32>)
        ensures left { self.new ≡ record self.old { left = call } }
        ensures state { borrowed_state self.new ≡ with_failing_call call (borrowed_state self.old) }
    {
        self.left = call;
    }

    // Counts one call, and returns whether it is the failing one.
    #[tactic(auto, using(crate::proofs::Images::failures_stay))]
    fn fails_now(&mut self) -> bool
        ensures value { (result ≡ true) ↔ (self.old.left ≡ Some 1) }
        ensures left { self.new ≡ record self.old { left = option_map (λ l. l - 1) self.old.left } }
        ensures passes { result ≡ false → borrowed_state self.new
            ≡ record (borrowed_state self.old) { failing_call = self.new.left } }
        ensures fails { result ≡ true → borrowed_state self.new
            ≡ record (borrowed_state self.old) {
              failures = (borrowed_state self.old).failures + 1;
              failing_call = self.new.left;
            } }
        ensures infallible { is_none self.old.left ≡ true → result ≡ false }
    {
        match self.left {
            None => false,
            Some(left) => {
                self.left = Some(left.saturating_sub(1));
                left == 1
            }
        }
    }

    // Writes only the first half of block `n`.
    #[tactic(auto, using(crate::proofs::Images::image_laws, crate::proofs::Images::length_with_block))]
    fn write_half(&mut self, n: u32, from: &[u8; 512])
        requires { n < block_count_of self.old.bytes }
        ensures half { self.new ≡ record self.old {
          bytes = with_block self.old.bytes n (half_written (block_of self.old.bytes n) from.now);
        } }
    {
        let mut block = [0; 512];
        blocks::read(self.bytes.bytes_mut(), n, &mut block);
        put_first_half(&mut block, from);
        blocks::write(self.bytes.bytes_mut(), n, &block);
    }
}

// Writes the first half of `from` over that of a block.
#[tactic(auto, unfolding(uda_image::specs::Image::half_written))]
fn put_first_half(block: &mut [u8; 512], from: &[u8; 512])
    ensures half { block.new ≡ half_written block.old from.now }
{
    block[..256].copy_from_slice(&from[..256]);
}

impl BlockStore for BorrowedImage {
    ghost state = { borrowed_state };

    ghost within_limit = { λ image. block_count-le image.bytes };

    ghost is_image = { λ image _. HasWholeBlocks-blocks_of image.bytes };

    ghost is_image_if_sound = { λ image _. HasWholeBlocks-blocks_of image.bytes };

    #[tactic(auto, using(crate::proofs::Images::within_limit))]
    fn size(&self) -> u32 {
        self.size
    }

    #[tactic(auto, using(crate::proofs::Images::image_laws))]
    fn read(&mut self, n: u32, to: &mut [u8; 512]) -> Result<(), StoreError>
        requires { n < block_count_of self.old.bytes }
        ensures fails { IsErr result ↔ (self.old.left ≡ Some 1) }
        ensures left { self.new ≡ record self.old { left = option_map (λ l. l - 1) self.old.left } }
        ensures to { to.new ≡ (if is_ok result then block_of self.old.bytes n else to.old) }
        ensures attributes { KeepsAttributes (borrowed_state self.old) (borrowed_state self.new) }
        ensures error { IfErr result (λ e. e ≡ StoreError.Read) }
        ensures infallible { (borrowed_state self.old).never_fails.reads ≡ true → IsOk result }
        ensures reads { Reads (borrowed_state self.old) n (borrowed_state self.new) to.new result }
        ensures long { length to.new ≡ 512 }
    {
        if self.fails_now() {
            return Err(StoreError::Read);
        }
        blocks::read(self.bytes.bytes_mut(), n, to);
        Ok(())
    }

    #[tactic(auto, using(crate::proofs::Images::image_laws, crate::proofs::Images::length_with_block))]
    fn write(&mut self, n: u32, from: &[u8; 512]) -> Result<(), StoreError>
        requires { n < block_count_of self.old.bytes }
        ensures fails { IsErr result ↔ (self.old.left ≡ Some 1) }
        ensures written { self.new ≡ record {
          bytes = with_block self.old.bytes n
              (if is_ok result then from.now else half_written (block_of self.old.bytes n) from.now);
          left = option_map (λ l. l - 1) self.old.left;
        } }
        ensures attributes { KeepsAttributes (borrowed_state self.old) (borrowed_state self.new) }
        ensures error { IfErr result (λ e. e ≡ StoreError.Write) }
        ensures infallible { (borrowed_state self.old).never_fails.writes ≡ true → IsOk result }
        ensures writes { Writes (borrowed_state self.old) n (borrowed_state self.new) from.now result }
    {
        if self.fails_now() {
            self.write_half(n, from);
            return Err(StoreError::Write);
        }
        blocks::write(self.bytes.bytes_mut(), n, from);
        Ok(())
    }

    #[tactic(auto, using(crate::proofs::Images::at_once_laws))]
    fn try_read_blocks(&mut self, n: u32, count: u32, to: &mut [u8]) -> bool
        requires on_unit { n + count ≤ block_count_of self.old.bytes }
        requires long { length to.old ≡ 512 * count }
        ensures done { result ≡ is_none self.old.left }
        ensures attributes { KeepsAttributes (borrowed_state self.old) (borrowed_state self.new) }
        ensures long { length to.new ≡ length to.old }
        ensures reads { TriesToRead (borrowed_state self.old) n count (borrowed_state self.new) to.old to.new result }
    {
        if self.left.is_some() {
            return false;
        }
        read_blocks(self.bytes.bytes_mut(), n, count, to);
        true
    }

    #[tactic(auto, using(crate::proofs::Images::at_once_laws, crate::proofs::Images::length_put))]
    fn try_write_blocks(&mut self, n: u32, count: u32, from: &[u8]) -> bool
        requires on_unit { n + count ≤ block_count_of self.old.bytes }
        requires long { length from.now ≡ 512 * count }
        ensures done { result ≡ is_none self.old.left }
        ensures attributes { KeepsAttributes (borrowed_state self.old) (borrowed_state self.new) }
        ensures writes { TriesToWrite (borrowed_state self.old) n count (borrowed_state self.new) from.now result }
    {
        if self.left.is_some() {
            return false;
        }
        write_blocks(self.bytes.bytes_mut(), n, count, from);
        true
    }
}

// Copies the bytes of blocks from block `n` on, as many as `to` has.
#[tactic(auto, unfolding(uda_image::specs::Image::block_count_of, uda_mem::specs::Put::part))]
fn read_blocks(bytes: &[u8], n: u32, count: u32, to: &mut [u8])
    requires on_unit { n + count ≤ block_count_of bytes.now }
    requires long { length to.old ≡ 512 * count }
    ensures value { to.new ≡ part bytes.now (512 * n) (512 * count) }
{
    let start = 512 * n as usize;
    to.copy_from_slice(&bytes[start..start + 512 * count as usize]);
}

// Writes blocks from block `n` on.
#[tactic(auto, unfolding(uda_image::specs::Image::block_count_of, uda_mem::specs::Put::put))]
fn write_blocks(bytes: &mut [u8], n: u32, count: u32, from: &[u8])
    requires on_unit { n + count ≤ block_count_of bytes.old }
    requires long { length from.now ≡ 512 * count }
    ensures value { bytes.new ≡ put bytes.old (512 * n) from.now }
{
    let start = 512 * n as usize;
    bytes[start..start + 512 * count as usize].copy_from_slice(from);
}
