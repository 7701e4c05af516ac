//! Images in memory of which one call fails.
ghost use Rattle.std.specs.Prelude.{length, ◌≡◌, ◌-◌, ◌<◌, ◌↔◌, true, is_ok, IsErr, IfErr, if◌then◌else◌};
ghost use Rattle.uda_image.specs.Store.{Reads, Writes, KeepsAttributes};
ghost use Rattle.uda_image.specs.Image.{block_count_of, block_of, with_block, half_written, failing_state};
ghost use Rattle.uda_image.specs.StoreLaws.{block_count-le, HasWholeBlocks-blocks_of};

use crate::memory::MemImage;
use crate::store::{BlockStore, StoreError};
use std::marker::Model;

/// An image in memory of which one call fails, as a drive's medium may (MSCP Basic Disk Functions Manual:
/// status codes, drive error). It is faithful and allocates no memory.
///
/// A `read` that fails leaves `to` unchanged. A `write` that fails changes the first 256 bytes of its block
/// and leaves the last 256 unchanged.
///
/// Contracts see the bytes of the image and a number `left`. It counts the calls up to and including the
/// one that fails. It is 0 after that call, and always 0 if no call fails.
#[derive(Debug, Drop)]
pub struct FailingImage {
    inner: MemImage,
    left: u32,
}

impl Model for FailingImage {
    ghost use Rattle.uda_image.specs.Image.{Failing};

    ghost Value = { Failing };

    ghost view = { λ image. record { bytes = image.inner; left = image.left } };
}

impl FailingImage {
    /// Makes a store of the blocks of `inner`, of which only call number `at` fails. Calls of `read` and
    /// `write` are counted together, from 1. No call fails if `at` is 0.
    pub fn new(inner: MemImage, at: u32) -> FailingImage
        ensures bytes { result.bytes ≡ inner }
        ensures left { result.left ≡ at }
    {
        FailingImage { inner, left: at }
    }

    /// Returns the image with its blocks as they are now.
    pub fn into_inner(self) -> MemImage
        ensures bytes { result ≡ self.bytes }
    {
        let FailingImage { inner, .. } = self;
        inner
    }

    // Counts one call and returns whether it is the one that fails.
    fn fails_now(&mut self) -> bool
        ensures value { (result ≡ true) ↔ (self.old.left ≡ 1) }
        ensures left { self.new.left ≡ self.old.left - 1 }
        ensures bytes { self.new.bytes ≡ self.old.bytes }
    {
        let fails = self.left == 1;
        self.left = self.left.saturating_sub(1);
        fails
    }

    // Writes only the first half of block `n`.
    #[tactic(auto, using(crate::proofs::ImageLaws::image_laws))]
    fn write_half(&mut self, n: u32, from: &[u8; 512])
        requires { n < block_count_of self.old.bytes }
        ensures bytes { self.new.bytes
            ≡ with_block self.old.bytes n (half_written (block_of self.old.bytes n) from.now) }
        ensures left { self.new.left ≡ self.old.left }
    {
        let mut block = [0; 512];
        let _ = self.inner.read(n, &mut block);
        write_first_half(&mut block, from);
        let _ = self.inner.write(n, &block);
    }
}

// Writes the first half of `from` over that of a block.
#[tactic(auto, unfolding(crate::specs::Image::half_written))]
fn write_first_half(block: &mut [u8; 512], from: &[u8; 512])
    ensures { block.new ≡ half_written block.old from.now }
{
    block[..256].copy_from_slice(&from[..256]);
}

impl BlockStore for FailingImage {
    ghost state = { failing_state };

    ghost within_limit = { λ image. block_count-le image.bytes };

    ghost is_image = { λ image _. HasWholeBlocks-blocks_of image.bytes };

    ghost is_image_if_sound = { λ image _. HasWholeBlocks-blocks_of image.bytes };

    fn size(&self) -> u32 {
        self.inner.size()
    }

    fn read(&mut self, n: u32, to: &mut [u8; 512]) -> Result<(), StoreError>
        requires { n < block_count_of self.old.bytes }
        ensures fails { IsErr result ↔ (self.old.left ≡ 1) }
        ensures left { self.new.left ≡ self.old.left - 1 }
        ensures bytes { self.new.bytes ≡ self.old.bytes }
        ensures to { to.new ≡ (if is_ok result then block_of self.old.bytes n else to.old) }
        ensures error { IfErr result (λ e. e ≡ StoreError.Read) }
        ensures reads { Reads (failing_state self.old) n (failing_state self.new) to.new result }
        ensures long { length to.new ≡ 512 }
    {
        if self.fails_now() {
            return Err(StoreError::Read);
        }
        self.inner.read(n, to)
    }

    #[tactic(auto, using(crate::proofs::ImageLaws::image_laws))]
    fn write(&mut self, n: u32, from: &[u8; 512]) -> Result<(), StoreError>
        requires { n < block_count_of self.old.bytes }
        ensures fails { IsErr result ↔ (self.old.left ≡ 1) }
        ensures left { self.new.left ≡ self.old.left - 1 }
        ensures bytes { self.new.bytes
            ≡ with_block self.old.bytes n
            (if is_ok result then from.now else half_written (block_of self.old.bytes n) from.now) }
        ensures attributes { KeepsAttributes (failing_state self.old) (failing_state self.new) }
        ensures error { IfErr result (λ e. e ≡ StoreError.Write) }
        ensures writes { Writes (failing_state self.old) n (failing_state self.new) from.now
            result }
    {
        if self.fails_now() {
            self.write_half(n, from);
            return Err(StoreError::Write);
        }
        self.inner.write(n, from)
    }
}
