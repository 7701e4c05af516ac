//! Images in memory.
ghost use Rattle.std.specs.Prelude.{◌≡◌, ◌≢◌, ◌+◌, ◌*◌, ◌/◌, ◌%◌, ◌<◌, ◌≤◌, ◌⊎◌, ◌↔◌, true, length, replicate};
ghost use Rattle.std.specs.Prelude.{IfOk, IfErr};
ghost use Rattle.std.specs.List.{concat};
ghost use Rattle.std.specs.Simd.{first_chunks};
ghost use Rattle.uda_mem.specs.Put.{part, put};
ghost use Rattle.uda_image.specs.Store.{Reads, Writes, KeepsAttributes};
ghost use Rattle.uda_image.specs.AtOnce.{TriesToRead, TriesToWrite};
ghost use Rattle.uda_image.specs.Image.{block_count_of, blocks_of, block_of, with_block, image_state};
ghost use Rattle.uda_image.specs.StoreLaws.{block_count-le, HasWholeBlocks-blocks_of};
ghost use Rattle.uda_image.specs.Limits.{block_limit};

use crate::error::ImageError;
use crate::length::count_blocks;
use crate::store::{BLOCK_LIMIT, BlockStore, StoreError};
use std::alloc::Global;
use std::marker::Model;

// The most bytes that one copy writes. The C library copies longer ones in another way, which is slow if
// the image isn't in the processor's cache.
const LONGEST_COPY: usize = 4096;

/// An image in memory: the logical blocks of a unit, one after another (MSCP Basic Disk Functions Manual:
/// logical blocks). It is faithful, and none of its calls fails. It allocates memory only when it is made.
/// Contracts see it as the list of its bytes.
#[derive(Debug, Drop)]
pub struct MemImage {
    bytes: Vec<u8>,
}

impl Model for MemImage {
    ghost use Rattle.std.specs.Prelude.{List, ℕ, ◌≡◌, ◌≤◌, ◌%◌, ◌/◌, vec_len};
    ghost use Rattle.uda_image.specs.Limits.{block_limit};

    ghost Value = { List ℕ };

    ghost view = { λ image. image.bytes.items };

    ghost invariant = { λ image. (vec_len image.bytes % 512 ≡ 0)
        × (vec_len image.bytes / 512 ≤ block_limit) };
}

impl MemImage {
    /// Makes an image of `blocks` blocks of 512 bytes, all zero. It fails with:
    ///
    /// - `TooLarge` if there are more than [`BLOCK_LIMIT`] blocks, before it allocates;
    /// - `NoMemory` if memory allocation fails.
    #[tactic(auto, using(crate::proofs::ImageLaws::image_laws))]
    pub fn new(alloc: Global, blocks: u32) -> Result<MemImage, ImageError>
        ensures zeros { IfOk result (λ image. image ≡ replicate (512 * blocks) 0) }
        ensures size { IfOk result (λ image. block_count_of image ≡ blocks) }
        ensures blocks { IfOk result (λ image.
            blocks_of image ≡ replicate blocks (replicate 512 0)) }
        ensures too_large { (result ≡ Err ImageError.TooLarge) ↔ (block_limit < blocks) }
        ensures errors { IfErr result (λ e. (e ≡ ImageError.NoMemory) ⊎ (e ≡ ImageError.TooLarge)) }
    {
        if blocks > BLOCK_LIMIT {
            return Err(ImageError::TooLarge);
        }
        Ok(MemImage {
            bytes: Vec::from_elem(alloc, 0, 512 * blocks as usize)?,
        })
    }

    /// Makes an image of a copy of `bytes`, block after block. It fails, in this order, with:
    ///
    /// - `Length` if the number of bytes is not a multiple of 512, before it allocates;
    /// - `TooLarge` if there are more than [`BLOCK_LIMIT`] blocks, before it allocates;
    /// - `NoMemory` if memory allocation fails.
    #[tactic(auto, using(crate::proofs::ImageLaws::image_laws), unfolding(crate::specs::Image::block_count_of))]
    pub fn from_bytes(alloc: Global, bytes: &[u8]) -> Result<MemImage, ImageError>
        ensures value { IfOk result (λ image. image ≡ bytes.now) }
        ensures size { IfOk result (λ image. 512 * block_count_of image ≡ length bytes.now) }
        ensures blocks { IfOk result (λ image.
            blocks_of image ≡ first_chunks 512 (length bytes.now / 512) bytes.now) }
        ensures length { (result ≡ Err ImageError.Length) ↔ (length bytes.now % 512 ≢ 0) }
        ensures too_large { (result ≡ Err ImageError.TooLarge)
            ↔ ((length bytes.now % 512 ≡ 0) × (block_limit < length bytes.now / 512)) }
        ensures errors { result ≢ Err ImageError.Open }
    {
        count_blocks(bytes.len() as u64, BLOCK_LIMIT)?;
        Ok(MemImage {
            bytes: Vec::from_slice(alloc, bytes)?,
        })
    }

    /// Returns the bytes of all blocks, block after block.
    #[tactic(auto, using(crate::proofs::ImageLaws::image_laws))]
    pub fn bytes(&self) -> &[u8]
        ensures value { result.now ≡ self.now }
        ensures blocks { concat (blocks_of self.now) ≡ result.now }
        ensures whole { length result.now % 512 ≡ 0 }
        ensures within_limit { length result.now / 512 ≤ block_limit }
    {
        self.bytes.as_slice()
    }

    // Writes the bytes of block `n`.
    #[tactic(auto, unfolding(crate::specs::Image::block_count_of, crate::specs::Image::with_block))]
    fn put_block(&mut self, n: u32, block: &[u8; 512])
        requires { n < block_count_of self.old }
        ensures { self.new ≡ with_block self.old n block.now }
    {
        let start = 512 * n as usize;
        self.bytes
            .slice_mut(start..start + 512)
            .copy_from_slice(block);
    }

    // Returns the bytes of `count` blocks from block `n`.
    #[tactic(auto, unfolding(crate::specs::Image::block_count_of, uda_mem::specs::Put::part))]
    fn blocks_at(&self, n: u32, count: u32) -> &[u8]
        requires { n + count ≤ block_count_of self.now }
        ensures value { result.now ≡ part self.now (512 * n) (512 * count) }
        ensures long { length result.now ≡ 512 * count }
    {
        let start = 512 * n as usize;
        &self.bytes[start..start + 512 * count as usize]
    }

    // Writes the bytes of `count` blocks from block `n`.
    #[tactic(auto, unfolding(crate::specs::Image::block_count_of, uda_mem::specs::Put::put))]
    fn put_blocks(&mut self, n: u32, count: u32, from: &[u8])
        requires on_unit { n + count ≤ block_count_of self.old }
        requires long { length from.now ≡ 512 * count }
        ensures { self.new ≡ put self.old (512 * n) from.now }
    {
        let start = 512 * n as usize;
        let end = start + 512 * count as usize;
        copy_by_pieces(self.bytes.slice_mut(start..end), from);
    }
}

// Copies bytes over the same number of others, a piece at a time.
fn copy_by_pieces(to: &mut [u8], from: &[u8])
    requires { length to.old ≡ length from.now }
    ensures { to.new ≡ from.now }
{
    let mut done = 0;
    while done < from.len() {
        let end = done + LONGEST_COPY.min(from.len() - done);
        to[done..end].copy_from_slice(&from[done..end]);
        done = end;
    }
}

impl BlockStore for MemImage {
    ghost state = { image_state };

    ghost within_limit = { block_count-le };

    ghost is_image = { λ image _. HasWholeBlocks-blocks_of image };

    ghost is_image_if_sound = { λ image _. HasWholeBlocks-blocks_of image };

    #[tactic(auto, unfolding(crate::specs::Image::block_count_of))]
    fn size(&self) -> u32 {
        (self.bytes.len() / 512) as u32
    }

    #[tactic(auto, using(crate::proofs::ImageLaws::image_laws), unfolding(crate::specs::Image::block_count_of, crate::specs::Image::block_of))]
    fn read(&mut self, n: u32, to: &mut [u8; 512]) -> Result<(), StoreError>
        requires { n < block_count_of self.old }
        ensures succeeds { result ≡ Ok tt }
        ensures unchanged { self.new ≡ self.old }
        ensures value { to.new ≡ block_of self.old n }
        ensures reads { Reads (image_state self.old) n (image_state self.new) to.new result }
        ensures long { length to.new ≡ 512 }
    {
        let start = 512 * n as usize;
        to.copy_from_slice(&self.bytes[start..start + 512]);
        Ok(())
    }

    #[tactic(auto, using(crate::proofs::ImageLaws::image_laws))]
    fn write(&mut self, n: u32, from: &[u8; 512]) -> Result<(), StoreError>
        requires { n < block_count_of self.old }
        ensures succeeds { result ≡ Ok tt }
        ensures value { self.new ≡ with_block self.old n from.now }
        ensures attributes { KeepsAttributes (image_state self.old) (image_state self.new) }
        ensures writes { Writes (image_state self.old) n (image_state self.new) from.now result }
    {
        self.put_block(n, from);
        Ok(())
    }

    #[tactic(auto, using(crate::proofs::AtOnceLaws::at_once_laws))]
    fn try_read_blocks(&mut self, n: u32, count: u32, to: &mut [u8]) -> bool
        requires on_unit { n + count ≤ block_count_of self.old }
        requires long { length to.old ≡ 512 * count }
        ensures done { result ≡ true }
        ensures unchanged { self.new ≡ self.old }
        ensures value { to.new ≡ part self.old (512 * n) (512 * count) }
        ensures long { length to.new ≡ length to.old }
        ensures reads { TriesToRead (image_state self.old) n count (image_state self.new) to.old to.new result }
    {
        to.copy_from_slice(self.blocks_at(n, count));
        true
    }

    #[tactic(auto, using(crate::proofs::AtOnceLaws::at_once_laws))]
    fn try_write_blocks(&mut self, n: u32, count: u32, from: &[u8]) -> bool
        requires on_unit { n + count ≤ block_count_of self.old }
        requires long { length from.now ≡ 512 * count }
        ensures done { result ≡ true }
        ensures value { self.new ≡ put self.old (512 * n) from.now }
        ensures attributes { KeepsAttributes (image_state self.old) (image_state self.new) }
        ensures writes { TriesToWrite (image_state self.old) n count (image_state self.new) from.now result }
    {
        self.put_blocks(n, count, from);
        true
    }
}
