//! Access to the blocks of bytes in memory, whoever owns the bytes. The blocks lie one after another.
//!
//! MSCP Basic Disk Functions Manual: logical blocks.
ghost use Rattle.std.specs.Prelude.{◌≡◌, ◌<◌, ◌≤◌, length};
ghost use Rattle.uda_image.specs.Image.{block_count_of, block_of, with_block};
ghost use Rattle.uda_image.specs.Limits.{store_limit};

use crate::store::STORE_LIMIT;

/// Returns the number of whole blocks in the bytes, at most [`STORE_LIMIT`].
#[tactic(auto, unfolding(crate::specs::Image::block_count_of))]
pub fn count(bytes: &[u8]) -> u32
    ensures count { result ≡ block_count_of bytes.now }
    ensures within { result ≤ store_limit }
{
    (bytes.len() / 512).min(STORE_LIMIT as usize) as u32
}

/// Reads block `n` into `to`. `n` is less than the number of blocks.
#[tactic(auto, using(crate::proofs::ImageLaws::image_laws), unfolding(crate::specs::Image::block_count_of, crate::specs::Image::block_of))]
pub fn read(bytes: &[u8], n: u32, to: &mut [u8; 512])
    requires there { n < block_count_of bytes.now }
    ensures value { to.new ≡ block_of bytes.now n }
    ensures long { length to.new ≡ 512 }
{
    let start = 512 * n as usize;
    to.copy_from_slice(&bytes[start..start + 512]);
}

/// Writes `from` to block `n`. `n` is less than the number of blocks.
#[tactic(auto, unfolding(crate::specs::Image::block_count_of, crate::specs::Image::with_block))]
pub fn write(bytes: &mut [u8], n: u32, from: &[u8; 512])
    requires there { n < block_count_of bytes.old }
    ensures value { bytes.new ≡ with_block bytes.old n from.now }
{
    let start = 512 * n as usize;
    bytes[start..start + 512].copy_from_slice(from);
}
