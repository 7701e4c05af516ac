//! Blocks printed as rows: the texts of `uda50 dump`.

use crate::digest::Digest;
use crate::draw::Draw;
use anyhow::Result;
use std::alloc::Global;
use std::io::Write;
use uda50_show::{HexRow, OctalRow};

/// The number of blocks of a round.
const BLOCKS: u32 = 1_024;

/// Prints the blocks of each round, half of them in octal. A quarter of them have runs of two bytes, and a
/// quarter are text.
pub fn run(alloc: Global, draw: &mut Draw, rounds: u32, digest: &mut Digest) -> Result<()> {
    let mut text = Vec::with_capacity(alloc, 4_096)?;
    let mut block = [0; 512];
    for _ in 0..rounds {
        for n in 0..BLOCKS {
            fill(draw, &mut block);
            print(&mut text, &block, n % 2 == 1)?;
            digest.add_bytes(&text);
            text.clear();
        }
    }
    Ok(())
}

// Fills a block with random bytes, with text, or with runs of two bytes.
fn fill(draw: &mut Draw, block: &mut [u8; 512]) {
    match draw.below(4) {
        0 => {
            let (first, second, length) = (draw.byte(), draw.byte(), draw.number());
            for (byte, n) in block.iter_mut().zip(0u32..512) {
                *byte = if n & 15 < length % 16 { first } else { second };
            }
        }
        1 => {
            draw.fill(block);
            for byte in block.iter_mut() {
                *byte = 32 + *byte % 95;
            }
        }
        _ => draw.fill(block),
    }
}

// Prints the rows of a block.
fn print(text: &mut Vec<u8>, block: &[u8; 512], octal: bool) -> Result<()> {
    let mut offset = 0u16;
    for sixteen in block.chunks_exact(16) {
        let mut bytes = [0; 16];
        bytes.copy_from_slice(sixteen);
        if octal {
            writeln!(text, "{}", OctalRow { offset, bytes })?;
        } else {
            writeln!(text, "{}", HexRow { offset, bytes })?;
        }
        offset = offset.saturating_add(16);
    }
    Ok(())
}
