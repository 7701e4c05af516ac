//! A loop without the executor that moves the same blocks.
use crate::work::{Direction, Work};
use std::fs::File;
use std::io;
use std::os::unix::fs::FileExt;

/// Copies the blocks of a work between an image and a buffer.
pub fn copy_blocks(image: &mut [[u8; 512]], buffer: &mut [[u8; 512]], work: Work) {
    let mut block: u32 = 0;
    for _ in 0..work.transfers {
        copy_some(image, buffer, work, block);
        block = work.next(block, 1000);
    }
}

// Copies the blocks of one transfer.
fn copy_some(image: &mut [[u8; 512]], buffer: &mut [[u8; 512]], work: Work, block: u32) {
    let pairs = image
        .iter_mut()
        .skip(block as usize)
        .take(work.blocks as usize)
        .zip(buffer.iter_mut());
    match work.direction {
        Direction::Read => {
            for (stored, held) in pairs {
                *held = *stored;
            }
        }
        Direction::Write => {
            for (stored, held) in pairs {
                *stored = *held;
            }
        }
    }
}

/// Reads or writes the blocks of a work in a file of `size` blocks, one at a time.
pub fn move_file_blocks(file: &mut File, work: Work, size: u32) -> io::Result<()> {
    let mut buffer = [0; 512];
    let mut block: u32 = 0;
    for _ in 0..work.transfers {
        for n in block..block.saturating_add(work.blocks) {
            match work.direction {
                Direction::Read => file.read_exact_at(&mut buffer, 512 * u64::from(n))?,
                Direction::Write => file.write_all_at(&buffer, 512 * u64::from(n))?,
            }
        }
        block = work.next(block, size);
    }
    Ok(())
}

/// Reads or writes the blocks of a work of transfers of 32 in a file of `size` blocks, one call for each
/// transfer.
pub fn move_file_transfers(file: &mut File, work: Work, size: u32) -> io::Result<()> {
    let mut buffer = [0; 16_384];
    let mut block: u32 = 0;
    for _ in 0..work.transfers {
        let place = u64::from(block).saturating_mul(512);
        match work.direction {
            Direction::Read => file.read_exact_at(&mut buffer, place)?,
            Direction::Write => file.write_all_at(&buffer, place)?,
        }
        block = work.next(block, size);
    }
    Ok(())
}
