//! Images over a file in memory, whose bytes contracts know.
ghost use Rattle.std.specs.Prelude.{◌≡◌, ◌+◌, ◌<◌, ◌≤◌, true, length, Some, IfSome, IfOk};
ghost use Rattle.uda_image.specs.Image.{file_block_count, IsAsKnown};

use super::images::{Call, first_wrong};
use std::alloc::AllocError;
use std::io;
use std::ops::Range;
use std::test::Fail;
use uda_image::{BlockStore, FileImage, RawFile, StoreError, Supposition};

/// The bytes of a file, in memory.
#[derive(Drop)]
struct MemFile {
    bytes: Vec<u8>,
    unsynced: bool,
}

// Returns the range of `count` bytes from `offset` on, if they are among `len` bytes.
fn range_within(offset: u64, count: usize, len: usize) -> Option<Range<usize>>
    ensures within { offset + count ≤ len → result ≡ Some (record { start = offset; end = offset + count }) }
    ensures range { IfSome result (λ range. (range.start ≡ offset) × ((range.end ≡ offset + count)
        × (offset + count ≤ len))) }
{
    let start = usize::try_from(offset).ok()?;
    let end = start.checked_add(count)?;
    if end <= len { Some(start..end) } else { None }
}

impl RawFile for MemFile {
    ghost content = { λ file. Some file.bytes.items };

    ghost never_fails = { λ _. true };

    ghost unsynced = { λ file. file.unsynced };

    #[tactic(auto, unfolding(uda_mem::specs::Put::part))]
    fn read_exact(&mut self, to: &mut [u8], offset: u64) -> io::Result<()> {
        match range_within(offset, to.len(), self.bytes.len()) {
            Some(range) => {
                to.copy_from_slice(&self.bytes[range]);
                Ok(())
            }
            None => Err(io::ErrorKind::UnexpectedEof.into()),
        }
    }

    #[tactic(auto, unfolding(uda_mem::specs::Put::put))]
    fn write_all(&mut self, from: &[u8], offset: u64) -> io::Result<()> {
        match range_within(offset, from.len(), self.bytes.len()) {
            Some(range) => {
                self.bytes[range].copy_from_slice(from);
                self.unsynced = true;
                Ok(())
            }
            None => Err(io::ErrorKind::WriteZero.into()),
        }
    }

    #[tactic(auto, unfolding(uda_mem::specs::Put::part))]
    fn read_once(&mut self, to: &mut [u8], offset: u64) -> io::Result<usize> {
        self.read_exact(to, offset)?;
        Ok(to.len())
    }

    #[tactic(auto, unfolding(uda_mem::specs::Put::put))]
    fn write_once(&mut self, from: &[u8], offset: u64) -> io::Result<usize> {
        self.write_all(from, offset)?;
        Ok(from.len())
    }

    fn sync_data(&mut self) -> io::Result<()> {
        self.unsynced = false;
        Ok(())
    }
}

// Makes an image of three blocks, of bytes 0x11, 0x22 and 0x33, which holds the bytes of its file.
fn three_blocks(rt: &HostRuntime, writable: bool) -> Result<FileImage<MemFile>, AllocError>
    ensures size { IfOk result (λ image. file_block_count image ≡ 3) }
    ensures known { IfOk result (λ image. IsAsKnown image) }
{
    let mut bytes = Vec::from_elem(rt.alloc(), 0x11, 1536)?;
    bytes[512..1024].fill(0x22);
    bytes[1024..].fill(0x33);
    let held = Supposition::of(&bytes, &[]);
    let file = MemFile {
        bytes,
        unsynced: false,
    };
    Ok(FileImage::over(file, 3, writable).supposing(&held))
}

// Reads a block of an image that holds the bytes of its file. It still holds them then.
fn known_block(image: &mut FileImage<MemFile>, n: u32) -> Result<[u8; 512], StoreError>
    requires on_unit { n < file_block_count image.old }
    requires known { IsAsKnown image.old }
    ensures known { IsAsKnown image.new }
{
    let mut block = [0; 512];
    image.read(n, &mut block)?;
    Ok(block)
}

#[test]
fn blocks_are_read_and_written_over_a_file_in_memory(rt: HostRuntime) -> Result<(), Fail> {
    let mut image = three_blocks(&rt, true)?;
    assert!(rt; known_block(&mut image, 1) == Ok([0x22; 512]));
    let calls = [
        Call::Size(3),
        Call::Read(2, 0x3333),
        Call::Write(0, 0x4444),
        Call::WriteThenRead(2, 0x5566),
        Call::ReadTwo(0, true, Some((0x4444, 0x2222))),
        Call::WriteThree(0, 0x77, true),
        Call::Read(2, 0x7777),
    ];
    assert!(rt; first_wrong(&mut image, &calls).is_none());
    assert!(rt; image.sync().is_ok());
    Ok(())
}

#[test]
fn no_write_reaches_a_file_in_memory_that_is_not_writable(rt: HostRuntime) -> Result<(), Fail> {
    let mut image = three_blocks(&rt, false)?;
    let calls = [
        Call::FailWrite(0),
        Call::WriteThree(0, 0x44, false),
        Call::Read(0, 0x1111),
        Call::Read(2, 0x3333),
    ];
    assert!(rt; first_wrong(&mut image, &calls).is_none());
    Ok(())
}
