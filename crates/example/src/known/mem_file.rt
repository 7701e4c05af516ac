//! Files in memory, whose bytes contracts know.
ghost use Rattle.std.specs.Prelude.{◌≡◌, ◌+◌, ◌≤◌, Some, IfSome};

use std::io;
use std::ops::Range;
use uda_image::RawFile;

/// A file in memory. A call on its bytes never fails.
#[derive(Drop)]
pub(crate) struct MemFile {
    bytes: Vec<u8>,
    unsynced: bool,
}

impl MemFile {
    /// Makes a file with these bytes.
    pub(crate) fn new(bytes: Vec<u8>) -> MemFile
        ensures bytes { result.bytes ≡ bytes }
    {
        MemFile {
            bytes,
            unsynced: false,
        }
    }
}

// Returns the range of `count` bytes from `offset` on, if they are among `len` bytes.
fn range_within(offset: u64, count: usize, len: usize) -> Option<Range<usize>>
    ensures within { offset + count ≤ len → result ≡ Some (record { start = offset; end = offset + count }) }
    ensures range { IfSome result (λ range. (range.start ≡ offset) × ((range.end ≡ offset + count)
        × (offset + count ≤ len))) }
{
    let start = usize::try_from(offset).ok()?;
    let end = start.checked_add(count)?;
    if end <= len { Some(start..end) } else { None }
}

impl RawFile for MemFile {
    ghost use Rattle.std.specs.Prelude.{Some, true};

    ghost content = { λ file. Some file.bytes.items };

    ghost never_fails = { λ _. true };

    ghost unsynced = { λ file. file.unsynced };

    #[tactic(auto, unfolding(uda_mem::specs::Put::part))]
    fn read_exact(&mut self, to: &mut [u8], offset: u64) -> io::Result<()> {
        match range_within(offset, to.len(), self.bytes.len()) {
            Some(range) => {
                to.copy_from_slice(&self.bytes[range]);
                Ok(())
            }
            None => Err(io::ErrorKind::UnexpectedEof.into()),
        }
    }

    #[tactic(auto, unfolding(uda_mem::specs::Put::put))]
    fn write_all(&mut self, from: &[u8], offset: u64) -> io::Result<()> {
        match range_within(offset, from.len(), self.bytes.len()) {
            Some(range) => {
                self.bytes[range].copy_from_slice(from);
                self.unsynced = true;
                Ok(())
            }
            None => Err(io::ErrorKind::WriteZero.into()),
        }
    }

    fn read_once(&mut self, to: &mut [u8], offset: u64) -> io::Result<usize> {
        self.read_exact(to, offset)?;
        Ok(to.len())
    }

    fn write_once(&mut self, from: &[u8], offset: u64) -> io::Result<usize> {
        self.write_all(from, offset)?;
        Ok(from.len())
    }

    fn sync_data(&mut self) -> io::Result<()> {
        self.unsynced = false;
        Ok(())
    }
}
