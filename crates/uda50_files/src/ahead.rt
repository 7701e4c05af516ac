//! Parts of files that are read before they are asked for.
ghost use Rattle.std.specs.Prelude.{◌≡◌, ◌+◌, ◌-◌, ◌*◌, ◌<◌, ◌≤◌, ◌⊎◌, ℕ, true, false, length, All, IfSome, OnOk, Some, Err};
ghost use Rattle.std.specs.Prelude.{slice_get};
ghost use Rattle.std.specs.declared.io.Error.{Error};
ghost use Rattle.uda_mem.specs.Put.{part};
ghost use Rattle.uda50_files.specs.Ahead.{IsRead, AreRead};
ghost use Rattle.uda50_files.specs.Zeros.{AreZeros};

use crate::sparse::are_zeros;
use std::alloc::{AllocError, Global};
use std::cell::RefCell;
use std::fs::File;
use std::io;
use std::ops::Range;
use std::os::unix::fs::FileExt;
use std::rc::Rc;

/// The bytes that are read of a file at once: 128 KB, which the cache of a processor holds.
pub(crate) const AHEAD_BYTES: usize = 131_072;

// The bytes of a block.
const BLOCK: usize = 512;

/// A part of a file that was read. The search for data and the image of the file share it.
#[derive(Drop)]
pub(crate) struct ReadAhead {
    part: Rc<RefCell<Part>>,
}

// Consecutive bytes of a file, and what came of the reads of its blocks.
#[derive(Drop)]
pub(crate) struct Part {
    // The offset of the first byte, and the number of bytes.
    offset: u64,
    count: usize,
    // The number of the first bytes that were read at once.
    read: usize,
    // What came of the reads of single blocks, if not all bytes were read at once.
    singly: Vec<BlockRead>,
    // The memory that begins with the bytes.
    room: Vec<u8>,
}

// What came of the read of a single block.
#[derive(Clone, Copy)]
pub(crate) enum BlockRead {
    // It wasn't tried.
    Untried,
    // The block was read.
    Done,
    // The system failed the read.
    Failed(io::Error),
}

impl ReadAhead {
    /// Makes the part of a file of which nothing was read.
    pub(crate) fn empty(alloc: Global) -> Result<ReadAhead, AllocError> {
        let mut room = Vec::new(alloc);
        room.resize(AHEAD_BYTES, 0)?;
        let part = Part {
            offset: 0,
            count: 0,
            read: 0,
            singly: Vec::with_capacity(alloc, AHEAD_BYTES / BLOCK)?,
            room,
        };
        match Rc::new(alloc, RefCell::new(part)) {
            Ok(part) => Ok(ReadAhead { part }),
            Err(_failed) => Err(AllocError),
        }
    }

    /// Returns another handle of the same part.
    pub(crate) fn share(&self) -> Result<ReadAhead, AllocError> {
        let part = self.part.clone()?;
        Ok(ReadAhead { part })
    }

    /// Reads that many bytes at an offset, which become the part. If not all can be read at once, the others are read
    /// block by block when they are asked for.
    pub(crate) fn read(&self, file: &File, offset: u64, count: usize) {
        if let Ok(mut part) = self.part.try_borrow_mut() {
            part.read(file, offset, count);
        }
    }

    /// Forgets what was read.
    pub(crate) fn forget(&self) {
        if let Ok(mut part) = self.part.try_borrow_mut() {
            part.count = 0;
            part.read = 0;
        }
    }

    /// Copies bytes at an offset. Fails if one of their blocks can't be read. Each block is read singly at most once.
    /// Returns `None` if not all of the bytes are in the part.
    pub(crate) fn copy_to(
        &self,
        file: &File,
        to: &mut [u8],
        offset: u64,
    ) -> Option<io::Result<()>> {
        match self.part.try_borrow_mut() {
            Ok(mut part) => part.copy_to(file, to, offset),
            Err(_in_use) => None,
        }
    }

    /// Returns whether that many bytes at an offset were read at once, and are zeros.
    pub(crate) fn has_zeros(&self, offset: u64, count: usize) -> bool {
        match self.part.try_borrow() {
            Ok(part) => part.has_zeros(offset, count),
            Err(_in_use) => false,
        }
    }
}

impl Part {
    // Reads that many bytes at an offset. The part is empty if there is no room for them. The system may read only the
    // first of them.
    fn read(&mut self, file: &File, offset: u64, count: usize)
        ensures offset { self.new.offset ≡ offset }
        ensures count { (self.new.count ≡ count) ⊎ (self.new.count ≡ 0) }
        ensures within { self.new.read ≤ self.new.count }
        ensures untried { self.new.read < self.new.count → All (λ read. read ≡ BlockRead.Untried) self.new.singly.items }
    {
        self.offset = offset;
        self.count = 0;
        self.read = 0;
        if let Some(to) = self.room.as_mut_slice().get_mut(..count) {
            self.count = count;
            self.read = file.read_at(to, offset).unwrap_or(0).min(count);
        }
        self.singly.clear();
        let blocks = self.count / BLOCK;
        if self.read < self.count && self.singly.resize(blocks, BlockRead::Untried).is_err() {
            self.count = 0;
            self.read = 0;
        }
    }

    // Returns the place of that many bytes at an offset, if all of them are in the part.
    fn place_of(&self, offset: u64, count: usize) -> Option<Range<usize>>
        ensures begins { IfSome result (λ place. self.now.offset + place.start ≡ offset) }
        ensures ends { IfSome result (λ place. place.end ≡ place.start + count) }
        ensures within { IfSome result (λ place. place.end ≤ self.now.count) }
    {
        let start = usize::try_from(offset.checked_sub(self.offset)?).ok()?;
        let end = start.checked_add(count)?;
        if end > self.count {
            return None;
        }
        Some(start..end)
    }

    // Copies bytes at an offset, once their blocks are read. Fails if one of these can't be read. Returns `None` if not
    // all of the bytes are in the part.
    #[tactic(auto, unfolding(uda_mem::specs::Put::part))]
    fn copy_to(&mut self, file: &File, to: &mut [u8], offset: u64) -> Option<io::Result<()>>
        ensures start { IfSome result (λ _. self.old.offset ≤ offset) }
        ensures end { IfSome result (λ _. offset + length to.old ≤ self.old.offset + self.old.count) }
        ensures place { self.new.offset ≡ self.old.offset }
        ensures read { IfSome result (λ done. OnOk done (AreRead self.new (offset - self.new.offset)
            (offset - self.new.offset + length to.old))) }
        ensures copied { IfSome result (λ done. OnOk done
            (to.new ≡ part self.new.room.items (offset - self.new.offset) (length to.old))) }
        ensures long { length to.new ≡ length to.old }
    {
        let Range { start, end } = self.place_of(offset, to.len())?;
        if let Err(error) = self.read_blocks(file, start / BLOCK, end.div_ceil(BLOCK))? {
            return Some(Err(error));
        }
        to.copy_from_slice(self.room.as_slice().get(start..end)?);
        Some(Ok(()))
    }

    // Reads those of these blocks that weren't read, up to the first that can't be read. Returns `None` if they aren't
    // all in the part.
    fn read_blocks(&mut self, file: &File, first: usize, last: usize) -> Option<io::Result<()>>
        ensures read { IfSome result (λ done. OnOk done ((block : ℕ) → first ≤ block → block < last
            → IsRead self.new block)) }
        ensures offset { self.new.offset ≡ self.old.offset }
    {
        let unread = first.max(self.read / BLOCK);
        for block in unread..last {
            if let Err(error) = self.read_block(file, block)? {
                return Some(Err(error));
            }
        }
        Some(Ok(()))
    }

    // Reads a block, if that wasn't tried. Returns `None` if the block isn't in the part.
    fn read_block(&mut self, file: &File, block: usize) -> Option<io::Result<()>>
        ensures read { IfSome result (λ done. OnOk done (IsRead self.new block)) }
        ensures failed { (error : Error) → self.old.read < 512 * (block + 1)
            → slice_get self.old.singly.items block ≡ Some (BlockRead.Failed error) → result ≡ Some (Err error) }
        ensures others { (other : ℕ) → IsRead self.old other → IsRead self.new other }
        ensures offset { self.new.offset ≡ self.old.offset }
    {
        if block < self.read / BLOCK {
            return Some(Ok(()));
        }
        match self.singly.get(block)? {
            BlockRead::Untried => self.try_block(file, block),
            BlockRead::Done => Some(Ok(())),
            BlockRead::Failed(error) => Some(Err(*error)),
        }
    }

    // Reads a block by itself, and notes what came of it.
    fn try_block(&mut self, file: &File, block: usize) -> Option<io::Result<()>>
        requires untried { slice_get self.old.singly.items block ≡ Some BlockRead.Untried }
        ensures read { IfSome result (λ done. OnOk done (IsRead self.new block)) }
        ensures noted { (error : Error) → result ≡ Some (Err error)
            → slice_get self.new.singly.items block ≡ Some (BlockRead.Failed error) }
        ensures others { (other : ℕ) → IsRead self.old other → IsRead self.new other }
        ensures offset { self.new.offset ≡ self.old.offset }
    {
        let start = block.checked_mul(BLOCK)?;
        let offset = self.offset.checked_add(start as u64)?;
        let to = self
            .room
            .as_mut_slice()
            .get_mut(start..start.checked_add(BLOCK)?)?;
        let done = file.read_exact_at(to, offset);
        self.singly[block] = match done {
            Ok(()) => BlockRead::Done,
            Err(error) => BlockRead::Failed(error),
        };
        Some(done)
    }

    // Returns that many bytes at an offset, if all of them were read at once.
    #[tactic(auto, unfolding(uda_mem::specs::Put::part))]
    fn bytes_at(&self, offset: u64, count: usize) -> Option<&[u8]>
        ensures start { IfSome result (λ _. self.now.offset ≤ offset) }
        ensures end { IfSome result (λ _. offset + count ≤ self.now.offset + self.now.read) }
        ensures long { IfSome result (λ bytes. length bytes.now ≡ count) }
        ensures bytes { IfSome result (λ bytes.
            bytes.now ≡ part self.now.room.items (offset - self.now.offset) count) }
    {
        let Range { start, end } = self.place_of(offset, count)?;
        if end > self.read {
            return None;
        }
        self.room.as_slice().get(start..end)
    }

    // Returns whether that many bytes at an offset were read at once, and are zeros.
    fn has_zeros(&self, offset: u64, count: usize) -> bool
        ensures start { result ≡ true → self.now.offset ≤ offset }
        ensures end { result ≡ true → offset + count ≤ self.now.offset + self.now.read }
        ensures zeros { result ≡ true → AreZeros (part self.now.room.items (offset - self.now.offset) count) }
    {
        match self.bytes_at(offset, count) {
            Some(bytes) => are_zeros(bytes),
            None => false,
        }
    }
}
