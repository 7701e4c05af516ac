//! An executor over a store, compared with a loop over blocks of the same kind.
use crate::bare::{copy_blocks, move_file_blocks, move_file_transfers};
use crate::measure::{Contest, by_turns};
use crate::work::{Work, bring_online, execute_all};
use anyhow::Result;
use std::alloc::Global;
use std::fs::{File, OpenOptions};
use uda_exec::Exec;
use uda_image::{BlockStore, Drive, FileImage, MemImage};
use uda_mem::HostMemory;

/// The number of blocks of the image in memory.
const IMAGE: u32 = 1000;

/// The number of bytes of host memory: those of the longest transfer.
const ROOM: u32 = 16_384;

// An executor with its host memory. Unit 0, of `size` blocks, is online.
#[derive(Drop)]
struct OverStore<S: BlockStore> {
    exec: Exec<S>,
    memory: HostMemory,
    size: u32,
    work: Work,
}

impl<S: BlockStore + Drop> OverStore<S> {
    fn new(alloc: Global, mut exec: Exec<S>, size: u32, work: Work) -> Result<OverStore<S>> {
        let mut memory = HostMemory::new(alloc, ROOM)?;
        bring_online(&mut exec, &mut memory)?;
        Ok(OverStore {
            exec,
            memory,
            size,
            work,
        })
    }

    fn execute(&mut self) -> Result<()> {
        execute_all(&mut self.exec, &mut self.memory, self.work, self.size)
    }
}

// An image in memory. The loop copies the blocks of a similar image.
#[derive(Drop)]
struct InMemory {
    over: OverStore<MemImage>,
    image: Vec<[u8; 512]>,
    buffer: Vec<[u8; 512]>,
}

impl Contest for InMemory {
    fn measured(&mut self) -> Result<()> {
        self.over.execute()
    }

    fn compared(&mut self) -> Result<()> {
        let work = self.over.work;
        copy_blocks(self.image.as_mut_slice(), self.buffer.as_mut_slice(), work);
        Ok(())
    }
}

/// The number of blocks that one call of the loop moves.
#[derive(Clone, Copy, Debug, PartialEq, Eq)]
pub enum Call {
    /// One.
    Block,
    /// The blocks of a transfer of 32.
    Transfer,
}

// An image file. The loop reads and writes the same file.
#[derive(Drop)]
struct InFile {
    over: OverStore<FileImage>,
    file: File,
    call: Call,
}

impl Contest for InFile {
    fn measured(&mut self) -> Result<()> {
        self.over.execute()
    }

    fn compared(&mut self) -> Result<()> {
        let (work, size) = (self.over.work, self.over.size);
        match self.call {
            Call::Block => Ok(move_file_blocks(&mut self.file, work, size)?),
            Call::Transfer => Ok(move_file_transfers(&mut self.file, work, size)?),
        }
    }
}

/// Runs the rounds over an image in memory.
pub fn over_memory(rt: &HostRuntime, work: &str, blocks: &str, rounds: u32) -> Result<()> {
    let mut pair = in_memory(rt.alloc(), Work::named(work, blocks)?)?;
    by_turns(rt, &mut pair, rounds)
}

fn in_memory(alloc: Global, work: Work) -> Result<InMemory> {
    let over = OverStore::new(alloc, memory_drive(alloc)?, IMAGE, work)?;
    let image = vec![in alloc; [0; 512]; 1000]?;
    let buffer = vec![in alloc; [0; 512]; 32]?;
    Ok(InMemory {
        over,
        image,
        buffer,
    })
}

// Makes an executor with an image in memory as unit 0, and no other drive.
fn memory_drive(alloc: Global) -> Result<Exec<MemImage>> {
    let store = MemImage::new(alloc, IMAGE)?;
    let drive = Some(Drive { store, hard: false });
    Ok(Exec::new([drive, None, None, None]))
}

/// Runs the rounds over an image file, compared with such calls.
pub fn over_file(rt: &HostRuntime, path: &str, work: Work, call: Call, rounds: u32) -> Result<()> {
    let mut pair = in_file(rt, path, work, call)?;
    by_turns(rt, &mut pair, rounds)
}

fn in_file(rt: &HostRuntime, path: &str, work: Work, call: Call) -> Result<InFile> {
    let (exec, size) = file_drive(rt, path)?;
    let over = OverStore::new(rt.alloc(), exec, size, work)?;
    let file = opened(rt, path)?;
    Ok(InFile { over, file, call })
}

// Makes an executor with an image file as unit 0, and no other drive. Returns the number of the file's
// blocks too.
fn file_drive(rt: &HostRuntime, path: &str) -> Result<(Exec<FileImage>, u32)> {
    let store = FileImage::open(rt, path, true)?;
    let size = store.size();
    let drive = Some(Drive { store, hard: false });
    Ok((Exec::new([drive, None, None, None]), size))
}

fn opened(rt: &HostRuntime, path: &str) -> Result<File> {
    Ok(OpenOptions::new().read(true).write(true).open(rt, path)?)
}
