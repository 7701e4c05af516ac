//! Transfers with files as stores.

use std::alloc::Global;
use std::fs::{File, OpenFile};
use std::path::PathBuf;
use std::process::Abort;
use std::test::Fail;
use std::{env, fs, io, process};
use uda_exec::{Exec, PENDING};
use uda_image::{Drive, FileImage};
use uda_mem::HostMemory;
use uda_packet::{Command, End, EndBody, Op};

/// An executor over a file as unit 0, and the memory of its host.
///
/// Its methods promise nothing, so that the proof of a test needs few facts. The tests assert what the
/// methods do.
#[derive(Drop)]
struct Bench {
    exec: Exec<FileImage>,
    memory: HostMemory,
}

impl Bench {
    /// Makes a bench over a file that is writable or not.
    fn new(rt: &HostRuntime, path: &PathBuf, writable: bool) -> Result<Bench, Fail> {
        let drive = Drive {
            store: FileImage::open(rt, path.as_str(), writable)?,
            hard: false,
        };
        let exec = Exec::new([Some(drive), None, None, None]);
        let memory = HostMemory::new(rt.alloc(), 8192)?;
        Ok(Bench { exec, memory })
    }

    /// Queues a command of unit 0 and executes it.
    fn execute(&mut self, op: Op) -> Option<End> {
        let command = Command {
            reference: 1,
            unit: 0,
            op,
        };
        if self.exec.pending() < PENDING {
            self.exec.accept(command);
        }
        self.exec.execute_one(&mut self.memory)
    }

    /// Fills bytes of memory.
    fn fill(&mut self, address: u32, count: u32, byte: u8) {
        if let Some(buffer) = self.memory.window_mut(address, count) {
            buffer.fill(byte);
        }
    }

    /// Asserts that each of these bytes of memory is `byte`.
    fn assert_filled(&self, rt: &impl Abort, address: u32, count: u32, byte: u8) {
        match self.memory.window(address, count) {
            Some(bytes) => assert!(rt; bytes.iter().all(|b| *b == byte), "at {address}"),
            None => panic!(rt; "no bytes at {address}"),
        }
    }

    /// Executes transfers, and asserts the status and the byte count of each one's end message.
    fn assert_moved(&mut self, rt: &impl Abort, transfers: &[(Op, u16, u32)]) {
        for (op, status, count) in transfers {
            let moved = match self.execute(*op) {
                Some(
                    End {
                        status,
                        body: EndBody::Moved { bytes, .. },
                        ..
                    },
                ) => Some((status, bytes)),
                _ => None,
            };
            assert_eq!(rt; moved, Some((*status, *count)), "at {op:?}");
        }
    }
}

fn access(bytes: u32, lbn: u32) -> Op {
    Op::Access { bytes, lbn }
}

fn erase(bytes: u32, lbn: u32) -> Op {
    Op::Erase { bytes, lbn }
}

fn read(address: u32, bytes: u32, lbn: u32) -> Op {
    Op::Read {
        bytes,
        address,
        lbn,
    }
}

fn write(address: u32, bytes: u32, lbn: u32) -> Op {
    Op::Write {
        bytes,
        address,
        lbn,
    }
}

/// Returns eight blocks, each of 512 times its byte.
fn blocks_of(bytes: [u8; 8]) -> [u8; 4096] {
    let mut blocks = [0; 4096];
    for (block, byte) in blocks.chunks_exact_mut(512).zip(bytes) {
        block.fill(byte);
    }
    blocks
}

/// Returns eight different blocks.
fn eight_blocks() -> [u8; 4096] {
    blocks_of([0x30, 0x31, 0x32, 0x33, 0x34, 0x35, 0x36, 0x37])
}

/// Makes a file of eight blocks, named by this process and a word.
fn file_of_eight(rt: &HostRuntime, word: &str) -> io::Result<PathBuf> {
    let name = format!(in rt.alloc(); "uda-exec-{}-{word}", process::id(rt.process()))?;
    let path = env::temp_dir(rt)?.join(rt.alloc(), name.as_str())?;
    fs::write(rt, path.as_path(), eight_blocks().as_slice())?;
    Ok(path)
}

/// Shortens a file.
fn cut(rt: &HostRuntime, path: &PathBuf, len: u64) -> io::Result<()> {
    let file = File::options().write(true).open(rt, path.as_path())?;
    file.set_len(len)
}

/// Returns the bytes of a file, and removes the file.
fn taken(rt: &HostRuntime, path: &PathBuf) -> io::Result<Vec<u8>> {
    let bytes = fs::read(rt, path.as_path())?;
    fs::remove_file(rt, path.as_path())?;
    Ok(bytes)
}

#[test]
fn a_file_as_a_unit(rt: HostRuntime) -> Result<(), Fail> {
    let path = file_of_eight(&rt, "unit")?;
    let mut bench = Bench::new(&rt, &path, true)?;
    bench.fill(0x0200, 1024, 0x44);
    bench.execute(Op::Online { soft: None });
    let transfers = [
        (write(0x0200, 1024, 3), 0, 1024),
        (erase(512, 6), 0, 512),
        (read(0x1000, 1536, 4), 0, 1536),
        (access(4096, 0), 0, 4096),
    ];
    bench.assert_moved(&rt, &transfers);
    bench.assert_filled(&rt, 0x1000, 512, 0x44);
    bench.assert_filled(&rt, 0x1200, 512, 0x35);
    bench.assert_filled(&rt, 0x1400, 512, 0);
    let written = taken(&rt, &path)?;
    let blocks = blocks_of([0x30, 0x31, 0x32, 0x44, 0x44, 0x35, 0, 0x37]);
    assert_eq!(rt; written.as_slice(), blocks.as_slice());
    Ok(())
}

/// Asserts that these are the first 2,048 bytes of the eight blocks.
fn assert_front(rt: &impl Abort, kept: &[u8]) {
    assert_eq!(rt; kept.len(), 2048);
    assert!(rt; eight_blocks().starts_with(kept));
}

#[test]
fn a_file_that_fails(rt: HostRuntime) -> Result<(), Fail> {
    let path = file_of_eight(&rt, "failing")?;
    let mut bench = Bench::new(&rt, &path, false)?;
    bench.fill(0, 8192, 0xff);
    cut(&rt, &path, 2048)?;
    bench.execute(Op::Online { soft: None });
    let transfers = [
        // opened for reading
        (write(0, 1024, 0), 0x000b, 0),
        // shorter than it was when it was opened
        (read(0x1000, 2048, 2), 0x000b, 1024),
    ];
    bench.assert_moved(&rt, &transfers);
    bench.assert_filled(&rt, 0x1000, 512, 0x32);
    bench.assert_filled(&rt, 0x1200, 512, 0x33);
    bench.assert_filled(&rt, 0x1600, 512, 0xff);
    let kept = taken(&rt, &path)?;
    assert_front(&rt, kept.as_slice());
    Ok(())
}
