//! Host memory by its calls: a table of memories, with the calls of each and their results.
ghost use Rattle.std.specs.Prelude.{◌≡◌, if◌then◌else◌};
ghost use Rattle.uda_mem.specs.Put.{put};

use super::prints;
use std::alloc::{AllocError, Global};
use std::test::Fail;
use uda_mem::{HostMemory, MEMORY_LIMIT, NoMemory};

/// A call that leaves a memory unchanged, and its result.
#[derive(Clone, Copy)]
enum Look {
    /// The number of bytes.
    Len(u32),
    /// Whether an address has this many bytes.
    Has(u32, u32, bool),
    /// The word at an address.
    Word(u32, Option<u16>),
    /// The bytes at an address.
    Bytes(u32, &'static [u8]),
    /// Whether an address has a window of this many bytes.
    Window(u32, u32, bool),
    /// The block at an address, filled with a byte, or none.
    Block(u32, Option<u8>),
    /// The block at an address that has one, filled with a byte.
    BlockAt(u32, u8),
    /// Whether an address has a block.
    HasBlock(u32, bool),
}

impl Look {
    /// Returns whether a memory gives this result.
    fn is_true_of(self, memory: &HostMemory) -> bool {
        match self {
            Look::Len(wanted) => memory.len() == wanted,
            Look::Has(addr, len, wanted) => memory.has(addr, len) == wanted,
            Look::Word(addr, wanted) => memory.read_word(addr) == wanted,
            Look::Bytes(addr, wanted) if wanted.len() < 512 => {
                memory.window(addr, wanted.len() as u32) == Some(wanted)
            }
            Look::Bytes(..) => false,
            Look::Window(addr, len, wanted) => memory.window(addr, len).is_some() == wanted,
            Look::Block(addr, Some(byte)) => memory.block(addr) == Some(&[byte; 512]),
            Look::Block(addr, None) => memory.block(addr).is_none(),
            Look::BlockAt(addr, byte) => {
                memory.has(addr, 512) && *memory.block_at(addr) == [byte; 512]
            }
            Look::HasBlock(addr, wanted) => memory.block(addr).is_some() == wanted,
        }
    }
}

/// A call that borrows a memory for writing, and its result.
#[derive(Clone, Copy)]
enum Change {
    /// A word is written, or isn't.
    Word(u32, u16, bool),
    /// A word is put at an address that has one.
    PutWord(u32, u16),
    /// Bytes are written through a window.
    Window(u32, &'static [u8]),
    /// Bytes are written through a window that is known to exist.
    Within(u32, &'static [u8]),
    /// There is no window of this many bytes.
    NoWindow(u32, u32),
    /// There is a block.
    HasBlock(u32),
    /// A block is filled with a byte, or isn't.
    Block(u32, u8, bool),
    /// A block that is known to exist is filled with a byte.
    BlockWithin(u32, u8),
}

impl Change {
    /// Makes the change, and returns whether it has that result.
    fn is_made(self, memory: &mut HostMemory) -> bool {
        match self {
            Change::Word(addr, word, wanted) => memory.write_word(addr, word) == wanted,
            Change::Block(addr, byte, wanted) => fill_block(memory, addr, &[byte; 512]) == wanted,
            Change::NoWindow(addr, len) => memory.window_mut(addr, len).is_none(),
            Change::HasBlock(addr) => memory.block_mut(addr).is_some(),
            Change::Window(addr, bytes) if bytes.len() < 512 => {
                match memory.window_mut(addr, bytes.len() as u32) {
                    Some(window) => {
                        window.copy_from_slice(bytes);
                        true
                    }
                    None => false,
                }
            }
            Change::PutWord(addr, word) if addr % 2 == 0 && memory.has(addr, 2) => {
                memory.put_word(addr, word);
                true
            }
            Change::Within(addr, bytes)
                if bytes.len() < 512 && memory.has(addr, bytes.len() as u32) => {
                memory
                    .within(addr, bytes.len() as u32)
                    .copy_from_slice(bytes);
                true
            }
            Change::BlockWithin(addr, byte) if memory.has(addr, 512) => {
                memory.block_within(addr).fill(byte);
                true
            }
            _ => false,
        }
    }
}

// Fills a block. The contract of `block_mut` is enough to prove what the caller wrote.
fn fill_block(memory: &mut HostMemory, addr: u32, block: &[u8; 512]) -> bool
    ensures { memory.new ≡ (if result then put memory.old addr block.now else memory.old) }
{
    match memory.block_mut(addr) {
        Some(to) => {
            *to = *block;
            true
        }
        None => false,
    }
}

/// A call of a memory.
#[derive(Clone, Copy)]
enum Call {
    See(Look),
    Do(Change),
}

use Call::{Do, See};

/// Memories by their lengths, each with the calls of it.
static MEMORIES: [(u32, &[Call]); 6] = [
    // an empty memory has no word
    (
        0,
        &[
            See(Look::Len(0)),
            See(Look::Has(0, 0, true)),
            See(Look::Has(0, 1, false)),
            See(Look::Has(1, 0, false)),
            See(Look::Word(0, None)),
            Do(Change::Word(0, 0x1234, false)),
            See(Look::Bytes(0, &[])),
            See(Look::Window(0, 1, false)),
            Do(Change::NoWindow(0, 1)),
        ],
    ),
    // a word lies low byte first
    (
        2,
        &[
            See(Look::Len(2)),
            See(Look::Word(0, Some(0))),
            Do(Change::Word(0, 0x1234, true)),
            See(Look::Word(0, Some(0x1234))),
            See(Look::Bytes(0, &[0x34, 0x12])),
            See(Look::Word(1, None)),
            Do(Change::Word(1, 0x5678, false)),
            See(Look::Word(2, None)),
            Do(Change::Word(2, 0x5678, false)),
            See(Look::Bytes(0, &[0x34, 0x12])),
        ],
    ),
    // the largest memory ends at the I/O page; the sum of an address and a length never wraps
    (
        MEMORY_LIMIT,
        &[
            See(Look::Len(253_952)),
            Do(Change::Word(253_950, 0xabcd, true)),
            See(Look::Word(253_950, Some(0xabcd))),
            See(Look::Word(253_948, Some(0))),
            See(Look::Bytes(253_951, &[0xab])),
            See(Look::Window(0, 253_952, true)),
            See(Look::Window(1, 253_952, false)),
            See(Look::Has(u32::MAX, 0, false)),
            See(Look::Window(u32::MAX, 0, false)),
            Do(Change::NoWindow(u32::MAX, 0)),
            See(Look::Has(u32::MAX, 1, false)),
            See(Look::Window(u32::MAX, 1, false)),
            Do(Change::NoWindow(u32::MAX, 1)),
            See(Look::Has(u32::MAX, u32::MAX, false)),
            See(Look::Window(u32::MAX, u32::MAX, false)),
            Do(Change::NoWindow(u32::MAX, u32::MAX)),
            See(Look::Has(2, u32::MAX, false)),
            See(Look::Window(2, u32::MAX, false)),
            Do(Change::NoWindow(2, u32::MAX)),
            See(Look::Has(253_952, 1, false)),
            See(Look::Window(253_952, 1, false)),
            Do(Change::NoWindow(253_952, 1)),
            See(Look::Word(253_949, None)),
            Do(Change::Word(253_949, 0x5678, false)),
            See(Look::Word(253_951, None)),
            Do(Change::Word(253_951, 0x5678, false)),
            See(Look::Word(253_952, None)),
            Do(Change::Word(253_952, 0x5678, false)),
            See(Look::Word(4_294_967_294, None)),
            Do(Change::Word(4_294_967_294, 0x5678, false)),
            See(Look::Word(u32::MAX, None)),
            Do(Change::Word(u32::MAX, 0x5678, false)),
            See(Look::Bytes(253_948, &[0, 0, 0xcd, 0xab])),
        ],
    ),
    // bytes written through a window change only that window
    (
        8,
        &[
            Do(Change::Within(3, &[1, 2])),
            See(Look::Bytes(0, &[0, 0, 0, 1, 2, 0, 0, 0])),
            Do(Change::Window(5, &[3, 4, 5])),
            See(Look::Bytes(0, &[0, 0, 0, 1, 2, 3, 4, 5])),
            See(Look::Word(4, Some(0x0302))),
        ],
    ),
    // a block is 512 bytes from any address
    (
        1026,
        &[
            Do(Change::Block(513, 7, true)),
            See(Look::Word(512, Some(0x0700))),
            See(Look::Word(1022, Some(0x0707))),
            See(Look::Word(1024, Some(0x0007))),
            See(Look::Block(513, Some(7))),
            See(Look::BlockAt(513, 7)),
            See(Look::HasBlock(514, true)),
            Do(Change::HasBlock(514)),
            See(Look::Block(515, None)),
            Do(Change::Block(515, 9, false)),
            See(Look::Block(1026, None)),
            Do(Change::Block(1026, 9, false)),
            See(Look::Block(4_294_966_784, None)),
            Do(Change::Block(4_294_966_784, 9, false)),
            See(Look::Block(u32::MAX, None)),
            Do(Change::Block(u32::MAX, 9, false)),
        ],
    ),
    // words, bytes and blocks that are known to exist are written
    (
        514,
        &[
            Do(Change::PutWord(512, 0x1234)),
            See(Look::Word(512, Some(0x1234))),
            See(Look::Has(1, 512, true)),
            Do(Change::BlockWithin(1, 5)),
            See(Look::Word(0, Some(0x0500))),
            See(Look::Word(512, Some(0x1205))),
        ],
    ),
];

/// Makes the calls of a memory of this many bytes, and returns the index of the first with a wrong answer.
fn first_wrong(alloc: Global, len: u32, calls: &[Call]) -> Result<Option<usize>, NoMemory> {
    if len % 2 == 1 || len > MEMORY_LIMIT {
        return Ok(Some(0));
    }
    let mut memory = HostMemory::new(alloc, len)?;
    for (n, call) in calls.iter().enumerate() {
        let is_right = match *call {
            See(look) => look.is_true_of(&memory),
            Do(change) => change.is_made(&mut memory),
        };
        if !is_right {
            return Ok(Some(n));
        }
    }
    Ok(None)
}

#[test]
fn memories(rt: HostRuntime) -> Result<(), Fail> {
    for &(len, calls) in &MEMORIES {
        let wrong = first_wrong(rt.alloc(), len, calls)?;
        assert!(rt; wrong.is_none(), "{len} bytes: call {}", wrong.unwrap_or(0));
    }
    assert!(rt; NoMemory::from(AllocError) == NoMemory);
    assert!(rt; prints(rt.alloc(), &NoMemory, "out of memory")?);
    Ok(())
}
