//! Transfer of blocks between host memory and a store. Only partial blocks are copied through a buffer.
//!
//! MSCP Basic Disk Functions Manual: transfer commands, logical blocks.
ghost use Rattle.std.specs.Prelude.{◌≡◌, ◌+◌, ◌<◌, ◌≤◌, ◌^◌, true, length, IsOk, MatchResult, IfErr};
ghost use Rattle.std.specs.Prelude.{if◌then◌else◌};
ghost use Rattle.uda_mem.specs.Put.{part};
ghost use Rattle.uda_image.specs.AtOnce.{ChecksBlocks};
ghost use Rattle.uda_image.specs.Store.{KeepsAttributes, Reads, Writes, is_sound};
ghost use Rattle.uda_exec.specs.Commands.{block_count, transfer_buffer_length, changes_memory};
ghost use Rattle.uda_exec.specs.Transfers.{ChangesAt, never_fails_in, ReadsInto, MovesBlock, FailsAtBlock};
ghost use Rattle.uda_exec.specs.Transfers.{Erased, MovesOn, Progress, StopsAt};
ghost use Rattle.uda_disk.specs.Request.{first_block};

use uda_disk::first_block;
use uda_image::{BlockStore, StoreError};
use uda_mem::as_block;
use uda_packet::{Kind, Transfer};

/// The number of bytes of a block.
pub const BLOCK: u32 = 512;

/// The most blocks that an Access or an Erase moves in one call.
const PIECE: u32 = 32;

/// The number of bytes of these blocks.
const PIECE_BYTES: usize = 16_384;

/// The zeros that an Erase writes.
const ZEROS: [u8; PIECE_BYTES] = [0; PIECE_BYTES];

/// A transfer stopped because its store failed.
#[derive(Clone, Copy, Debug, PartialEq, Eq)]
pub struct Lost {
    /// The failing block of the transfer's range, counted from 0. All blocks before it were moved.
    pub block: u32,
}

/// Returns the number of blocks of a transfer's range. The last may be a partial block.
pub fn block_count(t: Transfer) -> u32
    ensures { result ≡ block_count t }
{
    t.bytes.div_ceil(BLOCK)
}

// Reads block `n` directly into a slice of 512 bytes.
fn read_whole<S: BlockStore>(store: &mut S, n: u32, to: &mut [u8]) -> Result<(), StoreError>
    requires on_unit { n < (S.state store.old).size }
    requires long { length to.old ≡ 512 }
    ensures attributes { KeepsAttributes (S.state store.old) (S.state store.new) }
    ensures infallible { (S.state store.old).never_fails.reads ≡ true → IsOk result }
    ensures reads { is_sound (S.state store.new) ≡ true
        → Reads (S.state store.old) n (S.state store.new) to.new result }
    ensures whole { length to.new ≡ 512 }
{
    store.read(n, as_block(to))
}

// Reads block `n` into `bytes` bytes of memory. The store reads a whole block directly into memory. Of a
// partial block the first bytes are copied, and none if the store fails.
fn read_block<S: BlockStore>(
    store: &mut S,
    n: u32,
    memory: &mut [u8],
    address: u32,
    bytes: u32,
) -> Result<(), StoreError>
    requires on_unit { n < (S.state store.old).size }
    requires in_memory { address + bytes ≤ length memory.old }
    ensures attributes { KeepsAttributes (S.state store.old) (S.state store.new) }
    ensures infallible { (S.state store.old).never_fails.reads ≡ true → IsOk result }
    ensures reads { ReadsInto n address bytes (S.state store.old) memory.old
        (S.state store.new) memory.new result }
{
    if bytes >= BLOCK {
        let start = address as usize;
        return read_whole(store, n, &mut memory[start..start + 512]);
    }
    let mut block = [0; 512];
    store.read(n, &mut block)?;
    uda_mem::put_bytes(memory, address, &block[..bytes as usize]);
    Ok(())
}

// Writes `bytes` bytes of memory to block `n`. The store writes a whole block directly from memory, and a
// partial block followed by zeros.
fn write_block<S: BlockStore>(
    store: &mut S,
    n: u32,
    memory: &[u8],
    address: u32,
    bytes: u32,
) -> Result<(), StoreError>
    requires on_unit { n < (S.state store.old).size }
    requires in_memory { address + bytes ≤ length memory.now }
    ensures attributes { KeepsAttributes (S.state store.old) (S.state store.new) }
    ensures infallible { (S.state store.old).never_fails.writes ≡ true → IsOk result }
    ensures writes { is_sound (S.state store.new) ≡ true
        → Writes (S.state store.old) n (S.state store.new) (first_block (part memory.now address bytes))
        result }
{
    if bytes >= BLOCK {
        return store.write(n, uda_mem::block_at(memory, address));
    }
    let window = uda_mem::window(memory, address, bytes).unwrap();
    store.write(n, &first_block(window))
}

// Moves block `k` of a transfer's range, counted from 0. An Access reads into a block of its own, and an
// Erase writes a block of zeros.
#[tactic(auto, using(crate::proofs::Changes::changes_nothing))]
fn move_block<S: BlockStore>(
    t: Transfer,
    k: u32,
    store: &mut S,
    memory: &mut [u8],
) -> Result<(), StoreError>
    requires in_range { k < block_count t }
    requires on_unit { t.lbn + block_count t ≤ (S.state store.old).size }
    requires in_memory { t.buffer + transfer_buffer_length t ≤ length memory.old }
    requires addressable { t.buffer + transfer_buffer_length t < 2 ^ 32 }
    ensures attributes { KeepsAttributes (S.state store.old) (S.state store.new) }
    ensures changes { ChangesAt memory.old t.buffer
        (if changes_memory t.kind then t.bytes else 0) memory.new }
    ensures infallible { never_fails_in t.kind (S.state store.old) ≡ true → IsOk result }
    ensures moves { is_sound (S.state store.new) ≡ true → MatchResult result
        (λ _. MovesBlock t k (S.state store.old) memory.old (S.state store.new) memory.new)
        (λ _. FailsAtBlock t k (S.state store.old) memory.old (S.state store.new) memory.new) }
{
    let n = t.lbn + k;
    let before = BLOCK * k;
    match t.kind {
        Kind::Access => store.read(n, &mut [0; 512]),
        Kind::Erase => store.write(n, &[0; 512]),
        Kind::Read => read_block(store, n, memory, t.buffer + before, t.bytes - before),
        Kind::Write => write_block(store, n, memory, t.buffer + before, t.bytes - before),
    }
}

// Reads blocks from block `n` on and drops their bytes. The store may check them without their bytes. The
// others are read into a buffer of its own, a piece at a time. Stops at the first piece that the store
// declines, and returns the number of blocks that were read.
#[inline(never)]
fn access_at_once<S: BlockStore>(store: &mut S, n: u32, count: u32) -> u32
    requires on_unit { n + count ≤ (S.state store.old).size }
    ensures attributes { KeepsAttributes (S.state store.old) (S.state store.new) }
    ensures within { result ≤ count }
    ensures accessed { is_sound (S.state store.new) ≡ true
        → ChecksBlocks (S.state store.old) result (S.state store.new) }
{
    let mut bytes = [0; PIECE_BYTES];
    let mut done = store.check_blocks(n, count);
    while done < count {
        let piece = PIECE.min(count - done);
        let size = 512 * piece as usize;
        if !store.try_read_blocks(n + done, piece, &mut bytes[..size]) {
            return done;
        }
        done += piece;
    }
    done
}

// Writes zeros to blocks from block `n` on, a piece at a time. Stops at the first piece that the store
// declines, and returns the number of blocks that it wrote.
fn erase_at_once<S: BlockStore>(store: &mut S, n: u32, count: u32) -> u32
    requires on_unit { n + count ≤ (S.state store.old).size }
    ensures attributes { KeepsAttributes (S.state store.old) (S.state store.new) }
    ensures within { result ≤ count }
    ensures erased { is_sound (S.state store.new) ≡ true
        → Erased (S.state store.old) n result (S.state store.new) }
{
    let mut done = 0;
    while done < count {
        let piece = PIECE.min(count - done);
        let size = 512 * piece as usize;
        if !store.try_write_blocks(n + done, piece, &ZEROS[..size]) {
            return done;
        }
        done += piece;
    }
    done
}

// Moves blocks of an Access or an Erase from block `k` of its range on, a piece at a time. Stops at the first
// piece that the store declines, and returns the number of moved blocks. Moves none of a Read or a Write.
fn move_pieces<S: BlockStore>(t: Transfer, k: u32, store: &mut S) -> u32
    requires in_range { k ≤ block_count t }
    requires on_unit { t.lbn + block_count t ≤ (S.state store.old).size }
    ensures attributes { KeepsAttributes (S.state store.old) (S.state store.new) }
    ensures within { k + result ≤ block_count t }
    ensures moves { is_sound (S.state store.new) ≡ true
        → MovesOn t k result (S.state store.old) (S.state store.new) }
{
    let count = block_count(t) - k;
    match t.kind {
        Kind::Access => access_at_once(store, t.lbn + k, count),
        Kind::Erase => erase_at_once(store, t.lbn + k, count),
        Kind::Read | Kind::Write => 0,
    }
}

// Checks the blocks of an Access without their bytes, as far as the store can do so, and returns how many.
// Moves none of another transfer.
fn check_few<S: BlockStore>(t: Transfer, store: &mut S) -> u32
    requires on_unit { t.lbn + block_count t ≤ (S.state store.old).size }
    ensures attributes { KeepsAttributes (S.state store.old) (S.state store.new) }
    ensures within { result ≤ block_count t }
    ensures moves { (0 < block_count t → is_sound (S.state store.new) ≡ true)
        → MovesOn t 0 result (S.state store.old) (S.state store.new) }
{
    match t.kind {
        Kind::Access if t.bytes > 0 => store.check_blocks(t.lbn, block_count(t)),
        Kind::Access | Kind::Erase | Kind::Read | Kind::Write => 0,
    }
}

// Moves blocks from the start of a transfer's range in one call, if there are two or more whole ones and the
// store supports it. Of fewer, only those of an Access are checked. Returns the number of moved blocks.
#[tactic(auto, using(crate::proofs::Changes::changes_nothing))]
fn move_at_once<S: BlockStore>(t: Transfer, store: &mut S, memory: &mut [u8]) -> u32
    requires on_unit { t.lbn + block_count t ≤ (S.state store.old).size }
    requires in_memory { t.buffer + transfer_buffer_length t ≤ length memory.old }
    requires addressable { t.buffer + transfer_buffer_length t < 2 ^ 32 }
    ensures attributes { KeepsAttributes (S.state store.old) (S.state store.new) }
    ensures changes { ChangesAt memory.old t.buffer
        (if changes_memory t.kind then t.bytes else 0) memory.new }
    ensures within { result ≤ block_count t }
    ensures moves { (0 < block_count t → is_sound (S.state store.new) ≡ true)
        → Progress t result (S.state store.old) memory.old (S.state store.new) memory.new }
{
    let count = t.bytes / BLOCK;
    if count < 2 {
        return check_few(t, store);
    }
    match t.kind {
        Kind::Access | Kind::Erase => move_pieces(t, 0, store),
        Kind::Read => {
            let start = t.buffer as usize;
            let end = start + 512 * count as usize;
            if store.try_read_blocks(t.lbn, count, &mut memory[start..end]) {
                count
            } else {
                0
            }
        }
        Kind::Write => {
            let bytes = uda_mem::window(memory, t.buffer, BLOCK * count).unwrap();
            if store.try_write_blocks(t.lbn, count, bytes) {
                count
            } else {
                0 // The store declined, and nothing was written.
            }
        }
    }
}

// Moves the blocks of a transfer's range in rising order, and stops at the first at which the store fails. It
// moves several blocks in one call as far as the store supports it, and then single blocks. At each 32nd
// block it asks again for further pieces of an Access or an Erase. The failing block, or its bytes of a
// Read's buffer, may then hold anything. A transfer without blocks doesn't call the store. The caller checks
// that the range is on the unit and the buffer in memory.
pub fn move_blocks<S: BlockStore>(t: Transfer, store: &mut S, memory: &mut [u8]) -> Result<(), Lost>
    requires on_unit { t.lbn + block_count t ≤ (S.state store.old).size }
    requires in_memory { t.buffer + transfer_buffer_length t ≤ length memory.old }
    requires addressable { t.buffer + transfer_buffer_length t < 2 ^ 32 }
    ensures attributes { KeepsAttributes (S.state store.old) (S.state store.new) }
    ensures changes { ChangesAt memory.old t.buffer
        (if changes_memory t.kind then t.bytes else 0) memory.new }
    ensures within { IfErr result (λ lost. lost.block < block_count t) }
    ensures infallible { never_fails_in t.kind (S.state store.old) ≡ true → IsOk result }
    ensures moves { (0 < block_count t → (S.state store.old).faithful ≡ true) → MatchResult result
        (λ _. Progress t (block_count t) (S.state store.old) memory.old (S.state store.new) memory.new)
        (λ lost. StopsAt t lost.block (S.state store.old) memory.old (S.state store.new) memory.new) }
    ensures moves_if_sound { (0 < block_count t → is_sound (S.state store.new) ≡ true) → MatchResult result
        (λ _. Progress t (block_count t) (S.state store.old) memory.old (S.state store.new) memory.new)
        (λ lost. StopsAt t lost.block (S.state store.old) memory.old (S.state store.new) memory.new) }
{
    let mut done = move_at_once(t, store, memory);
    while done < block_count(t) {
        let Ok(()) = move_block(t, done, store, memory) else {
            return Err(Lost { block: done });
        };
        done += 1;
        if done % PIECE == 0 {
            done += move_pieces(t, done, store);
        }
    }
    Ok(())
}
