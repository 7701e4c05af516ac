//! Comparison of a store's blocks with host memory.
//!
//! MSCP Basic Disk Functions Manual: Compare Host Data.
ghost use Rattle.std.specs.Prelude.{◌≡◌, ◌+◌, ◌*◌, ◌<◌, ◌≤◌, ◌^◌, true, length, MatchResult, slice_index};
ghost use Rattle.uda_image.specs.Store.{KeepsAttributes, is_sound};
ghost use Rattle.uda_packet.specs.Transfer.{transfer_of};
ghost use Rattle.uda_exec.specs.Commands.{block_count};
ghost use Rattle.uda_exec.specs.Compare.{compared, verdict_status, bytes_equal, FitsTransfer, ComparesBlocks};
ghost use Rattle.uda_exec.specs.Comparing.{FindsIn, FitsBlock, ComparesBlock, FailsAtRead};

use crate::block_transfer::{BLOCK, block_count};
use uda_disk::status;
use uda_image::{BlockStore, StoreError};
use uda_packet::{Kind, Op, Transfer};

/// The result of a comparison.
#[derive(Clone, Copy, Debug, PartialEq, Eq)]
pub enum Verdict {
    /// All bytes are equal.
    Equal,
    /// The first byte that differs, counted from 0.
    Differs(u32),
    /// The block of the range at which the store failed, counted from 0. All bytes before it are equal.
    Lost(u32),
}

impl Verdict {
    /// Returns the status word of the result.
    pub fn status(self) -> u16
        ensures { result ≡ verdict_status self }
    {
        match self {
            Verdict::Equal => status::SUCCESS,
            Verdict::Differs(_) => status::COMPARE_ERROR,
            Verdict::Lost(_) => status::DRIVE_ERROR,
        }
    }

    /// Returns the number of bytes of a transfer that count as equal.
    pub fn bytes(self, t: Transfer) -> u32
        requires { FitsTransfer t self }
        ensures { result ≡ bytes_equal t.bytes self }
    {
        match self {
            Verdict::Equal => t.bytes,
            Verdict::Differs(n) => n,
            Verdict::Lost(k) => BLOCK * k,
        }
    }
}

/// Returns the range and the buffer that a command compares: those of a transfer, and none for any other
/// command.
pub fn compared(op: Op) -> Transfer
    ensures { result ≡ compared op }
{
    match op.transfer() {
        None => Transfer {
            kind: Kind::Read,
            bytes: 0,
            lbn: 0,
            buffer: 0,
        },
        Some(t) => Transfer {
            kind: Kind::Read,
            ..t
        },
    }
}

/// Compares the blocks of a transfer's range with its buffer in rising order. Stops at the first difference,
/// or at the first block at which the store fails. A transfer without blocks doesn't call the store.
pub fn compare_blocks<S: BlockStore>(t: Transfer, store: &mut S, memory: &[u8]) -> Verdict
    requires on_unit { t.lbn + block_count t ≤ (S.state store.old).size }
    requires in_memory { t.buffer + t.bytes ≤ length memory.now }
    requires addressable { t.buffer + t.bytes < 2 ^ 32 }
    ensures attributes { KeepsAttributes (S.state store.old) (S.state store.new) }
    ensures fits { FitsTransfer t result }
    ensures compares { (S.state store.old).faithful ≡ true
        → ComparesBlocks t result (S.state store.old) memory.now (S.state store.new) }
    ensures compares_if_sound { is_sound (S.state store.new) ≡ true
        → ComparesBlocks t result (S.state store.old) memory.now (S.state store.new) }
{
    let mut done = 0;
    while done < block_count(t) {
        match compare_block(t, done, store, memory) {
            Ok(None) => done += 1,
            Ok(Some(at)) => return Verdict::Differs(BLOCK * done + at),
            Err(_) => return Verdict::Lost(done),
        }
    }
    Verdict::Equal
}

// Compares block `k` of a transfer's range with its part of the buffer. Returns the first byte of the block
// that differs.
fn compare_block<S: BlockStore>(
    t: Transfer,
    k: u32,
    store: &mut S,
    memory: &[u8],
) -> Result<Option<u32>, StoreError>
    requires in_range { k < block_count t }
    requires on_unit { t.lbn + block_count t ≤ (S.state store.old).size }
    requires in_memory { t.buffer + t.bytes ≤ length memory.now }
    requires addressable { t.buffer + t.bytes < 2 ^ 32 }
    ensures attributes { KeepsAttributes (S.state store.old) (S.state store.new) }
    ensures within { MatchResult result (λ found. FitsBlock t k found) (λ _. Unit) }
    ensures compares { is_sound (S.state store.new) ≡ true → MatchResult result
        (λ found. ComparesBlock t k found (S.state store.old) memory.now (S.state store.new))
        (λ _. FailsAtRead (S.state store.old) (S.state store.new)) }
{
    let before = BLOCK * k;
    let count = (t.bytes - before).min(BLOCK);
    let mut block = [0; 512];
    store.read(t.lbn + k, &mut block)?;
    let window = uda_mem::window(memory, t.buffer + before, count).unwrap();
    Ok(first_difference(&block, window))
}

// Returns the first index at which two byte ranges differ, up to the length of the second.
fn first_difference(block: &[u8; 512], window: &[u8]) -> Option<u32>
    requires { length window.now ≤ 512 }
    ensures { FindsIn (length window.now) result (λ i. slice_index block.now i)
        (λ i. slice_index window.now i) }
{
    for at in 0..window.len() {
        if block[at] != window[at] {
            return Some(at as u32);
        }
    }
    None
}
