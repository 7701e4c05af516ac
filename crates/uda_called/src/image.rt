//! Images that a program reads and writes by calls of its own.
ghost use Rattle.std.specs.Prelude.{◌≡◌, ◌+◌, ◌*◌, ◌/◌, ◌%◌, ◌<◌, ◌≤◌, ◌^◌, ◌∷◌, true, false, length, None, IfErr};
ghost use Rattle.std.specs.Prelude.{if◌then◌else◌, is_ok, is_some, nat_le, IfSome, option_map};
ghost use Rattle.uda_mem.specs.Put.{part};
ghost use Rattle.uda_image.specs.AtOnce.{TriesToRead, TriesToWrite, ChecksBlocks};
ghost use Rattle.uda_image.specs.Image.{block_count_of, block_of};
ghost use Rattle.uda_image.specs.Limits.{store_limit};
ghost use Rattle.uda_image.specs.Store.{Reads, Writes, KeepsAttributes};
ghost use Rattle.uda_image.specs.StoreLaws.{block_count-le, HasWholeBlocks-blocks_of};
ghost use Rattle.uda_called.specs.CalledImage.{called_state, none_ready, zero_image, begun_at, can_lend, with_lent, with_blocks_lent};
ghost use Rattle.uda_called.specs.CalledImage.{bytes_in, as_lent, noted_lent, with_none_lent};
ghost use Rattle.uda_called.specs.CalledImage.{can_check, can_allow, has_room, with_checked, with_writable, are_ready};
ghost use Rattle.uda_called.specs.CalledImage.{with_failure, with_used, with_written, checked_from, ready_blocks};

use crate::lent::BorrowedBytes;
use std::marker::Model;
use uda_image::{BlockStore, Call, FileTrace, STORE_LIMIT, StoreError, Supposition};

// Which blocks of an image are ready for the next command, counted from one block on.
#[derive(Clone, Copy, Debug, PartialEq, Eq)]
struct Ready {
    // The first block that was made ready.
    first: u32,
    // The first block that wasn't used yet. Those before it aren't ready any more.
    next: u32,
    // How many were read, with their bytes.
    lent: u32,
    // How many are known to be readable.
    checked: u32,
    // How many may be written.
    writable: u32,
}

/// An image that a program reads and writes by calls of its own, outside of the proved code.
///
/// Before a command the program makes the blocks ready that it will use. It reads them and lends their bytes. Or it
/// checks that they are readable. Or it writes the bytes that the command will write. A call on a block that isn't
/// ready in this way fails. Each block is ready for one call: a call uses up its blocks, and those before them.
///
/// The image is faithful: its blocks are those that were lent or written last, and zeros at first.
#[derive(Drop)]
pub struct CalledImage {
    size: u32,
    ready: Ready,
    // The bytes that the program lends, if there are any. The first of them are those of the lent blocks. No call of
    // the store changes them.
    lent: Option<BorrowedBytes>,
    trace: FileTrace,
}

impl Model for CalledImage {
    ghost use Rattle.uda_called.specs.CalledImage.{CalledBlocks, image_by, bytes_in, IsKept};

    ghost Value = { CalledBlocks };

    ghost view = { λ image. image_by image.size image.ready image.lent image.trace };

    ghost invariant = { λ image. IsKept image.size (bytes_in image.lent)
        (image_by image.size image.ready image.lent image.trace) };
}

impl Ready {
    // Returns whether `count` blocks from block `n` are among the first `these` ready ones.
    fn has(self, these: u32, n: u32, count: u32) -> bool
        ensures ready { result ≡ are_ready (ready_blocks self None) these n count }
        ensures within { result ≡ true → (self.next ≤ n) × (n + count ≤ self.first + these) }
    {
        self.next <= n
            && u64::from(n) + u64::from(count) <= u64::from(self.first) + u64::from(these)
    }
}

impl CalledImage {
    /// Returns an image of `blocks` blocks, of which none is ready. Returns None if they are more than
    /// [`STORE_LIMIT`].
    pub fn new(blocks: u32) -> Option<CalledImage>
        ensures fits { is_some result ≡ nat_le blocks store_limit }
        ensures image { IfSome result (λ image. image ≡ zero_image blocks) }
    {
        if blocks > STORE_LIMIT {
            return None;
        }
        Some(CalledImage {
            size: blocks,
            ready: Ready {
                first: 0,
                next: 0,
                lent: 0,
                checked: 0,
                writable: 0,
            },
            lent: None,
            trace: FileTrace::new(&Supposition::of(&[], &[])),
        })
    }

    /// Drops what is ready, with the lent bytes. The blocks that are made ready next are those from block `first` on.
    /// Returns false and changes nothing if the image has fewer blocks.
    pub fn begin(&mut self, first: u32) -> bool
        ensures fits { result ≡ nat_le first (block_count_of self.old.bytes) }
        ensures begun { self.new ≡ (if result then begun_at first self.old else self.old) }
    {
        if first > self.size {
            return false;
        }
        self.start(first);
        true
    }

    // Drops what is ready, with the lent bytes.
    fn start(&mut self, first: u32)
        requires on_unit { first ≤ block_count_of self.old.bytes }
        ensures begun { self.new ≡ begun_at first self.old }
    {
        self.lent = None;
        self.ready = Ready {
            first,
            next: first,
            lent: 0,
            checked: 0,
            writable: 0,
        };
    }

    /// Takes bytes that the program lends, as those of blocks from block `first` on. The image owns them until
    /// `give_back`, `begin` or another `lend`. Returns false and changes nothing if blocks are lent already, if
    /// `first` isn't the first block that is made ready, if the bytes aren't whole blocks, or if the image has fewer.
    pub fn lend(&mut self, first: u32, from: &mut Option<BorrowedBytes>) -> bool
        ensures fits { result ≡ can_lend self.old.ready (block_count_of self.old.bytes) first
            (length (bytes_in from.old)) }
        ensures lent { self.new ≡ (if result then with_lent first from.old self.old else self.old) }
        ensures blocks { result ≡ true → called_state self.new
            ≡ with_blocks_lent first from.old (called_state self.old) }
        ensures within { result ≡ true → (length (bytes_in from.old) % 512 ≡ 0)
            × (first + length (bytes_in from.old) / 512 ≤ block_count_of self.old.bytes) }
        ensures taken { from.new ≡ (if result then None else from.old) }
    {
        let bytes = length_of(from);
        if !self.can_lend(first, bytes) {
            return false;
        }
        note_lent(&mut self.trace, first, from);
        self.ready.lent = (bytes / 512) as u32;
        self.lent = from.take();
        true
    }

    /// Gives back the bytes that the program lends, if there are any. No block is lent then.
    pub fn give_back(&mut self) -> Option<BorrowedBytes>
        ensures bytes { option_map as_lent result ≡ self.old.ready.bytes }
        ensures none_lent { self.new ≡ with_none_lent self.old }
    {
        self.ready = Ready {
            lent: 0,
            ..self.ready
        };
        self.lent.take()
    }

    /// Makes the `count` blocks ready that follow the checked ones: they are readable. Returns false and changes
    /// nothing if the image has fewer blocks.
    pub fn check(&mut self, count: u32) -> bool
        ensures fits { result ≡ can_check self.old.ready (block_count_of self.old.bytes) count }
        ensures within { result ≡ true → count ≤ block_count_of self.old.bytes }
        ensures checked { self.new ≡ (if result then with_checked count self.old else self.old) }
    {
        if !self.has_room(self.ready.checked, u64::from(count)) {
            return false;
        }
        self.ready.checked += count;
        true
    }

    /// Makes the `count` blocks ready that follow the writable ones: a command may write them. Returns false and
    /// changes nothing if the image has fewer blocks.
    pub fn allow(&mut self, count: u32) -> bool
        ensures fits { result ≡ can_allow self.old.ready (block_count_of self.old.bytes) count }
        ensures within { result ≡ true → count ≤ block_count_of self.old.bytes }
        ensures writable { self.new ≡ (if result then with_writable count self.old else self.old) }
    {
        if !self.has_room(self.ready.writable, u64::from(count)) {
            return false;
        }
        self.ready.writable += count;
        true
    }

    // Returns whether this many bytes from this block on can be lent.
    fn can_lend(&self, first: u32, bytes: usize) -> bool
        ensures fits { result ≡ can_lend self.now.ready (block_count_of self.now.bytes) first bytes }
        ensures within { result ≡ true → (self.now.ready.lent ≡ 0) × (first ≡ self.now.ready.first)
            × (bytes % 512 ≡ 0) × (first + bytes / 512 ≤ block_count_of self.now.bytes) }
    {
        self.ready.lent == 0
            && first == self.ready.first
            && bytes % 512 == 0
            && self.has_room(0, (bytes / 512) as u64)
    }

    // Returns whether `count` blocks follow `these` from the first that is ready.
    fn has_room(&self, these: u32, count: u64) -> bool
        requires small { count < 2 ^ 63 }
        ensures fits { result ≡ has_room self.now.ready (block_count_of self.now.bytes) these count }
        ensures within { result ≡ true
            → self.now.ready.first + these + count ≤ block_count_of self.now.bytes }
    {
        u64::from(self.ready.first) + u64::from(these) + count <= u64::from(self.size)
    }

    // Notes that a call failed.
    fn fail(&mut self)
        ensures failed { self.new ≡ with_failure self.old }
    {
        self.trace.note(&Call::Failed);
    }

    // Uses blocks up: those before block `n` aren't ready any more.
    fn use_up(&mut self, n: u32)
        requires ordered { self.old.ready.first ≤ n }
        ensures used { self.new ≡ with_used n self.old }
    {
        self.ready.next = n;
    }

    // Notes that these blocks were written.
    fn note_written(&mut self, n: u32, count: u32, from: &[u8])
        requires on_unit { n + count ≤ block_count_of self.old.bytes }
        requires ready { self.old.ready.next ≤ n }
        ensures written { self.new ≡ with_written n count from.now self.old }
    {
        self.ready.lent = 0;
        self.ready.next = n + count;
        self.trace.note(&Call::Written {
            block: n,
            bytes: from,
        });
    }

    // Copies the bytes of lent blocks.
    fn copy_lent(&mut self, n: u32, count: u32, to: &mut [u8])
        requires begins { self.old.ready.next ≤ n }
        requires ends { n + count ≤ self.old.ready.first + self.old.ready.lent }
        requires long { length to.old ≡ 512 * count }
        ensures value { to.new ≡ part self.old.bytes (512 * n) (512 * count) }
        ensures same { self.new ≡ self.old }
    {
        let start = 512 * (n - self.ready.first) as usize;
        copy_from(&mut self.lent, start, to);
    }
}

// Returns the number of lent bytes.
fn length_of(lent: &mut Option<BorrowedBytes>) -> usize
    ensures length { result ≡ length (bytes_in lent.old) }
    ensures same { lent.new ≡ lent.old }
{
    match lent {
        Some(lent) => lent.bytes_mut().len(),
        None => 0,
    }
}

// Notes that the image has these bytes from block `first` on. For the trace that is a write.
fn note_lent(trace: &mut FileTrace, first: u32, lent: &mut Option<BorrowedBytes>)
    ensures noted { trace.new ≡ noted_lent first (bytes_in lent.old) trace.old }
    ensures same { lent.new ≡ lent.old }
{
    match lent {
        Some(lent) => trace.note(&Call::Written {
            block: first,
            bytes: lent.bytes_mut(),
        }),
        None => trace.note(&Call::Written {
            block: first,
            bytes: &[],
        }),
    }
}

// Copies lent bytes from byte `at` on.
#[tactic(auto, unfolding(uda_mem::specs::Put::part))]
fn copy_from(lent: &mut Option<BorrowedBytes>, at: usize, to: &mut [u8])
    requires within { at + length to.old ≤ length (bytes_in lent.old) }
    ensures value { to.new ≡ part (bytes_in lent.old) at (length to.old) }
    ensures same { lent.new ≡ lent.old }
{
    if let Some(lent) = lent {
        let bytes: &[u8] = lent.bytes_mut();
        let end = at + to.len();
        to.copy_from_slice(&bytes[at..end]);
    }
}

impl BlockStore for CalledImage {
    ghost state = { called_state };

    ghost within_limit = { λ image. block_count-le image.bytes };

    ghost is_image = { λ image _. HasWholeBlocks-blocks_of image.bytes };

    ghost is_image_if_sound = { λ image _. HasWholeBlocks-blocks_of image.bytes };

    fn size(&self) -> u32 {
        self.size
    }

    fn read(&mut self, n: u32, to: &mut [u8; 512]) -> Result<(), StoreError>
        requires { n < block_count_of self.old.bytes }
        ensures ready { is_ok result ≡ are_ready self.old.ready self.old.ready.lent n 1 }
        ensures image { self.new ≡ (if is_ok result then with_used (n + 1) self.old
            else with_failure self.old) }
        ensures to { to.new ≡ (if is_ok result then block_of self.old.bytes n else to.old) }
        ensures attributes { KeepsAttributes (called_state self.old) (called_state self.new) }
        ensures error { IfErr result (λ e. e ≡ StoreError.Read) }
        ensures reads { Reads (called_state self.old) n (called_state self.new) to.new result }
        ensures long { length to.new ≡ 512 }
    {
        if !self.ready.has(self.ready.lent, n, 1) {
            self.fail();
            return Err(StoreError::Read);
        }
        self.copy_lent(n, 1, to);
        self.use_up(n + 1);
        Ok(())
    }

    fn write(&mut self, n: u32, from: &[u8; 512]) -> Result<(), StoreError>
        requires { n < block_count_of self.old.bytes }
        ensures ready { is_ok result ≡ are_ready self.old.ready self.old.ready.writable n 1 }
        ensures image { self.new ≡ (if is_ok result then with_written n 1 from.now self.old
            else with_failure self.old) }
        ensures attributes { KeepsAttributes (called_state self.old) (called_state self.new) }
        ensures error { IfErr result (λ e. e ≡ StoreError.Write) }
        ensures writes { Writes (called_state self.old) n (called_state self.new) from.now result }
    {
        if !self.ready.has(self.ready.writable, n, 1) {
            self.fail();
            return Err(StoreError::Write);
        }
        self.note_written(n, 1, from);
        Ok(())
    }

    fn try_read_blocks(&mut self, n: u32, count: u32, to: &mut [u8]) -> bool
        requires on_unit { n + count ≤ block_count_of self.old.bytes }
        requires long { length to.old ≡ 512 * count }
        ensures ready { result ≡ are_ready self.old.ready self.old.ready.lent n count }
        ensures image { self.new ≡ (if result then with_used (n + count) self.old else self.old) }
        ensures long { length to.new ≡ length to.old }
        ensures attributes { KeepsAttributes (called_state self.old) (called_state self.new) }
        ensures reads { TriesToRead (called_state self.old) n count (called_state self.new) to.old to.new result }
    {
        if !self.ready.has(self.ready.lent, n, count) {
            return false;
        }
        self.copy_lent(n, count, to);
        self.use_up(n + count);
        true
    }

    fn try_write_blocks(&mut self, n: u32, count: u32, from: &[u8]) -> bool
        requires on_unit { n + count ≤ block_count_of self.old.bytes }
        requires long { length from.now ≡ 512 * count }
        ensures ready { result ≡ are_ready self.old.ready self.old.ready.writable n count }
        ensures image { self.new ≡ (if result then with_written n count from.now self.old else self.old) }
        ensures attributes { KeepsAttributes (called_state self.old) (called_state self.new) }
        ensures writes { TriesToWrite (called_state self.old) n count (called_state self.new) from.now result }
    {
        if !self.ready.has(self.ready.writable, n, count) {
            return false;
        }
        self.note_written(n, count, from);
        true
    }

    fn check_blocks(&mut self, n: u32, count: u32) -> u32
        requires on_unit { n + count ≤ block_count_of self.old.bytes }
        ensures ready { result ≡ checked_from self.old.ready n count }
        ensures image { self.new ≡ (if nat_le self.old.ready.next n then with_used (n + result) self.old
            else self.old) }
        ensures within { result ≤ count }
        ensures attributes { KeepsAttributes (called_state self.old) (called_state self.new) }
        ensures checks { ChecksBlocks (called_state self.old) result (called_state self.new) }
    {
        if n < self.ready.next {
            return 0;
        }
        let end = self.ready.first + self.ready.checked;
        let checked = count.min(end.saturating_sub(n));
        self.use_up(n + checked);
        checked
    }
}
