//! The stores of a case's units: images in memory that record their calls, and may fail.
ghost use Rattle.std.specs.Prelude.{◌≡◌, length};

use arrayvec::ArrayVec;
use std::fmt;
use uda_image::{BlockStore, MemImage, StoreError};

/// The most calls that are recorded.
const CALLS: usize = 64;

/// A call of a store.
#[derive(Clone, Copy, Default)]
pub struct RecordedCall {
    writes: bool,
    first: u32,
    // The number of blocks of a call for several; 0 for a call of one block.
    count: u32,
    declined: bool,
}

/// Formats the call, as `read:5`, `write:5+4` for four blocks in one call, or `read:5+4:declined`.
impl fmt::Display for RecordedCall {
    fn fmt<W: fmt::Write>(&self, f: &mut fmt::Formatter<W>) -> fmt::Result {
        let RecordedCall {
            writes,
            first,
            count,
            declined,
        } = *self;
        let name = if writes { "write" } else { "read" };
        match (count, declined) {
            (0, _) => write!(f, "{name}:{first}"),
            (_, false) => write!(f, "{name}:{first}+{count}"),
            (_, true) => write!(f, "{name}:{first}+{count}:declined"),
        }
    }
}

/// The calls that a store fails or declines.
#[derive(Clone, Copy)]
pub struct Plan {
    /// The number of the call for one block that fails, counted from 1; 0 for none.
    pub fails: u32,
    /// A block that can't be read or written.
    pub bad: Option<u32>,
    /// The number of calls for several blocks that succeed before the first that is declined.
    pub at_once: u32,
    /// The number of calls that are declined then, before all others succeed.
    pub declines: u32,
    /// Whether a failing read overwrites the first half of the block that it was given.
    pub spoils: bool,
}

/// The recorded calls of a store, and the rest of its plan.
#[derive(Drop)]
pub struct Book {
    plan: Plan,
    calls: ArrayVec<RecordedCall, CALLS>,
}

impl Book {
    fn keep(&mut self, call: RecordedCall) {
        let _ = self.calls.try_push(call);
    }

    // Records a call for one block, and returns whether it fails.
    fn fails(&mut self, writes: bool, first: u32) -> bool {
        self.keep(RecordedCall {
            writes,
            first,
            count: 0,
            declined: false,
        });
        let fails = self.plan.fails == 1 || self.plan.bad == Some(first);
        self.plan.fails = self.plan.fails.saturating_sub(1);
        fails
    }

    // Records a call for several blocks, and returns whether it succeeds.
    fn serves(&mut self, writes: bool, first: u32, count: u32) -> bool {
        let declined = self.plan.at_once == 0 && self.plan.declines > 0;
        if declined {
            self.plan.declines -= 1;
        }
        self.plan.at_once = self.plan.at_once.saturating_sub(1);
        self.keep(RecordedCall {
            writes,
            first,
            count,
            declined,
        });
        !declined
    }
}

/// An image in memory with a plan of its own, which records its calls.
#[derive(Drop)]
pub struct RecordingImage {
    image: MemImage,
    book: Book,
}

impl RecordingImage {
    /// Returns a store of an image.
    pub fn new(image: MemImage, plan: Plan) -> RecordingImage {
        let book = Book {
            plan,
            calls: ArrayVec::new(),
        };
        RecordingImage { image, book }
    }

    /// Returns the bytes of the blocks.
    pub fn bytes(&self) -> &[u8] {
        self.image.bytes()
    }

    /// Returns the calls since the record was cleared.
    pub fn calls(&self) -> &[RecordedCall] {
        self.book.calls.as_slice()
    }

    /// Clears the record of calls.
    pub fn forget(&mut self) {
        self.book.calls.clear();
    }
}

// Overwrites the first half of a block.
fn spoil(block: &mut [u8; 512])
    ensures { length block.new ≡ 512 }
{
    let (half, _) = block.split_at_mut(256);
    half.fill(0xee);
}

// Writes the first half of a block over that of another.
fn copy_half(block: &mut [u8; 512], from: &[u8; 512]) {
    block[..256].copy_from_slice(&from[..256]);
}

impl BlockStore for RecordingImage {
    ghost use Rattle.std.specs.Prelude.{[], false, None};
    ghost use Rattle.uda_image.specs.Image.{block_count_of};
    ghost use Rattle.uda_image.specs.StoreLaws.{block_count-le, no_image};

    ghost state = { λ store. record {
      blocks = [];
      size = block_count_of store.image;
      faithful = false;
      honest = false;
      never_fails = record { reads = false; writes = false };
      failures = 0;
      failing_call = None;
      ready = None;
    } };

    ghost within_limit = { λ store. block_count-le store.image };

    ghost is_image = { λ _. no_image };

    ghost is_image_if_sound = { λ _. no_image };

    fn size(&self) -> u32 {
        self.image.size()
    }

    fn read(&mut self, n: u32, to: &mut [u8; 512]) -> Result<(), StoreError> {
        if self.book.fails(false, n) {
            if self.book.plan.spoils {
                spoil(to);
            }
            return Err(StoreError::Read);
        }
        self.image.read(n, to)
    }

    fn write(&mut self, n: u32, from: &[u8; 512]) -> Result<(), StoreError> {
        if self.book.fails(true, n) {
            let mut block = [0; 512];
            let _ = self.image.read(n, &mut block);
            copy_half(&mut block, from);
            let _ = self.image.write(n, &block);
            return Err(StoreError::Write);
        }
        self.image.write(n, from)
    }

    fn try_read_blocks(&mut self, n: u32, count: u32, to: &mut [u8]) -> bool {
        self.book.serves(false, n, count) && self.image.try_read_blocks(n, count, to)
    }

    fn try_write_blocks(&mut self, n: u32, count: u32, from: &[u8]) -> bool {
        self.book.serves(true, n, count) && self.image.try_write_blocks(n, count, from)
    }
}
