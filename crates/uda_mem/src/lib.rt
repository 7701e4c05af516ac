//! Host memory as a UDA50 accesses it over the UNIBUS: an even number of bytes. It is read and written in
//! words of 16 bits (low byte first), in windows of bytes, and in blocks of 512 bytes.
//!
//! The bytes are those of a slice that somebody else owns, or of a [`HostMemory`], which owns them.
//!
//! The tests of this crate are in `test_low`.
#![tactic(auto)]

mod block;
mod memory;
mod range;
mod slice;

pub use block::as_block;
pub use memory::{HostMemory, MEMORY_LIMIT, NoMemory};
pub use range::ByteRange;
pub use slice::{
    SLICE_LIMIT, block_at, has, is_memory, len, put_bytes, put_word, put_zeros, read_word, window,
    word_at, write_word,
};
