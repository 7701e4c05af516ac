//! A digest of results.

use byteorder::{ByteOrder, LittleEndian};
use uda_image::{Drive, MemImage};

/// A digest of numbers and bytes in the order in which they came.
#[derive(Clone, Copy, Debug, PartialEq, Eq)]
pub struct Digest {
    state: u64,
}

impl Digest {
    /// Returns the digest of nothing.
    pub fn new() -> Digest {
        Digest { state: 0 }
    }

    /// Returns the digest as a number.
    pub fn value(self) -> u64 {
        self.state
    }

    /// Adds a number.
    pub fn add(&mut self, number: u64) {
        self.state = (self.state ^ number)
            .wrapping_mul(0x9e37_79b9_7f4a_7c15)
            .rotate_left(29);
    }

    /// Adds bytes and their number. Four words at a time are summed side by side, since a word must not wait for the
    /// one before. The sums of sums depend on the order of the words.
    pub fn add_bytes(&mut self, bytes: &[u8]) {
        self.add(bytes.len() as u64);
        let (mut sums, mut orders) = ([1u64, 2, 3, 4], [0u64; 4]);
        let groups = bytes.chunks_exact(32);
        let rest = groups.remainder();
        for group in groups {
            for n in 0..4 {
                sums[n] = sums[n].wrapping_add(word_in(group, n));
                orders[n] = orders[n].wrapping_add(sums[n]);
            }
        }
        for n in 0..4 {
            self.add(sums[n]);
            self.add(orders[n]);
        }
        for byte in rest {
            self.add(u64::from(*byte));
        }
    }

    /// Adds the blocks of drives.
    pub fn add_disks(&mut self, drives: &[Option<Drive<MemImage>>; 4]) {
        for drive in drives {
            if let Some(drive) = drive {
                self.add_bytes(drive.store.bytes());
            }
        }
    }
}

// Returns the n-th word of eight bytes, or 0 if there is none.
fn word_in(group: &[u8], n: usize) -> u64 {
    match group.get(n.saturating_mul(8)..) {
        Some(bytes) if bytes.len() >= 8 => LittleEndian::read_u64(bytes),
        _ => 0,
    }
}
