//! The texts of lines of progress.

use std::fmt;

/// The progress of a copy, with a text such as ` 45 %  205 of 456 MB  812 MB/s  0:03 left`. A MB is
/// 1,000,000 bytes.
#[derive(Clone, Copy, Debug, PartialEq, Eq)]
pub struct Reached {
    /// The number of blocks that are complete.
    pub done: u32,
    /// The number of all blocks.
    pub all: u32,
    /// The milliseconds since the copy began.
    pub elapsed: u64,
}

/// The progress of a copy from a stream, with a text such as `205 MB  812 MB/s`. A MB is 1,000,000 bytes.
#[derive(Clone, Copy, Debug, PartialEq, Eq)]
pub struct Taken {
    /// The number of blocks that were taken from the stream.
    pub blocks: u32,
    /// The milliseconds since the copy began.
    pub elapsed: u64,
}

// Returns the size of blocks in MB.
fn megabytes(blocks: u32) -> u64 {
    u64::from(blocks) * 512 / 1_000_000
}

// Returns the MB per second of that many blocks in that many milliseconds.
fn rate(blocks: u32, elapsed: u64) -> u64 {
    u64::from(blocks) * 512 / 1_000 / elapsed.max(1)
}

impl Reached {
    // Returns the seconds that the remaining blocks will take at the same rate.
    fn left(self) -> u64 {
        let left = u64::from(self.all.saturating_sub(self.done));
        left.saturating_mul(self.elapsed) / u64::from(self.done.max(1)) / 1_000
    }
}

impl fmt::Display for Reached {
    fn fmt<W: fmt::Write>(&self, f: &mut fmt::Formatter<W>) -> fmt::Result {
        let share = u64::from(self.done) * 100 / u64::from(self.all.max(1));
        let (done, all) = (megabytes(self.done), megabytes(self.all));
        let (rate, left) = (rate(self.done, self.elapsed), self.left());
        write!(
            f,
            "{share:3} %  {done} of {all} MB  {rate} MB/s  {}:{:02} left",
            left / 60,
            left % 60
        )
    }
}

impl fmt::Display for Taken {
    fn fmt<W: fmt::Write>(&self, f: &mut fmt::Formatter<W>) -> fmt::Result {
        let rate = rate(self.blocks, self.elapsed);
        write!(f, "{} MB  {rate} MB/s", megabytes(self.blocks))
    }
}
