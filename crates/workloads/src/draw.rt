//! Random numbers.
ghost use Rattle.std.specs.Prelude.{◌<◌};

use rand_core::{Rng, SeedableRng};
use rand_pcg::Pcg32;

/// A source of random numbers. The same seed gives the same ones.
#[derive(Drop)]
pub struct Draw {
    rng: Pcg32,
}

impl Draw {
    /// Makes a source from this seed.
    pub fn new(seed: u32) -> Draw {
        Draw {
            rng: Pcg32::seed_from_u64(u64::from(seed)),
        }
    }

    /// Returns a number of 32 bits.
    pub fn number(&mut self) -> u32 {
        self.rng.next_u32()
    }

    /// Returns a number below `limit`, or 0 if that is 0.
    pub fn below(&mut self, limit: u32) -> u32
        ensures below { 0 < limit → result < limit }
    {
        self.rng.next_u32() % limit.max(1)
    }

    /// Returns a byte.
    pub fn byte(&mut self) -> u8 {
        let [byte, ..] = self.rng.next_u32().to_le_bytes();
        byte
    }

    /// Returns true once in `times` times, on average.
    pub fn once_in(&mut self, times: u32) -> bool {
        self.below(times) == 0
    }

    /// Fills bytes.
    pub fn fill(&mut self, bytes: &mut [u8]) {
        for four in bytes.chunks_exact_mut(4) {
            four.copy_from_slice(&self.rng.next_u32().to_le_bytes());
        }
    }
}
