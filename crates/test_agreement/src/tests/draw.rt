//! Random units and requests.

use rand_core::{Rng, SeedableRng};
use rand_pcg::Pcg32;
use std::alloc::Global;
use uda_disk::Request;
use uda_mem::NoMemory;

/// A source of random units and requests. The same seed gives the same ones.
#[derive(Drop)]
pub struct Draw {
    rng: Pcg32,
}

impl Draw {
    /// Makes a source from this seed.
    pub fn new(seed: u64) -> Draw {
        Draw {
            rng: Pcg32::seed_from_u64(seed),
        }
    }

    /// Returns true once in `times` times, on average.
    pub fn once_in(&mut self, times: u32) -> bool {
        self.rng.next_u32() % times.max(1) == 0
    }

    /// Returns up to a dozen blocks, each filled with one byte.
    pub fn blocks(&mut self, alloc: Global) -> Result<Vec<[u8; 512]>, NoMemory> {
        let count = self.rng.next_u32() % 13;
        self.filled(alloc, count)
    }

    /// Returns `count` requests that a script can make: none writes more than one command can.
    pub fn script(&mut self, alloc: Global, count: u32) -> Result<Vec<Request>, NoMemory> {
        let mut requests = self.requests(alloc, count)?;
        for request in requests.iter_mut() {
            if let Request::Write { payload, .. } = request {
                payload.truncate(16_384);
            }
        }
        Ok(requests)
    }

    /// Returns `count` requests.
    pub fn requests(&mut self, alloc: Global, count: u32) -> Result<Vec<Request>, NoMemory> {
        let mut requests = Vec::new(alloc);
        for _ in 0..count {
            let request = self.request(alloc)?;
            let Ok(()) = requests.push(request) else {
                return Err(NoMemory);
            };
        }
        Ok(requests)
    }

    /// Returns a request, usually for a unit that exists and for blocks near its end.
    pub fn request(&mut self, alloc: Global) -> Result<Request, NoMemory> {
        let unit = self.unit();
        let lbn = self.rng.next_u32() % 13;
        Ok(match self.rng.next_u32() % 16 {
            0..3 => Request::Online {
                unit,
                protect: self.once_in(4),
            },
            3 => Request::Available { unit },
            4 => Request::Status { unit },
            5..9 => {
                let bytes = self.count(16_384);
                Request::Read { unit, lbn, bytes }
            }
            9 => {
                let bytes = self.count(u32::MAX);
                Request::Access { unit, lbn, bytes }
            }
            10..15 => {
                let bytes = self.count(16_384);
                let payload = self.payload(alloc, bytes)?;
                Request::Write { unit, lbn, payload }
            }
            _ => {
                let bytes = self.count(u32::MAX);
                Request::Erase { unit, lbn, bytes }
            }
        })
    }

    // Returns a unit: most often 0, and sometimes one that no controller has.
    fn unit(&mut self) -> u16 {
        match self.rng.next_u32() % 32 {
            0..20 => 0,
            20..28 => 1,
            28 => 2,
            29 => 3,
            30 => 4,
            _ => u16::MAX,
        }
    }

    // Returns a byte count: a few blocks, often with a part of one more. Sometimes it is the most that a
    // request can have, or one more.
    fn count(&mut self, most: u32) -> u64 {
        let part = match self.rng.next_u32() % 16 {
            0 => 511,
            few => few.saturating_sub(8).saturating_mul(64),
        };
        match self.rng.next_u32() % 32 {
            0 => u64::from(most).saturating_add(1),
            1 => u64::from(most),
            few => u64::from((few % 6).saturating_mul(512).saturating_add(part)),
        }
    }

    // Returns `count` bytes, made of blocks that are each filled with one byte.
    fn payload(&mut self, alloc: Global, count: u64) -> Result<Vec<u8>, NoMemory> {
        let mut payload = Vec::new(alloc);
        for _ in 0..count.div_ceil(512) {
            let [byte, ..] = self.rng.next_u32().to_le_bytes();
            let Ok(()) = payload.extend_from_slice(&[byte; 512]) else {
                return Err(NoMemory);
            };
        }
        payload.truncate(count as usize);
        Ok(payload)
    }

    // Returns `count` blocks, each filled with a byte of its own.
    fn filled(&mut self, alloc: Global, count: u32) -> Result<Vec<[u8; 512]>, NoMemory> {
        let mut blocks = Vec::new(alloc);
        for _ in 0..count {
            let [byte, ..] = self.rng.next_u32().to_le_bytes();
            let Ok(()) = blocks.push([byte; 512]) else {
                return Err(NoMemory);
            };
        }
        Ok(blocks)
    }
}
