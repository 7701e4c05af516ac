//! Scripts run by a driver: the data that they read, and the texts that they write.
use super::streams::{Manner, Sink, Source};
use std::alloc::{AllocError, Global};
use std::test::Fail;
use uda_driver::Driver;
use uda_image::{Drive, MemImage};
use uda_script::{ScriptError, parse, run_script};

/// A script over a drive of eight blocks as unit 0, its streams, and its result. Its data is all of 7.
#[derive(Clone, Copy)]
struct Batch {
    script: &'static str,
    /// The blocks, each filled with one byte.
    blocks: [u8; 8],
    /// The number of bytes of data.
    held: usize,
    input: Manner,
    out: Manner,
    done: Result<(), ScriptError>,
    /// The written bytes: a byte, and how many times it occurs.
    written: (u8, usize),
    report: &'static str,
    /// The number of bytes of data that are left.
    unread: usize,
    /// The blocks afterwards.
    left: [u8; 8],
}

/// A script of no lines.
const EMPTY: Batch = Batch {
    script: "",
    blocks: [0; 8],
    held: 0,
    input: Manner::Whole,
    out: Manner::Whole,
    done: Ok(()),
    written: (0, 0),
    report: "",
    unread: 0,
    left: [0; 8],
};

const TWO_WRITES: Batch = Batch {
    script: "online 0\nwrite 0 0 1\nwrite 0 0 2\n",
    ..EMPTY
};

const ONE_READ: Batch = Batch {
    script: "online 0\nread 0 0 1\n",
    ..EMPTY
};

static BATCHES: [Batch; 13] = [
    // the data of the lines is read, and no more
    Batch {
        script: "online 0\nwrite 0 0 0\nwrite 0 3 1\nread 0 3 1\n",
        held: 600,
        input: Manner::Halting(100),
        written: (7, 512),
        report: "1 0000 0000 8\n2 0000 0\n3 0000 512\n4 0000 512\n",
        unread: 88,
        left: [0, 0, 0, 7, 0, 0, 0, 0],
        ..EMPTY
    },
    // the first line that is short of data
    Batch {
        held: 0,
        done: Err(ScriptError::ShortData { line: 2 }),
        ..TWO_WRITES
    },
    Batch {
        held: 511,
        done: Err(ScriptError::ShortData { line: 2 }),
        ..TWO_WRITES
    },
    Batch {
        held: 512,
        done: Err(ScriptError::ShortData { line: 3 }),
        ..TWO_WRITES
    },
    Batch {
        held: 1535,
        done: Err(ScriptError::ShortData { line: 3 }),
        ..TWO_WRITES
    },
    Batch {
        held: 1536,
        report: "1 0000 0000 8\n2 0000 512\n3 0000 1024\n",
        left: [7, 7, 0, 0, 0, 0, 0, 0],
        ..TWO_WRITES
    },
    // data that cannot be read
    Batch {
        script: "write 0 0 1\n",
        input: Manner::Broken,
        done: Err(ScriptError::Read),
        ..EMPTY
    },
    // each form of answer has its line
    Batch {
        script: "online 0\nfill 0 0 2 a5\nread 0 0 1\nstatus 1\navailable 0\nread 0 0 33\n",
        written: (0xa5, 512),
        report: "1 0000 0000 8\n2 0000 1024\n3 0000 512\n4 0023 0000\n5 0000\n6 long\n",
        left: [0xa5, 0xa5, 0, 0, 0, 0, 0, 0],
        ..EMPTY
    },
    // partial blocks
    Batch {
        script: "online 0\neraseb 0 1 2\nwriteb 0 2 3\nreadb 0 1 4\n",
        blocks: [0x11; 8],
        held: 3,
        written: (0, 4),
        report: "1 0000 0000 8\n2 0000 2\n3 0049 0\n4 0000 4\n",
        left: [0x11, 0, 0x11, 0x11, 0x11, 0x11, 0x11, 0x11],
        ..EMPTY
    },
    // a writer that is full
    Batch {
        out: Manner::Narrow(0),
        done: Err(ScriptError::Write),
        ..ONE_READ
    },
    Batch {
        out: Manner::Narrow(511),
        done: Err(ScriptError::Write),
        written: (0, 511),
        ..ONE_READ
    },
    Batch {
        out: Manner::Narrow(512),
        written: (0, 512),
        report: "1 0000 0000 8\n2 0000 512\n",
        ..ONE_READ
    },
    // an interrupted write is tried again
    Batch {
        script: "online 0\nread 0 0 1\nread 0 1 1\n",
        out: Manner::Halting(usize::MAX),
        written: (0, 1024),
        report: "1 0000 0000 8\n2 0000 512\n3 0000 512\n",
        ..EMPTY
    },
];

// Returns the bytes of blocks, each filled with one byte.
fn bytes_of(alloc: Global, blocks: &[u8; 8]) -> Result<Vec<u8>, AllocError> {
    let mut bytes = Vec::new(alloc);
    for byte in blocks {
        bytes.extend_from_slice(&[*byte; 512])?;
    }
    Ok(bytes)
}

// Starts a driver over a drive of these blocks as unit 0, and no other.
fn driver_of(alloc: Global, blocks: &[u8]) -> Result<Driver<MemImage>, Fail> {
    let store = MemImage::from_bytes(alloc, blocks)?;
    let drive = Some(Drive { store, hard: false });
    match Driver::start(alloc, [drive, None, None, None]) {
        Ok(driver) => Ok(driver),
        Err(_) => Err("no driver".into()),
    }
}

/// Starts a driver over eight blocks, all of 5.
pub fn driver_of_fives(alloc: Global) -> Result<Driver<MemImage>, Fail> {
    driver_of(alloc, &[5; 4096])
}

// Returns whether these bytes are all this one.
fn are_all(bytes: &[u8], byte: u8) -> bool {
    for is in bytes {
        if *is != byte {
            return false;
        }
    }
    true
}

// The result of a batch.
#[derive(Drop)]
struct Outcome {
    done: Result<(), ScriptError>,
    written: Vec<u8>,
    report: Vec<u8>,
    unread: usize,
}

impl Batch {
    // Runs the script.
    fn run(&self, alloc: Global, driver: &mut Driver<MemImage>) -> Result<Outcome, Fail> {
        let script = parse(alloc, self.script.as_bytes())?;
        let data = Vec::from_elem(alloc, 7, self.held)?;
        let mut input = Source::new(self.input, &data);
        let mut out = Sink::new(alloc, self.out);
        let mut report = Vec::new(alloc);
        let done = run_script(alloc, &script, &mut input, &mut out, &mut report, driver);
        let unread = input.left.len();
        Ok(Outcome {
            done,
            written: out.taken,
            report,
            unread,
        })
    }

    // Returns whether an outcome is the expected one.
    fn is_outcome(&self, outcome: &Outcome) -> bool {
        let (byte, count) = self.written;
        outcome.done == self.done
            && outcome.written.len() == count
            && are_all(&outcome.written, byte)
            && outcome.report.as_slice() == self.report.as_bytes()
            && (self.done.is_err() || outcome.unread == self.unread)
    }
}

// Returns the store of unit 0.
fn first_of<S: Drop>(drives: [Option<Drive<S>>; 4]) -> Option<S> {
    let [first, _, _, _] = drives;
    match first {
        Some(Drive { store, .. }) => Some(store),
        None => None,
    }
}

// Returns the bytes of unit 0.
pub fn left_in(alloc: Global, driver: Driver<MemImage>) -> Result<Vec<u8>, Fail> {
    match first_of(driver.into_stores()) {
        Some(image) => Ok(Vec::from_slice(alloc, image.bytes())?),
        None => Err("no drive".into()),
    }
}

// Runs a batch by a driver, and returns whether its outcome is as expected.
fn is_run(alloc: Global, batch: &Batch, driver: &mut Driver<MemImage>) -> Result<bool, Fail> {
    let outcome = batch.run(alloc, driver)?;
    Ok(batch.is_outcome(&outcome))
}

// Returns whether a driver leaves these blocks.
fn are_left(alloc: Global, driver: Driver<MemImage>, blocks: &[u8; 8]) -> Result<bool, Fail> {
    let left = left_in(alloc, driver)?;
    Ok(left == bytes_of(alloc, blocks)?)
}

// Starts a driver for a batch.
fn driver_for(alloc: Global, batch: &Batch) -> Result<Driver<MemImage>, Fail> {
    let blocks = bytes_of(alloc, &batch.blocks)?;
    driver_of(alloc, &blocks)
}

// Runs a batch, and returns whether its outcome and its blocks are as expected.
fn is_as_expected(alloc: Global, batch: &Batch) -> Result<bool, Fail> {
    let mut driver = driver_for(alloc, batch)?;
    if !is_run(alloc, batch, &mut driver)? {
        return Ok(false);
    }
    are_left(alloc, driver, &batch.left)
}

#[test]
fn batches(rt: HostRuntime) -> Result<(), Fail> {
    for (n, batch) in BATCHES.iter().enumerate() {
        assert!(rt; is_as_expected(rt.alloc(), batch)?, "batch {n}");
    }
    Ok(())
}
