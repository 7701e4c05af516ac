//! Lists of requests, executed by a driver over images in memory.

use crate::digest::Digest;
use crate::draw::Draw;
use anyhow::{Result, bail};
use std::alloc::Global;
use uda_disk::{Answer, Request};
use uda_driver::{Driver, REQUEST_LIMIT};
use uda_image::{Drive, MemImage};

/// The number of blocks of a unit.
const BLOCKS: u32 = 4_096;

/// Executes two lists in each round: one on two units, and one on four. Unit 1 is write-protected.
pub fn run(alloc: Global, draw: &mut Draw, rounds: u32, digest: &mut Digest) -> Result<()> {
    let mut of_two = driver(alloc, 2)?;
    let mut of_four = driver(alloc, 4)?;
    for _ in 0..rounds {
        execute(alloc, draw, &mut of_two, digest)?;
        execute(alloc, draw, &mut of_four, digest)?;
    }
    digest.add_disks(&of_two.into_stores());
    digest.add_disks(&of_four.into_stores());
    Ok(())
}

// Executes a list.
fn execute(
    alloc: Global,
    draw: &mut Draw,
    driver: &mut Driver<MemImage>,
    digest: &mut Digest,
) -> Result<()> {
    let mut requests = Vec::with_capacity(alloc, REQUEST_LIMIT)?;
    for _ in 0..REQUEST_LIMIT {
        requests.push(request(alloc, draw)?)?;
    }
    let Ok(answers) = driver.run(&requests) else {
        bail!("no memory for the answers");
    };
    for answer in answers.iter() {
        add_answer(digest, answer);
    }
    Ok(())
}

fn add_answer(digest: &mut Digest, answer: &Answer) {
    match answer {
        Answer::TooLong => digest.add(1),
        Answer::Plain { status } => digest.add(2 + 8 * u64::from(*status)),
        Answer::Online {
            status,
            flags,
            size,
        } => {
            digest.add(3 + 8 * u64::from(*status));
            digest.add(u64::from(*flags));
            digest.add(u64::from(*size));
        }
        Answer::Status { status, flags } => {
            digest.add(4 + 8 * u64::from(*status));
            digest.add(u64::from(*flags));
        }
        Answer::Moved { status, bytes } => {
            digest.add(5 + 8 * u64::from(*status));
            digest.add(u64::from(*bytes));
        }
        Answer::Data { status, bytes } => {
            digest.add(6 + 8 * u64::from(*status));
            digest.add_bytes(bytes);
        }
    }
}

// Makes a driver of `units` units, all online.
fn driver(alloc: Global, units: u16) -> Result<Driver<MemImage>> {
    let drives = [
        drive(alloc, units > 0, false)?,
        drive(alloc, units > 1, true)?,
        drive(alloc, units > 2, false)?,
        drive(alloc, units > 3, false)?,
    ];
    let Ok(mut driver) = Driver::start(alloc, drives) else {
        bail!("no memory for a driver");
    };
    for unit in 0..4 {
        let online = Request::Online {
            unit,
            protect: false,
        };
        if driver.run(&[online]).is_err() {
            bail!("no memory for an answer");
        }
    }
    Ok(driver)
}

fn drive(alloc: Global, is_there: bool, hard: bool) -> Result<Option<Drive<MemImage>>> {
    if !is_there {
        return Ok(None);
    }
    let store = MemImage::new(alloc, BLOCKS)?;
    Ok(Some(Drive { store, hard }))
}

// Returns a request. Half are Reads, and a fifth are Writes. One in four transfers begins in the same 64 blocks.
fn request(alloc: Global, draw: &mut Draw) -> Result<Request> {
    let unit = unit(draw);
    let lbn = if draw.once_in(4) {
        draw.below(64)
    } else {
        draw.below(BLOCKS)
    };
    let bytes = u64::from(bytes(draw));
    Ok(match draw.below(100) {
        0..50 => Request::Read { unit, lbn, bytes },
        50..70 => Request::Write {
            unit,
            lbn,
            payload: payload(alloc, draw, bytes)?,
        },
        70..83 => Request::Status { unit },
        83..89 => Request::Access { unit, lbn, bytes },
        89..94 => Request::Erase { unit, lbn, bytes },
        94 => Request::Read {
            unit,
            lbn,
            bytes: 16_386,
        },
        95 => Request::Available { unit: unit | 1 },
        _ => Request::Online {
            unit,
            protect: draw.once_in(16),
        },
    })
}

// Returns a unit: mostly 0, the others less often, and sometimes one that no controller has.
fn unit(draw: &mut Draw) -> u16 {
    match draw.below(64) {
        0 => 5,
        1..6 => 3,
        6..12 => 2,
        12..20 => 1,
        _ => 0,
    }
}

// Returns a byte count of 1 to 32 blocks. One in sixteen is no multiple of 512.
fn bytes(draw: &mut Draw) -> u32 {
    let blocks = match draw.below(16) {
        0..8 => 1,
        8..11 => 2,
        11..13 => 8,
        13 => 32,
        _ => 1 + draw.below(32),
    };
    let bytes = blocks * 512;
    match draw.below(64) {
        0 => bytes - 1,
        1..4 => bytes - 2 * draw.below(255),
        _ => bytes,
    }
}

// Returns `bytes` bytes of one value, except the first four.
fn payload(alloc: Global, draw: &mut Draw, bytes: u64) -> Result<Vec<u8>> {
    let mut payload = Vec::from_elem(alloc, draw.byte(), bytes as usize)?;
    for (byte, first) in payload.iter_mut().zip(draw.number().to_le_bytes()) {
        *byte = first;
    }
    Ok(payload)
}
