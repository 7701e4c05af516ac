//! Texts of requests, read from a stream and executed in batches.

use crate::digest::Digest;
use crate::draw::Draw;
use anyhow::{Result, bail};
use std::alloc::Global;
use std::io::{BufReader, BufWriter};
use uda_driver::{Driver, Unwatched};
use uda_image::{Drive, MemImage};
use uda_script_run::{Channels, ReportStyle, ScriptOutcome, TextError, run_text};

/// The number of lines of a text.
const LINES: u32 = 4_096;

/// The number of blocks of a unit: 4 MB.
const BLOCKS: u32 = 8_192;

/// The number of bytes that the `write` lines of a text may take.
const DATA: usize = 262_144;

/// The values of the digits of a number, the highest first.
const SCALES: [u32; 5] = [10_000, 1_000, 100, 10, 1];

/// The room of the buffers of both texts.
const BUFFER: usize = 4_096;

/// Executes a text in each round. In one of eight the last line is no statement.
pub fn run(alloc: Global, draw: &mut Draw, rounds: u32, digest: &mut Digest) -> Result<()> {
    let mut driver = driver(alloc)?;
    let mut data = vec![in alloc; 0u8; DATA]?;
    draw.fill(&mut data);
    let mut text = Vec::with_capacity(alloc, 262_144)?;
    let mut outputs = Outputs {
        blocks: Vec::new(alloc),
        report: Vec::new(alloc),
    };
    for _ in 0..rounds {
        write_text(&mut text, draw)?;
        let round = Round {
            style: style(draw),
            text: text.as_slice(),
            data: data.as_slice(),
        };
        outputs = execute(alloc, round, outputs, &mut driver, digest)?;
        text.clear();
    }
    digest.add_disks(&driver.into_stores());
    Ok(())
}

// The text of a round, its style, and the data of its `write` lines.
#[derive(Clone, Copy)]
struct Round<'a> {
    style: ReportStyle,
    text: &'a [u8],
    data: &'a [u8],
}

// The room for what a text prints.
#[derive(Drop)]
struct Outputs {
    blocks: Vec<u8>,
    report: Vec<u8>,
}

// Draws a style.
fn style(draw: &mut Draw) -> ReportStyle {
    ReportStyle {
        names: draw.once_in(2),
        failures_only: draw.once_in(4),
    }
}

// Executes a text, and returns the room for what it printed.
fn execute(
    alloc: Global,
    round: Round<'_>,
    outputs: Outputs,
    driver: &mut Driver<MemImage>,
    digest: &mut Digest,
) -> Result<Outputs> {
    let mut channels = Channels {
        input: round.data,
        out: BufWriter::with_capacity(alloc, BUFFER, outputs.blocks)?,
        report: BufWriter::with_capacity(alloc, BUFFER, outputs.report)?,
        watch: Unwatched,
    };
    let source = BufReader::new(alloc, round.text)?;
    let done = run_text(alloc, round.style, source, &mut channels, driver);
    let Channels { out, report, .. } = channels;
    digest.add(outcome(done));
    Ok(Outputs {
        blocks: printed(out.into_parts().0, digest),
        report: printed(report.into_parts().0, digest),
    })
}

// Adds what was printed to the digest, and empties it.
fn printed(mut bytes: Vec<u8>, digest: &mut Digest) -> Vec<u8> {
    digest.add_bytes(&bytes);
    bytes.clear();
    bytes
}

// Returns the number of an outcome. Each line of a fault has its own.
fn outcome(done: Result<ScriptOutcome, TextError>) -> u64 {
    match done {
        Ok(ScriptOutcome::AllSucceeded) => 1,
        Ok(ScriptOutcome::SomeFailed) => 2,
        Err(TextError::Unreadable) => 3,
        Err(TextError::Syntax { line, .. }) => line.saturating_add(4),
        Err(TextError::Script(_)) => 4,
    }
}

// Makes a driver over two images.
fn driver(alloc: Global) -> Result<Driver<MemImage>> {
    let drives = [drive(alloc)?, drive(alloc)?, None, None];
    let Ok(driver) = Driver::start(alloc, drives) else {
        bail!("no memory for a driver");
    };
    Ok(driver)
}

fn drive(alloc: Global) -> Result<Option<Drive<MemImage>>> {
    let store = MemImage::new(alloc, BLOCKS)?;
    Ok(Some(Drive { store, hard: false }))
}

// Writes the lines of a text.
fn write_text(text: &mut Vec<u8>, draw: &mut Draw) -> Result<()> {
    text.extend_from_slice(b"online 0\nonline 1\n")?;
    for _ in 0..LINES {
        write_line(text, draw)?;
    }
    if draw.once_in(8) {
        text.extend_from_slice(b"read 0 12 x\n")?;
    }
    Ok(())
}

// Writes a line. Of a hundred, 45 are Reads and 15 are fills; four are comments or empty.
fn write_line(text: &mut Vec<u8>, draw: &mut Draw) -> Result<()> {
    let blocks = blocks(draw);
    match draw.below(100) {
        0..45 => write_transfer(text, draw, b"read", blocks),
        45..60 => {
            write_words(text, draw, b"fill", blocks)?;
            let digits = b"0123456789abcdef";
            text.push(b' ')?;
            text.push(digits[draw.below(16) as usize % 16])?;
            text.push(digits[draw.below(16) as usize % 16])?;
            Ok(text.push(b'\n')?)
        }
        60..67 => write_transfer(text, draw, b"access", blocks),
        67..74 => write_transfer(text, draw, b"erase", blocks),
        74..84 => {
            let bytes = draw.below(4_096) & !1;
            write_transfer(text, draw, b"readb", bytes)
        }
        84..88 => write_transfer(text, draw, b"write", blocks.min(4)),
        88..95 => write_mode(text, draw, b"status"),
        95 => write_mode(text, draw, b"online"),
        96..98 => Ok(text.extend_from_slice(
            b"# what comes next moves blocks between the two units\n",
        )?),
        98 => Ok(text.extend_from_slice(
            b"# a comment of more bytes than any statement has, so that only its beginning is kept: the rest is skipped\n",
        )?),
        _ => Ok(text.push(b'\n')?),
    }
}

// Writes the line of a transfer.
fn write_transfer(text: &mut Vec<u8>, draw: &mut Draw, verb: &[u8], amount: u32) -> Result<()> {
    write_words(text, draw, verb, amount)?;
    Ok(text.push(b'\n')?)
}

// Writes the verb of a transfer, its unit, its first block and its amount.
fn write_words(text: &mut Vec<u8>, draw: &mut Draw, verb: &[u8], amount: u32) -> Result<()> {
    text.extend_from_slice(verb)?;
    write_number(text, draw.below(2))?;
    let lbn = draw.below(BLOCKS);
    write_number(text, lbn)?;
    write_number(text, amount)
}

// Writes a line of a verb and a unit.
fn write_mode(text: &mut Vec<u8>, draw: &mut Draw, verb: &[u8]) -> Result<()> {
    text.extend_from_slice(verb)?;
    write_number(text, draw.below(3))?;
    Ok(text.push(b'\n')?)
}

// Returns the number of blocks of a transfer.
fn blocks(draw: &mut Draw) -> u32 {
    match draw.below(16) {
        0..7 => 1,
        7..10 => 2,
        10..14 => 8,
        14 => 16,
        _ => 32,
    }
}

// Writes a space and a number below 100,000.
fn write_number(text: &mut Vec<u8>, number: u32) -> Result<()> {
    text.push(b' ')?;
    let mut begun = false;
    for scale in SCALES {
        let digit = number / scale % 10;
        begun |= digit > 0 || scale == 1;
        if begun {
            text.push(b'0' + digit as u8)?;
        }
    }
    Ok(())
}
