//! The driver compared with the in-order program.
mod draw;
mod text;

use draw::Draw;
use std::alloc::Global;
use std::io::Write;
use std::test::Fail;
use text::{Text, text_of};
use uda_disk::{Answer, Request};
use uda_driver::Driver;
use uda_grammar::parse;
use uda_image::{Drive, MemImage};
use uda_plain::{PlainDisk, PlainUnits};
use uda_script_run::run_script;

/// The number of pairs that are compared.
const PAIRS: u64 = 60;

/// The number of lists, or scripts, of each pair. With fewer, most of the time would be spent on making
/// drivers.
const ROUNDS: u32 = 5;

/// The same blocks for both: a drive for the driver, and a disk for the in-order program.
#[derive(Drop)]
struct Twins {
    drive: Drive<MemImage>,
    disk: PlainDisk,
}

/// Returns the bytes of blocks, one after another.
fn joined(alloc: Global, blocks: &[[u8; 512]]) -> Result<Vec<u8>, Fail> {
    let mut bytes = Vec::new(alloc);
    for block in blocks {
        bytes.extend_from_slice(block)?;
    }
    Ok(bytes)
}

/// Makes a drive of these blocks.
fn drive_of(alloc: Global, blocks: &[[u8; 512]], hard: bool) -> Result<Drive<MemImage>, Fail> {
    let bytes = joined(alloc, blocks)?;
    let store = MemImage::from_bytes(alloc, &bytes)?;
    Ok(Drive { store, hard })
}

/// Makes twins of random blocks. One in `times` of them is protected.
fn drawn_twins(alloc: Global, draw: &mut Draw, times: u32) -> Result<Twins, Fail> {
    let blocks = draw.blocks(alloc)?;
    let hard = draw.once_in(times);
    let drive = drive_of(alloc, &blocks, hard)?;
    let disk = PlainDisk::new(blocks, hard).ok_or("too many blocks")?;
    Ok(Twins { drive, disk })
}

/// A driver and the in-order program, over the same units.
#[derive(Drop)]
struct Pair {
    driver: Driver<MemImage>,
    plain: PlainUnits,
}

/// Starts a driver over these drives.
fn started(
    alloc: Global,
    first: Drive<MemImage>,
    second: Drive<MemImage>,
) -> Result<Driver<MemImage>, Fail> {
    match Driver::start(alloc, [Some(first), Some(second), None, None]) {
        Ok(driver) => Ok(driver),
        Err(_) => Err("no memory".into()),
    }
}

impl Pair {
    /// Makes a pair over two units of random blocks.
    fn new(alloc: Global, draw: &mut Draw) -> Result<Pair, Fail> {
        let first = drawn_twins(alloc, draw, 8)?;
        let second = drawn_twins(alloc, draw, 4)?;
        let driver = started(alloc, first.drive, second.drive)?;
        let plain = PlainUnits::new([Some(first.disk), Some(second.disk), None, None]);
        Ok(Pair { driver, plain })
    }

    /// Returns whether both answer these requests alike.
    fn answers_alike(&mut self, alloc: Global, requests: &[Request]) -> Result<bool, Fail> {
        let Ok(answers) = self.driver.run(requests) else {
            return Err("not run".into());
        };
        let plain = self.plain.run(alloc, requests)?;
        Ok(answers == plain)
    }

    /// Returns whether both leave the same blocks, protected alike.
    fn leaves_alike(self) -> bool {
        let drives = self.driver.into_stores();
        drives
            .iter()
            .zip(self.plain.disks())
            .all(|(drive, disk)| agree(drive, disk))
    }
}

/// Returns whether a drive holds a disk's blocks, with the same protection.
fn agree(drive: &Option<Drive<MemImage>>, disk: &Option<PlainDisk>) -> bool {
    match (drive, disk) {
        (None, None) => true,
        (Some(drive), Some(disk)) => drive.hard == disk.mode().hard && holds(&drive.store, disk),
        _ => false,
    }
}

/// Returns whether an image holds a disk's blocks.
fn holds(image: &MemImage, disk: &PlainDisk) -> bool {
    image
        .bytes()
        .chunks_exact(512)
        .eq(disk.blocks().iter().map(|block| block.as_slice()))
}

/// Returns whether lists drawn from this seed have the same answers from both, and leave the same blocks.
fn agree_on(alloc: Global, seed: u64) -> Result<bool, Fail> {
    let mut draw = Draw::new(seed);
    let mut pair = Pair::new(alloc, &mut draw)?;
    for _ in 0..ROUNDS {
        for count in [20, 60] {
            let requests = draw.requests(alloc, count)?;
            if !pair.answers_alike(alloc, &requests)? {
                return Ok(false);
            }
        }
    }
    Ok(pair.leaves_alike())
}

#[test]
fn driver_and_plain_program_agree(rt: HostRuntime) -> Result<(), Fail> {
    for seed in 0..PAIRS {
        let is_alike = agree_on(rt.alloc(), seed)?;
        assert!(rt; is_alike, "lists {seed}");
    }
    Ok(())
}

/// The output of a script's run.
#[derive(Drop, PartialEq)]
struct Printed {
    out: Vec<u8>,
    report: Vec<u8>,
}

/// Returns the output for these answers: the bytes that were read, and a line for each answer.
fn expected(alloc: Global, answers: &[Answer]) -> Result<Printed, Fail> {
    let (mut out, mut report) = (Vec::new(alloc), Vec::new(alloc));
    for (n, answer) in answers.iter().enumerate() {
        if let Answer::Data { bytes, .. } = answer {
            out.extend_from_slice(bytes)?;
        }
        writeln!(report, "{} {answer}", n.saturating_add(1))?;
    }
    Ok(Printed { out, report })
}

/// Returns the output of this script's run, or `None` if the script is rejected or leaves some of its data.
fn run(alloc: Global, driver: &mut Driver<MemImage>, text: &Text) -> Option<Printed> {
    let script = parse(alloc, text.script.as_bytes()).ok()?;
    let mut data = text.data.as_slice();
    let (mut out, mut report) = (Vec::new(alloc), Vec::new(alloc));
    let done = run_script(alloc, &script, &mut data, &mut out, &mut report, driver);
    let is_whole = done.is_ok() && data.is_empty();
    Some(Printed { out, report }).filter(|_| is_whole)
}

impl Pair {
    /// Returns whether a script of these requests prints the answers of the in-order program, and uses all
    /// its data.
    fn prints_alike(&mut self, alloc: Global, requests: &[Request]) -> Result<bool, Fail> {
        let text = text_of(alloc, requests)?;
        let told = run(alloc, &mut self.driver, &text);
        let answers = self.plain.run(alloc, requests)?;
        let wanted = expected(alloc, &answers)?;
        Ok(told == Some(wanted))
    }
}

/// Returns whether scripts drawn from this seed print the answers of the in-order program to their
/// requests.
fn prints_alike(alloc: Global, seed: u64) -> Result<bool, Fail> {
    let mut draw = Draw::new(seed);
    let mut pair = Pair::new(alloc, &mut draw)?;
    for _ in 0..ROUNDS {
        let requests = draw.script(alloc, 40)?;
        if !pair.prints_alike(alloc, &requests)? {
            return Ok(false);
        }
    }
    Ok(true)
}

#[test]
fn scripts_and_plain_program_agree(rt: HostRuntime) -> Result<(), Fail> {
    for seed in 0..PAIRS {
        let is_alike = prints_alike(rt.alloc(), seed)?;
        assert!(rt; is_alike, "scripts {seed}");
    }
    Ok(())
}
