//! An example of the driver's use. It executes:
//!
//! - the copy of one disk in memory to another, in two runs;
//! - requests for both disks, of which it prints the answers;
//! - a request for a unit that no controller has;
//! - a run over stores that never fail;
//! - the Read of a whole block.
ghost use Rattle.std.specs.Prelude.{◌≡◌, ℕ, ◌*◌, true, length, slice_get, IfOk};
ghost use Rattle.uda_disk.specs.Units.{AllFaithful, is_infallible};
ghost use Rattle.uda_driver.specs.Run.{units_of};
ghost use Rattle.example.specs.driver.Copy.{CanCopy};

mod copy;
mod promised;

use anyhow::{Result, bail};
use copy::copy;
use promised::{ask_unit_seven, first_block, run_infallible};
use std::alloc::Global;
use uda_driver::{Answer, Driver, Request};
use uda_image::{Drive, MemImage};

/// The number of blocks of each disk.
const BLOCKS: u32 = 10;

/// Copies a disk, executes the other requests, and prints their answers.
pub(crate) fn run(rt: &HostRuntime) -> Result<()> {
    copied(rt)?;
    surely(rt)
}

// Copies one disk to the other, and executes requests for both.
fn copied(rt: &HostRuntime) -> Result<()> {
    let mut driver = start(rt.alloc())?;
    copy_and_ask(rt, &mut driver)
}

// Copies one disk to the other, and executes requests for both, through a driver.
fn copy_and_ask(rt: &HostRuntime, driver: &mut Driver<MemImage>) -> Result<()>
    requires faithful { AllFaithful (units_of driver.old) }
    requires able { CanCopy (units_of driver.old) 10 }
{
    if !copy(driver, BLOCKS)? {
        bail!("not copied");
    }
    asked(rt, driver)
}

// Executes requests for both disks, and for a unit that doesn't exist.
fn asked(rt: &HostRuntime, driver: &mut Driver<MemImage>) -> Result<()> {
    let alloc = rt.alloc();
    let answers = driver.run(&[
        read(1, 9, 512),
        write(alloc, 0, 8, 1024)?,
        read(0, 9, 1024),
        read(0, 9, 512),
        available(1),
        protect(1),
        write(alloc, 1, 0, 512)?,
    ])?;
    print(rt, &answers)?;
    print(rt, &ask_unit_seven(driver)?)
}

// Executes a run over stores that never fail.
fn surely(rt: &HostRuntime) -> Result<()> {
    let mut driver = start(rt.alloc())?;
    ask_surely(rt, &mut driver)
}

// Executes a run that doesn't fail, and reads a whole block.
fn ask_surely(rt: &HostRuntime, driver: &mut Driver<MemImage>) -> Result<()>
    requires faithful { AllFaithful (units_of driver.old) }
    requires infallible { (u : ℕ) → is_infallible (slice_get (units_of driver.old) u) ≡ true }
{
    let answers = run_infallible(driver, &[protect(0), read(0, 9, 512)])?;
    print(rt, &answers)?;
    whole(rt, driver)
}

// Reads a whole block.
fn whole(rt: &HostRuntime, driver: &mut Driver<MemImage>) -> Result<()> {
    let Some(block) = first_block(driver)? else {
        bail!("not read");
    };
    println!(rt; "{} .. {}", block[0], block[511])?;
    Ok(())
}

// Prints each answer on a line.
fn print(rt: &HostRuntime, answers: &[Answer]) -> Result<()> {
    for answer in answers {
        println!(rt; "{answer}")?;
    }
    Ok(())
}

// Starts a driver over two disks, one of bytes 0x55 and one of zeros.
fn start(alloc: Global) -> Result<Driver<MemImage>>
    ensures faithful { IfOk result (λ driver. AllFaithful (units_of driver)) }
    ensures infallible { IfOk result (λ driver.
        (u : ℕ) → is_infallible (slice_get (units_of driver) u) ≡ true) }
    ensures able { IfOk result (λ driver. CanCopy (units_of driver) 10) }
{
    let bytes = Vec::from_elem(alloc, 0x55, 5120)?;
    let disk = Drive {
        store: MemImage::from_bytes(alloc, &bytes)?,
        hard: false,
    };
    let spare = Drive {
        store: MemImage::new(alloc, BLOCKS)?,
        hard: false,
    };
    Ok(Driver::start(alloc, [Some(disk), Some(spare), None, None])?)
}

fn protect(unit: u16) -> Request {
    Request::Online {
        unit,
        protect: true,
    }
}

fn available(unit: u16) -> Request {
    Request::Available { unit }
}

fn read(unit: u16, lbn: u32, bytes: u64) -> Request {
    Request::Read { unit, lbn, bytes }
}

// Returns a Write of `count` bytes 0xAA.
fn write(alloc: Global, unit: u16, lbn: u32, count: usize) -> Result<Request> {
    let payload = Vec::from_elem(alloc, 0xAA, count)?;
    Ok(Request::Write { unit, lbn, payload })
}
