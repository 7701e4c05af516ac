//! An example of the driver's use over image files. It copies the first 64 blocks of one file to another.
//!
//!     example file SOURCE TARGET
//!     example back SOURCE TARGET
//!
//! The second form writes a block of the other file and reads it back.
ghost use Rattle.std.specs.Prelude.{IfOk};
ghost use Rattle.uda_disk.specs.Units.{AreWellFormedIfSound};
ghost use Rattle.uda_driver.specs.Run.{units_of};

mod copy;
mod read_back;

use anyhow::Result;
use copy::copy;
use read_back::read_back;
use uda_driver::{Driver, Request};
use uda_image::{Drive, FileImage};

/// Copies the blocks, and prints whether it did.
pub(crate) fn run(rt: &HostRuntime, source: &str, target: &str) -> Result<()> {
    let mut driver = start(rt, source, target)?;
    let copied = copy(&mut driver)?;
    sync(driver)?;
    println!(rt; "copied: {copied}")?;
    Ok(())
}

/// Writes block 0 of the target and reads it back, and prints whether the bytes are the same.
pub(crate) fn run_back(rt: &HostRuntime, source: &str, target: &str) -> Result<()> {
    let mut driver = start(rt, source, target)?;
    driver.run(&[Request::Online {
        unit: 1,
        protect: false,
    }])?;
    let payload = Vec::from_elem(rt.alloc(), 0x55, 512)?;
    let found = read_back(&mut driver, 0, payload)?;
    sync(driver)?;
    match found {
        Some(same) => println!(rt; "the same: {same}")?,
        None => println!(rt; "a request failed")?,
    }
    Ok(())
}

// Makes the system write to the medium what was written.
fn sync(driver: Driver<FileImage>) -> Result<()> {
    let mut drives = driver.into_stores();
    for drive in drives.iter_mut().flatten() {
        drive.store.sync()?;
    }
    Ok(())
}

// Starts a driver over two image files.
fn start(rt: &HostRuntime, source: &str, target: &str) -> Result<Driver<FileImage>>
    ensures well_formed { IfOk result (λ driver. AreWellFormedIfSound (units_of driver)) }
{
    let source = Drive {
        store: FileImage::open(rt, source, false)?,
        hard: true,
    };
    let target = Drive {
        store: FileImage::open(rt, target, true)?,
        hard: false,
    };
    Ok(Driver::start(rt.alloc(), [Some(source), Some(target), None, None])?)
}
