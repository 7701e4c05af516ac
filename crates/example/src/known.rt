//! An example of the driver's use over files whose bytes are known and whose calls never fail. A run is then proved to be
//! the in-order run, whatever its answers say. Files of the system are not of this kind, but files of a test are.
//!
//!     example known
ghost use Rattle.std.specs.Prelude.{◌≡◌, true, IfOk};
ghost use Rattle.uda_disk.specs.Units.{AreSure};
ghost use Rattle.uda_disk.specs.Values.{request_values, answer_values};
ghost use Rattle.uda_driver.specs.Run.{units_of};
ghost use Rattle.uda_driver.specs.Sure.{RunsSurely};

mod mem_file;

use anyhow::Result;
use mem_file::MemFile;
use std::alloc::{AllocError, Global};
use uda_driver::{Answer, Driver, Request, RunError, StartError, sure_run};
use uda_image::{Drive, FileImage, RawFile, Supposition};

/// The blocks of each file.
const BLOCKS: u32 = 64;

/// Writes a block of the target, and reads it back.
pub(crate) fn run(rt: &HostRuntime) -> Result<()> {
    let source = image_in_memory(rt.alloc(), 0x11, false)?;
    let target = image_in_memory(rt.alloc(), 0x22, true)?;
    let mut driver = start(rt.alloc(), source, target)?;
    let payload = Vec::from_elem(rt.alloc(), 0x33, 512)?;
    let online = Request::Online {
        unit: 1,
        protect: false,
    };
    let write = Request::Write {
        unit: 1,
        lbn: 7,
        payload,
    };
    let read = Request::Read {
        unit: 1,
        lbn: 7,
        bytes: 512,
    };
    let answers = run_surely(&mut driver, &[online, write, read])?;
    match answers.as_slice() {
        [_, _, Answer::Data { bytes, .. }] => println!(rt; "bytes read: {}", bytes.len())?,
        _ => println!(rt; "no bytes")?,
    }
    Ok(())
}

// Makes an image of `BLOCKS` blocks over a file in memory whose bytes have this value.
fn image_in_memory(
    alloc: Global,
    value: u8,
    writable: bool,
) -> Result<FileImage<MemFile>, AllocError>
    ensures known { IfOk result (λ image. image.known ≡ true) }
    ensures writable { IfOk result (λ image. image.writable ≡ writable) }
{
    let bytes = Vec::from_elem(alloc, value, 512 * BLOCKS as usize)?;
    let held = Supposition::of(&bytes, &[]);
    let file = MemFile::new(bytes);
    Ok(FileImage::over(file, BLOCKS, writable).known(&held))
}

/// Starts a driver over images of which contracts know the bytes. The drive of the source is write-protected.
pub fn start<F: RawFile + Drop>(
    alloc: Global,
    source: FileImage<F>,
    target: FileImage<F>,
) -> Result<Driver<FileImage<F>>, StartError<FileImage<F>>>
    requires source { source.known ≡ true }
    requires target { target.known ≡ true }
    requires writable { target.writable ≡ true }
    ensures sure { IfOk result (λ driver. AreSure (units_of driver)) }
{
    let source = Drive {
        store: source,
        hard: true,
    };
    let target = Drive {
        store: target,
        hard: false,
    };
    Driver::start(alloc, [Some(source), Some(target), None, None])
}

/// Executes requests over such images. The run is the in-order run, and no store fails.
pub fn run_surely<F: RawFile + Drop>(
    driver: &mut Driver<FileImage<F>>,
    requests: &[Request],
) -> Result<Vec<Answer>, RunError>
    requires sure { AreSure (units_of driver.old) }
    ensures surely { IfOk result (λ answers. RunsSurely (units_of driver.old) (request_values requests.now)
        (answer_values answers.items) (units_of driver.new)) }
{
    let answers = driver.run(requests)?;
    sure_run();
    Ok(answers)
}
