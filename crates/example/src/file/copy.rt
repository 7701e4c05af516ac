//! The copy of 64 blocks from one file to another.
ghost use Rattle.std.specs.Prelude.{◌≡◌, ◌*◌, true, false, option_map, Some, IfOk, IfSome};
ghost use Rattle.uda_disk.specs.Answer.{Data};
ghost use Rattle.uda_disk.specs.Request.{Online, Read, Write};
ghost use Rattle.uda_disk.specs.Status.{SUCCESS};
ghost use Rattle.uda_disk.specs.Units.{AllSound, AreWellFormedIfSound};
ghost use Rattle.uda_disk.specs.Values.{request_value, answer_value, answer_values};
ghost use Rattle.uda_driver.specs.Run.{units_of};
ghost use Rattle.example.specs.file.Copy.{IsCopied, AreBothWritten};

use uda_disk::status;
use uda_driver::{Answer, Driver, Request, RunError};
use uda_image::FileImage;

/// The number of blocks of one Read or Write.
const PIECE: u32 = 32;

/// Copies the first 64 blocks of unit 0 to unit 1, by two Reads and two Writes. Returns whether all of them
/// succeeded.
///
/// If it returns true, and both files have been honest until then, the first 64 blocks of unit 1 are those of
/// unit 0.
pub fn copy(driver: &mut Driver<FileImage>) -> Result<bool, RunError>
    requires well_formed { AreWellFormedIfSound (units_of driver.old) }
    ensures copied { IfOk result (λ done. done ≡ true → AllSound (units_of driver.new)
        → IsCopied (units_of driver.old) (units_of driver.new)) }
{
    let mut read = driver.run(&[online(0), online(1), read(0), read(PIECE)])?;
    let (Some(second), Some(first)) = (payload_of(read.pop()), payload_of(read.pop())) else {
        return Ok(false);
    };
    let written = driver.run(&[write(0, first), write(PIECE, second)])?;
    Ok(are_written(&written))
}

fn online(unit: u16) -> Request
    ensures request { request_value result ≡ record { unit = unit; act = Online false } }
{
    Request::Online {
        unit,
        protect: false,
    }
}

fn read(lbn: u32) -> Request
    ensures request { request_value result ≡ record { unit = 0; act = Read lbn (512 * 32) } }
{
    Request::Read {
        unit: 0,
        lbn,
        bytes: 512 * u64::from(PIECE),
    }
}

fn write(lbn: u32, payload: Vec<u8>) -> Request
    ensures request { request_value result ≡ record { unit = 1; act = Write lbn payload.items } }
{
    Request::Write {
        unit: 1,
        lbn,
        payload,
    }
}

// Returns the bytes of a Read that succeeded.
fn payload_of(answer: Option<Answer>) -> Option<Vec<u8>>
    ensures read { IfSome result (λ bytes. option_map answer_value answer ≡ Some (Data SUCCESS bytes.items)) }
{
    match answer {
        Some(
            Answer::Data {
                status: status::SUCCESS,
                bytes,
            },
        ) => Some(bytes),
        _ => None,
    }
}

// Returns whether these are the answers of two Writes that succeeded.
fn are_written(answers: &[Answer]) -> bool
    ensures written { result ≡ true → AreBothWritten (answer_values answers.now) }
{
    matches!(
        answers,
        [
            Answer::Moved {
                status: status::SUCCESS,
                ..
            },
            Answer::Moved {
                status: status::SUCCESS,
                ..
            },
        ]
    )
}
