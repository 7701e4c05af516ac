//! A Write of blocks, and a Read of what was written.
ghost use Rattle.std.specs.Prelude.{◌≡◌, ◌%◌, ℕ, true, ◌∷◌, [], length, IfOk, IfSome};
ghost use Rattle.uda_disk.specs.Answer.{Data, Moved};
ghost use Rattle.uda_disk.specs.Request.{Write};
ghost use Rattle.uda_disk.specs.Status.{SUCCESS};
ghost use Rattle.uda_disk.specs.Units.{AllSound, AreWellFormedIfSound};
ghost use Rattle.uda_disk.specs.Values.{request_value, answer_values};
ghost use Rattle.uda_driver.specs.Run.{units_of};

use uda_disk::status;
use uda_driver::{Answer, Driver, Request, RunError, laws};
use uda_image::FileImage;

/// Writes whole blocks to unit 1, and reads them back. Returns whether the bytes are the same, or `None` if a request
/// failed.
///
/// If both files have been honest until then, they are the same.
pub fn read_back(
    driver: &mut Driver<FileImage>,
    lbn: u32,
    payload: Vec<u8>,
) -> Result<Option<bool>, RunError>
    requires well_formed { AreWellFormedIfSound (units_of driver.old) }
    requires whole { length payload.items % 512 ≡ 0 }
    ensures same { IfOk result (λ found. IfSome found (λ same. AllSound (units_of driver.new) → same ≡ true)) }
{
    let read = Request::Read {
        unit: 1,
        lbn,
        bytes: payload.len() as u64,
    };
    let write = Request::Write {
        unit: 1,
        lbn,
        payload,
    };
    let requests = [write, read];
    let answers = driver.run(&requests)?;
    laws::written_is_read();
    match bytes_after_write(&answers) {
        Some(bytes) => Ok(Some(is_payload(&requests[0], bytes))),
        None => Ok(None),
    }
}

// Returns the bytes of a Read after a Write, if both succeeded.
fn bytes_after_write(answers: &[Answer]) -> Option<&[u8]>
    ensures succeeded { IfSome result (λ bytes.
        (n : ℕ) × (answer_values answers.now ≡ Moved SUCCESS n ∷ Data SUCCESS bytes.now ∷ [])) }
{
    match answers {
        [
            Answer::Moved {
                status: status::SUCCESS,
                ..
            },
            Answer::Data {
                status: status::SUCCESS,
                bytes,
            },
        ] => Some(bytes),
        _ => None,
    }
}

// Returns whether these are the bytes of a Write.
fn is_payload(write: &Request, bytes: &[u8]) -> bool
    ensures same { (u lbn : ℕ) → request_value write.now ≡ record { unit = u; act = Write lbn bytes.now } → result ≡ true }
{
    match write {
        Request::Write { payload, .. } => payload.as_slice() == bytes,
        _ => false,
    }
}
