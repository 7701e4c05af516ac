//! The copy of a unit to another, in two runs of one driver.
ghost use Rattle.std.specs.Prelude.{◌≡◌, true, IfOk};
ghost use Rattle.uda_disk.specs.Units.{AllFaithful};
ghost use Rattle.uda_driver.specs.Run.{units_of};
ghost use Rattle.example.specs.driver.Copy.{CanCopy, IsCopied};

use uda_driver::{Answer, Driver, Request, RunError, any_drive_error};
use uda_image::BlockStore;

/// Copies unit 0 to unit 1, which both have `blocks` blocks. Returns whether it succeeded, since a store
/// may fail.
pub fn copy<S: BlockStore>(driver: &mut Driver<S>, blocks: u32) -> Result<bool, RunError>
    requires faithful { AllFaithful (units_of driver.old) }
    requires able { CanCopy (units_of driver.old) blocks }
    ensures copied { IfOk result (λ done.
        done ≡ true → IsCopied (units_of driver.old) (units_of driver.new)) }
{
    let mut read = driver.run(&[
        Request::Online {
            unit: 0,
            protect: false,
        },
        Request::Online {
            unit: 1,
            protect: false,
        },
        Request::Read {
            unit: 0,
            lbn: 0,
            bytes: 512 * u64::from(blocks),
        },
    ])?;
    if any_drive_error(&read) {
        return Ok(false);
    }
    let Some(Answer::Data { bytes, .. }) = read.pop() else {
        return Ok(false);
    };
    let written = driver.run(&[Request::Write {
        unit: 1,
        lbn: 0,
        payload: bytes,
    }])?;
    Ok(!any_drive_error(&written))
}
