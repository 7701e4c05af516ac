//! The outcome of a restore, and the calls that are to fail in a saved state.
ghost use Rattle.std.specs.Prelude.{◌≡◌};
ghost use Rattle.uda_c.specs.Saving.{calls_have_drives, call_has_drive, refusal_of_bytes, refusal_of_state};
ghost use Rattle.uda_c.specs.Saving.{restore_status, ControllerIsSaved};
ghost use Rattle.uda_exec.specs.Saved.{has_commands};

use crate::call_status::CallStatus;
use uda_exec::{SavedExec, UnitInfo};
use uda_port::RestoreError;
use uda_saved::BytesError;

/// Why a controller can't continue from saved bytes.
#[derive(Clone, Copy, Debug, PartialEq, Eq)]
pub enum RestoreRefusal {
    /// The bytes are no state.
    Bytes(BytesError),
    /// A call is to fail of a unit that has no drive.
    CallWithoutDrive,
    /// A unit of the state doesn't fit its phase, its type or its attention message, or the numbers of the units
    /// wrap past 65,535.
    UnfitUnits,
    /// An additional operation is listed without its command.
    OpWithoutCommand,
    /// The port can't continue from the state.
    Port(RestoreError),
}

/// Returns the status of a restore.
pub fn restore_status(outcome: Result<(), RestoreRefusal>) -> CallStatus
    ensures { result ≡ restore_status outcome }
{
    match outcome {
        Ok(()) => CallStatus::Done,
        Err(RestoreRefusal::Bytes(cause)) => refusal_of_bytes(cause),
        Err(
            RestoreRefusal::CallWithoutDrive
            | RestoreRefusal::UnfitUnits
            | RestoreRefusal::OpWithoutCommand,
        ) => CallStatus::BadState,
        Err(RestoreRefusal::Port(cause)) => refusal_of_state(cause),
    }
}

fn refusal_of_bytes(cause: BytesError) -> CallStatus
    ensures { result ≡ refusal_of_bytes cause }
{
    match cause {
        BytesError::Length => CallStatus::BadLength,
        BytesError::Version => CallStatus::OtherVersion,
        BytesError::Invalid => CallStatus::BadState,
    }
}

fn refusal_of_state(cause: RestoreError) -> CallStatus
    ensures { result ≡ refusal_of_state cause }
{
    match cause {
        RestoreError::Inconsistent => CallStatus::BadState,
        RestoreError::OtherDrives => CallStatus::OtherImages,
    }
}

/// Returns whether each call that is to fail is one of a unit with a drive.
pub fn calls_have_drives(units: [Option<UnitInfo>; 4], calls: [Option<u32>; 4]) -> bool
    ensures { result ≡ calls_have_drives units calls }
{
    let [a, b, c, d] = units;
    let [e, f, g, h] = calls;
    if !call_has_drive(a, e) {
        return false;
    }
    if !call_has_drive(b, f) {
        return false;
    }
    if !call_has_drive(c, g) {
        return false;
    }
    call_has_drive(d, h)
}

// Returns whether a unit has a drive, or no call of it is to fail.
fn call_has_drive(unit: Option<UnitInfo>, call: Option<u32>) -> bool
    ensures { result ≡ call_has_drive unit call }
{
    match (unit, call) {
        (None, Some(_)) => false,
        _ => true,
    }
}

/// Returns whether each additional operation that is listed has its pending command.
pub fn ops_have_commands(exec: &SavedExec) -> bool
    ensures { result ≡ has_commands exec.now }
{
    exec.guest_ops.len() <= exec.pending.len()
}

/// States the law of save and restore: a controller with the images of a saved one, restored from its bytes, has
/// the saved one's port, except for the counts since initialization.
pub fn controller_is_saved()
    ensures law { ControllerIsSaved }
{}
