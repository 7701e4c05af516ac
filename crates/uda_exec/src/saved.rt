//! The state of an executor as a plain value.
//!
//! MSCP Basic Disk Functions Manual: unit states, command ordering.
ghost use Rattle.std.specs.Prelude.{◌≡◌};
ghost use Rattle.uda_exec.specs.Saved.{unit_fits, units_fit, same_flag, ExecRestoredIsSaved};

use crate::drive_unit::UnitInfo;
use crate::executor::PENDING;
use crate::guest_ops::GuestOps;
use crate::scheduler::Position;
use arrayvec::ArrayVec;
use uda_packet::Command;

/// The whole state of an executor, without its stores. [`Exec::save`](crate::Exec::save) returns it, and
/// [`Exec::restore`](crate::Exec::restore) continues from it. Every value is allowed;
/// [`Exec::fits`](crate::Exec::fits) tells whether an executor can continue from it.
#[derive(Debug, Drop)]
pub struct SavedExec {
    /// The mode and the size of each unit, or None if it has no drive.
    pub units: [Option<UnitInfo>; 4],
    /// The pending commands, the oldest first.
    pub pending: ArrayVec<Command, PENDING>,
    /// The additional operations of the pending commands, from the first on. A command past the end of the
    /// list has none.
    pub guest_ops: GuestOps,
    /// The start of the last transfer.
    pub position: Position,
}

// Returns the same items in a vector of their own.
pub(crate) fn copied<T: Copy + Default>(items: &ArrayVec<T, PENDING>) -> ArrayVec<T, PENDING>
    ensures same { result.items ≡ items.now.items }
{
    let mut copy = ArrayVec::new();
    let _ = copy.try_extend_from_slice(items.as_slice());
    copy
}

// Returns whether each unit has the saved drive, by size and hardware write protection.
pub(crate) fn units_fit(saved: [Option<UnitInfo>; 4], here: [Option<UnitInfo>; 4]) -> bool
    ensures { result ≡ units_fit saved here }
{
    let [a, b, c, d] = saved;
    let [e, f, g, h] = here;
    if !unit_fits(a, e) {
        return false;
    }
    if !unit_fits(b, f) {
        return false;
    }
    if !unit_fits(c, g) {
        return false;
    }
    unit_fits(d, h)
}

// Returns whether a unit has the saved drive, by size and hardware write protection, or both have none.
fn unit_fits(saved: Option<UnitInfo>, here: Option<UnitInfo>) -> bool
    ensures { result ≡ unit_fits saved here }
{
    match (saved, here) {
        (None, None) => true,
        (Some(saved), Some(here)) => {
            saved.size == here.size && same_flag(saved.mode.hard, here.mode.hard)
        }
        _ => false,
    }
}

fn same_flag(flag: bool, other: bool) -> bool
    ensures { result ≡ same_flag flag other }
{
    if flag { other } else { !other }
}

/// States the law of save and restore: an executor with the drives of a saved one, restored from its state,
/// is the saved one. Its units have their modes, and its pending commands and its position are the same.
pub fn restored_is_saved()
    ensures law { ExecRestoredIsSaved }
{}
