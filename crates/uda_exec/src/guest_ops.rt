//! The additional operation of each pending command.
//!
//! The list is only as long as necessary. A command past its end has no additional operation, so a strict
//! port never fills the list.
//!
//! MSCP Basic Disk Functions Manual: Set Unit Characteristics, Compare Host Data.
ghost use Rattle.std.specs.Prelude.{◌≡◌, ◌≢◌, ◌+◌, ◌<◌, ◌≤◌, length, remove};
ghost use Rattle.uda_packet.specs.declared.guest_command.GuestOp.TheVariants.{Basic};
ghost use Rattle.uda_exec.specs.GuestOps.{op_at, with_op};

use crate::executor::PENDING;
use arrayvec::ArrayVec;
use uda_packet::GuestOp;

// The additional operations of the pending commands, from the first on.
pub(crate) type GuestOps = ArrayVec<GuestOp, PENDING>;

// Returns the additional operation of the pending command at an index.
pub(crate) fn op_at(ops: &[GuestOp], place: usize) -> GuestOp
    ensures { result ≡ op_at ops.now place }
{
    ops.get(place).copied().unwrap_or(GuestOp::Basic)
}

// Stores the additional operation of a command that is appended at this index.
#[inline(always)]
pub(crate) fn note_op(ops: &mut GuestOps, place: usize, op: GuestOp)
    requires past { length ops.old.items ≤ place }
    requires room { place < 15 }
    ensures noted { ops.new.items ≡ with_op op place ops.old.items }
    ensures within { length ops.new.items ≤ place + 1 }
{
    match op {
        GuestOp::Basic => {}
        GuestOp::SetUnit | GuestOp::Compare => append_op(ops, place, op),
    }
}

// Appends the additional operation of a command that has one. That is rare, so the function isn't inlined.
#[cold]
#[inline(never)]
fn append_op(ops: &mut GuestOps, place: usize, op: GuestOp)
    requires past { length ops.old.items ≤ place }
    requires room { place < 15 }
    requires additional { op ≢ Basic }
    ensures noted { ops.new.items ≡ with_op op place ops.old.items }
    ensures within { length ops.new.items ≤ place + 1 }
{
    while ops.len() < place {
        ops.push(GuestOp::Basic);
    }
    ops.push(op);
}

// Removes the additional operation of the command at an index.
pub(crate) fn drop_op(ops: &mut GuestOps, place: usize)
    ensures dropped { ops.new.items ≡ remove ops.old.items place }
    ensures fewer { place < length ops.old.items → length ops.new.items + 1 ≡ length ops.old.items }
    ensures same { length ops.old.items ≤ place → length ops.new.items ≡ length ops.old.items }
{
    if place < ops.len() {
        ops.remove(place);
    }
}
