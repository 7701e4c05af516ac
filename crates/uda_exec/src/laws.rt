//! Laws of one execution, each the contract of a function that does nothing, so that a caller's proof can cite it.
//!
//! MSCP Basic Disk Functions Manual: command ordering, transfer commands.
ghost use Rattle.uda_exec.specs.BlockReads.{OnlyUsedBlocksAreRead};
ghost use Rattle.uda_exec.specs.Laws.{OnlyOneIsExecuted, OnlyGuestIsExecuted, OnlyUsedBlocksChange};

/// States that the only pending command is the one that is executed, and that none is pending then.
#[tactic(auto, using(crate::proofs::OnlyOne::only_one_is_executed))]
pub fn only_one_is_executed()
    ensures law { OnlyOneIsExecuted }
{}

/// States the same of a command of the compatible profile.
#[tactic(auto, using(crate::proofs::OnlyOne::only_guest_is_executed))]
pub fn only_guest_is_executed()
    ensures law { OnlyGuestIsExecuted }
{}

/// States that a command changes only the blocks of [`Exec::block_use_at`](crate::Exec::block_use_at). If it writes
/// them, they get the bytes of [`Exec::copy_written`](crate::Exec::copy_written), up to a block at which the store
/// fails. That block may have any 512 bytes. This holds of each unit whose store is sound afterwards.
///
/// MSCP Basic Disk Functions Manual: transfer commands.
pub fn only_used_blocks_change()
    ensures law { OnlyUsedBlocksChange }
{}

/// States that a command reads only the blocks of its range. It would have had the same end message, and left the same
/// memory, whatever all other blocks were. A command that takes effect is one whose store is faithful, or sound
/// afterwards.
///
/// MSCP Basic Disk Functions Manual: transfer commands.
pub fn only_used_blocks_are_read()
    ensures law { OnlyUsedBlocksAreRead }
{}
