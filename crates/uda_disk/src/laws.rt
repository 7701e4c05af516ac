//! Laws for callers who reason about their own lists of requests. Each is the contract of a function that
//! does nothing.
//!
//! MSCP Basic Disk Functions Manual: transfer commands, write protection.
ghost use Rattle.uda_disk.specs.Laws.{AllowedIsDone, WholeCount, JoinedAndCut, UnwrittenStays};
ghost use Rattle.uda_disk.specs.Laws.{WholeRead, WholeWrite, UnitRequestIsDone, FirstThenOthers};
ghost use Rattle.uda_disk.specs.Laws.{ProtectedStays, ProtectedStaysWithFailures, LastHasLastPlace, WrittenIsRead};

/// States that a transfer succeeds in the in-order run if all of this holds: it isn't too long, the unit is
/// online, the byte count is even, the range lies on the unit, and it changes nothing that is protected.
#[tactic(auto, using(crate::proofs::Callers::allowed_is_done))]
pub fn allowed_is_done()
    ensures law { AllowedIsDone }
{}

/// States that the bytes of n whole blocks take n blocks.
#[tactic(auto, using(crate::proofs::Callers::whole_count))]
pub fn whole_count()
    ensures law { WholeCount }
{}

/// States that whole blocks that are joined and divided again are the same.
#[tactic(auto, using(crate::proofs::Callers::joined_and_cut))]
pub fn joined_and_cut()
    ensures law { JoinedAndCut }
{}

/// States that a request that isn't a Write or an Erase leaves the blocks unchanged.
#[tactic(auto, using(crate::proofs::Callers::unwritten_stays))]
pub fn unwritten_stays()
    ensures law { UnwrittenStays }
{}

/// States that a Read of a whole unit returns all its bytes.
#[tactic(auto, using(crate::proofs::Callers::whole_read))]
pub fn whole_read()
    ensures law { WholeRead }
{}

/// States that a Write of whole blocks, as many as the unit has, replaces all its blocks by those.
#[tactic(auto, using(crate::proofs::Callers::whole_write))]
pub fn whole_write()
    ensures law { WholeWrite }
{}

/// States that a request that is no transfer is executed if its unit has a drive.
#[tactic(auto, using(crate::proofs::Callers::unit_request_is_done))]
pub fn unit_request_is_done()
    ensures law { UnitRequestIsDone }
{}

/// States that a list is run by its first request and then by the others.
#[tactic(auto, using(crate::proofs::Callers::first_then_others))]
pub fn first_then_others()
    ensures law { FirstThenOthers }
{}

/// States that no list of requests changes the blocks of a unit whose drive is write-protected.
#[tactic(auto, using(crate::proofs::Protected::protected_stays))]
pub fn protected_stays()
    ensures law { ProtectedStays }
{}

/// States that no list of requests changes those blocks if transfers may fail, either.
#[tactic(auto, using(crate::proofs::Protected::protected_stays_with_failures))]
pub fn protected_stays_with_failures()
    ensures law { ProtectedStaysWithFailures }
{}

/// States that a Read right after a Write of the same blocks returns the bytes of its payload, if both succeed.
pub fn written_is_read()
    ensures law { WrittenIsRead }
{}

/// States that the answer that `pop` removes is the one at the last index.
#[tactic(auto, using(crate::proofs::Callers::last_has_last_place))]
pub fn last_has_last_place()
    ensures law { LastHasLastPlace }
{}
