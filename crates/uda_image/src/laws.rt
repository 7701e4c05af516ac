//! Laws of stores that are sure to read or to write, each the contract of a function that does nothing, so that a
//! caller's proof can cite it.
//!
//! MSCP Basic Disk Functions Manual: logical blocks, status codes, drive error.
ghost use Rattle.uda_image.specs.Sure.{SureReads, SureWrites};

/// States that a read of a store that is sure to read succeeds. The store is then sound and sure as before, and has not
/// failed.
#[tactic(auto, using(crate::proofs::SureLaws::sure_reads))]
pub fn sure_reads()
    ensures law { SureReads }
{}

/// States the same of a write to a store that is sure to write.
#[tactic(auto, using(crate::proofs::SureLaws::sure_writes))]
pub fn sure_writes()
    ensures law { SureWrites }
{}
