//! The law of in-order runs with failed transfers, as the contract of a function that does nothing.
//!
//! MSCP Basic Disk Functions Manual: status and event codes, drive error.
ghost use Rattle.uda_disk.specs.InOrderRun.{EachFailureIsReported};

/// States that no transfer failed if no answer of an in-order run with failures has the status drive error.
/// Answers and disks are then those of the in-order run.
pub fn each_failure_is_reported()
    ensures law { EachFailureIsReported }
{}
