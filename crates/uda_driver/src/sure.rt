//! The law of runs over stores that are sure, as the contract of a function that does nothing.
//!
//! MSCP Basic Disk Functions Manual: status and event codes, drive error.
ghost use Rattle.uda_driver.specs.Sure.{SureRun};

/// States that a run over sure units is the in-order run. A unit is sure if its store is faithful and no call of it
/// fails, other than writes that its drive's own switch keeps from it. No store failed then, and all units are sound
/// and sure.
///
/// Images in memory are sure, and so are image files whose bytes are known and whose calls never fail. One that was
/// opened for reading only is sure if its drive is write-protected.
pub fn sure_run()
    ensures law { SureRun }
{}
