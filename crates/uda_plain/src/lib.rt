//! The in-order run as a program: one array of blocks for each unit, on which requests are executed one at
//! a time, in order.
//!
//! It knows no ring, no message and no second command. A test can compare a driver's answers and disks with
//! it. It also shows what a list of requests should do.
//!
//! MSCP Basic Disk Functions Manual: the commands, unit states, write protection.
#![tactic(auto)]

mod disk;
mod units;

pub use disk::PlainDisk;
pub use units::PlainUnits;
