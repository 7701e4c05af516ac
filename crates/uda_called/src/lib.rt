//! Images that a program reads and writes by calls of its own, outside of the proved code, and bytes that it lends.
//!
//! MSCP Basic Disk Functions Manual: logical blocks, drive error.
#![tactic(auto)]

mod image;
mod lent;

pub use image::CalledImage;
pub use lent::BorrowedBytes;
