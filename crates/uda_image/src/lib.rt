//! Stores of the blocks of a disk unit: images in memory, images of which one call fails, and files. The calls on
//! a file tell whether it has been honest, so contracts reach files too.
//!
//! The tests of this crate are in `test_low`.
#![tactic(auto)]

pub mod blocks;
mod error;
mod failing;
mod file;
pub mod laws;
mod length;
mod memory;
mod noted;
mod raw_file;
mod store;
mod trace;

pub use error::ImageError;
pub use failing::FailingImage;
pub use file::FileImage;
pub use memory::MemImage;
pub use raw_file::RawFile;
pub use store::{BLOCK_LIMIT, BlockStore, Drive, STORE_LIMIT, StoreError};
pub use trace::{Call, FileTrace, Supposition};
