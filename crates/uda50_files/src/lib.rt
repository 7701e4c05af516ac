//! Files as images of `uda50`: opening, the reasons of failures, and zeros.
#![tactic(auto)]

mod ahead;
mod data;
mod devices;
mod failures;
mod mounts;
mod noting;
mod open;
mod sparse;
mod target_zeros;

pub use data::DataBlocks;
pub use failures::{Failure, Failures};
pub use noting::NotingFile;
pub use open::{Access, Image, ImageFile, OpenError, OpenImageFile, SearchedImage, TargetFile};
pub use sparse::SparseFile;
pub use target_zeros::TargetZeros;
