//! Copying of blocks from one drive to another through the driver, and comparing them.
//!
//! The source is unit 0 and the target unit 1. After a copy the target holds the blocks of the source, if it
//! succeeds, lost blocks aren't to be skipped, units are well formed, and each store is sound afterwards
//! (`specs/Copy.antt`).
//!
//! Whether it succeeds or fails, it changes no other block, and its reports to an observer say which blocks are copied
//! (`specs/Reports.antt`, `specs/Changes.antt`).
//!
//! A `BlockMap` has the status of each block of a copy. `copy_unfinished` copies the blocks of a range that a map
//! calls unfinished, and a `CopyRecord` notes them in the map (`specs/Record.antt`, `specs/Range.antt`).
#![tactic(auto)]

mod copier;
mod error;
mod map;
mod range;
mod record;
mod requests;
mod trace;

pub use copier::{Copier, Observer};
pub use error::{CopyError, Side};
pub use map::{BlockMap, BlockStatus, MapEntry, MapError};
pub use range::{ZeroBlocks, copy_unfinished};
pub use record::{CopyLog, CopyRecord, CopyStop, EndedRecord};
pub use trace::ReportTrace;
