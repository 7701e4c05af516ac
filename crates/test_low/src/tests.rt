//! Memory and slices, packets, images, also over a file in memory, the executor over files and over any stores, and
//! the port over any stores.
mod callers;
mod files;
mod images;
mod mem_file;
mod memory;
mod slices;
mod stores;
mod texts;

use std::alloc::{AllocError, Global};
use std::fmt;

// Returns whether a value prints this text.
fn prints(alloc: Global, value: &impl fmt::Display, text: &str) -> Result<bool, AllocError> {
    Ok(format!(in alloc; "{value}")?.as_str() == text)
}
