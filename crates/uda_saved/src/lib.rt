//! The state of a controller as bytes: 1,576 bytes with fixed offsets, and a version.
//!
//! [`SavedState::to_bytes`] writes a state, and [`SavedState::from_bytes`] reads it. Each state has exactly
//! one byte string: what was read gives the same bytes again, and any other string is rejected.
//! `docs/PORT.md` describes the bytes.
//!
//! UDA50 Programmer's Documentation Kit: port registers, communication area, credits. MSCP Basic Disk
//! Functions Manual: command and end messages, unit states.

#![tactic(auto)]

mod row;
mod rows;
mod state;

pub use state::{BytesError, STATE_LENGTH, STATE_VERSION, SavedState};
