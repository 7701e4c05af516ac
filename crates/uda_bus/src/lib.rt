//! The way from a bus address of a PDP-11 or a VAX to the guest's memory. It leads through map registers:
//! those of a UNIBUS map, of a UNIBUS adapter, or of a Q-bus map. Bytes are copied through them both ways,
//! and a port takes turns over them.
//!
//! `checks/c-calls/maps.c` tests this crate.
#![tactic(auto)]

mod copy;
mod map;
mod transfer;
mod turn;

pub use map::{BusMap, MapForm, Registers};
pub use turn::Window;
