//! The host: its rings, texts and buffers in memory, the commands that it posts and the end messages that it
//! receives.
//!
//! This crate knows nothing of requests. `HostState` is the state for callers (`specs/Host.antt`), with the
//! effect of a post and of a turn. `specs/Layout.antt` defines the addresses of rings, packets and buffers,
//! and `specs/Slots.antt` the contents of the rings. `specs/HostPortAgreement.antt` is the invariant between host and
//! port.
//!
//! UDA50 Programmer's Documentation Kit: communication area, ring descriptors, message envelopes, credits.
#![tactic(auto)]

mod host;
mod posted;
mod ring;
mod start;

pub use host::Host;
pub use ring::buffer_address;
