//! The port of a UDA50 disk controller.
//!
//! Its tests are in the crate `test_low`.
#![tactic(auto)]

mod alloc_error;
mod area;
mod at_once;
mod attention;
mod block_use;
mod descriptor;
mod drives;
mod guest;
mod inspect;
mod interrupt;
mod memory_use;
mod message;
mod packet;
mod phase;
mod plan;
mod play;
mod port;
mod possible;
mod profile;
mod ring;
mod saved;
mod startup;
mod startup_at;
mod tally;
mod trace;
mod turn;
mod turn_at;

pub use alloc_error::PortAllocError;
pub use attention::attention_arrives;
pub use descriptor::Descriptor;
pub use guest::Guest;
pub use interrupt::Interrupts;
pub use memory_use::{Body, Missing};
pub use packet::Fetched;
pub use phase::{Fatal, Phase};
pub use plan::Plan;
pub use play::HostEvent;
pub use port::{Port, USUAL_IDENTITY};
pub use profile::Profile;
pub use ring::{RING_BASE_LIMIT, Ring, RingFault, RingParts};
pub use saved::{RestoreError, Saved, restored_is_saved, same_future};
pub use trace::Trace;
pub use turn::{CREDITS, Turn};
pub use turn_at::{BusTurn, Fate, TurnTaken};
