//! One array of blocks for each unit, the effect of requests on it, and their answers.
//!
//! Nothing here knows a host, its memory, a command or a message. This crate has the definitions that the
//! contracts of the layers above use:
//!
//! - the answer and the effect of one request (`specs/RequestEffect.antt`), given the outcome of its transfer: it
//!   succeeds, or it fails at some block;
//! - those of a list of requests executed in order (`specs/InOrderRun.antt`);
//! - the requests that may be executed in another order (`order`);
//! - the law that an answer reports each failure (`losses`).
//!
//! Its tests are computed lemmas (`proofs/Examples.antt`), and `uda_plain` executes the definitions.
//!
//! MSCP Basic Disk Functions Manual: the commands, unit states, status and event codes, command ordering.
#![tactic(auto)]

mod answer;
mod blocks;
mod extent;
mod flags;
pub mod laws;
pub mod losses;
mod mode;
pub mod order;
mod refusal;
mod request;
pub mod status;

pub use answer::Answer;
pub use blocks::first_block;
pub use extent::{Extent, TRANSFER_LIMIT};
pub use flags::UnitFlags;
pub use mode::Mode;
pub use refusal::Refusal;
pub use request::Request;
