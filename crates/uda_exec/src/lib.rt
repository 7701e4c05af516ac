//! The executor of a disk controller: four units, and the host's commands on them. It moves blocks between
//! host memory and the stores of the units.
//!
//! Each command corresponds to a request of `uda_disk`, whose effect defines that of the command
//! (`specs/Effect.antt`). `specs/Execution.antt` defines the effect of one execution. The module `scheduler`
//! chooses the next pending command, and no contract depends on the choice. The module `order` has the laws
//! of execution in another order. Tests are in the crate `test_low`.
//!
//! MSCP Basic Disk Functions Manual: unit states, commands and end messages, command ordering.
#![tactic(auto)]

mod block_transfer;
mod block_use;
mod buffer_use;
mod compare;
mod drive_unit;
mod executor;
mod guest_commands;
mod guest_ops;
pub mod laws;
mod named;
pub mod order;
mod refusal;
mod reply;
mod saved;
mod scheduler;

pub use block_use::{BlockAccess, BlockUse};
pub use buffer_use::{BufferUse, bytes_moved};
pub use drive_unit::UnitInfo;
pub use executor::{Exec, PENDING};
pub use saved::{SavedExec, restored_is_saved};
pub use scheduler::Position;
