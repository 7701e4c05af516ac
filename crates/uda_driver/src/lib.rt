//! The class driver. It executes a list of requests by commands, of which up to fifteen are outstanding at
//! once.
//!
//! The tests of this crate are in `test_driver`.
#![tactic(auto)]

mod answers;
mod buffers;
mod driver;
mod errors;
mod losses;
mod outstanding;
mod run_loop;
mod span;
mod sure;
mod watch;

pub use driver::{Driver, REQUEST_LIMIT, RunError};
pub use errors::StartError;
pub use losses::any_drive_error;
pub use sure::sure_run;
pub use uda_disk::{Answer, Mode, Refusal, Request, UnitFlags, laws};
pub use uda_port::Trace;
pub use watch::{Unwatched, Watch};
