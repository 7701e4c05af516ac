//! Scripts of block requests, run by a driver.
//!
//! The tests of this crate are in `test_script`.
#![tactic(auto)]

mod batch;
mod channels;
mod growth;
mod put;
mod report_line;
mod requests;
mod script;
mod source;
mod stream;
mod style;
mod text_error;
mod text_reader;
mod texts;

pub use channels::Channels;
pub use requests::read_requests;
pub use script::run_script;
pub use stream::{run_buffered_text, run_text};
pub use style::{ReportStyle, ScriptOutcome};
pub use text_error::TextError;
