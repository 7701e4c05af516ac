//! The program `uda`: scripts of block requests over disk images, and a probe of the controller.
//!
//! The tests of this crate are in `test_script`.
#![tactic(auto)]

mod entry;
mod fault;
mod files;
mod hexadecimal;
pub mod probe;
mod run;
mod words;

pub use entry::{program, report_unreadable_arguments};
pub use fault::ProgramFault;
pub use uda_grammar::{Script, ScriptError, parse};
pub use uda_script_run::run_script;
