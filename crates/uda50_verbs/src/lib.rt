//! The verbs of the program `uda50`.
#![tactic(auto)]

mod check;
mod container;
mod copy;
mod copy_follower;
mod create;
mod decode;
mod dump;
mod entry;
mod fault;
mod file_fault;
mod image;
mod image_copy;
mod info;
mod input_blocks;
mod lasting;
mod map_file;
mod names;
mod notes;
mod outcome;
mod printer;
mod progress;
mod raw_blocks;
mod reason;
mod run;
mod script;
mod script_help;
mod stream;
mod streams;
mod target;
mod trace;
mod unreadable;

pub use entry::{program, unreadable_arguments};
pub use outcome::Outcome;
