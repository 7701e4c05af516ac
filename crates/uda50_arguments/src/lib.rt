//! The command line of the program `uda50`: the arguments of each verb, and the task that they describe.
#![tactic(auto)]

mod block_number;
mod block_range;
mod grammar;
mod image_name;
mod reading;
mod task;
mod verbs;

pub use block_range::{BlockRange, WrongRange};
pub use image_name::ImageName;
pub use reading::{ParsedArguments, read_arguments};
pub use task::{Copy, Create, Dump, DumpFormat, Run, Task};
