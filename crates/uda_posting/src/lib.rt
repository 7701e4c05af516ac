//! The translation of requests into commands and of end messages into answers, and the ledger.
//!
//! A request is posted as a command, with a buffer in host memory for the bytes that it moves. Its answer
//! is made from the command's end message and the buffer (`specs/Posting.antt`). `specs/Outstanding.antt` has
//! the invariant while commands are outstanding. It uses the ledger, so commands may end in any order.
//!
//! The ledger is the effect on answers and disks of executing requests out of order. It knows no image, memory
//! or command. It (`specs/Ledger.antt`) is a statement about the answers written so far and the current disks.
//! Suppose that the other requests are executed in their order. Then the whole is an in-order run of all requests
//! in which transfers may fail, whatever the outcomes of those requests.
//!
//! The steps of the ledger are laws. Each is the contract of a function of `ledger` with an empty body.
//!
//! MSCP Basic Disk Functions Manual: commands and end messages, command ordering.
#![tactic(auto)]

mod command;
pub mod ledger;

pub use command::{command_of, write_payload};
