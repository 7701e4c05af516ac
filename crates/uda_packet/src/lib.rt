//! The messages between a host and a disk controller. This crate encodes and decodes the 48-byte texts of
//! MSCP commands and end messages, and the envelope below each.
//!
//! A grammar over the fields defines the meaning of a text (`specs/Text.antt`). Encoding follows the same
//! table of fields (`specs/Written.antt`). Any 48 bytes are either the text of exactly one command, or
//! invalid for exactly one reason. A decoded text gives the message that it was encoded from.
//!
//! MSCP Basic Disk Functions Manual: command and end messages. UDA50 Programmer's Documentation Kit:
//! message envelopes.
//!
//! The tests of this crate are in `test_low`.

#![tactic(auto)]

mod bad;
mod command;
mod decoding;
mod drive_type;
mod encoding;
mod end;
mod envelope;
mod field;
mod flags;
mod guest;
mod guest_command;
mod guest_end;
mod reply;
mod transfer;

pub use bad::{Bad, BadKind};
pub use bitflags::Flags;
pub use command::{Command, Op};
pub use decoding::{decode_command, decode_end};
pub use drive_type::{DriveTraits, DriveType, Geometry, UNREPORTED_TYPES, UnreportedType};
pub use encoding::{encode_command, encode_end};
pub use end::{End, EndBody, Kind};
pub use envelope::Envelope;
pub use flags::Modifiers;
pub use guest::{decode_for_guests, other_connection_reply};
pub use guest_command::{GuestCommand, GuestOp};
pub use guest_end::{
    ATTENTION_LENGTH, Bus, Identity, Report, UnitReport, encode_guest_end, encode_unit_available,
};
pub use reply::{Reply, ReplyBody, decode_reply, encode_reply};
pub use transfer::Transfer;
pub use uda_disk::{UnitFlags, status};
