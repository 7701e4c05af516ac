//! The answers of a driver to requests.
ghost use Rattle.std.specs.Prelude.{Some};
ghost use Rattle.uda_disk.specs.Display.{answer_display};
ghost use Rattle.uda_disk.specs.Values.{answer_value};

use std::fmt;

/// The answer of a driver to a request. A request that isn't too long has the answer of its own kind,
/// whether it is executed or rejected.
///
/// MSCP Basic Disk Functions Manual: end messages, status and event codes.
#[derive(Debug, Drop, PartialEq, Eq)]
pub enum Answer {
    /// The answer to a request of more bytes than one command of the driver can move. It was never posted.
    TooLong,
    /// The answer to an Available.
    Plain {
        /// The status word.
        status: u16,
    },
    /// The answer to an Online.
    Online {
        /// The status word.
        status: u16,
        /// The unit flags: 0x1000 software protection, 0x2000 hardware protection.
        flags: u16,
        /// The unit's size in blocks.
        size: u32,
    },
    /// The answer to a Status.
    Status {
        /// The status word.
        status: u16,
        /// The unit flags.
        flags: u16,
    },
    /// The answer to an Access, a Write or an Erase.
    Moved {
        /// The status word.
        status: u16,
        /// The number of bytes moved: all, or those of the blocks before the one that failed.
        bytes: u32,
    },
    /// The answer to a Read.
    Data {
        /// The status word.
        status: u16,
        /// The bytes that were read: all, or those of the blocks before the one that failed.
        bytes: Vec<u8>,
    },
}

/// Writes a line such as `0000 1000 891072`: the status, and then flags, a size, or a number of bytes.
/// Writes `long` for [`Answer::TooLong`].
impl fmt::Display for Answer {
    ghost output = { λ answer. Some (answer_display (answer_value answer)) };

    fn fmt<W: fmt::Write>(&self, f: &mut fmt::Formatter<W>) -> fmt::Result {
        match self {
            Answer::TooLong => f.write_str("long"),
            Answer::Plain { status } => write!(f, "{status:04x}"),
            Answer::Online {
                status,
                flags,
                size,
            } => write!(f, "{status:04x} {flags:04x} {size}"),
            Answer::Status { status, flags } => write!(f, "{status:04x} {flags:04x}"),
            Answer::Moved { status, bytes } => write!(f, "{status:04x} {bytes}"),
            Answer::Data { status, bytes } => write!(f, "{status:04x} {}", bytes.len()),
        }
    }
}
