//! Requests and answers in the form of the tables.
use std::alloc::{AllocError, Global};
use uda_disk::{Answer, Request};

/// A request, for unit 0 if it has no unit.
#[derive(Clone, Copy)]
pub enum Ask {
    /// Brings the unit online.
    Online,
    /// Brings the unit online, with software protection.
    Protect,
    /// Makes the unit available.
    Available,
    /// Asks for a unit's state.
    Status(u16),
    /// Reads bytes, starting at a block.
    Read(u32, u64),
    /// Reads bytes, starting at block 0, without returning them.
    Access(u64),
    /// Writes a byte, a number of times, starting at a block.
    Write(u32, u8, usize),
    /// Clears block 0.
    Erase,
}

impl Ask {
    /// Makes the request.
    pub fn request(self, alloc: Global) -> Result<Request, AllocError> {
        let (unit, lbn) = (0, 0);
        Ok(match self {
            Ask::Online => {
                let protect = false;
                Request::Online { unit, protect }
            }
            Ask::Protect => {
                let protect = true;
                Request::Online { unit, protect }
            }
            Ask::Available => Request::Available { unit },
            Ask::Status(unit) => Request::Status { unit },
            Ask::Read(lbn, bytes) => Request::Read { unit, lbn, bytes },
            Ask::Access(bytes) => Request::Access { unit, lbn, bytes },
            Ask::Write(lbn, byte, count) => {
                let payload = Vec::from_elem(alloc, byte, count)?;
                Request::Write { unit, lbn, payload }
            }
            Ask::Erase => {
                let bytes = 512;
                Request::Erase { unit, lbn, bytes }
            }
        })
    }
}

/// An answer.
#[derive(Clone, Copy)]
pub enum Reply {
    TooLong,
    /// A status.
    Plain(u16),
    /// A status, flags and a size.
    Online(u16, u16, u32),
    /// A status, without flags.
    Status(u16),
    /// A status, and the number of bytes moved.
    Moved(u16, u32),
    /// Success, with bytes: a byte, how many times it occurs, and how many zeros follow.
    Data(u8, usize, usize),
    /// A status, without bytes.
    NoData(u16),
}

impl Reply {
    /// Returns whether an answer is this.
    pub fn is(self, answer: &Answer) -> bool {
        let flags = 0;
        let wanted = match self {
            Reply::TooLong => Answer::TooLong,
            Reply::Plain(status) => Answer::Plain { status },
            Reply::Online(status, flags, size) => Answer::Online {
                status,
                flags,
                size,
            },
            Reply::Status(status) => Answer::Status { status, flags },
            Reply::Moved(status, bytes) => Answer::Moved { status, bytes },
            Reply::Data(byte, count, zeros) => return has_bytes(answer, 0, byte, count, zeros),
            Reply::NoData(status) => return has_bytes(answer, status, 0, 0, 0),
        };
        *answer == wanted
    }
}

// Returns whether a Read's answer has this status, `count` times this byte, and then `zeros` zeros.
fn has_bytes(answer: &Answer, wanted: u16, byte: u8, count: usize, zeros: usize) -> bool {
    match answer {
        Answer::Data { status, bytes } => {
            *status == wanted
                && bytes.len() == count.saturating_add(zeros)
                && are_bytes(bytes, byte, count)
        }
        _ => false,
    }
}

// Returns whether these are `count` times this byte, and then zeros.
fn are_bytes(bytes: &[u8], byte: u8, count: usize) -> bool {
    for (k, is) in bytes.iter().enumerate() {
        let wanted = if k < count { byte } else { 0 };
        if *is != wanted {
            return false;
        }
    }
    true
}
