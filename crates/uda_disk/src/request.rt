//! The requests to a unit.
ghost use Rattle.std.specs.Prelude.{◌≡◌, option_map};
ghost use Rattle.uda_disk.specs.Request.{extent_of};
ghost use Rattle.uda_disk.specs.Order.{clash};
ghost use Rattle.uda_disk.specs.InOrderRun.{too_long};
ghost use Rattle.uda_disk.specs.Values.{request_value, extent_value};

use crate::extent::{Extent, TRANSFER_LIMIT};

/// A request to a driver concerning one unit.
///
/// The last four are transfers. Each has a range: a number of bytes from the start of a first block, or the
/// bytes to write there. An odd count is rejected.
///
/// A count that isn't a multiple of 512 ends in a partial block. A Read returns its first bytes, and a
/// Write fills its rest with zeros. An Access reads the whole block, and an Erase clears it.
///
/// MSCP Basic Disk Functions Manual: Access, Available, Erase, Get Unit Status, Online, Read and Write
/// commands.
#[derive(Debug, Drop)]
pub enum Request {
    /// Brings the unit online.
    Online {
        /// The unit's number.
        unit: u16,
        /// Whether the unit is to have software write protection.
        protect: bool,
    },
    /// Makes the unit available, so that its use ends.
    Available {
        /// The unit's number.
        unit: u16,
    },
    /// Asks for the unit's state.
    Status {
        /// The unit's number.
        unit: u16,
    },
    /// Reads bytes.
    Read {
        /// The unit's number.
        unit: u16,
        /// The first logical block.
        lbn: u32,
        /// The number of bytes.
        bytes: u64,
    },
    /// Reads blocks without returning their data.
    Access {
        /// The unit's number.
        unit: u16,
        /// The first logical block.
        lbn: u32,
        /// The number of bytes.
        bytes: u64,
    },
    /// Writes bytes.
    Write {
        /// The unit's number.
        unit: u16,
        /// The first logical block.
        lbn: u32,
        /// The bytes.
        payload: Vec<u8>,
    },
    /// Writes zeros.
    Erase {
        /// The unit's number.
        unit: u16,
        /// The first logical block.
        lbn: u32,
        /// The number of bytes.
        bytes: u64,
    },
}

impl Request {
    /// Returns the unit's number.
    pub fn unit(&self) -> u16
        ensures unit { result ≡ (request_value self.now).unit }
    {
        match self {
            Request::Online { unit, .. }
            | Request::Available { unit }
            | Request::Status { unit }
            | Request::Read { unit, .. }
            | Request::Access { unit, .. }
            | Request::Write { unit, .. }
            | Request::Erase { unit, .. } => *unit,
        }
    }

    /// Returns the range of a transfer, or `None` for any other request.
    pub fn extent(&self) -> Option<Extent>
        ensures extent { option_map extent_value result ≡ extent_of (request_value self.now).act }
    {
        let (lbn, bytes, writes) = match self {
            Request::Read { lbn, bytes, .. } => (*lbn, *bytes, false),
            Request::Access { lbn, bytes, .. } => (*lbn, *bytes, false),
            Request::Write { lbn, payload, .. } => (*lbn, payload.len() as u64, true),
            Request::Erase { lbn, bytes, .. } => (*lbn, *bytes, true),
            _ => return None,
        };
        Some(Extent { lbn, bytes, writes })
    }

    /// Returns whether the request has more bytes than one command of a driver can move.
    pub fn is_too_long(&self) -> bool
        ensures long { result ≡ too_long (request_value self.now) }
    {
        match self {
            Request::Read { bytes, .. } => *bytes > u64::from(TRANSFER_LIMIT),
            Request::Write { payload, .. } => payload.len() as u64 > u64::from(TRANSFER_LIMIT),
            Request::Access { bytes, .. } | Request::Erase { bytes, .. } => *bytes
                > u64::from(u32::MAX),
            _ => false,
        }
    }

    /// Returns whether the two requests conflict, so that they must not be outstanding together. Both are
    /// transfers of one unit, their ranges share a block, and one of them is a Write or an Erase.
    ///
    /// MSCP Basic Disk Functions Manual: command ordering.
    pub fn clashes(&self, other: &Request) -> bool
        ensures clash { result ≡ clash (request_value self.now) (request_value other.now) }
    {
        match (self.extent(), other.extent()) {
            (Some(a), Some(b)) => {
                self.unit() == other.unit() && (a.writes || b.writes) && a.overlaps(b)
            }
            _ => false,
        }
    }
}
