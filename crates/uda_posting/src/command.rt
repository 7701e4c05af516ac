//! The command of a request, and the payload for its buffer.
ghost use Rattle.std.specs.Prelude.{◌≡◌, false};
ghost use Rattle.uda_disk.specs.InOrderRun.{too_long};
ghost use Rattle.uda_disk.specs.Values.{request_value};
ghost use Rattle.uda_posting.specs.Posting.{command_of, write_payload};

use uda_disk::Request;
use uda_packet::{Command, Op};

/// Returns the command of the request, with this reference and its buffer at this address.
pub fn command_of(request: &Request, reference: u32, address: u32) -> Command
    requires short { too_long (request_value request.now) ≡ false }
    ensures command { result ≡ command_of (request_value request.now) reference address }
{
    let op = match request {
        Request::Online { protect, .. } => Op::Online {
            soft: Some(*protect),
        },
        Request::Available { .. } => Op::Available,
        Request::Status { .. } => Op::Status,
        Request::Read { lbn, bytes, .. } => Op::Read {
            bytes: *bytes as u32,
            address,
            lbn: *lbn,
        },
        Request::Access { lbn, bytes, .. } => Op::Access {
            bytes: *bytes as u32,
            lbn: *lbn,
        },
        Request::Write { lbn, payload, .. } => Op::Write {
            bytes: payload.len() as u32,
            address,
            lbn: *lbn,
        },
        Request::Erase { lbn, bytes, .. } => Op::Erase {
            bytes: *bytes as u32,
            lbn: *lbn,
        },
    };
    Command {
        reference,
        unit: request.unit(),
        op,
    }
}

/// Returns the bytes that a request puts in its command's buffer: the payload of a Write, or none.
pub fn write_payload(request: &Request) -> &[u8]
    ensures bytes { result.now ≡ write_payload (request_value request.now).act }
{
    match request {
        Request::Write { payload, .. } => payload,
        _ => &[],
    }
}
