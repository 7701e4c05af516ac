//! The requests of a copy, and the results in their answers.
ghost use Rattle.std.specs.Prelude.{◌≡◌, ◌*◌, ◌<◌, ◌≤◌, length, All, IfOk, OnOk};
ghost use Rattle.uda_disk.specs.Answer.{Data, Moved};
ghost use Rattle.uda_disk.specs.Status.{SUCCESS};
ghost use Rattle.uda_disk.specs.Values.{request_value, request_values, answer_value, answer_values};
ghost use Rattle.uda50_copy.specs.Copy.{unit_of, read_from, write_of, AreReads, ArePairedReads, AreWritten, IsReading, IsSuccess};
ghost use Rattle.uda50_copy.specs.Copy.{WritesNothing};

use crate::error::{CopyError, Side};
use std::alloc::{AllocError, Global};
use std::ops::Range;
use uda_disk::{Answer, Request, TRANSFER_LIMIT, status};

/// The most blocks of one request.
pub(crate) const REQUEST_BLOCKS: u32 = TRANSFER_LIMIT / 512;

/// Returns a Read of blocks.
pub(crate) fn make_read(side: Side, lbn: u32, count: u32) -> Request
    ensures read { request_value result ≡ read_from (unit_of side) lbn count }
    ensures writes_nothing { WritesNothing (request_value result) }
{
    Request::Read {
        unit: side.unit(),
        lbn,
        bytes: 512 * u64::from(count),
    }
}

/// Returns a Write of blocks to the target.
pub(crate) fn make_write(lbn: u32, payload: Vec<u8>) -> Request
    ensures write { request_value result ≡ write_of lbn payload.items }
{
    Request::Write {
        unit: Side::Target.unit(),
        lbn,
        payload,
    }
}

/// Returns Reads of these blocks from the source, of at most `piece` blocks each.
pub(crate) fn source_reads(
    alloc: Global,
    blocks: Range<u32>,
    piece: u32,
) -> Result<Vec<Request>, AllocError>
    requires some { 0 < piece }
    ensures reads { IfOk result (λ requests.
        AreReads blocks.start blocks.end piece (request_values requests.items)) }
{
    let mut requests = Vec::new(alloc);
    let mut lbn = blocks.start;
    while lbn < blocks.end {
        let count = piece.min(blocks.end - lbn);
        requests.push(make_read(Side::Source, lbn, count))?;
        lbn += count;
    }
    Ok(requests)
}

/// Returns Reads of these blocks from both drives, of at most `piece` blocks each: for each piece one from the
/// source and one from the target.
pub(crate) fn paired_reads(
    alloc: Global,
    blocks: Range<u32>,
    piece: u32,
) -> Result<Vec<Request>, AllocError>
    requires some { 0 < piece }
    ensures reads { IfOk result (λ requests.
        ArePairedReads piece (request_values requests.items) blocks.start blocks.end) }
    ensures writes_nothing { IfOk result (λ requests.
        All WritesNothing (request_values requests.items)) }
{
    let mut requests = Vec::new(alloc);
    let mut lbn = blocks.start;
    while lbn < blocks.end {
        let count = piece.min(blocks.end - lbn);
        requests.push(make_read(Side::Source, lbn, count))?;
        requests.push(make_read(Side::Target, lbn, count))?;
        lbn += count;
    }
    Ok(requests)
}

/// The result of a Read.
#[derive(Drop)]
pub(crate) enum BlockReading {
    /// All bytes were read.
    Bytes(Vec<u8>),
    /// The drive failed.
    Failed,
}

/// Returns the result of a Read, or the error that the controller rejected it.
pub(crate) fn reading_of(side: Side, answer: Answer) -> Result<BlockReading, CopyError>
    ensures reading { IfOk result (IsReading (answer_value answer)) }
{
    match answer {
        Answer::Data {
            status: status::SUCCESS,
            bytes,
        } => Ok(BlockReading::Bytes(bytes)),
        Answer::Data {
            status: status::DRIVE_ERROR,
            ..
        } => Ok(BlockReading::Failed),
        other => Err(CopyError::Rejected(side, status_or_invalid_length(&other))),
    }
}

/// Checks the answers of Writes.
pub(crate) fn all_written(writes: &[Request], answers: &[Answer]) -> Result<(), CopyError>
    requires counted { length answers.now ≡ length writes.now }
    ensures written { OnOk result (AreWritten (request_values writes.now) (answer_values answers.now)) }
{
    for (k, request) in writes.iter().enumerate() {
        if let Request::Write { lbn, .. } = request {
            written(*lbn, &answers[k])?;
        }
    }
    Ok(())
}

/// Checks the answer of a Write of blocks from `lbn`.
pub(crate) fn written(lbn: u32, answer: &Answer) -> Result<(), CopyError>
    ensures written { OnOk result (IsSuccess (answer_value answer.now)) }
{
    match answer {
        Answer::Moved {
            status: status::SUCCESS,
            ..
        } => Ok(()),
        Answer::Moved {
            status: status::DRIVE_ERROR,
            bytes,
        } => Err(CopyError::Write(lbn.saturating_add(bytes / 512))),
        other => Err(CopyError::Rejected(Side::Target, status_or_invalid_length(other))),
    }
}

/// Returns the status word of an answer, or that of an invalid length if the request was too long.
pub(crate) fn status_or_invalid_length(answer: &Answer) -> u16 {
    match answer {
        Answer::TooLong => status::INVALID_LENGTH,
        Answer::Plain { status }
        | Answer::Online { status, .. }
        | Answer::Status { status, .. }
        | Answer::Moved { status, .. }
        | Answer::Data { status, .. } => *status,
    }
}

/// Returns the bytes of Writes as answers whose memory the driver can reuse.
pub(crate) fn reusable_answers(
    alloc: Global,
    writes: Vec<Request>,
) -> Result<Vec<Answer>, AllocError> {
    let mut room = Vec::with_capacity(alloc, writes.len())?;
    for request in writes {
        if let Request::Write { payload, .. } = request {
            room.push(Answer::Data {
                status: status::SUCCESS,
                bytes: payload,
            })?;
        }
    }
    Ok(room)
}
