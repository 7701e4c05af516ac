//! The answers: their preparation before the first command, and their content from end messages.
ghost use Rattle.std.specs.Prelude.{◌≡◌, ◌≤◌, true, false, length, take, vec_capacity, IfOk};
ghost use Rattle.uda_exec.specs.Commands.{buffer_length};
ghost use Rattle.uda_disk.specs.InOrderRun.{too_long};
ghost use Rattle.uda_posting.specs.Posting.{op_of, answer_of};
ghost use Rattle.uda_disk.specs.Values.{request_value, answer_value, request_values};
ghost use Rattle.uda_host.specs.Layout.{buffer_size};
ghost use Rattle.uda_driver.specs.Blank.{Prepared, AreBlank};

use std::alloc::{AllocError, Global};
use uda_disk::{Answer, Request};
use uda_packet::{End, EndBody};

// Returns a vector with capacity for `count` bytes: an earlier answer's, if its capacity suffices.
fn room_for(alloc: Global, count: usize, used: Option<Answer>) -> Result<Vec<u8>, AllocError>
    ensures room { IfOk result (λ bytes. count ≤ vec_capacity bytes) }
{
    if let Some(Answer::Data { bytes, .. }) = used {
        if count <= bytes.capacity() {
            return Ok(bytes);
        }
    }
    Vec::with_capacity(alloc, count)
}

// Returns the answer of a request before it is posted.
fn blank(alloc: Global, request: &Request, used: Option<Answer>) -> Result<Answer, AllocError>
    ensures long { IfOk result (λ a.
        too_long (request_value request.now) ≡ true → a ≡ Answer.TooLong) }
    ensures room { IfOk result (λ a.
        too_long (request_value request.now) ≡ false
        → Prepared (request_value request.now) a) }
{
    match request {
        Request::Read { bytes, .. } if !request.is_too_long() => Ok(Answer::Data {
            status: 0,
            bytes: room_for(alloc, *bytes as usize, used)?,
        }),
        _ => Ok(Answer::TooLong),
    }
}

/// Returns the answers before the first command: `TooLong` for a request that is too long, and capacity for
/// the bytes of a Read. Memory of the earlier answers is reused if it suffices.
pub(crate) fn blanks(
    alloc: Global,
    requests: &[Request],
    mut used: Vec<Answer>,
) -> Result<Vec<Answer>, AllocError>
    ensures counted { IfOk result (λ answers. length answers.items ≡ length requests.now) }
    ensures blank { IfOk result (λ answers.
        AreBlank (request_values requests.now) 0 answers.items) }
{
    let mut answers = Vec::new(alloc);
    for request in requests {
        answers.push(blank(alloc, request, used.pop())?)?;
    }
    Ok(answers)
}

/// Returns the answer of a request by its end message and its buffer. It replaces the blank answer.
pub(crate) fn answer_for(blank: Answer, request: &Request, end: End, buffer: &[u8]) -> Answer
    requires short { too_long (request_value request.now) ≡ false }
    requires whole { length buffer.now ≡ buffer_size }
    ensures { Prepared (request_value request.now) blank
        → answer_value result
        ≡ answer_of (request_value request.now).act end
        (take (buffer_length (op_of (request_value request.now).act 0)) buffer.now) }
{
    let (flags, size, moved) = match end.body {
        EndBody::Status { flags } => (flags, 0, 0),
        EndBody::Online { flags, size } => (flags, size, 0),
        EndBody::Moved { kind: _, bytes } => (0, 0, bytes),
        EndBody::Invalid | EndBody::Controller | EndBody::Available => (0, 0, 0),
    };
    let status = end.status;
    match request {
        Request::Online { .. } => Answer::Online {
            status,
            flags,
            size,
        },
        Request::Available { .. } => Answer::Plain { status },
        Request::Status { .. } => Answer::Status { status, flags },
        Request::Read { bytes, .. } => {
            let buffer = &buffer[..*bytes as usize];
            let told = buffer.len().min(moved as usize);
            match blank {
                Answer::Data { mut bytes, .. } => {
                    copy_within_capacity(&mut bytes, &buffer[..told]);
                    Answer::Data { status, bytes }
                }
                other => other,
            }
        }
        Request::Access { .. } | Request::Write { .. } | Request::Erase { .. } => Answer::Moved {
            status,
            bytes: moved,
        },
    }
}

// Replaces the content of `bytes`, if the capacity suffices. So it allocates nothing.
fn copy_within_capacity(bytes: &mut Vec<u8>, from: &[u8])
    ensures { length from.now ≤ vec_capacity bytes.old → bytes.new.items ≡ from.now }
{
    if from.len() <= bytes.capacity() {
        bytes.clear();
        let _ = bytes.extend_from_slice(from);
    }
}
