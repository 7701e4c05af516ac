//! The requests of a script and its data.

ghost use Rattle.std.specs.Prelude.{◌≡◌, ◌*◌, length, replicate, OnOk, IfOk, IfErr};
ghost use Rattle.std.specs.Io.KnownBytes.{Consumes};
ghost use Rattle.uda_grammar.specs.Amounts.{bytes_in};
ghost use Rattle.uda_disk.specs.Values.{request_value, request_values};
ghost use Rattle.uda_script_run.specs.Requests.{bytes_taken, taken};
ghost use Rattle.uda_script_run.specs.Reading.{ReadsBytes, ReadsRequest, ReadsRequests, IsUnread, AreUnread};

use crate::growth::{push, with_room};
use std::alloc::Global;
use std::io::{ErrorKind, Read};
use uda_disk::Request;
use uda_grammar::{Amount, Line, ScriptError, Statement};

/// Makes the requests of the lines, in order. Only `write` and `writeb` lines read bytes from `input`. An
/// interrupted read is repeated.
///
/// It fails with:
///
/// - [`ScriptError::ShortData`] and a line's number if the data ends before that line has its bytes;
/// - [`ScriptError::Read`] if a read fails;
/// - [`ScriptError::NoMemory`] if memory allocation fails.
pub fn read_requests<R: Read>(
    alloc: Global,
    lines: &[Line],
    input: &mut R,
) -> Result<Vec<Request>, ScriptError>
    ensures made { IfOk result (λ made. ReadsRequests lines.now (R.remaining input.old)
        (R.remaining input.new) (request_values made.items)) }
    ensures error { IfErr result (AreUnread lines.now (R.remaining input.old)) }
    ensures idle { taken lines.now ≡ 0 → input.new ≡ input.old }
{
    let mut requests = with_room(alloc, lines.len())?;
    for line in lines {
        let request = read_request(alloc, line, input)?;
        push(&mut requests, request)?;
    }
    Ok(requests)
}

// Makes the request of a line.
fn read_request<R: Read>(alloc: Global, line: &Line, input: &mut R) -> Result<Request, ScriptError>
    ensures made { IfOk result (λ request. ReadsRequest line.now (R.remaining input.old)
        (R.remaining input.new) (request_value request)) }
    ensures error { IfErr result (IsUnread (bytes_taken line.now) line.now (R.remaining input.old)) }
    ensures idle { bytes_taken line.now ≡ 0 → input.new ≡ input.old }
{
    match line.statement {
        Statement::Online { unit, protect } => Ok(Request::Online { unit, protect }),
        Statement::Available { unit } => Ok(Request::Available { unit }),
        Statement::Status { unit } => Ok(Request::Status { unit }),
        Statement::Read { unit, lbn, amount } => Ok(Request::Read {
            unit,
            lbn,
            bytes: amount.bytes(),
        }),
        Statement::Access { unit, lbn, amount } => Ok(Request::Access {
            unit,
            lbn,
            bytes: amount.bytes(),
        }),
        Statement::Erase { unit, lbn, amount } => Ok(Request::Erase {
            unit,
            lbn,
            bytes: amount.bytes(),
        }),
        Statement::Write { unit, lbn, amount } => {
            let payload = read_bytes(alloc, line, amount, input)?;
            Ok(Request::Write { unit, lbn, payload })
        }
        Statement::Fill {
            unit,
            lbn,
            count,
            byte,
        } => {
            let payload = repeat_byte(alloc, byte, 512 * u64::from(count))?;
            Ok(Request::Write { unit, lbn, payload })
        }
    }
}

// Returns `count` bytes of this value.
fn repeat_byte(alloc: Global, byte: u8, count: u64) -> Result<Vec<u8>, ScriptError>
    ensures bytes { IfOk result (λ bytes. bytes.items ≡ replicate count byte) }
    ensures error { IfErr result (λ e. e ≡ ScriptError.NoMemory) }
{
    Vec::from_elem(alloc, byte, count as usize).map_err(|_| ScriptError::NoMemory)
}

// Reads the next bytes of the data for a line.
fn read_bytes<R: Read>(
    alloc: Global,
    line: &Line,
    amount: Amount,
    input: &mut R,
) -> Result<Vec<u8>, ScriptError>
    ensures bytes { IfOk result (λ bytes. ReadsBytes (bytes_in amount) (R.remaining input.old)
        (R.remaining input.new) bytes.items) }
    ensures error { IfErr result (IsUnread (bytes_in amount) line.now (R.remaining input.old)) }
    ensures idle { bytes_in amount ≡ 0 → input.new ≡ input.old }
{
    let mut bytes = repeat_byte(alloc, 0, amount.bytes())?;
    read_data(line, &mut bytes, input)?;
    Ok(bytes)
}

// Reads until these bytes are full.
fn read_data<R: Read>(line: &Line, bytes: &mut [u8], input: &mut R) -> Result<(), ScriptError>
    ensures whole { OnOk result
        (Consumes (R.remaining input.old) (R.remaining input.new) bytes.new) }
    ensures error { IfErr result (IsUnread (length bytes.old) line.now (R.remaining input.old)) }
    ensures idle { length bytes.old ≡ 0 → input.new ≡ input.old }
{
    let mut filled = 0;
    for _ in 0..u64::MAX {
        if filled >= bytes.len() {
            return Ok(());
        }
        match input.read(&mut bytes[filled..]) {
            Ok(0) => return Err(ScriptError::ShortData { line: line.number }),
            Ok(count) => filled += count,
            Err(error) => {
                if error.kind() != ErrorKind::Interrupted {
                    return Err(ScriptError::Read);
                }
            }
        }
    }
    Err(ScriptError::Read)
}
