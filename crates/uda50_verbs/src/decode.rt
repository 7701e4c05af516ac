//! `uda50 decode`: prints packets by their fields.

use crate::fault::Fault;
use crate::outcome::Outcome;
use crate::reason::{InputReason, Reason};
use crate::streams::{InputStream, stream_name};
use std::io::{BufReader, BufWriter, Write};
use uda50_show::decode::{DecodeError, Decoded};

/// Prints the packets of a file, or of standard input.
pub(crate) fn decode<'w, W: Write + Drop>(
    rt: &HostRuntime,
    path: &'w str,
    out: &mut BufWriter<W>,
) -> Result<Outcome, Fault<'w>> {
    let input = InputStream::open(rt, path)?;
    let input = BufReader::new(rt.alloc(), input)?;
    outcome(
        stream_name(path),
        uda50_show::decode::decode(rt.alloc(), input, out),
    )
}

// Returns the outcome of a text, which has this name.
fn outcome<'w>(name: &'w str, done: Result<Decoded, DecodeError>) -> Result<Outcome, Fault<'w>> {
    match done {
        Ok(Decoded { invalid: true, .. }) => Ok(Outcome::Failed),
        Ok(_) => Ok(Outcome::Done),
        Err(error) => Err(fault(name, error)),
    }
}

// Returns the fault for an error of a text, which has this name.
fn fault<'w>(name: &'w str, error: DecodeError) -> Fault<'w> {
    match error {
        DecodeError::Read(error) => Fault::system(name, error),
        DecodeError::NotText(line) => Fault::new(name, Reason::Input(InputReason::NotText(line))),
        DecodeError::Write(error) => Fault::from(error),
        DecodeError::Token { line, word, error } => {
            Fault::new(
                name,
                Reason::Input(InputReason::Token { line, word, error }),
            )
        }
        DecodeError::ShortPacket(bytes) => Fault::new(
            name,
            Reason::Input(InputReason::ShortPacket(bytes)),
        ),
        DecodeError::TooManyLines => Fault::new(name, Reason::Unreadable),
    }
}
