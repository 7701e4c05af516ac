//! Requests written as lines of a script.

use std::alloc::{AllocError, Global};
use uda_disk::Request;

/// A script, and the data for its `write` and `writeb` lines.
#[derive(Drop)]
pub struct Text {
    /// The script's lines.
    pub script: String,
    /// The bytes of these lines, one after another.
    pub data: Vec<u8>,
}

/// Returns the script that makes these requests. A Write of whole blocks is a `fill` if all its bytes are
/// the same. Any other Write is a `write` or a `writeb`.
pub fn text_of(alloc: Global, requests: &[Request]) -> Result<Text, AllocError> {
    let mut text = Text {
        script: String::new(alloc),
        data: Vec::new(alloc),
    };
    for request in requests {
        text.add(alloc, request)?;
        text.script.push('\n')?;
    }
    Ok(text)
}

impl Text {
    // Adds a request's line, without its end, and its data.
    fn add(&mut self, alloc: Global, request: &Request) -> Result<(), AllocError> {
        let line = match request {
            Request::Online { unit, protect } if *protect => {
                format!(in alloc; "online {unit} protect")?
            }
            Request::Online { unit, .. } => format!(in alloc; "online {unit}")?,
            Request::Available { unit } => format!(in alloc; "available {unit}")?,
            Request::Status { unit } => format!(in alloc; "status {unit}")?,
            Request::Read { unit, lbn, bytes } => {
                let (b, count) = counted(*bytes);
                format!(in alloc; "read{b} {unit} {lbn} {count}")?
            }
            Request::Access { unit, lbn, bytes } => {
                let (b, count) = counted(*bytes);
                format!(in alloc; "access{b} {unit} {lbn} {count}")?
            }
            Request::Erase { unit, lbn, bytes } => {
                let (b, count) = counted(*bytes);
                format!(in alloc; "erase{b} {unit} {lbn} {count}")?
            }
            Request::Write { unit, lbn, payload } => {
                let (b, count) = counted(payload.len() as u64);
                match uniform(payload) {
                    Some(byte) => format!(in alloc; "fill {unit} {lbn} {count} {byte:02x}")?,
                    None => {
                        self.data.extend_from_slice(payload)?;
                        format!(in alloc; "write{b} {unit} {lbn} {count}")?
                    }
                }
            }
        };
        self.script.push_str(&line)
    }
}

// Returns the end of a line's verb for this many bytes, and the count that the line has. It counts blocks,
// or bytes if the last block is a partial one.
fn counted(bytes: u64) -> (&'static str, u64) {
    if bytes % 512 == 0 {
        ("", bytes / 512)
    } else {
        ("b", bytes)
    }
}

// Returns the byte that fills whole blocks, if there is one.
fn uniform(payload: &[u8]) -> Option<u8> {
    let (first, rest) = payload.split_first()?;
    if payload.len() % 512 == 0 && rest.iter().all(|byte| byte == first) {
        Some(*first)
    } else {
        None
    }
}
