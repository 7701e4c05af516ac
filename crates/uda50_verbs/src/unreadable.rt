//! Arguments that are not text.

use std::env::{Env, FillError};

/// The most times that the room for an argument is doubled. No system passes one that is longer.
const DOUBLINGS: u32 = 16;

/// The room for an argument at first, in bytes.
const ROOM: usize = 4_096;

/// Returns the first argument that is not valid UTF-8, and its number. The program's name has number 0.
pub(crate) fn first_unreadable(rt: &HostRuntime) -> Option<(usize, Vec<u8>)> {
    for number in 0..usize::MAX {
        let bytes = argument(rt, number)?;
        if str::from_utf8(&bytes).is_err() {
            return Some((number, bytes));
        }
    }
    None
}

// Returns the bytes of an argument, if there is one, and memory for it.
fn argument(rt: &HostRuntime, number: usize) -> Option<Vec<u8>> {
    let mut bytes = Vec::new(rt.alloc());
    let mut room = ROOM;
    for _ in 0..DOUBLINGS {
        bytes.resize(room, 0).ok()?;
        match rt.arg(number, bytes.as_mut_slice()) {
            Ok(length) => {
                bytes.truncate(length);
                return Some(bytes);
            }
            Err(FillError::TooLong) => room = room.saturating_mul(2),
            Err(FillError::NotPresent) => return None,
        }
    }
    None
}
