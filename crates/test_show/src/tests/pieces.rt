//! Writers that keep the pieces of a text.

use arrayvec::{ArrayString, ArrayVec};
use std::fmt;
use std::fmt::Write;
use std::process::Abort;
use std::test::Fail;

/// A writer with room for some bytes. It refuses a piece that doesn't fit, as an `ArrayString` does.
#[derive(PartialEq, Drop)]
struct Pieces {
    text: ArrayString<256>,
    ends: ArrayVec<usize, 96>,
    room: usize,
}

impl fmt::Write for Pieces {
    fn write_str(&mut self, piece: &str) -> fmt::Result {
        if self.room.saturating_sub(self.text.len()) < piece.len() {
            return Err(fmt::Error);
        }
        self.text.try_push_str(piece).map_err(|_| fmt::Error)?;
        self.ends.try_push(self.text.len()).map_err(|_| fmt::Error)
    }
}

// Writes a value into a writer with this room, and returns the writer and whether it took the whole text.
fn written(value: &impl fmt::Display, room: usize) -> (Pieces, bool) {
    let mut pieces = Pieces {
        text: ArrayString::new(),
        ends: ArrayVec::new(),
        room,
    };
    let is_whole = write!(pieces, "{value}").is_ok();
    (pieces, is_whole)
}

/// Compares the pieces of two values, in a writer with this room.
pub(super) fn compare(
    rt: &impl Abort,
    value: &impl fmt::Display,
    expected: &impl fmt::Display,
    room: usize,
) -> Result<(), Fail> {
    let are_same = written(value, room) == written(expected, room);
    assert!(rt; are_same, "in {room} bytes: {expected}");
    Ok(())
}

/// Compares what writers of every room up to `most` bytes hold of two values, and whether they refused a
/// piece.
pub(super) fn compare_in_each_room(
    rt: &impl Abort,
    value: &impl fmt::Display,
    expected: &impl fmt::Display,
    most: usize,
) -> Result<(), Fail> {
    for room in 0..=most {
        compare(rt, value, expected, room)?;
    }
    Ok(())
}
