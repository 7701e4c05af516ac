//! Bytes as text.
ghost use Rattle.std.specs.Prelude.{◌≡◌, ◌<◌, ◌↔◌, IsTrue};
ghost use Rattle.uda50_show.specs.Rows.{printable};

use std::fmt;

/// A text field of fixed length. It is printed without the spaces and zero bytes at its end. A point
/// replaces each byte that isn't a printable ASCII character.
#[derive(Clone, Copy, Debug)]
pub struct FixedText<'b>(pub &'b [u8]);

impl fmt::Display for FixedText<'_> {
    fn fmt<W: fmt::Write>(&self, f: &mut fmt::Formatter<W>) -> fmt::Result {
        let end = self.0.iter().rposition(|byte| *byte != b' ' && *byte != 0);
        let shown = match end {
            Some(last) => &self.0[..last + 1],
            None => &self.0[..0],
        };
        for byte in shown {
            f.write_char(char::from(printable(*byte)))?;
        }
        Ok(())
    }
}

/// Returns whether two texts are equal.
pub(crate) fn is_same(text: &[u8], other: &[u8]) -> bool
    ensures { IsTrue result ↔ (text.now ≡ other.now) }
{
    text == other
}

/// Returns the byte if it is printable ASCII, or else a point.
pub(crate) fn printable(byte: u8) -> u8
    ensures shown { result ≡ printable byte }
    ensures ascii { result < 128 }
{
    if byte >= b' ' && byte <= b'~' {
        byte
    } else {
        b'.'
    }
}
