//! Blanks, which separate the words of a line.
ghost use Rattle.std.specs.Prelude.{◌≡◌, ◌++◌, true, OnOk, IfOk};
ghost use Rattle.uda50_script_text.specs.Blanks.{is_passed, held_back, released, passed};
ghost use Rattle.uda50_script_text.specs.Blanks.{next, squeezed, blanks_after};
ghost use Rattle.uda50_script_text.specs.Blanks.{passed_or_held, is_plain_after};

use std::alloc::AllocError;

/// What was read after the last word of a line. It is held back until the next byte shows whether the line
/// goes on.
#[derive(Clone, Copy, Debug, PartialEq, Eq)]
pub enum Blanks {
    /// Blanks at most: the line has no word yet. They are dropped.
    Indent,
    /// Nothing: the last byte is part of a word.
    Word,
    /// Blanks or tabs, in the place of which one blank is passed on.
    Gap,
    /// A carriage return.
    Return,
    /// Blanks or tabs, and then a carriage return.
    GapAndReturn,
}

impl Blanks {
    /// Returns what is held back after one more byte.
    pub fn next(self, byte: u8) -> Blanks
        ensures next { result ≡ next self byte }
    {
        match (byte, self) {
            (b'\n', _) | (b' ' | b'\t', Blanks::Indent) => Blanks::Indent,
            (b' ' | b'\t', _) => Blanks::Gap,
            (b'\r', Blanks::Gap) => Blanks::GapAndReturn,
            (b'\r', _) => Blanks::Return,
            _ => Blanks::Word,
        }
    }

    /// Returns the bytes that are passed on before this byte.
    pub fn released(self, byte: u8) -> &'static [u8]
        ensures released { result.now ≡ released self byte }
    {
        match (byte, self) {
            (b'\n', _) | (b' ' | b'\t' | b'\r', Blanks::Gap) => b"",
            _ => self.held_back(),
        }
    }

    // Returns the bytes that are held back.
    fn held_back(self) -> &'static [u8]
        ensures held_back { result.now ≡ held_back self }
    {
        match self {
            Blanks::Indent | Blanks::Word => b"",
            Blanks::Gap => b" ",
            Blanks::Return => b"\r",
            Blanks::GapAndReturn => b" \r",
        }
    }

    /// Returns whether a byte is passed on at once: it is neither a blank or tab nor a carriage return.
    pub fn is_passed(byte: u8) -> bool
        ensures passed { result ≡ is_passed byte }
    {
        !matches!(byte, b' ' | b'\t' | b'\r')
    }

    /// Appends the form of a text in which the parser reads it, and returns what is held back at its end.
    pub fn squeeze(self, bytes: &[u8], text: &mut Vec<u8>) -> Result<Blanks, AllocError>
        ensures text { OnOk result (text.new.items ≡ text.old.items ++ squeezed self bytes.now) }
        ensures blanks { IfOk result (λ blanks. blanks ≡ blanks_after self bytes.now) }
    {
        let mut blanks = self;
        for byte in bytes {
            blanks.pass(*byte, text)?;
            blanks = blanks.next(*byte);
        }
        Ok(blanks)
    }

    // Appends what is passed on when a byte is read.
    fn pass(self, byte: u8, text: &mut Vec<u8>) -> Result<(), AllocError>
        ensures text { OnOk result (text.new.items ≡ text.old.items ++ passed self byte) }
    {
        text.extend_from_slice(self.released(byte))?;
        if Blanks::is_passed(byte) {
            text.push(byte)?;
        }
        Ok(())
    }
}

/// Returns whether a text is passed on as it is after a word, with what is held back at its end. It may also
/// reject a text that has other control characters.
pub(crate) fn is_plain(bytes: &[u8]) -> bool
    ensures plain { result ≡ true → passed_or_held bytes.now ≡ bytes.now }
{
    let mut plain = true;
    let mut before = b'x';
    for byte in bytes {
        plain &= is_plain_after(before, *byte);
        before = *byte;
    }
    plain
}

// Returns whether a byte is passed on as it is after another one: it is part of a word, a blank after a word, or
// a line feed after anything but a blank.
fn is_plain_after(before: u8, byte: u8) -> bool
    ensures plain { result ≡ is_plain_after before byte }
{
    (byte > b' ') | ((byte == b' ') & (before > b' ')) | ((byte == b'\n') & (before != b' '))
}
