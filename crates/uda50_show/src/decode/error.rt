//! The errors of a text of packets.

use crate::TokenError;
use std::io;

/// The reason why the packets of a text were not all printed.
#[derive(Debug, Drop)]
pub enum DecodeError {
    /// The text can't be read.
    Read(io::Error),
    /// This line, counted from 1, isn't text in UTF-8.
    NotText(u64),
    /// The packets can't be written.
    Write(io::Error),
    /// A token is neither a byte nor a word.
    Token {
        /// The line, from 1.
        line: u64,
        /// The number of the token on its line, from 1.
        word: u64,
        /// The error of the token.
        error: TokenError,
    },
    /// The text ends inside a packet, after this many bytes of it.
    ShortPacket(usize),
    /// The text has more lines than can be counted.
    TooManyLines,
}

/// Makes the error of a failed write. That of a failed read is made as `DecodeError::Read`.
impl From<io::Error> for DecodeError {
    ghost use Rattle.std.specs.Prelude.{◌≡◌};
    ghost use Rattle.uda50_show.specs.declared.decode.error.DecodeError.TheVariants as error;

    ghost from_gives = { λ given made. made ≡ error.Write given };

    fn from(error: io::Error) -> Self {
        DecodeError::Write(error)
    }
}
