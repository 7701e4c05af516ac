//! The first word of a line.
ghost use Rattle.std.specs.Prelude.{◌≡◌};

use crate::statement::Measure;

/// The request of the first word of a line.
#[derive(Clone, Copy)]
pub(crate) enum Verb {
    /// `online`
    Online,
    /// `available`
    Available,
    /// `status`
    Status,
    /// `read` and `readb`
    Read(Measure),
    /// `access` and `accessb`
    Access(Measure),
    /// `erase` and `eraseb`
    Erase(Measure),
    /// `write` and `writeb`
    Write(Measure),
    /// `fill`
    Fill,
}

impl Verb {
    ghost use Rattle.uda_grammar.specs.Words.{verb_of};

    /// Returns the verb of a word, if it is one.
    pub(crate) fn of_word(word: &[u8]) -> Option<Verb>
        ensures verb { result ≡ verb_of word.now }
    {
        match word {
            b"online" => Some(Verb::Online),
            b"available" => Some(Verb::Available),
            b"status" => Some(Verb::Status),
            b"read" => Some(Verb::Read(Measure::Blocks)),
            b"readb" => Some(Verb::Read(Measure::Bytes)),
            b"access" => Some(Verb::Access(Measure::Blocks)),
            b"accessb" => Some(Verb::Access(Measure::Bytes)),
            b"erase" => Some(Verb::Erase(Measure::Blocks)),
            b"eraseb" => Some(Verb::Erase(Measure::Bytes)),
            b"write" => Some(Verb::Write(Measure::Blocks)),
            b"writeb" => Some(Verb::Write(Measure::Bytes)),
            b"fill" => Some(Verb::Fill),
            _ => None,
        }
    }
}
