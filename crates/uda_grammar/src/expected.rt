//! The part that is expected in a line that is not a statement.
ghost use Rattle.std.specs.Prelude.{◌+◌, ◌≤◌, length};

use crate::cut::cut;
use crate::forms::most_written;
use crate::number::{byte, number, unit};
use crate::statement::Measure;
use crate::verb::Verb;
use std::fmt;

/// A part of a line.
#[derive(Clone, Copy, Debug, PartialEq, Eq)]
pub enum Part {
    /// The first word, as `read`.
    Verb,
    /// A unit's number.
    Unit,
    /// The number of a block.
    Block,
    /// The number of blocks or bytes.
    Count {
        /// The largest valid number.
        most: u32,
    },
    /// A byte in two hexadecimal digits.
    Byte,
    /// The word `protect`, or the end of the line.
    Protect,
    /// The end of the line.
    End,
}

impl Part {
    // Returns the part of a line after `words` words.
    fn after(verb: Verb, words: usize) -> Part {
        match (words, verb) {
            (1, _) => Part::Unit,
            (2, Verb::Online) => Part::Protect,
            (_, Verb::Online | Verb::Available | Verb::Status) => Part::End,
            (2, _) => Part::Block,
            (3, Verb::Write(measure)) => Part::Count {
                most: most_written(measure),
            },
            (3, Verb::Fill) => Part::Count {
                most: most_written(Measure::Blocks),
            },
            (3, _) => Part::Count { most: u32::MAX },
            (4, Verb::Fill) => Part::Byte,
            _ => Part::End,
        }
    }

    // Returns whether a word can be this part.
    fn fits(self, word: &[u8]) -> bool {
        match self {
            Part::Verb => Verb::of_word(word).is_some(),
            Part::Unit => unit(word).is_some(),
            Part::Block => number(word, u32::MAX).is_some(),
            Part::Count { most } => number(word, most).is_some(),
            Part::Byte => byte(word).is_some(),
            Part::Protect => matches!(word, b"protect"),
            Part::End => false,
        }
    }
}

/// The part that is expected at a column of a line.
#[derive(Clone, Copy, Debug, PartialEq, Eq)]
pub struct Expected {
    /// The column, from 1. It counts bytes.
    pub column: usize,
    /// The expected part.
    pub part: Part,
}

/// Returns the first column at which a line is not a statement, and the part that is expected there.
///
/// For a line that is a statement it returns the column past the line's end.
pub fn explain(line: &[u8]) -> Expected
    ensures column { (1 ≤ result.column) × (result.column ≤ length line.now + 1) }
{
    let (word, mut rest) = cut(line, b' ');
    let Some(verb) = Verb::of_word(word) else {
        return Expected {
            column: 1,
            part: Part::Verb,
        };
    };
    let mut words = 1;
    while let Some(text) = rest {
        let part = Part::after(verb, words);
        let (word, later) = cut(text, b' ');
        if !part.fits(word) {
            let column = line.len() + 1 - text.len();
            return Expected { column, part };
        }
        words += 1;
        rest = later;
    }
    Expected {
        column: line.len() + 1,
        part: Part::after(verb, words),
    }
}

impl fmt::Display for Part {
    fn fmt<W: fmt::Write>(&self, f: &mut fmt::Formatter<W>) -> fmt::Result {
        match self {
            Part::Verb => f.write_str("a request, such as read or online"),
            Part::Unit => f.write_str("a unit's number, at most 65535"),
            Part::Block => f.write_str("a block's number, at most 4294967295"),
            Part::Count { most } => write!(f, "a count, at most {most}"),
            Part::Byte => f.write_str("a byte in two hexadecimal digits, as a5"),
            Part::Protect => f.write_str("protect, or the end of the line"),
            Part::End => f.write_str("the end of the line"),
        }
    }
}

/// Writes a text such as `column 8: expected a count, at most 32`.
impl fmt::Display for Expected {
    fn fmt<W: fmt::Write>(&self, f: &mut fmt::Formatter<W>) -> fmt::Result {
        write!(f, "column {}: expected {}", self.column, self.part)
    }
}
