//! Scripts after parsing.
ghost use Rattle.std.specs.Prelude.{◌≡◌, ◌≤◌, length};
ghost use Rattle.uda_grammar.specs.Limit.{script_limit};

use crate::statement::Statement;
use std::marker::Model;

/// The most requests of one script.
pub const SCRIPT_LIMIT: usize = 4096;

/// A line that makes a request: its number and its statement.
#[derive(Clone, Copy, Debug, PartialEq, Eq)]
pub struct Line {
    /// The line's number among all lines of the script, from 1.
    pub number: u64,
    /// The request of the line.
    pub statement: Statement,
}

/// The lines of a script that make requests, in order; at most [`SCRIPT_LIMIT`].
#[derive(Debug, Drop)]
pub struct Script {
    pub(crate) lines: Vec<Line>,
}

impl Model for Script {
    ghost use Rattle.std.specs.Prelude.{List};
    ghost use Rattle.uda_grammar.specs.declared.script.Line.{Line};
    ghost use Rattle.uda_grammar.specs.Limit.{IsScript};

    ghost Value = { List Line };

    ghost view = { λ script. script.lines.items };

    ghost invariant = { IsScript };
}

impl Script {
    /// Returns the lines that make requests, in order; at most [`SCRIPT_LIMIT`].
    pub fn lines(&self) -> &[Line]
        ensures lines { result.now ≡ self.now }
        ensures few { length self.now ≤ script_limit }
    {
        self.lines.as_slice()
    }
}
