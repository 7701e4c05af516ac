//! Parsing of scripts.
ghost use Rattle.std.specs.Prelude.{◌≡◌, ℕ, true, false, ◌<◌, ◌≤◌, ◌++◌, length, OnOk, OnErr, IfOk, IfErr};
ghost use Rattle.std.specs.Option.{option_to_list};
ghost use Rattle.uda_grammar.specs.Limit.{script_limit};
ghost use Rattle.uda_grammar.specs.Reading.{is_silent, is_fault, request_in, requests_in, fault_in};
ghost use Rattle.uda_grammar.specs.Reading.{IsReadingError};

use crate::cut::cut;
use crate::error::ScriptError;
use crate::forms::statement_in;
use crate::script::{Line, SCRIPT_LIMIT, Script};
use std::alloc::Global;

// The byte that ends a line.
const LINE_FEED: u8 = b'\n';

// Returns whether a line makes no request: it is empty, or begins with a number sign.
fn is_silent_line(line: &[u8]) -> bool
    ensures silent { result ≡ is_silent line.now }
{
    matches!(line, [] | [b'#', ..])
}

/// Reads one line of a script, and returns the request that it makes, if any. `number` is the number of the
/// line.
///
/// # Errors
///
/// `Syntax` if the line has none of the forms that [`parse`] reads.
pub fn parse_line(number: u64, line: &[u8]) -> Result<Option<Line>, ScriptError>
    ensures request { IfOk result (λ made. option_to_list made ≡ request_in number line.now) }
    ensures formed { OnOk result (is_fault line.now ≡ false) }
    ensures unformed { OnErr result (is_fault line.now ≡ true) }
    ensures error { IfErr result (λ e. e ≡ ScriptError.Syntax number) }
{
    if is_silent_line(line) {
        return Ok(None);
    }
    match statement_in(line) {
        Some(statement) => Ok(Some(Line { number, statement })),
        None => Err(ScriptError::Syntax { line: number }),
    }
}

// Reads one line and appends the request that it makes, if any. `number` is the number of the line.
fn append_request(lines: &mut Vec<Line>, number: u64, line: &[u8]) -> Result<(), ScriptError>
    requires short { length lines.old.items ≤ script_limit }
    ensures read { OnOk result (lines.new.items ≡ lines.old.items ++ request_in number line.now) }
    ensures room { OnOk result (length lines.new.items ≤ script_limit) }
    ensures formed { OnOk result (is_fault line.now ≡ false) }

    ensures syntax { (n : ℕ) → result ≡ Err (ScriptError.Syntax n) → n ≡ number }
    ensures unformed { (n : ℕ) → result ≡ Err (ScriptError.Syntax n) → is_fault line.now ≡ true }
    ensures full { result ≡ Err ScriptError.TooManyLines → length lines.old.items ≡ script_limit }
    ensures full_request { result ≡ Err ScriptError.TooManyLines
        → length (request_in number line.now) ≡ 1 }
    ensures full_formed { result ≡ Err ScriptError.TooManyLines → is_fault line.now ≡ false }
    ensures kinds { IfErr result IsReadingError }
{
    let Some(request) = parse_line(number, line)? else {
        return Ok(());
    };
    if lines.len() == SCRIPT_LIMIT {
        return Err(ScriptError::TooManyLines);
    }
    match lines.push(request) {
        Ok(()) => Ok(()),
        Err(_) => Err(ScriptError::NoMemory),
    }
}

/// Reads a script: its lines in order, up to the first one that has none of the forms or makes one request
/// too many.
///
/// A line ends with a line feed, or with the end of the text. An empty line makes no request, and neither
/// does one that begins with `#`. Every other line has one of these forms, its words separated by exactly
/// one space:
///
/// ```text
/// online U        online U protect        available U        status U
/// read U L N      access U L N            erase U L N
/// readb U L B     accessb U L B           eraseb U L B
/// write U L N     writeb U L B            fill U L N XX
/// ```
///
/// - `U` is a unit's number, at most 65,535.
/// - `L` is the first logical block, at most 4,294,967,295.
/// - `N` is a number of blocks, at most 4,294,967,295; for `write` and `fill` at most 32.
/// - `B` is a number of bytes, at most 4,294,967,295; for `writeb` at most 16,384.
/// - `XX` is a byte as two hexadecimal digits in lower case.
///
/// The numbers are decimal, without leading zeros.
///
/// # Errors
///
/// - `Syntax` with the number, from 1, of the first line that has none of these forms.
/// - `TooManyLines` if an earlier line makes one request more than [`SCRIPT_LIMIT`].
/// - `NoMemory` if memory allocation fails, at any line.
pub fn parse(alloc: Global, text: &[u8]) -> Result<Script, ScriptError>
    ensures script { IfOk result (λ script. script ≡ requests_in text.now) }
    ensures whole { OnOk result (fault_in text.now ≡ None) }
    ensures short { OnOk result (length (requests_in text.now) ≤ script_limit) }

    ensures syntax { (line : ℕ) → result ≡ Err (ScriptError.Syntax line)
        → fault_in text.now ≡ Some line }
    ensures syntax_short { (line : ℕ) → result ≡ Err (ScriptError.Syntax line)
        → length (requests_in text.now) ≤ script_limit }
    ensures too_many { result ≡ Err ScriptError.TooManyLines
        → script_limit < length (requests_in text.now) }
    ensures kinds { IfErr result IsReadingError }
{
    let mut lines = Vec::new(alloc);
    let mut number = 0;
    let mut rest = Some(text);
    while let Some(text) = rest {
        let (line, later) = cut(text, LINE_FEED);
        number += 1;
        append_request(&mut lines, number, line)?;
        rest = later;
    }
    Ok(Script { lines })
}
