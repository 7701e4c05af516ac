//! Reading of mapfiles.

use crate::map::BlockMap;
use crate::map::entry::{BlockStatus, MapEntry};
use std::alloc::{AllocError, Global};
use thiserror::Error;

/// The reason why a text is no map.
#[derive(Clone, Copy, Debug, PartialEq, Eq, Error)]
pub enum MapError {
    /// An allocation failed.
    #[error("out of memory")]
    NoMemory,
    /// A line is not one of a map.
    #[error("line {0}: expected a position, a size and a status, as ddrescue writes them")]
    Line(u64),
    /// The text has no blocks.
    #[error("the map has no blocks")]
    Empty,
}

impl From<AllocError> for MapError {
    fn from(_: AllocError) -> Self {
        MapError::NoMemory
    }
}

// A line of a map, in bytes.
#[derive(Clone, Copy)]
struct MapLine {
    start: u64,
    end: u64,
    status: BlockStatus,
}

impl MapLine {
    // Reads a line of a position, a size and a status.
    fn parse(text: &str) -> Option<MapLine> {
        let mut words = text.split_whitespace();
        let start = parse_number(words.next()?)?;
        let size = parse_number(words.next()?)?;
        let status = BlockStatus::of_character(words.next()?)?;
        let end = start.checked_add(size)?;
        match words.next() {
            Some(_) => None,
            None => Some(MapLine { start, end, status }),
        }
    }

    // Returns the blocks of a line. A block that is not finished as a whole is not finished.
    fn entry(&self) -> MapEntry {
        let (start, end) = match self.status {
            BlockStatus::Finished => (self.start.div_ceil(512), self.end / 512),
            _ => (self.start / 512, self.end.div_ceil(512)),
        };
        MapEntry {
            start: u32::try_from(start).unwrap_or(u32::MAX),
            end: u32::try_from(end).unwrap_or(u32::MAX),
            status: self.status,
        }
    }
}

// Reads a number as ddrescue does: in hexadecimal after 0x, in octal after 0, or in decimal.
fn parse_number(text: &str) -> Option<u64> {
    let number = if let Some(digits) = text.strip_prefix("0x") {
        u64::from_str_radix(digits, 16)
    } else if text.len() > 1 && text.starts_with('0') {
        u64::from_str_radix(text, 8)
    } else {
        text.parse()
    };
    number.ok()
}

impl BlockMap {
    /// Reads a mapfile. Blocks of which it says nothing have not been tried.
    pub fn parse(alloc: Global, text: &str) -> Result<BlockMap, MapError> {
        let lines = parse_lines(alloc, text)?;
        let (Some(first), Some(last)) = (lines.first(), lines.last()) else {
            return Err(MapError::Empty);
        };
        let blocks = first.entry().start..last.entry().end;
        let mut map = BlockMap::new(alloc, blocks)?;
        set_all(&mut map, lines.as_slice(), true)?;
        set_all(&mut map, lines.as_slice(), false)?;
        Ok(map)
    }
}

// Gives blocks the status of their lines: those of the lines that are finished, or those of the others.
fn set_all(map: &mut BlockMap, lines: &[MapLine], finished: bool) -> Result<(), AllocError> {
    for line in lines {
        if (line.status == BlockStatus::Finished) == finished {
            let entry = line.entry();
            map.set(entry.start..entry.end, entry.status)?;
        }
    }
    Ok(())
}

// Adds a line.
fn push_line(lines: &mut Vec<MapLine>, line: MapLine) -> Result<(), AllocError> {
    lines.push(line).map_err(AllocError::from)
}

// Reads the lines of blocks. The first line that is no comment tells where ddrescue was.
fn parse_lines(alloc: Global, text: &str) -> Result<Vec<MapLine>, MapError> {
    let mut lines = Vec::new(alloc);
    let mut is_first = true;
    let mut end = 0;
    let mut line = 0u64;
    for text in text.lines() {
        line = line.saturating_add(1);
        if text.starts_with('#') || text.trim_ascii().is_empty() {
            continue;
        }
        if is_first {
            is_first = false;
            continue;
        }
        match MapLine::parse(text) {
            Some(parsed) if parsed.start >= end => {
                end = parsed.end;
                push_line(&mut lines, parsed)?;
            }
            _ => return Err(MapError::Line(line)),
        }
    }
    Ok(lines)
}
