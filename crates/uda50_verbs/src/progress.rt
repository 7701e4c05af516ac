//! The progress of a copy, on standard error.

use crate::container::warn_of_format;
use std::io::IsTerminal;
use std::ops::Range;
use std::time::Instant;
use uda50_copy::{Observer, ReportTrace};
use uda50_show::{EscapedName, Reached, Taken};

/// The least time between two lines of progress, in milliseconds.
const INTERVAL: u64 = 200;

/// The text that clears the line of progress.
const CLEAR: &str = "\r\x1b[K";

/// Prints the progress of a copy, if standard error is a terminal, and lists the lost blocks.
#[derive(Drop)]
pub(crate) struct CopyProgress<'r, 'w> {
    rt: &'r HostRuntime,
    name: &'w str,
    blocks: Range<u32>,
    line: Option<ProgressLine>,
    run: Range<u32>,
    lost: u32,
    trace: ReportTrace,
}

// The line of progress: the start of the copy, and the time in milliseconds of the next line.
#[derive(Clone, Copy)]
struct ProgressLine {
    start: Instant,
    next: u64,
}

impl ProgressLine {
    // Starts the line, if standard error is a terminal.
    fn start(rt: &HostRuntime) -> Option<ProgressLine> {
        match Instant::now(rt) {
            Ok(start) if rt.stderr().is_terminal() => Some(ProgressLine {
                start,
                next: INTERVAL,
            }),
            _ => None,
        }
    }

    // Returns the milliseconds since the start, if it is time for the next line.
    fn due(&mut self, rt: &HostRuntime) -> Option<u64> {
        let elapsed = self.start.elapsed(rt).ok()?;
        let elapsed = u64::try_from(elapsed.as_millis()).unwrap_or(u64::MAX);
        if elapsed < self.next {
            return None;
        }
        self.next = elapsed.saturating_add(INTERVAL);
        Some(elapsed)
    }
}

/// Prints the word for a sync, which may take long, if standard error is a terminal.
pub(crate) fn print_syncing(rt: &HostRuntime) {
    if rt.stderr().is_terminal() {
        let _ = eprint!(rt; "{CLEAR}syncing");
    }
}

/// Clears the line of progress, if standard error is a terminal.
pub(crate) fn clear_line(rt: &HostRuntime) {
    if rt.stderr().is_terminal() {
        let _ = eprint!(rt; "{CLEAR}");
    }
}

/// Prints the progress of a copy whose source is a stream, if standard error is a terminal.
#[derive(Drop)]
pub(crate) struct StreamProgress<'r> {
    rt: &'r HostRuntime,
    line: Option<ProgressLine>,
}

impl<'r> StreamProgress<'r> {
    /// Starts the progress.
    pub(crate) fn start(rt: &'r HostRuntime) -> StreamProgress<'r> {
        StreamProgress {
            rt,
            line: ProgressLine::start(rt),
        }
    }

    /// Prints the line of progress after that many blocks, if it is time.
    pub(crate) fn reached(&mut self, blocks: u32) {
        if let Some(line) = &mut self.line {
            if let Some(elapsed) = line.due(self.rt) {
                let _ = eprint!(self.rt; "{CLEAR}{}", Taken { blocks, elapsed });
            }
        }
    }
}

impl<'r, 'w> CopyProgress<'r, 'w> {
    /// Starts the progress of these blocks of a file.
    pub(crate) fn start(rt: &'r HostRuntime, name: &'w str, blocks: Range<u32>) -> Self {
        CopyProgress {
            rt,
            name,
            blocks,
            line: ProgressLine::start(rt),
            run: 0..0,
            lost: 0,
            trace: ReportTrace::new(),
        }
    }

    /// Prints a line if the first block of the copy is that of a file of another format.
    pub(crate) fn warn_of_format(&self, first: &[u8; 512]) {
        warn_of_format(self.rt, self.name, first);
    }

    /// Clears the line of progress, lists the last lost blocks, and returns the number of all lost blocks.
    pub(crate) fn end(self) -> u32 {
        self.clear();
        self.list();
        let blocks = if self.lost == 1 { "block" } else { "blocks" };
        if self.lost > 0 {
            let _ = eprintln!(self.rt;
                "uda50: {}: {} {blocks} lost",
                EscapedName(self.name),
                self.lost
            );
        }
        self.lost
    }

    // Lists the current run of consecutive lost blocks, if there is one.
    fn list(&self) {
        if self.run.start < self.run.end {
            self.clear();
            let Range { start, end } = self.run;
            let _ = eprintln!(self.rt; "uda50: {}: lost {start}..{end}", EscapedName(self.name));
        }
    }

    fn clear(&self) {
        if self.line.is_some() {
            let _ = eprint!(self.rt; "{CLEAR}");
        }
    }
}

impl Observer for CopyProgress<'_, '_> {
    ghost reports = { λ progress. progress.trace.reports };

    fn reached(&mut self, end: u32) {
        self.trace.reached(end);
        let Some(line) = &mut self.line else {
            return;
        };
        if let Some(elapsed) = line.due(self.rt) {
            let done = end.saturating_sub(self.blocks.start);
            let all = self.blocks.end.saturating_sub(self.blocks.start);
            let _ = eprint!(self.rt; "{CLEAR}{}", Reached { done, all, elapsed });
        }
    }

    fn lost(&mut self, block: u32) {
        self.trace.lost(block);
        if block != self.run.end {
            self.list();
            self.run = block..block;
        }
        self.run.end = block.saturating_add(1);
        self.lost = self.lost.saturating_add(1);
    }
}
