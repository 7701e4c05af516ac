//! Scripts that are read from a stream while they run: batches and their boundaries.
use super::batches::{driver_of_fives, left_in};
use super::streams::{Manner, Sink, Source};
use std::alloc::Global;
use std::io::{BufRead, BufReader};
use std::test::Fail;
use uda_driver::{Driver, Unwatched};
use uda_grammar::{Expected, Part, ScriptError, explain};
use uda_image::MemImage;
use uda_script_run::{Channels, ReportStyle, ScriptOutcome, TextError, run_text};

/// A script over a drive of eight blocks as unit 0. It brings the unit online, repeats a line, and then has
/// a tail.
#[derive(Clone, Copy)]
struct Text {
    line: &'static str,
    /// The number of times that the line occurs.
    count: usize,
    tail: &'static str,
    style: ReportStyle,
    /// The number of bytes of data. All are 7.
    held: usize,
    out: Manner,
    done: Result<ScriptOutcome, TextError>,
    /// The number of bytes that are written.
    written: usize,
    /// The number of lines of the report, and its last line.
    lines: usize,
    last: &'static str,
    /// The number of bytes of data that are left, if the run succeeds.
    unread: usize,
}

/// A script of one line.
const ONLINE: Text = Text {
    line: "",
    count: 0,
    tail: "",
    style: ReportStyle {
        names: false,
        failures_only: false,
    },
    held: 0,
    out: Manner::Whole,
    done: Ok(ScriptOutcome::AllSucceeded),
    written: 0,
    lines: 1,
    last: "1 0000 0000 8\n",
    unread: 0,
};

const READS: Text = Text {
    line: "read 0 0 1\n",
    ..ONLINE
};

const WRITES: Text = Text {
    line: "write 0 0 1\n",
    ..ONLINE
};

static TEXTS: [Text; 14] = [
    ONLINE,
    // one batch, and one request more
    Text {
        count: 63,
        written: 32_256,
        lines: 64,
        last: "\n64 0000 512\n",
        ..READS
    },
    Text {
        count: 64,
        written: 32_768,
        lines: 65,
        last: "\n65 0000 512\n",
        ..READS
    },
    // more requests than a script of run_script can have
    Text {
        line: "status 0\n",
        count: 4_200,
        lines: 4_201,
        last: "\n4201 0000 0000\n",
        ..ONLINE
    },
    // several batches read the data of their lines, and no more
    Text {
        count: 100,
        held: 51_300,
        lines: 101,
        last: "\n101 0000 512\n",
        unread: 100,
        ..WRITES
    },
    // data that ends in the second batch
    Text {
        count: 100,
        held: 36_000,
        done: Err(TextError::Script(ScriptError::ShortData { line: 72 })),
        lines: 64,
        last: "\n64 0000 512\n",
        ..WRITES
    },
    // a writer that fails in the second batch
    Text {
        count: 100,
        out: Manner::Room(33_000),
        done: Err(TextError::Script(ScriptError::Write)),
        written: 33_000,
        lines: 64,
        last: "\n64 0000 512\n",
        ..READS
    },
    // a line that is not a statement: all requests before it are executed
    Text {
        count: 100,
        tail: "read 0 0 1 \nread 0 0 1\n",
        done: Err(TextError::Syntax {
            line: 102,
            expected: Expected {
                column: 12,
                part: Part::End,
            },
        }),
        written: 51_200,
        lines: 101,
        last: "\n101 0000 512\n",
        ..READS
    },
    Text {
        count: 4_200,
        tail: "status",
        line: "status 0\n",
        done: Err(TextError::Syntax {
            line: 4_202,
            expected: Expected {
                column: 7,
                part: Part::Unit,
            },
        }),
        lines: 4_201,
        last: "\n4201 0000 0000\n",
        ..ONLINE
    },
    // long lines: a comment, and one that is not a statement
    Text {
        tail: "# a comment may have more bytes than any statement: all after the first are ignored\nstatus 0",
        lines: 2,
        last: "\n2 0000 0000\n",
        ..ONLINE
    },
    Text {
        tail: "read 0 0 00000000000000000000000000000000000000000000000000000000000000000000000001\n",
        done: Err(TextError::Syntax {
            line: 2,
            expected: Expected {
                column: 10,
                part: Part::Count { most: u32::MAX },
            },
        }),
        ..ONLINE
    },
    // failures
    Text {
        tail: "read 0 8 1\nstatus 0\n",
        done: Ok(ScriptOutcome::SomeFailed),
        lines: 3,
        last: "\n2 1c01 0\n3 0000 0000\n",
        ..ONLINE
    },
    Text {
        tail: "read 0 8 1\nstatus 0\n",
        style: ReportStyle {
            names: true,
            failures_only: true,
        },
        done: Ok(ScriptOutcome::SomeFailed),
        last: "2 1c01 0 (invalid block number)\n",
        ..ONLINE
    },
    Text {
        tail: "read 0 0 33\n",
        style: ReportStyle {
            names: true,
            failures_only: false,
        },
        done: Ok(ScriptOutcome::SomeFailed),
        lines: 2,
        last: "1 0000 0000 8 (success)\n2 long (too long)\n",
        ..ONLINE
    },
];

// The result of a text.
#[derive(Drop)]
struct Ran {
    done: Result<ScriptOutcome, TextError>,
    written: usize,
    report: Vec<u8>,
    unread: usize,
}

impl Text {
    // Returns the whole script.
    fn script(&self, alloc: Global) -> Result<Vec<u8>, Fail> {
        let mut script = Vec::new(alloc);
        script.extend_from_slice(b"online 0\n")?;
        for _ in 0..self.count {
            script.extend_from_slice(self.line.as_bytes())?;
        }
        script.extend_from_slice(self.tail.as_bytes())?;
        Ok(script)
    }

    // Runs the script, which is read from this reader.
    fn run<T: BufRead + Drop>(
        &self,
        alloc: Global,
        script: T,
        driver: &mut Driver<MemImage>,
    ) -> Result<Ran, Fail> {
        let data = Vec::from_elem(alloc, 7, self.held)?;
        let mut channels = Channels {
            input: Source::new(Manner::Halting(1_000), &data),
            out: Sink::new(alloc, self.out),
            report: Sink::new(alloc, Manner::Whole),
            watch: Unwatched,
        };
        let done = run_text(alloc, self.style, script, &mut channels, driver);
        let unread = channels.input.left.len();
        Ok(Ran {
            done,
            written: channels.out.taken.len(),
            report: channels.report.taken,
            unread,
        })
    }

    // Returns whether this is the expected result.
    fn is_result(&self, got: &Ran) -> bool {
        got.done == self.done
            && got.written == self.written
            && got.report.iter().filter(|byte| **byte == b'\n').count() == self.lines
            && got.report.ends_with(self.last.as_bytes())
            && (self.done.is_err() || got.unread == self.unread)
    }
}

// Runs a text by a driver, and returns whether its result is as expected.
fn is_run(alloc: Global, text: &Text, driver: &mut Driver<MemImage>) -> Result<bool, Fail> {
    let script = text.script(alloc)?;
    Ok(text.is_result(&text.run(alloc, script.as_slice(), driver)?))
}

// Returns whether the first block that a driver leaves begins with the byte of a text that was run.
fn is_left(alloc: Global, text: &Text, driver: Driver<MemImage>) -> Result<bool, Fail> {
    let first = if text.held == 0 { 5 } else { 7 };
    Ok(left_in(alloc, driver)?.starts_with(&[first]))
}

// Runs a text, and returns whether its result and its blocks are as expected.
fn is_as_expected(alloc: Global, text: &Text) -> Result<bool, Fail> {
    let mut driver = driver_of_fives(alloc)?;
    if !is_run(alloc, text, &mut driver)? {
        return Ok(false);
    }
    is_left(alloc, text, driver)
}

#[test]
fn texts(rt: HostRuntime) -> Result<(), Fail> {
    for (n, text) in TEXTS.iter().enumerate() {
        assert!(rt; is_as_expected(rt.alloc(), text)?, "text {n}");
    }
    Ok(())
}

// Runs a text in parts, by a buffer of this capacity, and returns whether its result is as expected.
fn is_run_in_parts(
    alloc: Global,
    text: &Text,
    capacity: usize,
    driver: &mut Driver<MemImage>,
) -> Result<bool, Fail> {
    let script = text.script(alloc)?;
    let source = Source::new(Manner::Halting(3), &script);
    let script = BufReader::with_capacity(alloc, capacity, source)?;
    Ok(text.is_result(&text.run(alloc, script, driver)?))
}

// Does the same by a new driver.
fn is_same_in_parts(alloc: Global, text: &Text, capacity: usize) -> Result<bool, Fail> {
    let mut driver = driver_of_fives(alloc)?;
    is_run_in_parts(alloc, text, capacity, &mut driver)
}

/// A reader that has no buffer, or one that is shorter than most lines, gives the same.
#[test]
fn texts_in_parts(rt: HostRuntime) -> Result<(), Fail> {
    for (n, text) in TEXTS.iter().enumerate() {
        for capacity in [0, 1, 5] {
            let is_same = is_same_in_parts(rt.alloc(), text, capacity)?;
            assert!(rt; is_same, "text {n}, capacity {capacity}");
        }
    }
    Ok(())
}

// Lines that are not statements, with the expected parts.
static EXPECTED: [(&str, &str); 9] = [
    (
        "raed 0 0 1",
        "column 1: expected a request, such as read or online",
    ),
    ("read", "column 5: expected a unit's number, at most 65535"),
    (
        "read 65536 0 1",
        "column 6: expected a unit's number, at most 65535",
    ),
    (
        "read 0 00 1",
        "column 8: expected a block's number, at most 4294967295",
    ),
    ("write 0 0 33", "column 11: expected a count, at most 32"),
    (
        "writeb 0 0 16385",
        "column 12: expected a count, at most 16384",
    ),
    (
        "fill 0 0 1 A5",
        "column 12: expected a byte in two hexadecimal digits, as a5",
    ),
    (
        "online 0 protected",
        "column 10: expected protect, or the end of the line",
    ),
    (
        "online 0 protect ",
        "column 18: expected the end of the line",
    ),
];

#[test]
fn expected_parts(rt: HostRuntime) -> Result<(), Fail> {
    for &(line, wanted) in &EXPECTED {
        let got = format!(in rt.alloc(); "{}", explain(line.as_bytes()))?;
        assert!(rt; got.as_str() == wanted, "{line}");
    }
    Ok(())
}
