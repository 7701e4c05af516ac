//! The run of a script whose text is read from a stream.

ghost use Rattle.std.specs.Io.Buffered.{reader_remaining};
ghost use Rattle.uda_script_run.specs.Batches.{setting};
ghost use Rattle.uda_script_run.specs.Stream.{RunsText};

use crate::batch::{ScriptProgress, run_batch};
use crate::channels::Channels;
use crate::source::{Next, Source};
use crate::style::{ReportStyle, ScriptOutcome};
use crate::text_error::TextError;
use crate::text_reader::{ByteByByte, TextReader};
use std::alloc::Global;
use std::io::{BufRead, BufReader, Read, Write};
use uda_driver::{Driver, Watch};
use uda_image::BlockStore;

/// More batches than any text has. It bounds the numbers of requests to 64 bits.
const MOST_BATCHES: u64 = 1 << 56;

/// Runs a script of any length while its text is read from a stream, in bounded memory.
///
/// The lines have the forms that [`parse`](uda_grammar::parse) reads, and there may be any number of them.
/// Their requests are executed in batches of 64. After each batch `out` gets the bytes that it read, and
/// `report` its lines.
///
/// In the plain style both get, over all batches, the bytes that [`run_script`](crate::run_script) writes
/// for the same requests. Answers and disks are related to the in-order run of all requests as those of
/// [`Driver::run`](uda_driver::Driver::run) are.
///
/// `watch` receives each turn of the port. The text is read byte by byte, so its reader loses nothing after
/// the lines that were read. [`run_buffered_text`] is faster.
///
/// # Errors
///
/// An error stops the run. The batches before it were executed, and their texts were written.
///
/// - `Unreadable`: the text can't be read. Nothing else was executed, but data may have been read.
/// - `Syntax`: this is the first line that is not a statement. All requests before it were executed.
/// - `Script(ShortData)`, `Script(Read)` and `Script(NoMemory)`: as `Unreadable`. `ShortData` has the
///   number of the first line whose bytes the data does not contain.
/// - `Script(Write)`: one more batch was executed, and only a beginning of its texts was written.
pub fn run_text<S: BlockStore, T: BufRead + Drop, R: Read, W: Write, V: Write, H: Watch>(
    alloc: Global,
    style: ReportStyle,
    text: T,
    channels: &mut Channels<R, W, V, H>,
    driver: &mut Driver<S>,
) -> Result<ScriptOutcome, TextError>
    ensures run { RunsText style (T.remaining text)
        (setting (R.remaining channels.old.input) (W.contents channels.old.out)
        (V.contents channels.old.report) driver.old)
        (setting (R.remaining channels.new.input) (W.contents channels.new.out)
        (V.contents channels.new.report) driver.new) result }
{
    run_lines(alloc, style, ByteByByte(text), channels, driver)
}

/// Runs a script as [`run_text`] does, and takes each line from the buffer of its reader.
///
/// The inner reader is read exactly where `run_text` would read it: when a byte is needed and the buffer is
/// empty. So both wait, fail and end at the same place.
///
/// # Errors
///
/// Those of [`run_text`].
pub fn run_buffered_text<S: BlockStore, T: Read + Drop, R: Read, W: Write, V: Write, H: Watch>(
    alloc: Global,
    style: ReportStyle,
    text: BufReader<T>,
    channels: &mut Channels<R, W, V, H>,
    driver: &mut Driver<S>,
) -> Result<ScriptOutcome, TextError>
    ensures run { RunsText style (reader_remaining T.remaining text)
        (setting (R.remaining channels.old.input) (W.contents channels.old.out)
        (V.contents channels.old.report) driver.old)
        (setting (R.remaining channels.new.input) (W.contents channels.new.out)
        (V.contents channels.new.report) driver.new) result }
{
    run_lines(alloc, style, text, channels, driver)
}

// Runs the lines of a text.
fn run_lines<S: BlockStore, T: TextReader + Drop, R: Read, W: Write, V: Write, H: Watch>(
    alloc: Global,
    style: ReportStyle,
    text: T,
    channels: &mut Channels<R, W, V, H>,
    driver: &mut Driver<S>,
) -> Result<ScriptOutcome, TextError>
    ensures run { RunsText style (T.remaining text)
        (setting (R.remaining channels.old.input) (W.contents channels.old.out)
        (V.contents channels.old.report) driver.old)
        (setting (R.remaining channels.new.input) (W.contents channels.new.out)
        (V.contents channels.new.report) driver.new) result }
{
    let mut source = Source {
        text,
        lines_read: 0,
    };
    let mut lines = Vec::new(alloc);
    let mut progress = ScriptProgress::start(alloc, style);
    for _ in 0..MOST_BATCHES {
        let next = source.read_batch(&mut lines)?;
        progress = run_batch(alloc, &lines, progress, channels, driver)?;
        match next {
            Next::More => {}
            Next::End => return Ok(progress.outcome),
            Next::Fault { line, expected } => return Err(TextError::Syntax { line, expected }),
        }
    }
    Err(TextError::Unreadable)
}
