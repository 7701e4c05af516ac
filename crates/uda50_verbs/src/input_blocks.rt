//! Blocks of standard input.

use crate::fault::{Fault, STANDARD_INPUT};
use crate::outcome::Outcome;
use crate::printer::BlockPrinter;
use crate::reason::{InputReason, Reason};
use std::io;
use std::io::{BufReader, BufWriter, ErrorKind, Read, Write};
use std::ops::Range;
use uda50_arguments::Dump;

/// Prints blocks of standard input. It reads nothing after the last of them.
pub(crate) fn dump_input<'w, W: Write + Drop>(
    rt: &HostRuntime,
    dump: &Dump<'w>,
    out: &mut BufWriter<W>,
) -> Result<Outcome, Fault<'w>> {
    let blocks = match dump.blocks {
        Some(range) => u64::from(range.start)..u64::from(range.end),
        None => 0..u64::MAX,
    };
    let limit = blocks.end.saturating_mul(512);
    let mut input = BufReader::new(rt.alloc(), rt.stdin().take(limit))?;
    print_blocks(&mut input, blocks, BlockPrinter::new(dump), out)
}

// Prints blocks of an input. Each goes out before the input may have to be waited for.
fn print_blocks<'w, R: Read + Drop, W: Write + Drop>(
    input: &mut BufReader<R>,
    blocks: Range<u64>,
    mut printer: BlockPrinter,
    out: &mut BufWriter<W>,
) -> Result<Outcome, Fault<'w>> {
    let Range { start, end } = blocks;
    for number in 0..end {
        if input.buffer().len() < 512 {
            out.flush()?;
        }
        let mut bytes = [0; 512];
        match read_block(input, &mut bytes) {
            Ok(512) if number < start => {}
            Ok(512) => printer.print(out, number, &bytes)?,
            read => {
                printer.end(out, number)?;
                return at_end(read, number, end);
            }
        }
    }
    printer.end(out, end)?;
    Ok(Outcome::Done)
}

// Returns the result of an input that has no whole block with this number. Without a last block to print, an
// input may end after any block.
fn at_end<'w>(read: io::Result<usize>, number: u64, end: u64) -> Result<Outcome, Fault<'w>> {
    match read {
        Ok(0) if end == u64::MAX => Ok(Outcome::Done),
        Ok(0) => Err(Fault::new(
            STANDARD_INPUT,
            Reason::Input(InputReason::EndsBefore(number)),
        )),
        Ok(bytes) => Err(Fault::new(
            STANDARD_INPUT,
            Reason::Input(InputReason::ShortBlock(bytes)),
        )),
        Err(error) => Err(Fault::system(STANDARD_INPUT, error)),
    }
}

// Reads a block, or what the input has of it before its end. Returns the number of bytes.
fn read_block<R: Read + Drop>(
    input: &mut BufReader<R>,
    bytes: &mut [u8; 512],
) -> io::Result<usize> {
    let mut filled = 0;
    for _ in 0..u64::MAX {
        if filled >= bytes.len() {
            break;
        }
        match input.read(&mut bytes[filled..]) {
            Ok(0) => break,
            Ok(count) => filled += count,
            Err(error) => {
                if error.kind() != ErrorKind::Interrupted {
                    return Err(error);
                }
            }
        }
    }
    Ok(filled)
}
