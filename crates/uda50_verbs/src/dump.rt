//! `uda50 dump`: prints blocks as text, or writes their bytes.

use crate::fault::{Fault, STANDARD_OUTPUT};
use crate::image::NamedImage;
use crate::input_blocks::dump_input;
use crate::outcome::Outcome;
use crate::printer::BlockPrinter;
use crate::raw_blocks::write_blocks;
use crate::reason::{ImageReason, Reason};
use std::io::{BufWriter, IsTerminal, Write};
use std::ops::Range;
use uda50_arguments::{Dump, DumpFormat};

/// Prints blocks of an image, or of standard input.
pub(crate) fn dump<'w, W: Write + Drop>(
    rt: &HostRuntime,
    dump: &Dump<'w>,
    out: &mut BufWriter<W>,
) -> Result<Outcome, Fault<'w>> {
    if dump.image.is_stream() {
        check_terminal(rt, dump.format)?;
        return dump_input(rt, dump, out);
    }
    let mut image = NamedImage::open(rt, dump.image)?;
    check_terminal(rt, dump.format)?;
    let blocks = blocks_to_dump(dump, image.size())?;
    if matches!(dump.format, DumpFormat::Raw { .. }) && image.is_plain(rt) {
        return write_blocks(&mut image, blocks, out);
    }
    dump_blocks(&mut image, dump, blocks, out)
}

// Checks that no raw blocks go to a terminal.
fn check_terminal<'w>(rt: &HostRuntime, format: DumpFormat) -> Result<(), Fault<'w>> {
    if format == (DumpFormat::Raw { force: false }) && rt.stdout().is_terminal() {
        return Err(Fault::new(STANDARD_OUTPUT, Reason::Terminal));
    }
    Ok(())
}

// Returns the blocks to print, after a check that the image has all of them.
fn blocks_to_dump<'w>(dump: &Dump<'w>, blocks: u32) -> Result<Range<u32>, Fault<'w>> {
    match dump.blocks {
        None => Ok(0..blocks),
        Some(range) if range.is_within(blocks) => Ok(range.start..range.end),
        Some(range) => Err(Fault::new(
            dump.image.path,
            Reason::Image(ImageReason::PastEnd { range, blocks }),
        )),
    }
}

// Prints blocks of an image. Before the fault of a block that can't be read it prints all of the blocks before.
fn dump_blocks<'w, W: Write + Drop>(
    image: &mut NamedImage<'w>,
    dump: &Dump<'w>,
    blocks: Range<u32>,
    out: &mut BufWriter<W>,
) -> Result<Outcome, Fault<'w>> {
    let mut printer = BlockPrinter::new(dump);
    let mut bytes = [0; 512];
    let end = blocks.end;
    for block in blocks {
        match image.read_block(block, &mut bytes) {
            Ok(()) => printer.print(out, u64::from(block), &bytes)?,
            Err(fault) => {
                printer.end(out, u64::from(block))?;
                return Err(fault);
            }
        }
    }
    printer.end(out, u64::from(end))?;
    Ok(Outcome::Done)
}
