//! Printing of blocks.
ghost use Rattle.std.specs.Prelude.{◌<◌};

use std::fmt::Display;
use std::io;
use std::io::{BufWriter, Write};
use uda50_arguments::{Dump, DumpFormat};
use uda50_show::{HexRow, OctalRow, RowForm, Squeeze};

/// A squeezed dump prints a block though it repeats, if its number is a multiple of this one, and writes what it has
/// gathered. So it ends when its reader has gone.
const SIGN: u64 = 262_144;

/// The blocks that are printed one after the other, with what was printed of them.
#[derive(Drop)]
pub(crate) struct BlockPrinter {
    /// The format.
    format: DumpFormat,
    /// The state of a squeezed dump; `None` if all rows are printed.
    squeeze: Option<Squeeze>,
}

impl BlockPrinter {
    /// Makes the state before the first block.
    pub(crate) fn new(dump: &Dump<'_>) -> BlockPrinter {
        let is_raw = matches!(dump.format, DumpFormat::Raw { .. });
        let squeezes = !dump.all && !is_raw;
        BlockPrinter {
            format: dump.format,
            squeeze: squeezes.then_some(Squeeze(None)),
        }
    }

    /// Prints the next block, unless it is left out.
    pub(crate) fn print<W: Write + Drop>(
        &mut self,
        out: &mut BufWriter<W>,
        number: u64,
        bytes: &[u8; 512],
    ) -> io::Result<()> {
        match &mut self.squeeze {
            None => print_block(out, (number, bytes), self.format),
            Some(squeeze) => print_squeezed(out, squeeze, (number, bytes), self.format),
        }
    }

    /// Prints the line of the last blocks that were left out, if there is one. No block comes before `end`.
    pub(crate) fn end<W: Write + Drop>(&self, out: &mut BufWriter<W>, end: u64) -> io::Result<()> {
        match &self.squeeze {
            None => Ok(()),
            Some(squeeze) => print_left_out(out, squeeze, end),
        }
    }
}

// Prints a block and the line of the blocks that were left out before it, unless it is left out itself.
fn print_squeezed<W: Write + Drop>(
    out: &mut BufWriter<W>,
    squeeze: &mut Squeeze,
    (number, bytes): (u64, &[u8; 512]),
    format: DumpFormat,
) -> io::Result<()> {
    let repeats = squeeze.leaves_out(bytes);
    if repeats && number % SIGN != 0 {
        return Ok(());
    }
    print_left_out(out, squeeze, number)?;
    squeeze.note_printed(number, bytes);
    print_rows(out, (number, bytes), format, has_repeated_rows(bytes))?;
    if repeats {
        out.flush()?;
    }
    Ok(())
}

// Prints the line of the blocks that were left out before a block, if there are any.
fn print_left_out<W: Write + Drop>(
    out: &mut BufWriter<W>,
    squeeze: &Squeeze,
    number: u64,
) -> io::Result<()> {
    match squeeze.left_out_before(number) {
        Some(blocks) => writeln!(out, "{blocks}"),
        None => Ok(()),
    }
}

// Prints a block, or writes its bytes.
fn print_block<W: Write + Drop>(
    out: &mut BufWriter<W>,
    (number, bytes): (u64, &[u8; 512]),
    format: DumpFormat,
) -> io::Result<()> {
    match format {
        DumpFormat::Raw { .. } => out.write_all(bytes),
        _ => print_rows(out, (number, bytes), format, false),
    }
}

// Returns whether some row of a block repeats the row before it. It isn't inlined, for the same reason as
// `put_repeated`.
#[inline(never)]
fn has_repeated_rows(block: &[u8; 512]) -> bool {
    for row in 1..32 {
        let is_alike = block[16 * row] == block[16 * row - 16];
        if is_alike && RowForm::of(block, row) != RowForm::Printed {
            return true;
        }
    }
    false
}

// Prints a line with a block's number, and its rows. If it `squeezes`, a `*` replaces rows that repeat.
fn print_rows<W: Write + Drop>(
    out: &mut BufWriter<W>,
    (number, block): (u64, &[u8; 512]),
    format: DumpFormat,
    squeezes: bool,
) -> io::Result<()> {
    writeln!(out, "block {number}")?;
    for row in 0..32u16 {
        if squeezes && put_repeated(out, block, row)? {
            continue;
        }
        let offset = 16 * row;
        let start = usize::from(offset);
        let mut bytes = [0; 16];
        bytes.copy_from_slice(&block[start..start + 16]);
        if format == DumpFormat::Octal {
            let row = OctalRow { offset, bytes };
            let mut line = [b'\n'; 81];
            line[..80].copy_from_slice(&row.text());
            put_line(out, &line, &row)?;
        } else {
            let row = HexRow { offset, bytes };
            let mut line = [b'\n'; 73];
            line[..72].copy_from_slice(&row.text());
            put_line(out, &line, &row)?;
        }
    }
    Ok(())
}

// Returns whether a row repeats the row before it. It writes a `*` for the first of such rows. It isn't inlined, since
// that made a dump of other rows slower.
#[inline(never)]
fn put_repeated<W: Write + Drop>(
    out: &mut BufWriter<W>,
    block: &[u8; 512],
    row: u16,
) -> io::Result<bool>
    requires { row < 32 }
{
    match RowForm::of(block, usize::from(row)) {
        RowForm::Printed => return Ok(false),
        RowForm::Star => writeln!(out, "*")?,
        RowForm::LeftOut => {}
    }
    Ok(true)
}

// Writes the line of a row. If it leaves no room in the buffer, it goes there in the pieces of the row's `Display`. The
// buffer goes out when the next piece doesn't fit. `write_all` makes the same test, so that the compiler can leave out
// what may fail in it. The subtraction never wraps, since a buffer holds at most its capacity.
fn put_line<W: Write + Drop>(
    out: &mut BufWriter<W>,
    line: &[u8],
    row: &impl Display,
) -> io::Result<()> {
    let room = out.capacity().wrapping_sub(out.buffer().len());
    if line.len() < room {
        out.write_all(line)
    } else {
        writeln!(out, "{row}")
    }
}
