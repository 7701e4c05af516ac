//! Squeezing of a dump: the rows and the blocks that a dump leaves out because they repeat.
ghost use Rattle.std.specs.Prelude.{◌≡◌, ◌<◌, ◌↔◌, IsTrue};
ghost use Rattle.uda50_show.specs.Squeeze.{Repeats, row_bytes};

use crate::text::is_same;
use std::fmt;

/// The form in which a squeezed dump prints a row of a block.
#[derive(Clone, Copy, Debug, PartialEq, Eq)]
pub enum RowForm {
    /// The row.
    Printed,
    /// A line `*` in place of this row and of the rows right after it that repeat it.
    Star,
    /// Nothing: the row before it is a repeated one too.
    LeftOut,
}

impl RowForm {
    ghost use Rattle.std.specs.Prelude.{◌-◌};

    /// Returns the form of a row. It repeats if it has the bytes of the row before it.
    pub fn of(block: &[u8; 512], row: usize) -> RowForm
        requires row { row < 32 }
        ensures printed { ¬ Repeats row block.now → result ≡ RowForm.Printed }
        ensures star { Repeats row block.now → ¬ Repeats (row - 1) block.now → result ≡ RowForm.Star }
        ensures left_out { Repeats row block.now → Repeats (row - 1) block.now
            → result ≡ RowForm.LeftOut }
    {
        if !repeats(block, row) {
            RowForm::Printed
        } else if !repeats(block, row - 1) {
            RowForm::Star
        } else {
            RowForm::LeftOut
        }
    }
}

// Returns whether a row has the bytes of the row before it.
fn repeats(block: &[u8; 512], row: usize) -> bool
    requires { row < 32 }
    ensures { IsTrue result ↔ Repeats row block.now }
{
    row > 0
        && is_same(
            &block[16 * row..16 * row + 16],
            &block[16 * row - 16..16 * row],
        )
}

/// Blocks that a squeezed dump left out, with the text `* blocks 6..900`.
#[derive(Clone, Copy, Debug, PartialEq, Eq)]
pub struct LeftOutBlocks {
    /// The first of them.
    pub start: u64,
    /// The block after the last of them.
    pub end: u64,
}

impl fmt::Display for LeftOutBlocks {
    fn fmt<W: fmt::Write>(&self, f: &mut fmt::Formatter<W>) -> fmt::Result {
        write!(f, "* blocks {}..{}", self.start, self.end)
    }
}

/// The last block that a squeezed dump printed.
#[derive(Clone, Copy, Debug, PartialEq, Eq)]
pub struct PrintedBlock {
    /// Its number.
    pub number: u64,
    /// Its bytes.
    pub bytes: [u8; 512],
}

/// The state of a squeezed dump: the last block that it printed, if there is one. The blocks after it repeat it.
#[derive(Clone, Copy, Debug, PartialEq, Eq)]
pub struct Squeeze(pub Option<PrintedBlock>);

impl Squeeze {
    ghost use Rattle.uda50_show.specs.Squeeze.{last_bytes, left_out_before, printed_block};
    ghost use Rattle.std.specs.Prelude.{Some};

    /// Returns whether a block is left out, because it has the bytes of the block before it.
    pub fn leaves_out(&self, bytes: &[u8; 512]) -> bool
        ensures same { IsTrue result ↔ (last_bytes self.now.0 ≡ Some bytes.now) }
    {
        match &self.0 {
            Some(last) => is_same(&last.bytes, bytes),
            None => false,
        }
    }

    /// Returns the blocks that were left out between the last block that was printed and this one.
    pub fn left_out_before(&self, number: u64) -> Option<LeftOutBlocks>
        ensures left_out { result ≡ left_out_before number self.now.0 }
    {
        let start = self.0.as_ref()?.number.checked_add(1)?;
        let end = number;
        (start < end).then_some(LeftOutBlocks { start, end })
    }

    /// Notes that a block was printed.
    pub fn note_printed(&mut self, number: u64, bytes: &[u8; 512])
        ensures noted { self.new.0 ≡ Some (printed_block number bytes.now) }
    {
        self.0 = Some(PrintedBlock {
            number,
            bytes: *bytes,
        });
    }
}
