//! The copy of a range of blocks: of those that the map calls unfinished, and that aren't zeros in both images.
ghost use Rattle.std.specs.Prelude.{◌≡◌, ℕ, ◌<◌, ◌≤◌, true, false, IfOk, OnOk};
ghost use Rattle.uda50_copy.specs.Copy.{units_in};
ghost use Rattle.uda50_copy.specs.Map.{IsUnfinishedBetween};
ghost use Rattle.uda50_copy.specs.Changes.{ChangesWithin};
ghost use Rattle.uda50_copy.specs.Range.{states_of, CopiesUnfinished, CopiesAllUnfinished};
ghost use Rattle.uda50_copy.specs.Range.{FinishedOnlyIf, NoneUntried};
ghost use Rattle.uda50_copy.specs.Reports.{stage_of, LosesFailed};

use crate::copier::Copier;
use crate::record::{CopyLog, CopyRecord, CopyStop};
use std::ops::Range;
use uda_image::BlockStore;

/// Finds blocks that are zeros in both images, and that need no copy.
pub trait ZeroBlocks {
    ghost use Rattle.std.specs.Prelude.{ℕ, ◌<◌, ◌≤◌};

    /// The blocks that are zeros in both images, as far as is known.
    ghost zeros: { Self → ℕ → Type 0 };

    /// Returns the next of these blocks to copy. The others before the end of the result are zeros in both images.
    fn next(&mut self, blocks: Range<u32>) -> Range<u32>
        requires some { blocks.start < blocks.end }
        ensures later { blocks.start ≤ result.start }
        ensures ordered { result.start ≤ result.end }
        ensures within { result.end ≤ blocks.end }
        ensures proceeds { blocks.start < result.end }
        ensures zeros { (n : ℕ) → blocks.start ≤ n → n < result.start → zeros self.new n }
        ensures stay { (n : ℕ) → zeros self.old n → zeros self.new n };
}

/// Copies the blocks of a range that the map calls unfinished, and skips those that are zeros in both images. Blocks of
/// which the map says nothing count as finished.
pub fn copy_unfinished<S: BlockStore + Drop, L: CopyLog + Drop, Z: ZeroBlocks>(
    copier: &mut Copier<S>,
    notes: &mut CopyRecord<L>,
    zeros: &mut Z,
    blocks: Range<u32>,
) -> Result<(), CopyStop<L::Error>>
    ensures changes_only { ChangesWithin blocks.start blocks.end (units_in copier.old) (units_in copier.new) }
    ensures loses_failed { LosesFailed (stage_of copier.old notes.old.reports)
        (stage_of copier.new notes.new.reports) }
    ensures copies { notes.old.broken ≡ false → notes.new.broken ≡ false
        → CopiesUnfinished blocks.start blocks.end (states_of copier.old copier.new notes.old notes.new)
        (Z.zeros zeros.new) }
    ensures copies_all { OnOk result (notes.old.broken ≡ false
        → CopiesAllUnfinished blocks.start blocks.end (states_of copier.old copier.new notes.old notes.new)
        (Z.zeros zeros.new)) }
    ensures finished_only { notes.old.broken ≡ false → notes.new.broken ≡ false
        → FinishedOnlyIf (states_of copier.old copier.new notes.old notes.new) (Z.zeros zeros.new) }
    ensures none_untried { OnOk result (notes.old.broken ≡ false
        → NoneUntried blocks.start blocks.end notes.new.map) }
{
    let last = blocks.end;
    if last <= blocks.start {
        return Ok(());
    }
    let mut at = blocks.start;
    while let Some(next) = notes.next(at, last) {
        at = copy_next(copier, notes, zeros, next)?;
    }
    Ok(())
}

// Copies the first of these unfinished blocks that aren't zeros in both images. Returns the block after the last one
// that was copied or skipped.
fn copy_next<S: BlockStore + Drop, L: CopyLog + Drop, Z: ZeroBlocks>(
    copier: &mut Copier<S>,
    notes: &mut CopyRecord<L>,
    zeros: &mut Z,
    blocks: Range<u32>,
) -> Result<u32, CopyStop<L::Error>>
    requires some { blocks.start < blocks.end }
    ensures zeros_stay { (n : ℕ) → Z.zeros zeros.old n → Z.zeros zeros.new n }
    ensures proceeds { IfOk result (λ end. blocks.start < end) }
    ensures within { IfOk result (λ end. end ≤ blocks.end) }
    ensures noted { OnOk result (notes.old.broken ≡ false → notes.new.broken ≡ false) }
    ensures changes_only { ChangesWithin blocks.start blocks.end (units_in copier.old) (units_in copier.new) }
    ensures loses_failed { LosesFailed (stage_of copier.old notes.old.reports)
        (stage_of copier.new notes.new.reports) }
    ensures changes_before { IfOk result (λ end.
        ChangesWithin blocks.start end (units_in copier.old) (units_in copier.new)) }
    ensures copies { notes.old.broken ≡ false → notes.new.broken ≡ false
        → IsUnfinishedBetween blocks.start blocks.end notes.old.map
        → CopiesUnfinished blocks.start blocks.end (states_of copier.old copier.new notes.old notes.new)
        (Z.zeros zeros.new) }
    ensures copies_all { IfOk result (λ end. notes.old.broken ≡ false
        → IsUnfinishedBetween blocks.start blocks.end notes.old.map
        → CopiesAllUnfinished blocks.start end (states_of copier.old copier.new notes.old notes.new)
        (Z.zeros zeros.new)) }
{
    let from = blocks.start;
    let Range { start, end } = zeros.next(blocks);
    notes.skip(from..start)?;
    if end <= start {
        return Ok(end);
    }
    copy_given(copier, notes, start..end)?;
    Ok(end)
}

// Copies blocks, and notes them.
fn copy_given<S: BlockStore + Drop, L: CopyLog + Drop>(
    copier: &mut Copier<S>,
    notes: &mut CopyRecord<L>,
    blocks: Range<u32>,
) -> Result<(), CopyStop<L::Error>>
    requires some { blocks.start < blocks.end }
    ensures noted { OnOk result (notes.new.broken ≡ false) }
    ensures changes_only { ChangesWithin blocks.start blocks.end (units_in copier.old) (units_in copier.new) }
    ensures loses_failed { LosesFailed (stage_of copier.old notes.old.reports)
        (stage_of copier.new notes.new.reports) }
    ensures copies { notes.old.broken ≡ false → notes.new.broken ≡ false
        → IsUnfinishedBetween blocks.start blocks.end notes.old.map
        → CopiesUnfinished blocks.start blocks.end (states_of copier.old copier.new notes.old notes.new)
        (λ n. ⊥) }
    ensures copies_all { OnOk result (notes.old.broken ≡ false
        → IsUnfinishedBetween blocks.start blocks.end notes.old.map
        → CopiesAllUnfinished blocks.start blocks.end (states_of copier.old copier.new notes.old notes.new)
        (λ n. ⊥)) }
{
    notes.begin(&blocks);
    let copied = copier.copy(blocks, notes);
    notes.check()?;
    match copied {
        Ok(()) => Ok(()),
        Err(error) => Err(CopyStop::Copy(error)),
    }
}
