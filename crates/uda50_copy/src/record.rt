//! The record of a copy: its map, and whoever follows the copy.
ghost use Rattle.std.specs.Prelude.{◌≡◌, ◌≢◌, ℕ, ◌<◌, ◌≤◌, ◌⊎◌, true, false, [], ◌∷◌, All, IfSome, IfNone, OnOk, OnErr};
ghost use Rattle.uda50_copy.specs.Map.{IsSet, IsFinishedBetween, IsUnfinishedBetween};
ghost use Rattle.uda50_copy.specs.Report.{begun, given, skipped};
ghost use Rattle.uda50_copy.specs.Record.{IsRecord, IsRunNoted};
ghost use Rattle.uda50_copy.specs.Status.{AreLater};

use crate::copier::Observer;
use crate::error::CopyError;
use crate::map::{BlockMap, BlockStatus};
use crate::trace::{BlockSpan, ReportTrace};
use std::alloc::{AllocError, Global};
use std::marker::Model;
use std::ops::Range;

/// Follows a copy, and saves its map.
pub trait CopyLog {
    /// What keeps it from saving a map.
    type Error: Drop;

    /// Called when all blocks before `end` are done. Since the map last changed, `copied` of them were copied or lost.
    fn reached(&mut self, end: u32, copied: u32);

    /// Called for each block of the source that can't be read, in rising order.
    fn lost(&mut self, block: u32);

    /// Called with the map after each change. `lost` says whether a block was lost since the call before. Once memory
    /// lacked to note a run, it isn't called for later runs.
    fn noted(&mut self, map: &BlockMap, lost: bool) -> Result<(), Self::Error>;
}

/// The reason why a copy stopped.
#[derive(Drop)]
pub enum CopyStop<E> {
    /// The copy failed.
    Copy(CopyError),
    /// The map wasn't saved.
    Log(E),
}

/// The map of a copy that goes on, and whoever follows the copy.
#[derive(Drop)]
pub struct CopyRecord<L: CopyLog> {
    alloc: Global,
    map: BlockMap,
    // The current run: its first block, and its lost blocks.
    from: u32,
    lost: Vec<u32>,
    // Whether memory lacked to note something, so that the map isn't right.
    broken: bool,
    // What kept the log from saving a map.
    failed: Option<L::Error>,
    log: L,
    trace: ReportTrace,
}

impl<L: CopyLog> Model for CopyRecord<L> {
    ghost use Rattle.uda50_copy.specs.Record.{RecordState, IsRecord};

    ghost Value = { RecordState };

    ghost view = { λ r. record {
      map = r.map;
      from = r.from;
      lost = r.lost.items;
      reports = r.trace.reports;
      broken = r.broken;
    } };

    ghost invariant = { λ r. IsRecord (record {
      map = r.map;
      from = r.from;
      lost = r.lost.items;
      reports = r.trace.reports;
      broken = r.broken;
    }) };
}

/// A record that ended.
#[derive(Drop)]
pub struct EndedRecord<L: CopyLog> {
    /// The map.
    pub map: BlockMap,
    /// Whether the map is right. Otherwise memory lacked to note a run.
    pub is_noted: bool,
    /// Who followed the copy.
    pub log: L,
}

impl<L: CopyLog + Drop> CopyRecord<L> {
    /// Makes the record of a copy that begins with this map.
    pub fn new(alloc: Global, map: BlockMap, log: L) -> CopyRecord<L>
        ensures map { result.map ≡ map }
        ensures reports { result.reports ≡ begun map ∷ [] }
        ensures noted { result.broken ≡ false }
    {
        let trace = ReportTrace::begun(&map);
        CopyRecord {
            alloc,
            map,
            from: 0,
            lost: Vec::new(alloc),
            broken: false,
            failed: None,
            log,
            trace,
        }
    }

    /// Ends the record.
    pub fn end(self) -> EndedRecord<L>
        ensures map { result.map ≡ self.map }
        ensures is_noted { result.is_noted ≡ false → self.broken ≡ true }
        ensures noted { result.is_noted ≡ true → self.broken ≡ false }
    {
        let CopyRecord {
            map,
            broken,
            log,
            ..
        } = self;
        EndedRecord {
            map,
            is_noted: !broken,
            log,
        }
    }

    /// Returns the next blocks that are not finished, of those from `from` up to `last`.
    pub(crate) fn next(&self, from: u32, last: u32) -> Option<Range<u32>>
        ensures later { IfSome result (λ blocks. AreLater from blocks.start blocks.end) }
        ensures within { IfSome result (λ blocks. blocks.end ≤ last) }
        ensures finished { IfSome result (λ blocks. IsFinishedBetween from blocks.start self.now.map) }
        ensures unfinished { IfSome result (λ blocks. IsUnfinishedBetween blocks.start blocks.end self.now.map) }
        ensures all_finished { IfNone result (IsFinishedBetween from last self.now.map) }
    {
        let blocks = self.map.next_unfinished(from)?;
        if blocks.start < last {
            Some(blocks.start..blocks.end.min(last))
        } else {
            None
        }
    }

    /// Notes that these blocks are zeros in both images.
    pub(crate) fn skip(&mut self, blocks: Range<u32>) -> Result<(), CopyStop<L::Error>>
        requires ordered { blocks.start ≤ blocks.end }
        ensures broken { self.new.broken ≡ self.old.broken }
        ensures none { blocks.end ≤ blocks.start → self.new ≡ self.old }
        ensures skipped { OnOk result (IsSet blocks.start blocks.end BlockStatus.Finished self.old.map self.new.map) }
        ensures in_part { (self.new ≡ self.old)
            ⊎ (IsSet blocks.start blocks.end BlockStatus.Finished self.old.map self.new.map
            × (self.new.reports ≡ skipped blocks.start blocks.end ∷ self.old.reports)) }
        ensures reports { OnOk result (blocks.start < blocks.end
            → self.new.reports ≡ skipped blocks.start blocks.end ∷ self.old.reports) }
    {
        let Range { start, end } = blocks;
        if end <= start {
            return Ok(());
        }
        if self.map.set(start..end, BlockStatus::Finished).is_err() {
            return Err(CopyStop::Copy(CopyError::NoMemory));
        }
        self.from = end;
        self.lost = Vec::new(self.alloc);
        self.trace.skipped(&BlockSpan { start, end });
        self.log.reached(end, 0);
        match self.log.noted(&self.map, false) {
            Ok(()) => Ok(()),
            Err(error) => Err(CopyStop::Log(error)),
        }
    }

    /// Begins to note a copy of these blocks.
    pub(crate) fn begin(&mut self, blocks: &Range<u32>)
        ensures map { self.new.map ≡ self.old.map }
        ensures broken { self.new.broken ≡ self.old.broken }
        ensures reports { self.new.reports ≡ given blocks.now.start blocks.now.end ∷ self.old.reports }
        ensures as_reported { IsRecord self.new }
    {
        self.from = blocks.start;
        self.lost = Vec::new(self.alloc);
        self.trace.given(&BlockSpan {
            start: blocks.start,
            end: blocks.end,
        });
    }

    /// Fails if a run couldn't be noted, or the map not be saved.
    pub(crate) fn check(&mut self) -> Result<(), CopyStop<L::Error>>
        ensures same { self.new ≡ self.old }
        ensures as_reported { IsRecord self.new }
        ensures noted { OnOk result (self.new.broken ≡ false) }
    {
        if self.broken {
            return Err(CopyStop::Copy(CopyError::NoMemory));
        }
        match self.failed.take() {
            Some(error) => Err(CopyStop::Log(error)),
            None => Ok(()),
        }
    }
}

impl<L: CopyLog + Drop> Observer for CopyRecord<L> {
    ghost reports = { λ r. r.reports };

    fn reached(&mut self, end: u32) {
        self.log.reached(end, end.saturating_sub(self.from));
        self.trace.reached(end);
        if self.broken {
            return;
        }
        if note(&mut self.map, self.from..end, &self.lost).is_err() {
            self.broken = true;
            return;
        }
        let lost = !self.lost.is_empty();
        self.from = end;
        self.lost = Vec::new(self.alloc);
        let saved = self.log.noted(&self.map, lost);
        keep_first(&mut self.failed, saved);
    }

    fn lost(&mut self, block: u32) {
        self.log.lost(block);
        self.trace.lost(block);
        if block == u32::MAX || self.lost.push(block).is_err() {
            self.broken = true;
        }
    }
}

// Keeps the first error.
fn keep_first<E: Drop>(first: &mut Option<E>, done: Result<(), E>) {
    if let Err(error) = done {
        if first.is_none() {
            *first = Some(error);
        }
    }
}

// Notes that blocks are finished, except for these lost ones.
fn note(map: &mut BlockMap, blocks: Range<u32>, lost: &[u32]) -> Result<(), AllocError>
    requires few { All (λ block. block < 4294967295) lost.now }
    ensures noted { OnOk result (IsRunNoted blocks.start blocks.end lost.now map.old map.new) }
{
    map.set(blocks, BlockStatus::Finished)?;
    for block in lost {
        map.set(*block..*block + 1, BlockStatus::Bad)?;
    }
    Ok(())
}
