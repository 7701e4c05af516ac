//! Maps of the blocks of a copy, in the format of GNU ddrescue's mapfiles.
ghost use Rattle.std.specs.Prelude.{◌≡◌, ℕ, ◌<◌, ◌≤◌, ◌⊎◌, true, false, [], ◌∷◌, ◌++◌, if◌then◌else◌, IfSome, IfNone, IfOk, OnOk, OnErr, All, IsTrue, ◌↔◌, length, ◌≢◌, ◌-◌};
ghost use Rattle.uda50_copy.specs.Map.{is_within, statuses_at, changed, IsUntried, IsSet, IsFinishedFrom, IsFinishedAt, IsUnfinishedFrom, IsFinishedBetween, IsUnfinishedBetween, HasBlocks, AreForward, AreConsecutive, Spans, map_start, map_end};
ghost use Rattle.uda50_copy.specs.Status.{AreLater};

use std::alloc::{AllocError, Global};
use std::collections::VecDeque;
use std::fmt;
use std::marker::Model;
use std::ops::Range;

mod entry;
mod parse;

pub use entry::{BlockStatus, MapEntry};
pub use parse::MapError;

/// The status of each block of a range: entries that follow each other, in rising order.
///
/// Contracts see the entries. A change near the one before it costs little, however many entries there are.
#[derive(Debug, Drop)]
pub struct BlockMap {
    alloc: Global,
    // The entries up to the last change.
    before: Vec<MapEntry>,
    // Those after it.
    after: VecDeque<MapEntry>,
}

impl Model for BlockMap {
    ghost use Rattle.std.specs.Prelude.{List, ◌++◌};
    ghost use Rattle.uda50_copy.specs.declared.map.entry.MapEntry.{MapEntry};
    ghost use Rattle.uda50_copy.specs.Map.{AreConsecutive};

    ghost Value = { List MapEntry };

    ghost view = { λ map. map.before.items ++ map.after.items };

    ghost invariant = { λ map. AreConsecutive (map.before.items ++ map.after.items) };
}

impl BlockMap {
    /// Makes a map of blocks that have not been tried.
    pub fn new(alloc: Global, blocks: Range<u32>) -> Result<BlockMap, AllocError>
        ensures untried { IfOk result (IsUntried blocks.start blocks.end) }
    {
        let Range { start, end } = blocks;
        let mut before = Vec::new(alloc);
        before.push(MapEntry {
            start,
            end: end.max(start),
            status: BlockStatus::NonTried,
        })?;
        Ok(BlockMap {
            alloc,
            before,
            after: VecDeque::new(alloc),
        })
    }

    /// Gives blocks a status. Those that the map doesn't have are left out.
    pub fn set(&mut self, blocks: Range<u32>, status: BlockStatus) -> Result<(), AllocError>
        ensures set { OnOk result (IsSet blocks.start blocks.end status self.old self.new) }
        ensures unchanged { OnErr result (self.new ≡ self.old) }
    {
        // A map without blocks keeps no entry.
        if self.has_no_blocks() {
            self.before.clear();
            self.after.clear();
            return Ok(());
        }
        // The entries that change are the last ones before the place, with those that touch the blocks.
        divide(&mut self.before, &mut self.after, blocks.end)?;
        let first = self
            .before
            .partition_point(|entry| entry.end < blocks.start);
        let mut entries = Vec::new(self.alloc);
        for entry in self.before[first..].iter() {
            append_set(&mut entries, *entry, &blocks, status)?;
        }
        self.before.reserve(entries.len())?;
        self.before.truncate(first);
        self.before.append(&mut entries)
    }

    /// Returns whether the map has all of these blocks.
    pub fn covers(&self, blocks: &Range<u32>) -> bool
        ensures all { result ≡ true → HasBlocks blocks.now.start blocks.now.end self.now }
        ensures others { result ≡ false → blocks.now.start < blocks.now.end
            → ¬ HasBlocks blocks.now.start blocks.now.end self.now }
    {
        let start = self.start();
        let end = self.end();
        !self.is_empty() && start <= blocks.start && blocks.end <= end
    }

    /// Returns the block after the last one, or 0 if there are no entries.
    pub fn end(&self) -> u32
        ensures value { result ≡ map_end self.now }
    {
        if let Some(entry) = self.after.back() {
            return entry.end;
        }
        match self.before.last() {
            Some(entry) => entry.end,
            None => 0,
        }
    }

    /// Returns the next blocks that are not finished, of those from `from` on.
    pub fn next_unfinished(&self, from: u32) -> Option<Range<u32>>
        ensures later { IfSome result (λ blocks. AreLater from blocks.start blocks.end) }
        ensures finished_before { IfSome result (λ blocks. IsFinishedBetween from blocks.start self.now) }
        ensures unfinished { IfSome result (λ blocks. IsUnfinishedBetween blocks.start blocks.end self.now) }
        ensures all_finished { IfNone result (IsFinishedFrom from self.now) }
    {
        let near = self.before.partition_point(|entry| entry.end <= from);
        let far = self.after.partition_point(|entry| entry.end <= from);
        let mut rest = self.before[near..].iter().chain(self.after.range(far..));
        let entry = rest.find(|entry| !is_finished(&entry.from(from)))?;
        Some(entry.start.max(from)..entry.end)
    }

    /// Returns the block after the last one that is finished, or 0 if none is.
    pub fn finished_end(&self) -> u32
        ensures none_later { IsUnfinishedFrom result self.now }
        ensures finished { 0 < result → IsFinishedAt (result - 1) self.now }
    {
        if let Some(entry) = self.after.iter().rfind(|entry| has_finished(entry)) {
            return entry.end;
        }
        match self.before.iter().rfind(|entry| has_finished(entry)) {
            Some(entry) => entry.end,
            None => 0,
        }
    }

    /// Returns the first block, or 0 if there are no entries.
    pub fn start(&self) -> u32
        ensures value { result ≡ map_start self.now }
        ensures consecutive { AreConsecutive self.now }
    {
        match self.before.first().or(self.after.front()) {
            Some(entry) => entry.start,
            None => 0,
        }
    }

    // Returns whether there are no entries.
    fn is_empty(&self) -> bool
        ensures value { IsTrue result ↔ (length self.now ≡ 0) }
    {
        self.before.is_empty() && self.after.is_empty()
    }

    // Returns whether there are no blocks.
    fn has_no_blocks(&self) -> bool
        ensures none { result ≡ true → (block : ℕ) → statuses_at self.now block ≡ [] }
    {
        self.end() <= self.start()
    }
}

// Moves entries from one list to the other, so that those that start after a block are in the second one.
fn divide(
    before: &mut Vec<MapEntry>,
    after: &mut VecDeque<MapEntry>,
    block: u32,
) -> Result<(), AllocError>
    requires consecutive { AreConsecutive (before.old.items ++ after.old.items) }
    ensures same { before.new.items ++ after.new.items ≡ before.old.items ++ after.old.items }
    ensures after { OnOk result (All (λ entry. block < entry.start) after.new.items) }
{
    while let Some(last) = before.last() {
        if last.start <= block {
            break;
        }
        after.push_front(*last)?;
        before.pop();
    }
    while let Some(next) = after.front() {
        if block < next.start {
            break;
        }
        before.push(*next)?;
        after.pop_front();
    }
    Ok(())
}

// Returns whether all blocks of an entry are finished.
fn is_finished(entry: &MapEntry) -> bool
    ensures finished { result ≡ true → entry.now.status ≡ BlockStatus.Finished ⊎ entry.now.end ≤ entry.now.start }
    ensures other { result ≡ false → entry.now.start < entry.now.end }
    ensures unfinished { result ≡ false → entry.now.status ≢ BlockStatus.Finished }
{
    entry.status == BlockStatus::Finished || entry.is_empty()
}

// Returns whether an entry has blocks that are finished.
fn has_finished(entry: &MapEntry) -> bool
    ensures finished { result ≡ true → entry.now.status ≡ BlockStatus.Finished }
    ensures some { result ≡ true → entry.now.start < entry.now.end }
    ensures none { result ≡ false → (entry.now.status ≢ BlockStatus.Finished)
        ⊎ (entry.now.end ≤ entry.now.start) }
{
    entry.status == BlockStatus::Finished && !entry.is_empty()
}

// Adds an entry after the others, and gives these blocks of it a status.
fn append_set(
    entries: &mut Vec<MapEntry>,
    entry: MapEntry,
    blocks: &Range<u32>,
    status: BlockStatus,
) -> Result<(), AllocError>
    requires forward { entry.start ≤ entry.end }
    requires all_forward { AreForward entries.old.items }
    ensures all_forward { AreForward entries.new.items }
    ensures spans { OnOk result ((start : ℕ) → Spans start entry.start entries.old.items
        → Spans start entry.end entries.new.items) }
    ensures set { OnOk result ((block : ℕ) → statuses_at entries.new.items block
        ≡ statuses_at entries.old.items block
        ++ (if is_within blocks.now.start blocks.now.end block then changed status (statuses_at (entry ∷ []) block)
        else statuses_at (entry ∷ []) block)) }
{
    let start = blocks.start.clamp(entry.start, entry.end);
    let end = blocks.end.clamp(start, entry.end);
    append_joined(entries, entry.before(start))?;
    append_joined(entries, MapEntry { start, end, status })?;
    append_joined(entries, entry.from(end))
}

// Adds an entry after the others. One that is empty is left out, and one with the status of the last is joined to it.
fn append_joined(entries: &mut Vec<MapEntry>, entry: MapEntry) -> Result<(), AllocError>
    requires forward { entry.start ≤ entry.end }
    requires all_forward { AreForward entries.old.items }
    ensures all_forward { AreForward entries.new.items }
    ensures spans { OnOk result ((start : ℕ) → Spans start entry.start entries.old.items
        → Spans start entry.end entries.new.items) }
    ensures added { OnOk result ((block : ℕ) → statuses_at entries.new.items block
        ≡ statuses_at entries.old.items block ++ statuses_at (entry ∷ []) block) }
{
    if entry.is_empty() {
        return Ok(());
    }
    if let Some(last) = entries.last_mut() {
        if last.is_followed_by(&entry) {
            last.end = entry.end;
            return Ok(());
        }
    }
    entries.push(entry)?;
    Ok(())
}

/// Writes the map as a mapfile of ddrescue.
impl fmt::Display for BlockMap {
    fn fmt<W: fmt::Write>(&self, f: &mut fmt::Formatter<W>) -> fmt::Result {
        f.write_str("# Mapfile. Created by uda50\n")?;
        f.write_str("# current_pos  current_status  current_pass\n")?;
        let (position, status) = match self.next_unfinished(0) {
            Some(blocks) => (512 * u64::from(blocks.start), '?'),
            None => (0, '+'),
        };
        writeln!(f, "0x{position:08X}     {status}               1")?;
        f.write_str("#      pos        size  status\n")?;
        for entry in self.before.iter().chain(self.after.iter()) {
            writeln!(f, "{entry}")?;
        }
        Ok(())
    }
}
