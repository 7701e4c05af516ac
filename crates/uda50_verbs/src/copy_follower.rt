//! Who follows a copy: it prints the lines of its progress, and saves its map.

use crate::file_fault::FileFault;
use crate::outcome::Outcome;
use crate::progress::CopyProgress;
use crate::target::CopyTarget;
use std::ops::Range;
use std::time::{Duration, Instant};
use uda50_copy::{BlockMap, CopyLog, Observer};

/// The least time between two saves of a map, in seconds. Before each save the target is synced.
const SAVE_SECONDS: u64 = 10;

/// Follows a copy: prints the lines of its progress, and saves its map in a file.
#[derive(Drop)]
pub(crate) struct CopyFollower<'r, 'w> {
    rt: &'r HostRuntime,
    progress: CopyProgress<'r, 'w>,
    target: &'r CopyTarget<'r, 'w>,
    // The time of the last save, or of the start. `None` if the system has no clock.
    saved: Option<Instant>,
    // Whether the map is saved.
    is_saved: bool,
}

impl<'r, 'w> CopyFollower<'r, 'w> {
    /// Follows a copy to a target. It counts the copied blocks there.
    pub(crate) fn new(
        rt: &'r HostRuntime,
        progress: CopyProgress<'r, 'w>,
        target: &'r CopyTarget<'r, 'w>,
    ) -> Self {
        CopyFollower {
            rt,
            progress,
            target,
            saved: Instant::now(rt).ok(),
            is_saved: target.saves_maps(),
        }
    }

    /// Ends the progress of a copy, which has this map.
    pub(crate) fn end(self, map: BlockMap) -> EndedCopy<'r, 'w> {
        let CopyFollower {
            rt,
            progress,
            target,
            ..
        } = self;
        let lost = progress.end();
        EndedCopy {
            rt,
            target,
            map,
            lost,
        }
    }

    /// Saves the map of a copy that ends early, if that can be resumed. A fault of the map is none of the copy.
    pub(crate) fn save_rest(&self, map: &BlockMap) {
        if self.is_saved && self.target.is_resumable() {
            let _ = self.save(map);
        }
    }

    // Saves the map. What it claims is on the disk before.
    fn save(&self, map: &BlockMap) -> Result<(), FileFault> {
        self.target.sync(map.finished_end())?;
        self.target.sync_name()?;
        self.target.map().save(self.rt, map)
    }

    // Returns whether the time of the next save has come.
    fn is_due(&self) -> bool {
        let Some(saved) = &self.saved else {
            return true;
        };
        match saved.elapsed(self.rt) {
            Ok(elapsed) => elapsed >= Duration::from_secs(SAVE_SECONDS),
            Err(_error) => true,
        }
    }
}

impl CopyLog for CopyFollower<'_, '_> {
    type Error = FileFault;

    fn reached(&mut self, end: u32, copied: u32) {
        self.progress.reached(end);
        let count = &self.target.copied;
        count.set(count.get().saturating_add(copied));
    }

    fn lost(&mut self, block: u32) {
        self.progress.lost(block);
    }

    // Saves the map if it is time.
    fn noted(&mut self, map: &BlockMap, lost: bool) -> Result<(), FileFault> {
        self.is_saved |= lost;
        if self.is_saved && self.is_due() {
            self.save(map)?;
            self.saved = Instant::now(self.rt).ok();
        }
        Ok(())
    }
}

/// A copy whose blocks were copied, or lost.
#[derive(Drop)]
pub(crate) struct EndedCopy<'r, 'w> {
    rt: &'r HostRuntime,
    target: &'r CopyTarget<'r, 'w>,
    map: BlockMap,
    lost: u32,
}

impl<'r, 'w> EndedCopy<'r, 'w> {
    /// Saves the map of a target that is synced, if blocks were lost or if it is wanted. Returns whether it is saved.
    pub(crate) fn save(&self, wanted: bool) -> Result<bool, FileFault> {
        let is_saved = self.lost > 0 || wanted;
        if is_saved {
            self.target.sync_name()?;
            self.target.map().finish(self.rt, &self.map)?;
        }
        Ok(is_saved)
    }

    /// Returns the next blocks that were lost, of those from `from` on.
    pub(crate) fn next_lost(&self, from: u32) -> Option<Range<u32>> {
        self.map.next_unfinished(from)
    }

    /// Returns the outcome of the copy.
    pub(crate) fn outcome(&self) -> Outcome {
        if self.lost > 0 {
            Outcome::Failed
        } else {
            Outcome::Done
        }
    }
}
