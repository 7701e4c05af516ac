//! The copy of an image to another one, through the controller.

use crate::container::{explain_length, volume_blocks, warn_of_format};
use crate::copy::blocks_to_copy;
use crate::copy_follower::{CopyFollower, EndedCopy};
use crate::file_fault::{FileFault, FileRole};
use crate::image::{block_reason, open_file, source_reason};
use crate::outcome::Outcome;
use crate::progress::{CopyProgress, clear_line, print_syncing};
use crate::reason::{CopyReason, ImageReason, Reason};
use crate::script::Drives;
use crate::target::{BegunCopy, CheckedTarget, CopyTarget, Resumption, TargetKind};
use std::ops::Range;
use uda_driver::Driver;
use uda_image::{BlockStore, Drive, StoreError};
use uda50_arguments::Copy;
use uda50_copy::{
    BlockMap, Copier, CopyError, CopyRecord, CopyStop, EndedRecord, Side, ZeroBlocks,
    copy_unfinished,
};
use uda50_files::{
    Access, DataBlocks, Failures, Image, OpenImageFile, SearchedImage, TargetFile, TargetZeros,
};
use uda50_show::EscapedName;

// A copy of an image to another one.
#[derive(Drop)]
struct ImageCopy<'a, 'w> {
    rt: &'a HostRuntime,
    copy: &'a Copy<'w>,
    // The number of blocks of the source.
    size: u32,
    // The blocks to copy.
    blocks: Range<u32>,
    target: &'a CopyTarget<'a, 'w>,
    // The failures of the source.
    failures: Failures,
}

/// Copies an image to another one.
pub(crate) fn copy_image(rt: &HostRuntime, copy: &Copy<'_>) -> Result<Outcome, FileFault> {
    let source = open_source(rt, copy)?;
    let size = volume_blocks(rt, copy, source.blocks())?;
    let blocks = blocks_to_copy(copy, size)?;
    let failures = Failures::none(rt.alloc())?;
    let BegunCopy { target, file, map } = begin(rt, copy, &blocks, size)?;
    if copy.resumes && target.kind() == TargetKind::New {
        let name = EscapedName(copy.to.path);
        let _ = eprintln!(rt; "uda50: {name}: there is no copy to resume, so it begins");
    }
    let job = ImageCopy {
        rt,
        copy,
        size,
        blocks,
        target: &target,
        failures,
    };
    job.run_or_abandon(source, file, map)
}

// Opens the source of a copy.
fn open_source(rt: &HostRuntime, copy: &Copy<'_>) -> Result<OpenImageFile, FileFault> {
    let path = copy.from.path;
    match open_file(rt, path, Access::Read) {
        Ok(source) => Ok(source),
        Err(reason) => Err(FileRole::Source.fault(explain_length(rt, path, reason))),
    }
}

// Begins a copy of blocks from a source of `size` blocks, or goes on with one that ended early.
fn begin<'r, 'w>(
    rt: &'r HostRuntime,
    copy: &Copy<'w>,
    blocks: &Range<u32>,
    size: u32,
) -> Result<BegunCopy<'r, 'w>, FileFault> {
    let checked = CheckedTarget::open(rt, copy, blocks)?;
    match checked.resumes() {
        true => checked.resume(rt, blocks, size),
        false => checked.begin(rt, blocks),
    }
}

impl<'a, 'w> ImageCopy<'a, 'w> {
    // Copies, and completes the target. If that fails, it prints the fault, and what is left of the target.
    fn run_or_abandon(
        &self,
        source: OpenImageFile,
        file: TargetFile,
        map: BlockMap,
    ) -> Result<Outcome, FileFault> {
        match self.run(source, file, map) {
            Ok(outcome) => Ok(outcome),
            Err(fault) => {
                let blocks = self.blocks.start..self.blocks.end;
                let resumption = self.resumption(&fault);
                self.target.abandon(fault, blocks, resumption)
            }
        }
    }

    // Returns what can be done after a fault.
    fn resumption(&self, fault: &FileFault) -> Resumption {
        match fault.reason {
            Reason::Copy(CopyReason::SourceEnded(_)) => Resumption::Impossible,
            Reason::Exists => Resumption::Forced,
            Reason::Image(
                ImageReason::Block {
                    error: StoreError::Read,
                    ..
                },
            )
            | Reason::Image(
                ImageReason::BlockCause {
                    error: StoreError::Read,
                    ..
                },
            ) if !self.copy.skips_lost => Resumption::Continuing,
            _ => Resumption::Possible,
        }
    }

    // Copies the blocks of an open file to another one. Before that gets its own name, the list of lost blocks is on the
    // disk.
    fn run(
        &self,
        source: OpenImageFile,
        file: TargetFile,
        map: BlockMap,
    ) -> Result<Outcome, FileFault> {
        self.target.announce(true)?;
        let ended = self.copy_files(source, file, map)?;
        self.sync()?;
        self.complete(&ended)?;
        Ok(ended.outcome())
    }

    // Puts the blocks on the disk.
    fn sync(&self) -> Result<(), FileFault> {
        print_syncing(self.rt);
        let synced = self.target.sync(self.blocks.end);
        clear_line(self.rt);
        synced
    }

    // Saves the map of a copy whose blocks are on the disk, and gives the target its own name.
    fn complete(&self, ended: &EndedCopy<'a, 'w>) -> Result<(), FileFault> {
        let target = self.target;
        target.note_checked();
        target.check_name()?;
        let saved = ended.save(target.leaves_map())?;
        target.complete(saved)?;
        target.discard_part_map()
    }

    // Copies the blocks of an open file to another one, and compares them if that is asked for.
    fn copy_files(
        &self,
        source: OpenImageFile,
        file: TargetFile,
        map: BlockMap,
    ) -> Result<EndedCopy<'a, 'w>, FileFault> {
        let zeroed = self.zeroed_blocks(&file)?;
        let searched = self.searched(source, &zeroed, &map)?;
        let SearchedImage { image, data } = searched;
        let target = file.into_image(self.size, false, &self.target.failures)?;
        let copier = self.copier(image, target)?;
        let data = UncopiedData {
            data,
            target: zeroed,
        };
        self.copy_and_verify(copier, map, data)
    }

    // Makes an image of the source. Its data is searched if blocks of zeros may be left out.
    fn searched(
        &self,
        source: OpenImageFile,
        zeroed: &ZeroedBlocks,
        map: &BlockMap,
    ) -> Result<SearchedImage, FileFault> {
        let leaves_zeros = !matches!(zeroed, ZeroedBlocks::None);
        let searched = source.into_searched_image(self.rt, &self.failures, leaves_zeros);
        let mut searched = FileRole::Source.of_call(searched)?;
        self.warn(&mut searched, map);
        Ok(searched)
    }

    // Copies blocks, and compares them if that is asked for.
    fn copy_and_verify(
        &self,
        mut copier: Copier<Image>,
        map: BlockMap,
        data: UncopiedData,
    ) -> Result<EndedCopy<'a, 'w>, FileFault> {
        let ended = self.copy_blocks(&mut copier, map, data)?;
        self.target.set_length(self.size)?;
        self.verify(&mut copier, &ended)?;
        Ok(ended)
    }

    // Returns which blocks of the target are zeros already.
    fn zeroed_blocks(&self, file: &TargetFile) -> Result<ZeroedBlocks, FileFault> {
        let copy = self.copy;
        match self.target.kind() {
            kind if !copy.sparse || !kind.is_whole() => Ok(ZeroedBlocks::None),
            TargetKind::Resume => {
                let zeros = FileRole::Target.of_call(file.zeros(self.rt))?;
                Ok(ZeroedBlocks::Held(zeros))
            }
            _ => Ok(ZeroedBlocks::From(file.blocks_begun())),
        }
    }

    // Prints a line if the source begins as a file of another format, whose bytes aren't the blocks of a disk. Its first
    // block is read with those that are copied first.
    fn warn(&self, source: &mut SearchedImage, map: &BlockMap) {
        let blocks = match map.next_unfinished(self.blocks.start) {
            Some(blocks) if blocks.start == 0 => blocks,
            _ => return,
        };
        source
            .data
            .first(blocks.start..blocks.end.min(self.blocks.end));
        let mut block = [0; 512];
        if source.image.size() == 0 || source.image.read(0, &mut block).is_err() {
            return;
        }
        let copy = self.copy;
        warn_of_format(self.rt, copy.from.path, &block);
    }

    // Copies the blocks that the map calls unfinished, and ends the record.
    fn copy_blocks(
        &self,
        copier: &mut Copier<Image>,
        map: BlockMap,
        mut data: UncopiedData,
    ) -> Result<EndedCopy<'a, 'w>, FileFault> {
        let copy = self.copy;
        let blocks = self.blocks.start..self.blocks.end;
        let progress = CopyProgress::start(self.rt, copy.from.path, blocks);
        let follower = CopyFollower::new(self.rt, progress, self.target);
        let mut record = CopyRecord::new(self.rt.alloc(), map, follower);
        let blocks = self.blocks.start..self.blocks.end;
        let copied = copy_unfinished(copier, &mut record, &mut data, blocks);
        data.data.end();
        let EndedRecord { map, is_noted, log } = record.end();
        if copied.is_err() && is_noted {
            log.save_rest(&map);
        }
        let ended = log.end(map);
        match copied {
            Ok(()) => Ok(ended),
            Err(CopyStop::Copy(error)) => Err(self.fault(error)),
            Err(CopyStop::Log(fault)) => Err(fault),
        }
    }

    // Starts a driver over both images, and brings them online.
    fn copier(&self, source: Image, target: Image) -> Result<Copier<Image>, FileFault> {
        match Driver::start(self.rt.alloc(), drives_of(source, target)) {
            Ok(driver) => self.of(Copier::new(self.rt.alloc(), driver, self.copy.skips_lost)),
            Err(_error) => Err(FileFault::no_memory()),
        }
    }

    // Compares the blocks of both images, if that is asked for.
    fn verify(
        &self,
        copier: &mut Copier<Image>,
        ended: &EndedCopy<'a, 'w>,
    ) -> Result<(), FileFault> {
        let copy = self.copy;
        if !copy.verify {
            return Ok(());
        }
        let blocks = self.blocks.start..self.blocks.end;
        let mut progress = CopyProgress::start(self.rt, copy.to.path, blocks);
        let compared = self.compare_finished(copier, ended, &mut progress);
        progress.end();
        self.of(compared)
    }

    // Compares the blocks that were copied. Lost blocks are not read once more.
    fn compare_finished(
        &self,
        copier: &mut Copier<Image>,
        ended: &EndedCopy<'a, 'w>,
        progress: &mut CopyProgress<'a, 'w>,
    ) -> Result<(), CopyError> {
        let last = self.blocks.end;
        let mut at = self.blocks.start;
        for _ in 0..u32::MAX {
            let lost = ended.next_lost(at).unwrap_or(last..last);
            copier.compare(at..lost.start.min(last), progress)?;
            if lost.end >= last {
                break;
            }
            at = lost.end;
        }
        Ok(())
    }

    // Returns a result, with a fault in place of its error.
    fn of<T>(&self, done: Result<T, CopyError>) -> Result<T, FileFault> {
        match done {
            Ok(value) => Ok(value),
            Err(error) => Err(self.fault(error)),
        }
    }

    // Returns the fault for an error, with the file that it concerns.
    fn fault(&self, error: CopyError) -> FileFault {
        let target = &self.target.failures;
        match error.side() {
            Some(Side::Source) => FileRole::Source.fault(reason(error, &self.failures)),
            Some(Side::Target) => FileRole::Target.fault(reason(error, target)),
            None => FileRole::Program.fault(reason(error, target)),
        }
    }
}

// The data of the source, and the zeros of the target.
#[derive(Drop)]
struct UncopiedData {
    data: DataBlocks,
    target: ZeroedBlocks,
}

// Which blocks of the target are zeros before the copy writes them.
#[derive(Drop)]
enum ZeroedBlocks {
    // None is known to be. All blocks are written.
    None,
    // Those from this block on.
    From(u32),
    // Those that the file of an earlier copy holds.
    Held(TargetZeros),
}

impl ZeroBlocks for UncopiedData {
    // Any block may be zeros in both images: nothing is known of what the system says of them.
    ghost zeros = { λ _ _. Unit {0} };

    fn next(&mut self, blocks: Range<u32>) -> Range<u32> {
        match &mut self.target {
            ZeroedBlocks::None => self.data.first(blocks),
            ZeroedBlocks::From(block) if blocks.start < *block => {
                self.data.first(blocks.start..blocks.end.min(*block))
            }
            ZeroedBlocks::From(_) => self.data.next(blocks),
            ZeroedBlocks::Held(zeros) => {
                let from = blocks.start;
                let data = self.data.next(blocks);
                let other = zeros.first_other(from..data.start);
                if other.start < other.end { other } else { data }
            }
        }
    }
}

// Returns the reason for an error, which may be one of the failures of its file.
fn reason(error: CopyError, failures: &Failures) -> Reason {
    match error {
        CopyError::NoMemory => Reason::NoMemory,
        CopyError::Read(Side::Source, block) => source_reason(block, failures),
        CopyError::Read(Side::Target, block) => block_reason(block, StoreError::Read, failures),
        CopyError::Write(block) => block_reason(block, StoreError::Write, failures),
        CopyError::Differs(block) => Reason::Copy(CopyReason::Differs(block)),
        CopyError::Rejected(_, status) => Reason::Copy(CopyReason::Rejected(status)),
    }
}

// Returns the drives of a copy: unit 0 with the source, and unit 1 with the target.
fn drives_of(source: Image, target: Image) -> Drives {
    let source = Drive {
        store: source,
        hard: true,
    };
    let target = Drive {
        store: target,
        hard: false,
    };
    [Some(source), Some(target), None, None]
}
