//! A driver over two drives that copies the first to the second.
ghost use Rattle.std.specs.Prelude.{◌≡◌, ◌+◌, ◌-◌, ◌<◌, ◌≤◌, true, false, [], ◌++◌, ◌∷◌, length, All, IfOk, IfSome, OnOk};
ghost use Rattle.uda_disk.specs.Answer.{Data};
ghost use Rattle.uda_disk.specs.InOrderRun.{drive_errors, tells_error};
ghost use Rattle.uda_disk.specs.Laws.{blocks_at};
ghost use Rattle.uda_disk.specs.Status.{SUCCESS};
ghost use Rattle.uda_disk.specs.Units.{disks_of, AllSound, AreWellFormedIfSound};
ghost use Rattle.uda_disk.specs.Values.{request_value, request_values, answer_value, answer_values};
ghost use Rattle.uda_driver.specs.Run.{units_of};
ghost use Rattle.uda50_copy.specs.Copy.{units_in, source_of, read_of, unit_of, CopiesIfSound, EqualIfSound, ChangesNoBlock};
ghost use Rattle.uda50_copy.specs.Copy.{PreparesWrites, ExecutesWrites, WritesNothing, ReturnsBlocks, EachReturnsBlocks};
ghost use Rattle.uda50_copy.specs.Copy.{AddsPiece, IsBlockRead, AreEqualReads, AreSameBytes};
ghost use Rattle.uda50_copy.specs.Reports.{AddsReports, ReportsLost, ReportsLastBlock, CopiesAsTold, stage_of};
ghost use Rattle.uda50_copy.specs.Reports.{lost_count, source_failures, LosesFailed, KeepsFailures};
ghost use Rattle.uda50_copy.specs.Changes.{ChangesWithin, ChangesWritten, HoldsWritten, ReturnsWhole, IsSoundSource};
ghost use Rattle.uda50_copy.specs.Changes.{AddsAllBut, RunsAsTold};

use crate::error::{CopyError, Side};
use crate::requests::{
    BlockReading, REQUEST_BLOCKS, all_written, make_read, make_write, paired_reads, reading_of,
    reusable_answers, source_reads, status_or_invalid_length,
};
use std::alloc::Global;
use std::marker::Model;
use std::mem;
use std::ops::Range;
use uda_disk::{Answer, Request, status};
use uda_driver::{Driver, Unwatched};
use uda_image::BlockStore;

/// The most blocks that one run of the driver copies: those of 64 requests.
const RUN: u32 = 64 * REQUEST_BLOCKS;

/// An observer of a copy's progress.
pub trait Observer {
    ghost use Rattle.std.specs.Prelude.{◌≡◌, List, ◌∷◌};
    ghost use Rattle.uda50_copy.specs.Report.{CopyReport, reached, lost};

    /// The reports so far, the newest first.
    ghost reports: { Self → List CopyReport };

    /// Called when all blocks before `end` are copied, lost or compared.
    fn reached(&mut self, end: u32)
        ensures told { reports self.new ≡ reached end ∷ reports self.old };

    /// Called for each block of the source that can't be read, in rising order.
    fn lost(&mut self, block: u32)
        ensures told { reports self.new ≡ lost block ∷ reports self.old };
}

/// A driver over the drive that is read and the drive that is written.
#[derive(Drop)]
pub struct Copier<S: BlockStore> {
    alloc: Global,
    driver: Driver<S>,
    skips_lost: bool,
    room: Vec<Answer>,
}

impl<S: BlockStore> Model for Copier<S> {
    ghost use Rattle.uda50_copy.specs.Copy.{CopierState};

    ghost Value = { CopierState };

    ghost view = { λ copier. record { driver = copier.driver; skips_lost = copier.skips_lost } };
}

impl<S: BlockStore + Drop> Copier<S> {
    /// Brings both drives of a driver online: unit 0 is the source, and unit 1 the target. A block of the
    /// source that can't be read is skipped if `skips_lost`, and is an error otherwise.
    pub fn new(
        alloc: Global,
        mut driver: Driver<S>,
        skips_lost: bool,
    ) -> Result<Copier<S>, CopyError>
        ensures skips_lost { IfOk result (λ copier. copier.skips_lost ≡ skips_lost) }
        ensures changes_no_block { IfOk result (λ copier. ChangesNoBlock (units_of driver) (units_in copier)) }
    {
        bring_online(&mut driver, Side::Source)?;
        bring_online(&mut driver, Side::Target)?;
        Ok(Copier {
            alloc,
            driver,
            skips_lost,
            room: Vec::new(alloc),
        })
    }

    /// Copies blocks of the source to the same block numbers of the target.
    ///
    /// The target then holds those blocks of the source, if the copy succeeds, lost blocks aren't to be skipped,
    /// units are well formed, and each store is sound afterwards.
    pub fn copy<W: Observer>(
        &mut self,
        blocks: Range<u32>,
        observer: &mut W,
    ) -> Result<(), CopyError>
        ensures skips_lost { self.new.skips_lost ≡ self.old.skips_lost }
        ensures copies { OnOk result (CopiesIfSound self.old.skips_lost blocks.start blocks.end
            (units_in self.old) (units_in self.new)) }
        ensures changes_only { ChangesWithin blocks.start blocks.end (units_in self.old) (units_in self.new) }
        ensures copies_as_told { CopiesAsTold self.old.skips_lost blocks.start blocks.end
            (stage_of self.old (W.reports observer.old)) (stage_of self.new (W.reports observer.new)) }
        ensures tells_end { OnOk result (ReportsLastBlock blocks.start blocks.end
            (W.reports observer.old) (W.reports observer.new)) }
        ensures loses_failed { LosesFailed (stage_of self.old (W.reports observer.old))
            (stage_of self.new (W.reports observer.new)) }
    {
        let mut done = blocks.start;
        while done < blocks.end {
            let stop = blocks.end.min(done.saturating_add(RUN));
            self.copy_run(done..stop, observer)?;
            observer.reached(stop);
            done = stop;
        }
        Ok(())
    }

    /// Compares blocks of the source with the same block numbers of the target. It changes no block.
    ///
    /// If it succeeds, these blocks are equal, if lost blocks aren't to be skipped, units are well formed, and each
    /// store is sound afterwards.
    pub fn compare<W: Observer>(
        &mut self,
        blocks: Range<u32>,
        observer: &mut W,
    ) -> Result<(), CopyError>
        ensures skips_lost { self.new.skips_lost ≡ self.old.skips_lost }
        ensures changes_no_block { ChangesNoBlock (units_in self.old) (units_in self.new) }
        ensures equal { OnOk result (EqualIfSound self.old.skips_lost blocks.start blocks.end
            (units_in self.old) (units_in self.new)) }
        ensures tells { AddsReports false blocks.start blocks.end (W.reports observer.old) (W.reports observer.new) }
        ensures tells_end { OnOk result (ReportsLastBlock blocks.start blocks.end
            (W.reports observer.old) (W.reports observer.new)) }
    {
        let mut done = blocks.start;
        while done < blocks.end {
            let stop = blocks.end.min(done.saturating_add(RUN));
            self.compare_run(done..stop)?;
            observer.reached(stop);
            done = stop;
        }
        Ok(())
    }

    // Copies blocks by one run of Reads and one of Writes. The Writes have the bytes that the Reads
    // returned. The next run reuses the memory of these bytes.
    fn copy_run<W: Observer>(
        &mut self,
        blocks: Range<u32>,
        observer: &mut W,
    ) -> Result<(), CopyError>
        requires some { blocks.start < blocks.end }
        ensures skips_lost { self.new.skips_lost ≡ self.old.skips_lost }
        ensures copies { OnOk result (CopiesIfSound self.old.skips_lost blocks.start blocks.end
            (units_in self.old) (units_in self.new)) }
        ensures changes_only { ChangesWithin blocks.start blocks.end (units_in self.old) (units_in self.new) }
        ensures runs { RunsAsTold
            (record { skips_lost = self.old.skips_lost; from = blocks.start; to = blocks.end }) blocks.start
            (stage_of self.old (W.reports observer.old)) (stage_of self.new (W.reports observer.new)) }
        ensures runs_all { OnOk result (RunsAsTold
            (record { skips_lost = self.old.skips_lost; from = blocks.start; to = blocks.end }) blocks.end
            (stage_of self.old (W.reports observer.old)) (stage_of self.new (W.reports observer.new))) }
        ensures loses_failed { LosesFailed (stage_of self.old (W.reports observer.old))
            (stage_of self.new (W.reports observer.new)) }
    {
        let writes = self.read_run(blocks, observer)?;
        self.write(writes)
    }

    // Reads blocks by one run, and returns a Write for each piece. The blocks of a piece that can't be read are
    // read one by one.
    fn read_run<W: Observer>(
        &mut self,
        blocks: Range<u32>,
        observer: &mut W,
    ) -> Result<Vec<Request>, CopyError>
        requires some { blocks.start < blocks.end }
        ensures skips_lost { self.new.skips_lost ≡ self.old.skips_lost }
        ensures changes_no_block { ChangesNoBlock (units_in self.old) (units_in self.new) }
        ensures tells { ReportsLost self.old.skips_lost blocks.start blocks.end
            (W.reports observer.old) (W.reports observer.new) }
        ensures loses_failed { LosesFailed (stage_of self.old (W.reports observer.old))
            (stage_of self.new (W.reports observer.new)) }
        ensures adds_all_but { IfOk result (λ writes. AddsAllBut
            (record { skips_lost = self.old.skips_lost; from = blocks.start; to = blocks.end })
            (record { writes = []; reports = W.reports observer.old })
            (record { writes = request_values writes.items; reports = W.reports observer.new })
            (IsSoundSource (units_in self.old) (units_in self.new))) }
        ensures gathers { IfOk result (λ writes. PreparesWrites self.old.skips_lost
            (record { old = []; new = request_values writes.items; from = blocks.start; to = blocks.end })
            (units_in self.old) (units_in self.new)) }
    {
        let end = blocks.end;
        let mut lbn = blocks.start;
        let requests = source_reads(self.alloc, blocks, REQUEST_BLOCKS)?;
        let room = mem::replace(&mut self.room, Vec::new(self.alloc));
        let mut writes = Vec::with_capacity(self.alloc, requests.len())?;
        for answer in self.run_reads(&requests, room)? {
            let stop = end.min(lbn.saturating_add(REQUEST_BLOCKS));
            self.take_piece(lbn..stop, answer, &mut writes, observer)?;
            lbn = stop;
        }
        Ok(writes)
    }

    // Adds a Write of a piece by the answer of its Read.
    fn take_piece<W: Observer>(
        &mut self,
        piece: Range<u32>,
        answer: Answer,
        writes: &mut Vec<Request>,
        observer: &mut W,
    ) -> Result<(), CopyError>
        requires some { piece.start < piece.end }
        ensures skips_lost { self.new.skips_lost ≡ self.old.skips_lost }
        ensures changes_no_block { ChangesNoBlock (units_in self.old) (units_in self.new) }
        ensures tells { ReportsLost self.old.skips_lost piece.start piece.end
            (W.reports observer.old) (W.reports observer.new) }
        ensures loses_failed { LosesFailed (stage_of self.old (W.reports observer.old))
            (stage_of self.new (W.reports observer.new)) }
        ensures adds_all_but { OnOk result (AddsAllBut
            (record { skips_lost = self.old.skips_lost; from = piece.start; to = piece.end })
            (record { writes = request_values writes.old.items; reports = W.reports observer.old })
            (record { writes = request_values writes.new.items; reports = W.reports observer.new })
            (λ blocks. ReturnsWhole (answer_value answer) piece.start (piece.end - piece.start) blocks
            × IsSoundSource (units_in self.old) (units_in self.new) blocks)) }
        ensures adds { OnOk result (ReturnsBlocks (source_of (units_in self.old)) (answer_value answer) piece.start
            (piece.end - piece.start) → PreparesWrites self.old.skips_lost
            (record {
              old = request_values writes.old.items;
              new = request_values writes.new.items;
              from = piece.start;
              to = piece.end;
            })
            (units_in self.old) (units_in self.new)) }
    {
        match reading_of(Side::Source, answer)? {
            BlockReading::Bytes(payload) => add(writes, make_write(piece.start, payload)),
            BlockReading::Failed => self.read_singly(piece, writes, observer),
        }
    }

    // Reads blocks one by one, and adds a Write for each that can be read.
    fn read_singly<W: Observer>(
        &mut self,
        blocks: Range<u32>,
        writes: &mut Vec<Request>,
        observer: &mut W,
    ) -> Result<(), CopyError>
        requires some { blocks.start < blocks.end }
        ensures skips_lost { self.new.skips_lost ≡ self.old.skips_lost }
        ensures changes_no_block { ChangesNoBlock (units_in self.old) (units_in self.new) }
        ensures tells { ReportsLost self.old.skips_lost blocks.start blocks.end
            (W.reports observer.old) (W.reports observer.new) }
        ensures loses_failed { LosesFailed (stage_of self.old (W.reports observer.old))
            (stage_of self.new (W.reports observer.new)) }
        ensures adds_all_but { OnOk result (AddsAllBut
            (record { skips_lost = self.old.skips_lost; from = blocks.start; to = blocks.end })
            (record { writes = request_values writes.old.items; reports = W.reports observer.old })
            (record { writes = request_values writes.new.items; reports = W.reports observer.new })
            (IsSoundSource (units_in self.old) (units_in self.new))) }
        ensures gathers { OnOk result (PreparesWrites self.old.skips_lost
            (record {
              old = request_values writes.old.items;
              new = request_values writes.new.items;
              from = blocks.start;
              to = blocks.end;
            })
            (units_in self.old) (units_in self.new)) }
    {
        let mut lbn = blocks.start;
        let requests = source_reads(self.alloc, blocks, 1)?;
        let room = Vec::new(self.alloc);
        for answer in self.run_reads(&requests, room)? {
            self.take_block(lbn, answer, writes, observer)?;
            lbn = lbn.saturating_add(1);
        }
        Ok(())
    }

    // Adds a Write of a block by the answer of its Read.
    fn take_block<W: Observer>(
        &self,
        lbn: u32,
        answer: Answer,
        writes: &mut Vec<Request>,
        observer: &mut W,
    ) -> Result<(), CopyError>
        ensures tells { ReportsLost self.now.skips_lost lbn (lbn + 1)
            (W.reports observer.old) (W.reports observer.new) }
        ensures loses { lost_count (W.reports observer.new)
            ≤ lost_count (W.reports observer.old) + tells_error 0 (read_of lbn 1) (answer_value answer) }
        ensures adds_all_but { OnOk result (AddsAllBut
            (record { skips_lost = self.now.skips_lost; from = lbn; to = lbn + 1 })
            (record { writes = request_values writes.old.items; reports = W.reports observer.old })
            (record { writes = request_values writes.new.items; reports = W.reports observer.new })
            (ReturnsWhole (answer_value answer) lbn 1)) }
        ensures adds { OnOk result (self.now.skips_lost ≡ false → AddsPiece (answer_value answer)
            (request_values writes.old.items) (request_values writes.new.items) lbn 1) }
    {
        match reading_of(Side::Source, answer)? {
            BlockReading::Bytes(payload) => add(writes, make_write(lbn, payload)),
            BlockReading::Failed if !self.skips_lost => Err(CopyError::Read(Side::Source, lbn)),
            BlockReading::Failed => {
                observer.lost(lbn);
                Ok(())
            }
        }
    }

    // Executes Reads, and returns their answers.
    fn run_reads(
        &mut self,
        requests: &[Request],
        room: Vec<Answer>,
    ) -> Result<Vec<Answer>, CopyError>
        requires writes_nothing { All WritesNothing (request_values requests.now) }
        ensures skips_lost { self.new.skips_lost ≡ self.old.skips_lost }
        ensures changes_no_block { ChangesNoBlock (units_in self.old) (units_in self.new) }
        ensures counted { IfOk result (λ answers. length answers.items ≡ length requests.now) }
        ensures keeps_failures { KeepsFailures (units_in self.old) (units_in self.new) }
        ensures failed { IfOk result (λ answers. AllSound (units_in self.new) → source_failures (units_in self.new)
            ≡ source_failures (units_in self.old)
            + drive_errors 0 (request_values requests.now) (answer_values answers.items)) }
        ensures returns { IfOk result (λ answers. AreWellFormedIfSound (units_in self.old)
            → AllSound (units_in self.new) → EachReturnsBlocks (units_in self.old) (request_values requests.now)
            (answer_values answers.items)) }
    {
        Ok(self.driver.run_reusing(requests, room, &mut Unwatched)?)
    }

    // Executes the Writes of one run, and keeps the memory of their bytes.
    fn write(&mut self, writes: Vec<Request>) -> Result<(), CopyError>
        ensures skips_lost { self.new.skips_lost ≡ self.old.skips_lost }
        ensures changes_written { ChangesWritten (request_values writes.items) (units_in self.old)
            (units_in self.new) }
        ensures keeps_failures { KeepsFailures (units_in self.old) (units_in self.new) }
        ensures holds_written { OnOk result (HoldsWritten (request_values writes.items) (units_in self.old)
            (units_in self.new)) }
        ensures writes { OnOk result (ExecutesWrites (request_values writes.items) (units_in self.old)
            (units_in self.new)) }
    {
        let answers = self.driver.run(&writes)?;
        all_written(&writes, &answers)?;
        self.room = reusable_answers(self.alloc, writes)?;
        Ok(())
    }

    // Compares blocks by one run of Reads from both drives.
    fn compare_run(&mut self, blocks: Range<u32>) -> Result<(), CopyError>
        ensures skips_lost { self.new.skips_lost ≡ self.old.skips_lost }
        ensures changes_no_block { ChangesNoBlock (units_in self.old) (units_in self.new) }
        ensures equal { OnOk result (EqualIfSound self.old.skips_lost blocks.start blocks.end
            (units_in self.old) (units_in self.new)) }
    {
        let end = blocks.end;
        let mut lbn = blocks.start;
        let requests = paired_reads(self.alloc, blocks, REQUEST_BLOCKS)?;
        let room = mem::replace(&mut self.room, Vec::new(self.alloc));
        let answers = self.run_reads(&requests, room)?;
        for pair in answers.chunks(2) {
            let stop = end.min(lbn.saturating_add(REQUEST_BLOCKS));
            if !are_equal(pair) {
                self.compare_singly(lbn..stop)?;
            }
            lbn = stop;
        }
        self.room = answers;
        Ok(())
    }

    // Compares blocks one by one.
    fn compare_singly(&mut self, blocks: Range<u32>) -> Result<(), CopyError>
        ensures skips_lost { self.new.skips_lost ≡ self.old.skips_lost }
        ensures changes_no_block { ChangesNoBlock (units_in self.old) (units_in self.new) }
        ensures equal { OnOk result (EqualIfSound self.old.skips_lost blocks.start blocks.end
            (units_in self.old) (units_in self.new)) }
    {
        for lbn in blocks {
            self.compare_block(lbn)?;
        }
        Ok(())
    }

    // Compares one block. If lost blocks are skipped, it skips one that can't be read from the source.
    fn compare_block(&mut self, lbn: u32) -> Result<(), CopyError>
        ensures skips_lost { self.new.skips_lost ≡ self.old.skips_lost }
        ensures changes_no_block { ChangesNoBlock (units_in self.old) (units_in self.new) }
        ensures equal { OnOk result (EqualIfSound self.old.skips_lost lbn (lbn + 1) (units_in self.old)
            (units_in self.new)) }
    {
        let source = self.read_block(Side::Source, lbn)?;
        let target = self.read_block(Side::Target, lbn)?;
        check_equal(self.skips_lost, lbn, &source, &target)
    }

    // Reads one block.
    fn read_block(&mut self, side: Side, lbn: u32) -> Result<BlockReading, CopyError>
        ensures skips_lost { self.new.skips_lost ≡ self.old.skips_lost }
        ensures changes_no_block { ChangesNoBlock (units_in self.old) (units_in self.new) }
        ensures block { IfOk result (λ reading. AreWellFormedIfSound (units_in self.old)
            → AllSound (units_in self.new)
            → IsBlockRead (blocks_at (disks_of (units_in self.old)) (unit_of side)) lbn reading) }
    {
        let room = Vec::new(self.alloc);
        match self.run_reads(&[make_read(side, lbn, 1)], room)?.pop() {
            Some(answer) => reading_of(side, answer),
            None => Ok(BlockReading::Failed),
        }
    }
}

// Adds a Write.
fn add(writes: &mut Vec<Request>, write: Request) -> Result<(), CopyError>
    ensures added { OnOk result (request_values writes.new.items
        ≡ request_values writes.old.items ++ request_value write ∷ []) }
{
    writes.push(write).map_err(|_| CopyError::NoMemory)
}

// Brings a drive online.
fn bring_online<S: BlockStore>(driver: &mut Driver<S>, side: Side) -> Result<(), CopyError>
    ensures changes_no_block { OnOk result (ChangesNoBlock (units_of driver.old) (units_of driver.new)) }
{
    let online = Request::Online {
        unit: side.unit(),
        protect: false,
    };
    for answer in driver.run(&[online])? {
        if status_or_invalid_length(&answer) != status::SUCCESS {
            return Err(CopyError::Rejected(side, status_or_invalid_length(&answer)));
        }
    }
    Ok(())
}

// Checks what was read of a block of the source and of the target. If lost blocks are skipped, a block that can't be
// read from the source passes.
fn check_equal(
    skips_lost: bool,
    lbn: u32,
    source: &BlockReading,
    target: &BlockReading,
) -> Result<(), CopyError>
    ensures equal { OnOk result (skips_lost ≡ false → AreSameBytes source.now target.now) }
{
    match (source, target) {
        (BlockReading::Bytes(a), BlockReading::Bytes(b)) if a != b => Err(CopyError::Differs(lbn)),
        (BlockReading::Bytes(_), BlockReading::Bytes(_)) => Ok(()),
        (BlockReading::Failed, _) if !skips_lost => Err(CopyError::Read(Side::Source, lbn)),
        (BlockReading::Failed, _) => Ok(()),
        (_, BlockReading::Failed) => Err(CopyError::Read(Side::Target, lbn)),
    }
}

// Returns whether these are answers of two Reads that succeeded and returned the same bytes.
fn are_equal(pair: &[Answer]) -> bool
    ensures equal { result ≡ true → AreEqualReads (answer_values pair.now) }
{
    let [source, target] = pair else {
        return false;
    };
    match (bytes_read(source), bytes_read(target)) {
        (Some(a), Some(b)) => a == b,
        _ => false,
    }
}

// Returns the bytes of a Read that succeeded.
fn bytes_read(answer: &Answer) -> Option<&[u8]>
    ensures read { IfSome result (λ bytes. answer_value answer.now ≡ Data SUCCESS bytes.now) }
{
    match answer {
        Answer::Data {
            status: status::SUCCESS,
            bytes,
        } => Some(bytes),
        _ => None,
    }
}
