//! Copies from a stream to an image, and from an image to standard output. They don't go through the controller.
ghost use Rattle.std.specs.Prelude.{◌≤◌};

use crate::container::{volume_blocks, warn_of_format};
use crate::copy::blocks_to_copy;
use crate::fault::{Fault, STANDARD_OUTPUT};
use crate::file_fault::{FileFault, FileRole};
use crate::image::{NamedImage, block_reason};
use crate::outcome::Outcome;
use crate::progress::{CopyProgress, StreamProgress, clear_line, print_syncing};
use crate::raw_blocks::HeldBlocks;
use crate::reason::{CopyOption, CopyReason, ImageReason, Reason, StreamLength, TargetReason};
use crate::streams::{InputStream, stream_name};
use crate::target::{BegunCopy, CheckedTarget, CopyTarget, Resumption};
use std::alloc::AllocError;
use std::fs::{File, OpenFile};
use std::io::{BufWriter, ErrorKind, IsTerminal, Read, Write};
use std::ops::Range;
use std::os::unix::fs::FileTypeExt;
use std::{fs, io};
use uda_image::{BlockStore, STORE_LIMIT};
use uda50_arguments::{Copy, ImageName};
use uda50_copy::Observer;
use uda50_files::{Failures, Image, TargetFile};

/// The most blocks that are read from a stream at once.
const PIECE: usize = 32;

/// The bytes of a block.
const BLOCK: usize = 512;

/// Returns whether the source of a copy is a stream: standard input, a pipe, a socket or a device of characters.
pub(crate) fn is_stream(rt: &HostRuntime, from: ImageName<'_>) -> bool {
    if from.is_stream() {
        return true;
    }
    match fs::metadata(rt, from.path) {
        Ok(metadata) => {
            let kind = metadata.file_type();
            kind.is_fifo() || kind.is_char_device() || kind.is_socket()
        }
        Err(_) => false,
    }
}

/// Copies a stream to an image: its blocks up to its end, or those of `--blocks`.
pub(crate) fn copy_from_stream(rt: &HostRuntime, copy: &Copy<'_>) -> Result<Outcome, FileFault> {
    let option = if copy.skips_lost {
        Some(CopyOption::Continue)
    } else if copy.without_record {
        Some(CopyOption::WithoutRecord)
    } else {
        image_option(copy)
    };
    if let Some(option) = option {
        return Err(FileRole::Stream.fault(Reason::Copy(CopyReason::NeedsImages(option))));
    }
    let stream = match copy.from.is_stream() {
        true => InputStream::Standard(rt.stdin()),
        false => {
            let file = File::open(rt, stream_name(copy.from.path));
            InputStream::File(FileRole::Stream.of_call(file)?)
        }
    };
    take_stream(rt, copy, stream)
}

// Returns the option that needs two images, if there is one.
fn image_option(copy: &Copy<'_>) -> Option<CopyOption> {
    if copy.verify {
        Some(CopyOption::Verify)
    } else if copy.resumes {
        Some(CopyOption::Resume)
    } else if copy.map.is_some() {
        Some(CopyOption::Map)
    } else {
        None
    }
}

// Copies an open stream, and completes the target. If that fails, it prints the fault, and what is left.
fn take_stream(
    rt: &HostRuntime,
    copy: &Copy<'_>,
    stream: InputStream,
) -> Result<Outcome, FileFault> {
    let BegunCopy { target, file, .. } = begin(rt, copy)?;
    let mut taken = StreamCopy::new(rt, copy, &target, file, stream)?;
    let done = taken.run();
    let blocks = taken.close();
    clear_line(rt);
    target.copied.set(blocks);
    match complete(rt, &target, blocks, done) {
        Ok(()) => Ok(Outcome::Done),
        Err(fault) => target.abandon(fault, 0..blocks, Resumption::Impossible),
    }
}

// Begins a copy of a stream.
fn begin<'r, 'w>(rt: &'r HostRuntime, copy: &Copy<'w>) -> Result<BegunCopy<'r, 'w>, FileFault> {
    let end = match copy.blocks {
        Some(range) => range.end,
        None => 0,
    };
    let begun = CheckedTarget::open(rt, copy, &(0..end))?.begin_unmapped(rt)?;
    begun.target.announce(false)?;
    Ok(begun)
}

// Completes a target of that many blocks.
fn complete(
    rt: &HostRuntime,
    target: &CopyTarget<'_, '_>,
    blocks: u32,
    done: Result<(), FileFault>,
) -> Result<(), FileFault> {
    done?;
    target.set_length(blocks)?;
    print_syncing(rt);
    let synced = target.sync(0);
    clear_line(rt);
    synced?;
    target.complete(false)
}

// A copy of a stream to an image.
#[derive(Drop)]
struct StreamCopy<'a, 'w> {
    rt: &'a HostRuntime,
    copy: &'a Copy<'w>,
    stream: InputStream,
    image: Image,
    failures: Failures,
    // The next block of the stream.
    at: u32,
    progress: StreamProgress<'a>,
}

impl<'a, 'w> StreamCopy<'a, 'w> {
    // Makes a copy of which no block is read yet.
    fn new(
        rt: &'a HostRuntime,
        copy: &'a Copy<'w>,
        target: &CopyTarget<'_, '_>,
        file: TargetFile,
        stream: InputStream,
    ) -> Result<StreamCopy<'a, 'w>, AllocError> {
        let is_sparse = copy.sparse && target.kind().is_whole();
        let image = file.into_image(STORE_LIMIT, is_sparse, &target.failures)?;
        let failures = target.failures.share()?;
        Ok(StreamCopy {
            rt,
            copy,
            stream,
            image,
            failures,
            at: 0,
            progress: StreamProgress::start(rt),
        })
    }

    // Closes the image and the stream. Returns the number of blocks that were read.
    fn close(self) -> u32 {
        self.at
    }

    // Copies the blocks of the stream that are asked for.
    fn run(&mut self) -> Result<(), FileFault> {
        let mut piece = [0; PIECE * BLOCK];
        for _ in 0..u32::MAX {
            let wanted = self.wanted();
            if wanted == 0 {
                return self.at_most();
            }
            let bytes = wanted * BLOCK;
            let read = self.fill(&mut piece[..bytes])?.min(bytes);
            self.write_blocks(&piece[..read / BLOCK * BLOCK])?;
            self.progress.reached(self.at);
            if read < bytes {
                return self.end(read % BLOCK);
            }
        }
        Ok(())
    }

    // Fails if the stream has more blocks than an image can have.
    fn at_most(&mut self) -> Result<(), FileFault> {
        let mut byte = [0; 1];
        if self.at == STORE_LIMIT && self.fill(&mut byte)? > 0 {
            return Err(FileRole::Stream.fault(Reason::Image(ImageReason::TooLarge(
                u64::from(self.at) + 1,
            ))));
        }
        Ok(())
    }

    // Returns the number of blocks that are read next. Those before `--blocks` are read by themselves.
    fn wanted(&self) -> usize
        ensures within { result ≤ 32 }
    {
        let copy = self.copy;
        let end = match copy.blocks {
            Some(range) if self.at < range.start => range.start,
            Some(range) => range.end,
            None => STORE_LIMIT,
        };
        PIECE.min(end.saturating_sub(self.at) as usize)
    }

    // Reads bytes until `to` is full or the stream ends, and returns their number.
    fn fill(&mut self, to: &mut [u8]) -> Result<usize, FileFault> {
        let mut read = 0;
        for _ in 0..usize::MAX {
            if read >= to.len() {
                break;
            }
            match self.stream.read(&mut to[read..]) {
                Ok(0) => break,
                Ok(bytes) => read += bytes,
                Err(error) if error.kind() == ErrorKind::Interrupted => {}
                Err(error) => return Err(FileRole::Stream.fault(Reason::of(error))),
            }
        }
        Ok(read)
    }

    // Writes whole blocks, unless they are before those of `--blocks`.
    fn write_blocks(&mut self, bytes: &[u8]) -> Result<(), FileFault> {
        let start = match self.copy.blocks {
            Some(range) => range.start,
            None => 0,
        };
        let mut block = self.at;
        for bytes in bytes.chunks_exact(BLOCK) {
            if block >= start {
                self.write_block(block, bytes)?;
            }
            block = block.saturating_add(1);
        }
        self.at = block;
        Ok(())
    }

    // Writes a block.
    fn write_block(&mut self, block: u32, bytes: &[u8]) -> Result<(), FileFault> {
        let mut from = [0; BLOCK];
        let copy = self.copy;
        if block >= self.image.size() || bytes.len() != BLOCK {
            return Err(FileRole::Stream.fault(Reason::Image(ImageReason::TooLarge(u64::from(
                block,
            )))));
        }
        from.copy_from_slice(bytes);
        if block == 0 {
            warn_of_format(self.rt, stream_name(copy.from.path), &from);
        }
        match self.image.write(block, &from) {
            Ok(()) => Ok(()),
            Err(error) => {
                let reason = block_reason(block, error, &self.failures);
                Err(FileRole::Target.fault(reason))
            }
        }
    }

    // Ends a copy whose stream ended, with that many bytes after its last whole block.
    fn end(&self, bytes: usize) -> Result<(), FileFault> {
        match self.copy.blocks {
            None if bytes == 0 => Ok(()),
            _ => {
                let length = StreamLength {
                    blocks: self.at,
                    bytes,
                };
                Err(FileRole::Stream.fault(Reason::Copy(CopyReason::Ended(length))))
            }
        }
    }
}

/// Copies blocks of an image to standard output.
pub(crate) fn copy_to_output<'w, W: Write + Drop>(
    rt: &HostRuntime,
    copy: &Copy<'w>,
    out: &mut BufWriter<W>,
) -> Result<Outcome, Fault<'w>> {
    let image = NamedImage::open(rt, copy.from)?;
    let Range { start, end } = output_blocks(rt, copy, image.size())?;
    if let Some(option) = image_option(copy) {
        return Err(Fault::new(
            STANDARD_OUTPUT,
            Reason::Copy(CopyReason::NeedsImages(option)),
        ));
    }
    if copy.device.is_some() {
        return Err(Fault::new(STANDARD_OUTPUT, Reason::Target(TargetReason::OtherDevice)));
    }
    if !copy.force && rt.stdout().is_terminal() {
        return Err(Fault::new(STANDARD_OUTPUT, Reason::Terminal));
    }
    let mut copied = OutputCopy {
        most: if image.is_plain(rt) { u32::MAX } else { 1 },
        image,
        skips_lost: copy.skips_lost,
        progress: CopyProgress::start(rt, copy.from.path, start..end),
        held: HeldBlocks::none(),
        singly: 1,
    };
    let done = copied.run(start..end, out);
    let OutputCopy { progress, held, .. } = copied;
    let lost = progress.end();
    let written = held.write_all(out);
    done?;
    to_output(written)?;
    to_output(out.flush())?;
    Ok(if lost > 0 {
        Outcome::Failed
    } else {
        Outcome::Done
    })
}

// Returns the blocks of a source of that many blocks that are copied to standard output.
fn output_blocks<'w>(
    rt: &HostRuntime,
    copy: &Copy<'w>,
    size: u32,
) -> Result<Range<u32>, Fault<'w>> {
    let blocks = match volume_blocks(rt, copy, size) {
        Ok(volume) => blocks_to_copy(copy, volume),
        Err(fault) => Err(fault),
    };
    match blocks {
        Ok(blocks) => Ok(blocks),
        Err(fault) => Err(fault.named(copy)),
    }
}

// Returns the result of a write to standard output. It is a fault of a copy if its reader has gone.
fn to_output<'w>(written: io::Result<()>) -> Result<(), Fault<'w>> {
    match written {
        Ok(()) => Ok(()),
        Err(error) => Err(Fault::new(STANDARD_OUTPUT, Reason::Copy(CopyReason::Output(error)))),
    }
}

// A copy of blocks of an image to standard output.
#[derive(Drop)]
struct OutputCopy<'a, 'w> {
    image: NamedImage<'w>,
    // The most blocks that are read at once.
    most: u32,
    // Whether lost blocks are skipped. They are zeros.
    skips_lost: bool,
    progress: CopyProgress<'a, 'w>,
    held: HeldBlocks,
    // The first block after those that are read singly: the first of the image, and those of a call that failed.
    singly: u32,
}

impl<'a, 'w> OutputCopy<'a, 'w> {
    // Reads blocks of the image, and writes all except those that are still held.
    fn run<W: Write + Drop>(
        &mut self,
        blocks: Range<u32>,
        out: &mut BufWriter<W>,
    ) -> Result<(), Fault<'w>> {
        let Range { mut start, end } = blocks;
        for _ in 0..u32::MAX {
            let most = if start < self.singly { 1 } else { self.most };
            let next = start.saturating_add(self.held.room().min(most)).min(end);
            if next <= start {
                break;
            }
            let reached = self.read(start..next)?;
            if start == 0 {
                self.progress.warn_of_format(&self.held.first());
            }
            self.progress.reached(reached);
            to_output(self.held.write_full(out))?;
            start = reached;
        }
        Ok(())
    }

    // Reads these blocks up to one that is lost. Returns the block that follows.
    fn read(&mut self, blocks: Range<u32>) -> Result<u32, Fault<'w>> {
        let Range { start, end } = blocks;
        let before = self.held.count();
        if self.held.read(&mut self.image, start..end).is_ok() {
            return Ok(end);
        }
        self.singly = end;
        let block = start.saturating_add(self.held.count().saturating_sub(before));
        if !self.skips_lost {
            return Err(self.image.copy_fault(block));
        }
        self.progress.lost(block);
        self.held.push(&[0; BLOCK]);
        Ok(block.saturating_add(1))
    }
}
