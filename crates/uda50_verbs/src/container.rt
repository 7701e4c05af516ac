//! Records that other programs put after the blocks of an image, and formats that are no plain images.

use crate::file_fault::{FileFault, FileRole};
use crate::image::NamedImage;
use crate::reason::{CopyReason, ImageReason, Reason, RecordPlace};
use std::fs;
use std::fs::{File, OpenFile};
use std::os::unix::fs::{FileExt, FileTypeExt};
use uda50_arguments::Copy;
use uda50_show::{ContainerRecord, EscapedName, ForeignFormat};

/// Returns the record in the last block of an image. A block that can't be read has none.
pub(crate) fn last_record(image: &mut NamedImage<'_>) -> Option<ContainerRecord> {
    let last = image.size().checked_sub(1)?;
    let block = image.block_or_zeros(last).ok()?;
    ContainerRecord::read(&block)
}

/// Returns the format of another program in which a file is, by its first bytes. Only a plain file or a
/// block device is read, so that no call waits.
pub(crate) fn format_of(rt: &HostRuntime, path: &str) -> Option<ForeignFormat> {
    let metadata = fs::metadata(rt, path).ok()?;
    let length = if metadata.is_file() {
        metadata.len().min(512) as usize
    } else if metadata.file_type().is_block_device() {
        512
    } else {
        return None;
    };
    let file = File::open(rt, path).ok()?;
    let mut block = [0; 512];
    file.read_exact_at(&mut block[..length], 0).ok()?;
    ForeignFormat::read(&block)
}

/// Prints a line if the first block of a copy is that of a file of another format, whose bytes aren't the blocks of a
/// disk.
pub(crate) fn warn_of_format(rt: &HostRuntime, name: &str, block: &[u8; 512]) {
    if let Some(format) = ForeignFormat::read(block) {
        let name = EscapedName(name);
        let _ = eprintln!(rt; "uda50: {name}: begins with the {format}, and is copied as it is");
    }
}

/// Returns the reason why a file can't be used. If it is its length, and the file has a record or the format of another
/// program, the reason says so.
pub(crate) fn explain_length(rt: &HostRuntime, path: &str, reason: Reason) -> Reason {
    match reason {
        Reason::Image(ImageReason::Length(bytes)) => length_reason(rt, path, bytes),
        reason => reason,
    }
}

// Returns the reason for the length of a file. Its last bytes are searched for a record, and its last whole block.
fn length_reason(rt: &HostRuntime, path: &str, bytes: u64) -> Reason {
    if let Some(record) = record_before(rt, path, bytes) {
        let place = RecordPlace::LastBytes;
        return Reason::Image(ImageReason::LengthWithRecord {
            bytes,
            place,
            record,
        });
    }
    if let Some(record) = record_before(rt, path, bytes / 512 * 512) {
        let place = RecordPlace::LastBlock;
        return Reason::Image(ImageReason::LengthWithRecord {
            bytes,
            place,
            record,
        });
    }
    match format_of(rt, path) {
        Some(format) => Reason::Image(ImageReason::LengthOfFormat { bytes, format }),
        None => Reason::Image(ImageReason::Length(bytes)),
    }
}

// Returns the record in the 512 bytes before a place of a file.
fn record_before(rt: &HostRuntime, path: &str, end: u64) -> Option<ContainerRecord> {
    let start = end.checked_sub(512)?;
    let file = File::open(rt, path).ok()?;
    let mut block = [0; 512];
    file.read_exact_at(&mut block, start).ok()?;
    ContainerRecord::read(&block)
}

/// Returns the number of blocks of a source of that many blocks that belong to its volume. With `--without-record` these
/// are the blocks before the record, which is the last one.
pub(crate) fn volume_blocks(
    rt: &HostRuntime,
    copy: &Copy<'_>,
    blocks: u32,
) -> Result<u32, FileFault> {
    if !copy.without_record {
        return Ok(blocks);
    }
    match record_before(rt, copy.from.path, 512 * u64::from(blocks)) {
        Some(_record) => Ok(blocks.saturating_sub(1)),
        None => Err(FileRole::Source.fault(Reason::Copy(CopyReason::NoRecord))),
    }
}
