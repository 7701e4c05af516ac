//! Opening of files as images.
ghost use Rattle.std.specs.Prelude.{◌≡◌, ◌+◌, ◌*◌, ◌<◌, ◌≤◌, ◌⊎◌, true, false, None, min, IfOk, IfSome, OnOk, OnErr};
ghost use Rattle.uda_image.specs.Limits.{store_limit};

use crate::ahead::ReadAhead;
use crate::data::DataBlocks;
use crate::devices::is_in_use;
use crate::failures::Failures;
use crate::mounts::counts_exactly;
use crate::noting::NotingFile;
use crate::sparse::SparseFile;
use crate::target_zeros::TargetZeros;
use std::alloc::AllocError;
use std::fs::{File, Metadata, OpenFile, OpenOptions, TryLockError};
use std::io::{Seek, SeekFrom};
use std::marker::Model;
use std::os::unix::fs::{FileTypeExt, MetadataExt};
use std::{fs, io};
use thiserror::Error;
use uda_image::{FileImage, STORE_LIMIT};

/// The most bytes of a file that a file system may keep without a block.
const MOST_INLINE: u64 = 65_536;

/// A file of an image: zeros may become holes of it, and it notes its failures.
pub type ImageFile = SparseFile<NotingFile>;

/// An image in a file.
pub type Image = FileImage<ImageFile>;

/// The reason why a file can't be opened as an image.
#[derive(Debug, Drop, Error)]
pub enum OpenError {
    /// A call of the system failed.
    #[error("{0}")]
    System(io::Error),
    /// It is no plain file and, if it is only to be read, no block device.
    #[error("not a plain file")]
    NotPlain,
    /// Somebody else holds the file's lock.
    #[error("in use")]
    InUse,
    /// It is a block device that is mounted, or that the system uses in another way.
    #[error("mounted or in use by the system")]
    Mounted,
    /// Its length in bytes is not a multiple of 512.
    #[error("a length of {0} bytes")]
    Length(u64),
    /// It has this many blocks, more than an image can have.
    #[error("{0} blocks")]
    TooLarge(u64),
}

impl From<io::Error> for OpenError {
    fn from(error: io::Error) -> Self {
        OpenError::System(error)
    }
}

/// The use that is made of an image.
#[derive(Clone, Copy, Debug, PartialEq, Eq)]
pub enum Access {
    /// It is only read. It may be a block device.
    Read,
    /// It is read and written.
    Write,
    /// It is read and written, and may be a block device.
    WriteDevice,
}

impl Access {
    // Returns whether the file is opened for writing too.
    fn writes(self) -> bool {
        self != Access::Read
    }

    // Returns whether a file of this kind can be opened.
    fn permits(self, metadata: &Metadata) -> bool {
        metadata.is_file() || (self != Access::Write && metadata.file_type().is_block_device())
    }
}

/// An open file of an image, with its lock.
#[derive(Drop)]
pub struct OpenImageFile {
    file: File,
    blocks: u32,
    access: Access,
}

impl OpenImageFile {
    /// Opens a file, and takes its lock: an exclusive one if it may be written, and a shared one otherwise. A file
    /// system without locks gives no such protection.
    pub fn open(rt: &HostRuntime, path: &str, access: Access) -> Result<OpenImageFile, OpenError> {
        let (file, metadata) = open_permitted(rt, path, access)?;
        if is_locked(&file, access.writes()) {
            return Err(OpenError::InUse);
        }
        let bytes = length(&file, &metadata)?;
        let blocks = blocks_in(bytes)?;
        Ok(OpenImageFile {
            file,
            blocks,
            access,
        })
    }

    /// Returns the number of blocks.
    pub fn blocks(&self) -> u32 {
        self.blocks
    }

    /// Makes an image of the file, which notes its failures here. Blocks of zeros are written as all others.
    pub fn into_image(self, failures: &Failures) -> Result<Image, AllocError> {
        let OpenImageFile {
            file,
            blocks,
            access,
        } = self;
        let file = NotingFile::new(file, failures.share()?);
        Ok(image_over(file, blocks, access.writes()))
    }

    /// Makes an image of the file, which is only read and notes its failures here, and finds its data. The image
    /// takes what was read to find data. Unless it is to `search`, all blocks count as data, holes too.
    pub fn into_searched_image(
        self,
        rt: &HostRuntime,
        failures: &Failures,
        search: bool,
    ) -> io::Result<SearchedImage> {
        let OpenImageFile { file, blocks, .. } = self;
        let failures = failures.share()?;
        let metadata = file.metadata()?;
        if search && is_one_hole(rt, &metadata) {
            return Ok(SearchedImage {
                image: image_over(NotingFile::new(file, failures), blocks, false),
                data: DataBlocks::none(),
            });
        }
        let ahead = ReadAhead::empty(rt.alloc())?;
        let read = file.try_clone()?;
        let file = NotingFile::with_ahead(file, failures, ahead.share()?);
        Ok(SearchedImage {
            image: image_over(file, blocks, false),
            data: match search {
                true => DataBlocks::searched(read, ahead),
                false => DataBlocks::all(read, ahead),
            },
        })
    }
}

/// An image, and the blocks of it that have data.
#[derive(Drop)]
pub struct SearchedImage {
    /// The image.
    pub image: Image,
    /// Its data.
    pub data: DataBlocks,
}

// Returns whether a file has no blocks on the disk, and so no data, if its file system counts them exactly.
fn is_one_hole(rt: &HostRuntime, metadata: &Metadata) -> bool {
    let is_large = metadata.len() > MOST_INLINE;
    is_large && metadata.blocks() == 0 && counts_exactly(rt, metadata.dev())
}

// Makes an image of that many blocks over a file, in which blocks of zeros are written as all others.
fn image_over(file: NotingFile, blocks: u32, writes: bool) -> Image {
    let file = SparseFile::dense(file, 512 * u64::from(blocks));
    FileImage::over(file, blocks.min(STORE_LIMIT), writes)
}

/// A file that becomes an image, of any length, with its lock.
///
/// Contracts see its length, and the offset from which on it has only zeros that were added.
#[derive(Drop)]
pub struct TargetFile {
    file: File,
    bytes: u64,
    zeros_from: u64,
}

impl Model for TargetFile {
    ghost use Rattle.uda50_files.specs.Target.{TargetState};

    ghost Value = { TargetState };

    ghost view = { λ target. record { bytes = target.bytes; zeros_from = target.zeros_from } };
}

impl TargetFile {
    /// Makes a file. Fails if it exists already.
    pub fn create(rt: &HostRuntime, path: &str) -> Result<TargetFile, OpenError>
        ensures empty { IfOk result (λ target. target ≡ record { bytes = 0; zeros_from = 0 }) }
    {
        let file = OpenOptions::new()
            .read(true)
            .write(true)
            .create_new(true)
            .open(rt, path)?;
        TargetFile::locked(file, 0)
    }

    /// Opens an existing file. A block device may not be mounted or in use by the system, nor may a part of it.
    pub fn open(rt: &HostRuntime, path: &str, access: Access) -> Result<TargetFile, OpenError>
        ensures no_zeros_added { IfOk result (λ target. target.zeros_from ≡ target.bytes) }
    {
        let (file, metadata) = open_permitted(rt, path, access)?;
        let bytes = length(&file, &metadata)?;
        TargetFile::locked(file, bytes)
    }

    // Takes the lock of a file of that many bytes.
    fn locked(file: File, bytes: u64) -> Result<TargetFile, OpenError>
        ensures target { IfOk result (λ target. target ≡ record { bytes = bytes; zeros_from = bytes }) }
    {
        if is_locked(&file, true) {
            return Err(OpenError::InUse);
        }
        Ok(TargetFile {
            file,
            bytes,
            zeros_from: bytes,
        })
    }

    /// Removes all bytes of the file.
    pub fn empty(&mut self) -> io::Result<()>
        ensures empty { OnOk result (self.new ≡ record { bytes = 0; zeros_from = 0 }) }
        ensures unchanged { OnErr result (self.new ≡ self.old) }
    {
        self.set_blocks(0)
    }

    /// Gives the file that many blocks. If it becomes longer, what is added are zeros, in a hole.
    pub fn set_blocks(&mut self, blocks: u32) -> io::Result<()>
        ensures bytes { OnOk result (self.new.bytes ≡ 512 * blocks) }
        ensures zeros_added { OnOk result (self.new.zeros_from ≡ min self.old.zeros_from (512 * blocks)) }
        ensures unchanged { OnErr result (self.new ≡ self.old) }
    {
        let bytes = 512 * u64::from(blocks);
        self.file.set_len(bytes)?;
        self.bytes = bytes;
        self.zeros_from = self.zeros_from.min(bytes);
        Ok(())
    }

    /// Returns the length in bytes.
    pub fn bytes(&self) -> u64
        ensures bytes { result ≡ self.now.bytes }
    {
        self.bytes
    }

    /// Returns the zeros that the file holds.
    pub fn zeros(&self, rt: &HostRuntime) -> io::Result<TargetZeros> {
        let ahead = ReadAhead::empty(rt.alloc())?;
        Ok(TargetZeros::new(self.file.try_clone()?, ahead, self.blocks_begun()))
    }

    /// Returns the number of blocks that the file has in part or as a whole.
    pub fn blocks_begun(&self) -> u32
        ensures begun { 512 * result < self.now.bytes + 512 }
        ensures all { (result ≡ 4294967295) ⊎ (self.now.bytes ≤ 512 * result) }
    {
        blocks_begun(self.bytes)
    }

    /// Returns the number of blocks, if there is no part of one.
    pub fn whole_blocks(&self) -> Result<u32, OpenError>
        ensures whole { IfOk result (λ blocks. 512 * blocks ≡ self.now.bytes) }
    {
        blocks_in(self.bytes)
    }

    /// Returns another handle of the file.
    pub fn handle(&self) -> io::Result<File> {
        self.file.try_clone()
    }

    /// Makes an image of that many blocks, which notes its failures here. The file may become longer when blocks
    /// are written. If it is `sparse`, blocks of zeros aren't written past the end that it has now. If
    /// [`TargetFile::set_blocks`] made it longer, they aren't written past the end that it had before.
    pub fn into_image(
        self,
        blocks: u32,
        sparse: bool,
        failures: &Failures,
    ) -> Result<Image, AllocError>
        ensures size { IfOk result (λ image. image.size ≡ min blocks store_limit) }
        ensures writable { IfOk result (λ image. image.writable ≡ true) }
    {
        let file = self.into_file(blocks, sparse, failures)?;
        Ok(FileImage::over(file, blocks.min(STORE_LIMIT), true))
    }

    // Makes the file of such an image. No block that the file had before counts as zeros.
    fn into_file(
        self,
        blocks: u32,
        sparse: bool,
        failures: &Failures,
    ) -> Result<ImageFile, AllocError>
        ensures length { IfOk result (λ file. file.length ≡ 512 * blocks) }
        ensures only_added { IfOk result (λ file. IfSome file.zeros_from (λ from.
            (self.zeros_from ≤ from) ⊎ (512 * blocks ≤ from))) }
        ensures dense { IfOk result (λ file. sparse ≡ false → file.zeros_from ≡ None) }
    {
        let zeros_from = 512 * u64::from(blocks_begun(self.zeros_from));
        let length = 512 * u64::from(blocks);
        let file = NotingFile::new(self.file, failures.share()?);
        if sparse {
            Ok(SparseFile::ending_in_zeros(file, length, zeros_from))
        } else {
            Ok(SparseFile::dense(file, length))
        }
    }
}

// Opens an existing file for a use that its kind permits, now and when it is open. A block device that may be written may
// not be mounted or in use by the system, nor may a part of it.
fn open_permitted(
    rt: &HostRuntime,
    path: &str,
    access: Access,
) -> Result<(File, Metadata), OpenError> {
    let metadata = fs::metadata(rt, path)?;
    if !access.permits(&metadata) {
        return Err(OpenError::NotPlain);
    }
    let writes = access.writes();
    if writes && metadata.file_type().is_block_device() && is_in_use(rt, metadata.rdev())? {
        return Err(OpenError::Mounted);
    }
    let file = OpenOptions::new().read(true).write(writes).open(rt, path)?;
    let metadata = file.metadata()?;
    if !access.permits(&metadata) {
        return Err(OpenError::NotPlain);
    }
    Ok((file, metadata))
}

// Takes the lock of a file. Returns whether somebody else holds one that excludes it.
fn is_locked(file: &File, alone: bool) -> bool {
    let locked = if alone {
        file.try_lock()
    } else {
        file.try_lock_shared()
    };
    matches!(locked, Err(TryLockError::WouldBlock))
}

// Returns the length of a file in bytes. That of a device is where its end is.
fn length(file: &File, metadata: &Metadata) -> io::Result<u64> {
    if metadata.is_file() {
        return Ok(metadata.len());
    }
    let mut at = file;
    at.seek(SeekFrom::End(0))
}

// Returns the number of blocks that these bytes have in part or as a whole.
fn blocks_begun(bytes: u64) -> u32
    ensures begun { 512 * result < bytes + 512 }
    ensures all { (result ≡ 4294967295) ⊎ (bytes ≤ 512 * result) }
{
    u32::try_from(bytes.div_ceil(512)).unwrap_or(u32::MAX)
}

// Returns the number of blocks in that many bytes.
fn blocks_in(bytes: u64) -> Result<u32, OpenError>
    ensures whole { IfOk result (λ blocks. 512 * blocks ≡ bytes) }
    ensures within_limit { IfOk result (λ blocks. blocks ≤ store_limit) }
{
    if bytes % 512 != 0 {
        return Err(OpenError::Length(bytes));
    }
    match u32::try_from(bytes / 512) {
        Ok(blocks) if blocks <= STORE_LIMIT => Ok(blocks),
        _ => Err(OpenError::TooLarge(bytes / 512)),
    }
}
