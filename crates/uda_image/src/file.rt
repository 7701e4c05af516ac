//! Images in files.
ghost use Rattle.std.specs.Prelude.{length, ◌≡◌, ◌≢◌, ◌+◌, ◌*◌, ◌<◌, ◌≤◌, ◌↔◌, ◌||◌, ◌&&◌, true, false, [], ◌∷◌, Some, Ok, IsOk};
ghost use Rattle.std.specs.Fs.{metadata_len};
ghost use Rattle.std.specs.Prelude.{OnOk, OnErr, IfOk, IfErr, is_ok, if◌then◌else◌};
ghost use Rattle.uda_image.specs.FileCall as call;
ghost use Rattle.uda_image.specs.Limits.{block_limit, store_limit};
ghost use Rattle.uda_image.specs.Store.{KeepsAttributes, Reads, Writes, is_sound};
ghost use Rattle.uda_image.specs.AtOnce.{TriesToRead, TriesToWrite};
ghost use Rattle.uda_image.specs.File.{ChangesAtMost};
ghost use Rattle.uda_image.specs.Image.{file_state, file_block_count, IsAsKnown};
ghost use Rattle.uda_image.specs.StoreLaws.{min-le};
ghost use Rattle.uda_image.specs.FileLaws.{file_blocks};

use crate::error::ImageError;
use crate::length::count_blocks;
use crate::noted::{read_noted, try_read_noted, try_write_noted, write_noted};
use crate::raw_file::RawFile;
use crate::store::{BLOCK_LIMIT, BlockStore, STORE_LIMIT, StoreError};
use crate::trace::{Call, FileTrace, Supposition};
use std::fs::{File, Metadata, OpenFile, OpenOptions, TryLockError};
use std::marker::Model;
use std::{fmt, fs};

/// An image in a file: the logical blocks of a unit, one after another (MSCP Basic Disk Functions Manual:
/// logical blocks).
///
/// Its size is that of the file when it is opened. It isn't faithful unless [`FileImage::known`] made it, since other
/// programs may change the file. A read or write fails if the system fails it or ends it early, as past the end of a
/// file that was shortened.
///
/// An image that isn't writable is opened for reading only, so no write can reach its file. A write to it
/// fails.
///
/// While the image is open it holds the advisory lock of its file, if the file system has such locks. A
/// writable image holds it exclusively, and images for reading share it.
///
/// Contracts see its size in blocks, whether it is writable, and whether it was written since it was opened
/// or last synced. Of its file they see what [`RawFile`] shows. They also see the calls on it since it was opened, and
/// what came of them, except for writes of several blocks that were declined. From these follows whether the image has
/// been honest. Each read returned the bytes that were last written there, or else those that the file held when it was
/// opened. After a failed write that is the block that it left. No read of several blocks that was declined changed its
/// buffer. If the bytes of the file are known, a call that is done keeps an image honest that holds them.
///
/// What the file held when it was opened, and what a write that fails leaves in a block, is supposed
/// ([`Supposition`]). A caller who names no supposition has contracts that hold for each.
#[derive(Drop)]
pub struct FileImage<F: RawFile = File> {
    file: F,
    size: u32,
    writable: bool,
    written: bool,
    trace: FileTrace,
}

impl<F: RawFile> Model for FileImage<F> {
    ghost use Rattle.std.specs.Prelude.{◌≡◌, ◌≤◌, true};
    ghost use Rattle.uda_image.specs.Limits.{store_limit};
    ghost use Rattle.uda_image.specs.Image.{OpenImage, HoldsKnownBytes};

    ghost Value = { OpenImage };

    ghost view = { λ image. record {
      size = image.size;
      writable = image.writable;
      written = image.written;
      content = F.content image.file;
      never_fails = F.never_fails image.file;
      unsynced = F.unsynced image.file;
      held = image.trace.held;
      blocks_left = image.trace.blocks_left;
      known = image.trace.known;
      calls = image.trace.calls;
    } };

    ghost invariant = { λ image. (image.size ≤ store_limit) × (image.trace.known ≡ true → HoldsKnownBytes (record {
      size = image.size;
      writable = image.writable;
      written = image.written;
      content = F.content image.file;
      never_fails = F.never_fails image.file;
      unsynced = F.unsynced image.file;
      held = image.trace.held;
      blocks_left = image.trace.blocks_left;
      known = image.trace.known;
      calls = image.trace.calls;
    })) };
}

impl<F: RawFile + fmt::Debug> fmt::Debug for FileImage<F> {
    fn fmt<W: fmt::Write>(&self, f: &mut fmt::Formatter<W>) -> fmt::Result {
        f.debug_struct("FileImage")
            .field("file", &self.file)
            .field("size", &self.size)
            .field("writable", &self.writable)
            .field("written", &self.written)
            .finish()
    }
}

// Returns whether `path` names a plain file. It is checked before the open, which could wait for the other
// end of a pipe, or have an effect on a device.
fn is_plain_file(rt: &HostRuntime, path: &str) -> bool {
    match fs::metadata(rt, path) {
        Ok(metadata) => metadata.is_file(),
        Err(_) => false,
    }
}

// Takes a file's advisory lock, exclusive (`alone`) or shared. Returns false if another open of the file
// holds it. Returns true on a file system without such locks.
fn lock(file: &File, alone: bool) -> bool {
    let locked = if alone {
        file.try_lock()
    } else {
        file.try_lock_shared()
    };
    !matches!(locked, Err(TryLockError::WouldBlock))
}

impl FileImage {
    /// Opens the plain file at `path` as an image, for reading and, if `writable`, for writing. It
    /// allocates no memory and changes no file. It fails with:
    ///
    /// - `Open` if the file can't be opened, is not a plain file, is locked by another open, or its length
    ///   can't be read;
    /// - `Length` if its length in bytes is not a multiple of 512;
    /// - `TooLarge` if it has more than [`BLOCK_LIMIT`] blocks.
    pub fn open(rt: &HostRuntime, path: &str, writable: bool) -> Result<FileImage, ImageError>
        ensures writable { IfOk result (λ image. image.writable ≡ writable) }
        ensures written { IfOk result (λ image. image.written ≡ false) }
        ensures no_calls { IfOk result (λ image. image.calls ≡ []) }
        ensures within_limit { IfOk result (λ image. image.size ≤ block_limit) }
        ensures errors { result ≢ Err ImageError.NoMemory }
    {
        FileImage::open_within(rt, path, writable, BLOCK_LIMIT)
    }

    /// Opens a file as [`FileImage::open`] does, but with up to [`STORE_LIMIT`] blocks.
    pub fn open_large(rt: &HostRuntime, path: &str, writable: bool) -> Result<FileImage, ImageError>
        ensures writable { IfOk result (λ image. image.writable ≡ writable) }
        ensures written { IfOk result (λ image. image.written ≡ false) }
        ensures no_calls { IfOk result (λ image. image.calls ≡ []) }
        ensures within_limit { IfOk result (λ image. image.size ≤ store_limit) }
        ensures errors { result ≢ Err ImageError.NoMemory }
    {
        FileImage::open_within(rt, path, writable, STORE_LIMIT)
    }

    // Opens a file of at most `limit` blocks.
    fn open_within(
        rt: &HostRuntime,
        path: &str,
        writable: bool,
        limit: u32,
    ) -> Result<FileImage, ImageError>
        requires limit { limit ≤ store_limit }
        ensures writable { IfOk result (λ image. image.writable ≡ writable) }
        ensures written { IfOk result (λ image. image.written ≡ false) }
        ensures no_calls { IfOk result (λ image. image.calls ≡ []) }
        ensures within_limit { IfOk result (λ image. image.size ≤ limit) }
        ensures errors { result ≢ Err ImageError.NoMemory }
    {
        if !is_plain_file(rt, path) {
            return Err(ImageError::Open);
        }
        let Ok(file) = OpenOptions::new().read(true).write(writable).open(rt, path) else {
            return Err(ImageError::Open);
        };
        let Ok(metadata) = file.metadata() else {
            return Err(ImageError::Open);
        };
        if !metadata.is_file() || !lock(&file, writable) {
            return Err(ImageError::Open);
        }
        FileImage::of_length(file, &metadata, writable, limit)
    }

    // Makes an image of all blocks of a file, by its length, if that is one of at most `limit` blocks.
    fn of_length(
        file: File,
        metadata: &Metadata,
        writable: bool,
        limit: u32,
    ) -> Result<FileImage, ImageError>
        requires limit { limit ≤ store_limit }
        ensures size { IfOk result (λ image. 512 * image.size ≡ metadata_len metadata.now) }
        ensures writable { IfOk result (λ image. image.writable ≡ writable) }
        ensures written { IfOk result (λ image. image.written ≡ false) }
        ensures no_calls { IfOk result (λ image. image.calls ≡ []) }
        ensures within_limit { IfOk result (λ image. image.size ≤ limit) }
        ensures errors { result ≢ Err ImageError.NoMemory }
    {
        let size = count_blocks(metadata.len(), limit)?;
        Ok(FileImage::over(file, size, writable))
    }
}

impl<F: RawFile> FileImage<F> {
    /// Makes an image of `size` blocks over `file`, which holds them. A write to it fails unless it is
    /// writable.
    pub fn over(file: F, size: u32, writable: bool) -> FileImage<F>
        requires within_limit { size ≤ store_limit }
        ensures size { result.size ≡ size }
        ensures writable { result.writable ≡ writable }
        ensures written { result.written ≡ false }
        ensures content { result.content ≡ F.content file }
        ensures never_fails { result.never_fails ≡ F.never_fails file }
        ensures unsynced { result.unsynced ≡ F.unsynced file }
        ensures unknown { result.known ≡ false }
        ensures no_calls { result.calls ≡ [] }
    {
        FileImage {
            file,
            size,
            writable,
            written: false,
            trace: FileTrace::new(&Supposition::any()),
        }
    }

    /// Returns this image, on which no call was made, with what is supposed of its file.
    pub fn supposing(self, supposed: &Supposition) -> FileImage<F>
        requires no_calls { self.calls ≡ [] }
        ensures supposed { result ≡ record self {
          held = supposed.now.held;
          blocks_left = supposed.now.blocks_left;
          known = false;
        } }
        ensures known { length supposed.now.held ≡ 512 * file_block_count self
            → self.content ≡ Some supposed.now.held → IsAsKnown result }
    {
        FileImage {
            trace: FileTrace::new(supposed),
            ..self
        }
    }

    /// Returns this image, on which no call was made, over a file that holds the supposed bytes and fails no call. It is
    /// then faithful.
    pub fn known(self, supposed: &Supposition) -> FileImage<F>
        requires no_calls { self.calls ≡ [] }
        requires content { self.content ≡ Some supposed.now.held }
        requires whole { length supposed.now.held ≡ 512 * file_block_count self }
        requires never_fails { self.never_fails ≡ true }
        ensures known { result ≡ record self {
          held = supposed.now.held;
          blocks_left = supposed.now.blocks_left;
          known = true;
        } }
    {
        FileImage {
            trace: FileTrace::known(supposed),
            ..self
        }
    }

    /// Makes the system write to the medium what was written to the file, and the file's length. It does
    /// nothing if nothing was written.
    ///
    /// Fails with `Write` if the system can't, or if it reports the error of an earlier write only now.
    pub fn sync(&mut self) -> Result<(), StoreError>
        ensures synced { OnOk result (self.new ≡ record self.old {
          written = false;
          unsynced = if self.old.written then false else self.old.unsynced;
        }) }
        ensures unchanged { OnErr result (self.new ≡ self.old) }
        ensures idle { self.old.written ≡ false → IsOk result }
        ensures error { IfErr result (λ e. e ≡ StoreError.Write) }
    {
        if self.written && self.file.sync_data().is_err() {
            return Err(StoreError::Write);
        }
        self.written = false;
        Ok(())
    }
}

impl<F: RawFile> BlockStore for FileImage<F> {
    ghost state = { file_state };

    ghost within_limit = { λ image. min-le image.size };

    ghost is_image = { λ image _. file_blocks image };

    ghost is_image_if_sound = { λ image _. file_blocks image };

    fn size(&self) -> u32 {
        self.size
    }

    #[tactic(auto, using(crate::proofs::FileSteps::file_steps))]
    fn read(&mut self, n: u32, to: &mut [u8; 512]) -> Result<(), StoreError>
        requires { n < file_block_count self.old }
        ensures unchanged { self.new ≡ record self.old { calls = self.new.calls } }
        ensures error { IfErr result (λ e. e ≡ StoreError.Read) }
        ensures long { length to.new ≡ 512 }
        ensures noted { self.new.calls
            ≡ (if is_ok result then call.read n to.new else call.failed) ∷ self.old.calls }
        ensures attributes { KeepsAttributes (file_state self.old) (file_state self.new) }
        ensures infallible { self.old.known ≡ true → IsOk result }
        ensures reads_if_sound { is_sound (file_state self.new) ≡ true
            → Reads (file_state self.old) n (file_state self.new) to.new result }
        ensures known { IsAsKnown self.old → IsAsKnown self.new }
    {
        if !read_noted(&mut self.file, &mut self.trace, n, to) {
            return Err(StoreError::Read);
        }
        Ok(())
    }

    #[tactic(auto, using(crate::proofs::FileSteps::file_steps))]
    fn write(&mut self, n: u32, from: &[u8; 512]) -> Result<(), StoreError>
        requires { n < file_block_count self.old }
        ensures written { self.old.writable ≡ true → self.new
            ≡ record self.old {
              written = true;
              content = self.new.content;
              unsynced = self.new.unsynced;
              calls = self.new.calls;
            } }
        ensures read_only { self.old.writable ≡ false → result ≡ Err StoreError.Write }
        ensures unchanged { self.old.writable ≡ false → self.new ≡ record self.old { calls = self.new.calls } }
        ensures error { IfErr result (λ e. e ≡ StoreError.Write) }
        ensures noted { self.new.calls ≡ (if is_ok result then call.written n from.now
            else (if self.old.writable then call.failed_write n else call.failed)) ∷ self.old.calls }
        ensures attributes { KeepsAttributes (file_state self.old) (file_state self.new) }
        ensures infallible { self.old.writable && self.old.known ≡ true → IsOk result }
        ensures writes_if_sound { is_sound (file_state self.new) ≡ true
            → Writes (file_state self.old) n (file_state self.new) from.now result }
        ensures known { IsAsKnown self.old → IsOk result → IsAsKnown self.new }
        ensures no_other { ChangesAtMost (512 * n) 512 self.old.content self.new.content }
    {
        if !self.writable {
            self.trace.note(&Call::Failed);
            return Err(StoreError::Write);
        }
        self.written = true;
        if !write_noted(&mut self.file, &mut self.trace, n, from) {
            return Err(StoreError::Write);
        }
        Ok(())
    }

    // If the call moves only a part, the caller's reads of single blocks read all again.
    #[tactic(auto, using(crate::proofs::FileSteps::file_steps))]
    fn try_read_blocks(&mut self, n: u32, count: u32, to: &mut [u8]) -> bool
        requires on_unit { n + count ≤ file_block_count self.old }
        requires long { length to.old ≡ 512 * count }
        ensures unchanged { self.new ≡ record self.old { calls = self.new.calls } }
        ensures long { length to.new ≡ length to.old }
        ensures noted { self.new.calls ≡ (if result then call.read n to.new else call.declined to.new)
            ∷ call.asked to.old ∷ self.old.calls }
        ensures attributes { KeepsAttributes (file_state self.old) (file_state self.new) }
        ensures reads_if_sound { is_sound (file_state self.new) ≡ true
            → TriesToRead (file_state self.old) n count (file_state self.new) to.old to.new result }
        ensures known { IsAsKnown self.old → result ≡ true → IsAsKnown self.new }
    {
        try_read_noted(&mut self.file, &mut self.trace, n, to)
    }

    #[tactic(auto, using(crate::proofs::FileSteps::file_steps))]
    fn try_write_blocks(&mut self, n: u32, count: u32, from: &[u8]) -> bool
        requires on_unit { n + count ≤ file_block_count self.old }
        requires long { length from.now ≡ 512 * count }
        ensures written { self.old.writable ≡ true → self.new
            ≡ record self.old {
              written = true;
              content = self.new.content;
              unsynced = self.new.unsynced;
              calls = self.new.calls;
            } }
        ensures read_only { self.old.writable ≡ false → result ≡ false }
        ensures unchanged { self.old.writable ≡ false → self.new ≡ self.old }
        ensures noted { self.new.calls
            ≡ (if result then call.written n from.now ∷ self.old.calls else self.old.calls) }
        ensures attributes { KeepsAttributes (file_state self.old) (file_state self.new) }
        ensures writes_if_sound { is_sound (file_state self.new) ≡ true
            → TriesToWrite (file_state self.old) n count (file_state self.new) from.now result }
        ensures known { IsAsKnown self.old → result ≡ true → IsAsKnown self.new }
        ensures no_other { ChangesAtMost (512 * n) (length from.now) self.old.content self.new.content }
    {
        self.written |= self.writable;
        self.writable && try_write_noted(&mut self.file, &mut self.trace, n, from)
    }
}
