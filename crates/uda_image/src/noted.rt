//! The calls on the file of an image, each with the note of what came of it.
ghost use Rattle.std.specs.Prelude.{◌≡◌, ◌*◌, ◌∷◌, ◌↔◌, true, None, Ok, length, if◌then◌else◌};
ghost use Rattle.uda_image.specs.FileCall as call;
ghost use Rattle.uda_image.specs.File.{ReadsAt, WritesAt, IsDoneAt};

use crate::raw_file::RawFile;
use crate::trace::{Call, FileTrace};
use std::io;

/// Reads bytes from a block on, and notes it. Returns whether the system read all of them.
#[inline(always)]
pub(crate) fn read_noted<F: RawFile>(
    file: &mut F,
    trace: &mut FileTrace,
    block: u32,
    to: &mut [u8],
) -> bool
    ensures content_stays { F.content file.new ≡ F.content file.old }
    ensures never_fails_stays { F.never_fails file.new ≡ F.never_fails file.old }
    ensures unsynced_stays { F.unsynced file.new ≡ F.unsynced file.old }
    ensures long { length to.new ≡ length to.old }
    ensures noted { trace.new ≡ record trace.old {
      calls = (if result then call.read block to.new else call.failed) ∷ trace.old.calls;
    } }
    ensures reads { ReadsAt (F.content file.old) (512 * block) to.new (result ≡ true) }
    ensures infallible { F.never_fails file.old ≡ true
        → IsDoneAt (F.content file.old) (512 * block) (length to.old) (result ≡ true) }
{
    if file.read_exact(to, 512 * u64::from(block)).is_err() {
        trace.note(&Call::Failed);
        return false;
    }
    trace.note(&Call::Read { block, bytes: to });
    true
}

/// Writes bytes from a block on, and notes it. Returns whether the system wrote all of them.
#[inline(always)]
pub(crate) fn write_noted<F: RawFile>(
    file: &mut F,
    trace: &mut FileTrace,
    block: u32,
    from: &[u8],
) -> bool
    ensures unknown { F.content file.old ≡ None → F.content file.new ≡ None }
    ensures never_fails_stays { F.never_fails file.new ≡ F.never_fails file.old }
    ensures noted { trace.new ≡ record trace.old {
      calls = (if result then call.written block from.now else call.failed_write block) ∷ trace.old.calls;
    } }
    ensures writes { WritesAt (F.content file.old) (512 * block) from.now (F.content file.new) (result ≡ true) }
    ensures infallible { F.never_fails file.old ≡ true
        → IsDoneAt (F.content file.old) (512 * block) (length from.now) (result ≡ true) }
{
    if file.write_all(from, 512 * u64::from(block)).is_err() {
        trace.note(&Call::FailedWrite { block });
        return false;
    }
    trace.note(&Call::Written { block, bytes: from });
    true
}

/// Reads bytes from a block on with one call of the system, and notes it. Returns whether that read all of them.
#[inline(always)]
pub(crate) fn try_read_noted<F: RawFile>(
    file: &mut F,
    trace: &mut FileTrace,
    first: u32,
    to: &mut [u8],
) -> bool
    ensures content_stays { F.content file.new ≡ F.content file.old }
    ensures never_fails_stays { F.never_fails file.new ≡ F.never_fails file.old }
    ensures unsynced_stays { F.unsynced file.new ≡ F.unsynced file.old }
    ensures long { length to.new ≡ length to.old }
    ensures noted { trace.new ≡ record trace.old {
      calls = (if result then call.read first to.new else call.declined to.new)
          ∷ call.asked to.old ∷ trace.old.calls;
    } }
    ensures reads { ReadsAt (F.content file.old) (512 * first) to.new (result ≡ true) }
    ensures infallible { F.never_fails file.old ≡ true
        → IsDoneAt (F.content file.old) (512 * first) (length to.old) (result ≡ true) }
{
    let bytes = to.len();
    trace.note(&Call::Asked { bytes: to });
    if !is_whole(file.read_once(to, 512 * u64::from(first)), bytes) {
        trace.note(&Call::Declined { bytes: to });
        return false;
    }
    trace.note(&Call::Read {
        block: first,
        bytes: to,
    });
    true
}

/// Writes bytes from a block on with one call of the system, and notes it if that wrote all of them. Returns whether it
/// did.
#[inline(always)]
pub(crate) fn try_write_noted<F: RawFile>(
    file: &mut F,
    trace: &mut FileTrace,
    first: u32,
    from: &[u8],
) -> bool
    ensures unknown { F.content file.old ≡ None → F.content file.new ≡ None }
    ensures never_fails_stays { F.never_fails file.new ≡ F.never_fails file.old }
    ensures noted { trace.new ≡ record trace.old {
      calls = if result then call.written first from.now ∷ trace.old.calls else trace.old.calls;
    } }
    ensures writes { WritesAt (F.content file.old) (512 * first) from.now (F.content file.new) (result ≡ true) }
    ensures infallible { F.never_fails file.old ≡ true
        → IsDoneAt (F.content file.old) (512 * first) (length from.now) (result ≡ true) }
{
    if !is_whole(file.write_once(from, 512 * u64::from(first)), from.len()) {
        return false;
    }
    trace.note(&Call::Written {
        block: first,
        bytes: from,
    });
    true
}

// Returns whether a call of the system moved this number of bytes.
fn is_whole(moved: io::Result<usize>, bytes: usize) -> bool
    ensures { (result ≡ true) ↔ (moved ≡ Ok bytes) }
{
    matches!(moved, Ok(count) if count == bytes)
}
