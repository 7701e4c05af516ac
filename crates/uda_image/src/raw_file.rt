//! The file below an image.
ghost use Rattle.std.specs.Prelude.{◌≡◌, ℕ, Bool, true, false, List, length, Option, Some, None, Ok, OnOk, OnErr};
ghost use Rattle.uda_image.specs.File.{ReadsAt, WritesAt, IsDoneAt};

use std::fs::File;
use std::io;
use std::os::unix::fs::FileExt;

/// A file that holds the bytes of an image, each at its offset.
///
/// Contracts see its `content` if the bytes are known, and whether each read and write within these bytes is done
/// (`never_fails`). They see whether it is `unsynced`: only a sync ends that. Of a file of the system they see none of
/// this, since other programs may change its bytes, and each call may fail.
pub trait RawFile {
    ghost content: { Self → Option (List ℕ) };

    ghost never_fails: { Self → Bool };

    ghost unsynced: { Self → Bool };

    /// Reads bytes from `offset` on, until `to` is full.
    fn read_exact(&mut self, to: &mut [u8], offset: u64) -> io::Result<()>
        ensures content_stays { content self.new ≡ content self.old }
        ensures never_fails_stays { never_fails self.new ≡ never_fails self.old }
        ensures unsynced_stays { unsynced self.new ≡ unsynced self.old }
        ensures long { length to.new ≡ length to.old }
        ensures reads { ReadsAt (content self.old) offset to.new (result ≡ Ok tt) }
        ensures infallible { never_fails self.old ≡ true
            → IsDoneAt (content self.old) offset (length to.old) (result ≡ Ok tt) };

    /// Writes all bytes of `from` from `offset` on.
    fn write_all(&mut self, from: &[u8], offset: u64) -> io::Result<()>
        ensures unknown { content self.old ≡ None → content self.new ≡ None }
        ensures never_fails_stays { never_fails self.new ≡ never_fails self.old }
        ensures stays_unsynced { unsynced self.old ≡ true → unsynced self.new ≡ true }
        ensures writes { WritesAt (content self.old) offset from.now (content self.new) (result ≡ Ok tt) }
        ensures infallible { never_fails self.old ≡ true
            → IsDoneAt (content self.old) offset (length from.now) (result ≡ Ok tt) };

    /// Reads bytes from `offset` on with one call of the system, and returns their number.
    fn read_once(&mut self, to: &mut [u8], offset: u64) -> io::Result<usize>
        ensures content_stays { content self.new ≡ content self.old }
        ensures never_fails_stays { never_fails self.new ≡ never_fails self.old }
        ensures unsynced_stays { unsynced self.new ≡ unsynced self.old }
        ensures long { length to.new ≡ length to.old }
        ensures reads { ReadsAt (content self.old) offset to.new (result ≡ Ok (length to.new)) }
        ensures infallible { never_fails self.old ≡ true
            → IsDoneAt (content self.old) offset (length to.old) (result ≡ Ok (length to.old)) };

    /// Writes bytes of `from` from `offset` on with one call of the system, and returns their number.
    fn write_once(&mut self, from: &[u8], offset: u64) -> io::Result<usize>
        ensures unknown { content self.old ≡ None → content self.new ≡ None }
        ensures never_fails_stays { never_fails self.new ≡ never_fails self.old }
        ensures stays_unsynced { unsynced self.old ≡ true → unsynced self.new ≡ true }
        ensures writes { WritesAt (content self.old) offset from.now (content self.new)
            (result ≡ Ok (length from.now)) }
        ensures infallible { never_fails self.old ≡ true
            → IsDoneAt (content self.old) offset (length from.now) (result ≡ Ok (length from.now)) };

    /// Makes the system write to the medium what was written to the file.
    fn sync_data(&mut self) -> io::Result<()>
        ensures content_stays { content self.new ≡ content self.old }
        ensures never_fails_stays { never_fails self.new ≡ never_fails self.old }
        ensures synced { OnOk result (unsynced self.new ≡ false) }
        ensures unsynced_stays { OnErr result (unsynced self.new ≡ unsynced self.old) };
}

impl RawFile for File {
    ghost content = { λ _. None };

    ghost never_fails = { λ _. false };

    ghost unsynced = { λ _. false };

    fn read_exact(&mut self, to: &mut [u8], offset: u64) -> io::Result<()> {
        self.read_exact_at(to, offset)
    }

    fn write_all(&mut self, from: &[u8], offset: u64) -> io::Result<()> {
        self.write_all_at(from, offset)
    }

    fn read_once(&mut self, to: &mut [u8], offset: u64) -> io::Result<usize> {
        self.read_at(to, offset)
    }

    fn write_once(&mut self, from: &[u8], offset: u64) -> io::Result<usize> {
        self.write_at(from, offset)
    }

    fn sync_data(&mut self) -> io::Result<()> {
        File::sync_data(self)
    }
}
