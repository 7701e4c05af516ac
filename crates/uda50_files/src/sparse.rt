//! Files in which blocks of zeros become holes.
ghost use Rattle.std.specs.Prelude.{◌≡◌, ◌+◌, ◌≤◌, ℕ, List, true, None, Some, length, IfSome};
ghost use Rattle.uda_mem.specs.Put.{put};
ghost use Rattle.uda50_files.specs.Zeros.{AreZeros, AreAtMost, EndsInZeros};

use std::io;
use std::marker::Model;
use uda_image::RawFile;

/// The number of bytes of which all are looked at before the next, so that a processor looks at many at once.
const CHUNK: usize = 2048;

/// A file in which zeros aren't written where it holds zeros already. So a new file has a hole there.
///
/// Contracts see the bytes of the file, if they are known.
#[derive(Debug, Drop)]
pub struct SparseFile<F: RawFile> {
    file: F,
    length: u64,
    zeros_from: Option<u64>,
}

impl<F: RawFile> Model for SparseFile<F> {
    ghost use Rattle.uda_mem.specs.Put.{put};
    ghost use Rattle.uda50_files.specs.Zeros.{SparseState, IsAsSupposed};

    ghost Value = { SparseState };

    ghost view = { λ sparse. record {
      content = F.content sparse.file;
      never_fails = F.never_fails sparse.file;
      unsynced = F.unsynced sparse.file;
      length = sparse.length;
      zeros_from = sparse.zeros_from;
    } };

    ghost invariant = { λ sparse. IsAsSupposed (record {
      content = F.content sparse.file;
      never_fails = F.never_fails sparse.file;
      unsynced = F.unsynced sparse.file;
      length = sparse.length;
      zeros_from = sparse.zeros_from;
    }) };
}

impl<F: RawFile> SparseFile<F> {
    /// Makes a file of `length` bytes in which zeros are written as all other bytes.
    pub fn dense(file: F, length: u64) -> SparseFile<F>
        ensures file { result ≡ record {
          content = F.content file;
          never_fails = F.never_fails file;
          unsynced = F.unsynced file;
          length = length;
          zeros_from = None;
        } }
    {
        SparseFile {
            file,
            length,
            zeros_from: None,
        }
    }

    /// Makes a file of `length` bytes whose bytes from an offset on are zeros.
    pub fn ending_in_zeros(file: F, length: u64, zeros_from: u64) -> SparseFile<F>
        requires zeros { IfSome (F.content file) (EndsInZeros length zeros_from) }
        ensures file { result ≡ record {
          content = F.content file;
          never_fails = F.never_fails file;
          unsynced = F.unsynced file;
          length = length;
          zeros_from = Some zeros_from;
        } }
    {
        SparseFile {
            file,
            length,
            zeros_from: Some(zeros_from),
        }
    }

    // Returns whether the file holds these bytes already, because they are zeros at its end.
    #[tactic(auto, using(crate::proofs::ZeroLaws::zero_laws))]
    fn holds_zeros(&self, from: &[u8], offset: u64) -> bool
        ensures holds { result ≡ true → IfSome self.now.content (λ bytes.
            offset + length from.now ≤ length bytes → put bytes offset from.now ≡ bytes) }
    {
        match self.zeros_from {
            Some(at) if at <= offset => are_zeros(from),
            _ => false,
        }
    }

    // Returns the offset from which on the file ends in zeros after a write of `from`, done or not. Returns `None` if it
    // isn't known.
    #[tactic(auto, using(crate::proofs::ZeroLaws::zero_laws))]
    fn zeros_after(&self, from: &[u8], offset: u64) -> Option<u64>
        ensures zeros { IfSome result (λ next. IfSome self.now.content (λ bytes.
            (offset + length from.now ≤ length bytes) × ((left : List ℕ) → length left ≡ length from.now
            → EndsInZeros self.now.length next (put bytes offset left)))) }
    {
        match (self.zeros_from, offset.checked_add(from.len() as u64)) {
            (Some(start), Some(end)) if end <= self.length => Some(start.max(end)),
            _ => None,
        }
    }
}

/// Returns whether these bytes are zeros.
pub(crate) fn are_zeros(bytes: &[u8]) -> bool
    ensures zeros { result ≡ true → AreZeros bytes.now }
{
    let mut at = 0;
    while at < bytes.len() {
        let end = at.saturating_add(CHUNK).min(bytes.len());
        if largest(&bytes[at..end]) > 0 {
            return false;
        }
        at = end;
    }
    true
}

// Returns the largest of some bytes, or 0 if there are none.
fn largest(bytes: &[u8]) -> u8
    ensures largest { AreAtMost result (length bytes.now) bytes.now }
{
    let mut largest = 0;
    for byte in bytes {
        largest = largest.max(*byte);
    }
    largest
}

impl<F: RawFile> RawFile for SparseFile<F> {
    ghost content = { λ sparse. sparse.content };

    ghost never_fails = { λ sparse. sparse.never_fails };

    ghost unsynced = { λ sparse. sparse.unsynced };

    fn read_exact(&mut self, to: &mut [u8], offset: u64) -> io::Result<()> {
        self.file.read_exact(to, offset)
    }

    #[tactic(auto, using(crate::proofs::ZeroLaws::zero_laws))]
    fn write_all(&mut self, from: &[u8], offset: u64) -> io::Result<()> {
        if self.holds_zeros(from, offset) {
            return Ok(());
        }
        let zeros_from = self.zeros_after(from, offset);
        let done = self.file.write_all(from, offset);
        self.zeros_from = zeros_from;
        done
    }

    fn read_once(&mut self, to: &mut [u8], offset: u64) -> io::Result<usize> {
        self.file.read_once(to, offset)
    }

    #[tactic(auto, using(crate::proofs::ZeroLaws::zero_laws))]
    fn write_once(&mut self, from: &[u8], offset: u64) -> io::Result<usize> {
        if self.holds_zeros(from, offset) {
            return Ok(from.len());
        }
        let zeros_from = self.zeros_after(from, offset);
        let done = self.file.write_once(from, offset);
        self.zeros_from = zeros_from;
        done
    }

    fn sync_data(&mut self) -> io::Result<()> {
        self.file.sync_data()
    }
}
