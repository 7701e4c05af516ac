//! Host memory that owns its bytes, read and written in words, windows and blocks.
ghost use Rattle.std.specs.Prelude.{◌≡◌, ℕ, ◌+◌, ◌%◌, ◌≤◌, ◌↔◌, List, length, IsTrue, IsSome, IfOk, IfSome};
ghost use Rattle.std.specs.Prelude.{replicate, if◌then◌else◌};
ghost use Rattle.uda_mem.specs.Put.{put, part};
ghost use Rattle.uda_mem.specs.Words.{HasWord, word_at, word_bytes};
ghost use Rattle.uda_mem.specs.Slices.{IsMemory};
ghost use Rattle.uda_mem.specs.Limits.{memory_limit};

use crate::block::as_block;
use crate::slice;
use std::alloc::{AllocError, Global};
use std::error::Error;
use std::fmt;
use std::marker::Model;

/// The most bytes that a [`HostMemory`] has. The UNIBUS has 262,144 addresses of 18 bits, and 8,192 of them
/// are its I/O page.
pub const MEMORY_LIMIT: u32 = 253_952;

/// Memory allocation failed.
#[derive(Clone, Copy, Debug, PartialEq, Eq)]
pub struct NoMemory;

impl fmt::Display for NoMemory {
    ghost use Rattle.std.specs.Prelude.{Some, codes};

    ghost output = { λ _. Some (codes "out of memory") };

    fn fmt<W: fmt::Write>(&self, f: &mut fmt::Formatter<W>) -> fmt::Result {
        f.write_str("out of memory")
    }
}

impl Error for NoMemory {}

impl From<AllocError> for NoMemory {
    fn from(_: AllocError) -> Self {
        NoMemory
    }
}

/// The memory of a host. Contracts see it as the list of its bytes.
///
/// An address is the index of a byte in that list. A word is two bytes at an even address, low byte first
/// (UDA50 Programmer's Documentation Kit: UNIBUS addresses and words).
#[derive(Debug, Drop)]
pub struct HostMemory {
    bytes: Vec<u8>,
}

impl Model for HostMemory {
    ghost use Rattle.std.specs.Prelude.{List, ℕ, ◌≡◌, ◌≤◌, ◌%◌, vec_len};
    ghost use Rattle.uda_mem.specs.Limits.{memory_limit};

    ghost Value = { List ℕ };

    ghost view = { λ m. m.bytes.items };

    ghost invariant = { λ m. (vec_len m.bytes % 2 ≡ 0) × (vec_len m.bytes ≤ memory_limit) };
}

impl HostMemory {
    /// Makes a memory of `len` bytes, all zero. `len` is even and at most [`MEMORY_LIMIT`]. No other
    /// function of this type allocates.
    ///
    /// Fails with [`NoMemory`] if `alloc` cannot allocate the bytes.
    pub fn new(alloc: Global, len: u32) -> Result<HostMemory, NoMemory>
        requires even { len % 2 ≡ 0 }
        requires within { len ≤ memory_limit }
        ensures zeros { IfOk result (λ m. m ≡ replicate len 0) }
    {
        Ok(HostMemory {
            bytes: Vec::from_elem(alloc, 0, len as usize)?,
        })
    }

    /// Returns the bytes of the memory for reading.
    pub fn as_slice(&self) -> &[u8]
        ensures bytes { result.now ≡ self.now }
        ensures memory { IsMemory result.now }
    {
        self.bytes.as_slice()
    }

    /// Returns the number of bytes of the memory: an even number, at most [`MEMORY_LIMIT`].
    pub fn len(&self) -> u32
        ensures len { result ≡ length self.now }
        ensures even { result % 2 ≡ 0 }
        ensures within { result ≤ memory_limit }
    {
        self.bytes.len() as u32
    }

    /// Returns whether the `len` bytes from address `addr` all lie in the memory. The address may be odd.
    /// The sum `addr + len` does not wrap.
    pub fn has(&self, addr: u32, len: u32) -> bool
        ensures inside { IsTrue result ↔ (addr + len ≤ length self.now) }
    {
        slice::has(self.as_slice(), addr, len)
    }

    /// Returns the word at the even address `addr`, low byte first. Returns `None` if `addr` is odd or the
    /// two bytes don't both lie in the memory.
    pub fn read_word(&self, addr: u32) -> Option<u16>
        ensures present { IsSome result ↔ HasWord self.now addr }
        ensures value { IfSome result (λ word. word ≡ word_at self.now addr) }
    {
        slice::read_word(self.as_slice(), addr)
    }

    /// Writes `word` at the even address `addr`, low byte first, and changes no other byte. Returns false
    /// and changes nothing if `addr` is odd or the two bytes don't both lie in the memory.
    #[tactic(auto, using(crate::proofs::PutLaws::wholes))]
    pub fn write_word(&mut self, addr: u32, word: u16) -> bool
        ensures written { IsTrue result ↔ HasWord self.old addr }
        ensures memory { self.new ≡ (if result then put self.old addr (word_bytes word) else self.old) }
    {
        slice::write_word(self.as_mut_slice(), addr, word)
    }

    /// Writes `word` at the even address `addr`, low byte first, and changes no other byte. The caller
    /// knows that the two bytes lie in the memory.
    pub fn put_word(&mut self, addr: u32, word: u16)
        requires word { HasWord self.old addr }
        ensures memory { self.new ≡ put self.old addr (word_bytes word) }
    {
        self.write_word(addr, word);
    }

    /// Returns the `len` bytes from address `addr` for reading, or `None` if they don't all lie in the
    /// memory. The address may be odd.
    pub fn window(&self, addr: u32, len: u32) -> Option<&[u8]>
        ensures present { IsSome result ↔ (addr + len ≤ length self.now) }
        ensures value { IfSome result (λ bytes. bytes.now ≡ part self.now addr len) }
        ensures len { IfSome result (λ bytes. length bytes.now ≡ len) }
    {
        slice::window(self.as_slice(), addr, len)
    }

    /// Returns the 512 bytes from address `addr` for reading, or `None` if they don't all lie in the
    /// memory. The address may be odd.
    pub fn block(&self, addr: u32) -> Option<&[u8; 512]>
        ensures present { IsSome result ↔ (addr + 512 ≤ length self.now) }
        ensures value { IfSome result (λ block. block.now ≡ part self.now addr 512) }
    {
        slice::block(self.as_slice(), addr)
    }

    /// Returns the 512 bytes from address `addr` for reading. The caller knows that they lie in the memory
    /// ([`has`](HostMemory::has)).
    pub fn block_at(&self, addr: u32) -> &[u8; 512]
        requires inside { addr + 512 ≤ length self.now }
        ensures value { result.now ≡ part self.now addr 512 }
    {
        slice::block_at(self.as_slice(), addr)
    }
}

impl HostMemory {
    ghost use Rattle.std.specs.Prelude.{◌≡◌, ℕ, ◌+◌, ◌≤◌, ◌↔◌, length, IsTrue, IsSome, IfSome};
    ghost use Rattle.uda_mem.specs.Put.{part};
    ghost use Rattle.std.specs.Borrow.{sem};
    ghost use Rattle.uda_mem.specs.Slices.{IsMemory};
    ghost use Rattle.uda_mem.specs.Windows.{LendsWindow, LendsWindowIf};

    /// Returns the bytes of the memory for writing.
    #[tactic(auto, unfolding(crate::specs::Put::part, crate::specs::Put::put))]
    pub fn as_mut_slice(&mut self) -> &mut [u8]
        ensures* writes_back { sem 𝓛 (LendsWindow self.entry 0 result) }
        ensures bytes { result.now ≡ self.old }
        ensures memory { IsMemory result.now }
    {
        self.bytes.as_mut_slice()
    }

    /// Returns the `len` bytes from address `addr` for writing. The caller knows that they lie in the
    /// memory ([`has`](HostMemory::has)). Writes through the result change no other byte.
    #[tactic(auto, unfolding(crate::specs::Put::part, crate::specs::Put::put))]
    pub fn within(&mut self, addr: u32, len: u32) -> &mut [u8]
        requires inside { addr + len ≤ length self.old }
        ensures* writes_back { sem 𝓛 (LendsWindow self.entry addr result) }
        ensures value { result.now ≡ part self.old addr len }
        ensures len { length result.now ≡ len }
    {
        let start = addr as usize;
        self.bytes.slice_mut(start..start + len as usize)
    }

    /// Returns the `len` bytes from address `addr` for writing. The address may be odd. Writes through the
    /// result change no other byte.
    ///
    /// Returns `None` and changes nothing if the bytes don't all lie in the memory.
    pub fn window_mut(&mut self, addr: u32, len: u32) -> Option<&mut [u8]>
        ensures* writes_back { sem 𝓛 (LendsWindowIf self.entry addr result) }
        ensures present { IsSome result ↔ (addr + len ≤ length self.old) }
        ensures value { IfSome result (λ bytes. bytes.now ≡ part self.old addr len) }
        ensures len { IfSome result (λ bytes. length bytes.now ≡ len) }
    {
        if self.has_mut(addr, len) {
            Some(self.within(addr, len))
        } else {
            None
        }
    }

    /// Returns the 512 bytes from address `addr` for writing. The caller knows that they lie in the memory
    /// ([`has`](HostMemory::has)). Writes through the result change no other byte.
    pub fn block_within(&mut self, addr: u32) -> &mut [u8; 512]
        requires inside { addr + 512 ≤ length self.old }
        ensures* writes_back { sem 𝓛 (LendsWindow self.entry addr result) }
        ensures value { result.now ≡ part self.old addr 512 }
    {
        as_block(self.within(addr, 512))
    }

    /// Returns the 512 bytes from address `addr` for writing. The address may be odd. Writes through the
    /// result change no other byte.
    ///
    /// Returns `None` and changes nothing if the bytes don't all lie in the memory.
    pub fn block_mut(&mut self, addr: u32) -> Option<&mut [u8; 512]>
        ensures* writes_back { sem 𝓛 (LendsWindowIf self.entry addr result) }
        ensures present { IsSome result ↔ (addr + 512 ≤ length self.old) }
        ensures value { IfSome result (λ block. block.now ≡ part self.old addr 512) }
    {
        if self.has_mut(addr, 512) {
            Some(self.block_within(addr))
        } else {
            None
        }
    }

    // Returns the result of `has`, for a memory that the caller then borrows for writing.
    fn has_mut(&mut self, addr: u32, len: u32) -> bool
        ensures answer { IsTrue result ↔ (addr + len ≤ length self.old) }
        ensures unchanged { self.new ≡ self.old }
    {
        self.has(addr, len)
    }
}
