//! Host memory in a slice that somebody else owns, read and written in words, windows and blocks.
//!
//! An address is the index of a byte in the slice. The slice may have any length, except for [`len`]. A
//! caller that passes a slice to a port or an executor tests it with [`is_memory`] first.
ghost use Rattle.std.specs.Prelude.{◌≡◌, ℕ, ◌+◌, ◌≤◌, ◌↔◌, length, IsTrue, IsSome, IfSome, replicate};
ghost use Rattle.std.specs.Prelude.{if◌then◌else◌};
ghost use Rattle.uda_mem.specs.Put.{put, part};
ghost use Rattle.uda_mem.specs.Words.{HasWord, word_at, word_bytes};
ghost use Rattle.uda_mem.specs.Slices.{IsMemory};

use byteorder::{ByteOrder, LittleEndian};

/// The most bytes of a memory in a slice: the 4,194,304 addresses of a Q-bus, which have 22 bits.
pub const SLICE_LIMIT: u32 = 4_194_304;

/// Returns whether these bytes can be the memory of a host: an even number of them, at most
/// [`SLICE_LIMIT`].
pub fn is_memory(bytes: &[u8]) -> bool
    ensures memory { IsTrue result ↔ IsMemory bytes.now }
{
    bytes.len() % 2 == 0 && bytes.len() <= SLICE_LIMIT as usize
}

/// Returns the number of bytes of a memory, which is at most [`SLICE_LIMIT`].
pub fn len(memory: &[u8]) -> u32
    requires within { length memory.now ≤ SLICE_LIMIT }
    ensures len { result ≡ length memory.now }
{
    memory.len() as u32
}

/// Returns whether the `len` bytes from address `addr` all lie in the memory. The address may be odd. The
/// sum `addr + len` does not wrap.
pub fn has(memory: &[u8], addr: u32, len: u32) -> bool
    ensures inside { IsTrue result ↔ (addr + len ≤ length memory.now) }
{
    addr as usize + len as usize <= memory.len()
}

/// Returns the word at the even address `addr`, low byte first. Returns `None` if `addr` is odd or the two
/// bytes don't both lie in the memory.
#[tactic(auto, unfolding(crate::specs::Put::part, crate::specs::Words::word_at))]
pub fn read_word(memory: &[u8], addr: u32) -> Option<u16>
    ensures present { IsSome result ↔ HasWord memory.now addr }
    ensures value { IfSome result (λ word. word ≡ word_at memory.now addr) }
{
    if addr % 2 != 0 {
        return None;
    }
    let bytes = window(memory, addr, 2)?;
    Some(LittleEndian::read_u16(bytes))
}

/// Returns the word at the even address `addr`, low byte first. The caller knows that the two bytes lie in the
/// memory.
#[tactic(auto, unfolding(crate::specs::Put::part, crate::specs::Words::word_at))]
pub fn word_at(memory: &[u8], addr: u32) -> u16
    requires word { HasWord memory.now addr }
    ensures value { result ≡ word_at memory.now addr }
{
    let start = addr as usize;
    LittleEndian::read_u16(&memory[start..start + 2])
}

/// Writes `word` at the even address `addr`, low byte first, and changes no other byte. Returns false and
/// changes nothing if `addr` is odd or the two bytes don't both lie in the memory.
#[tactic(auto, unfolding(crate::specs::Put::put, crate::specs::Words::word_bytes))]
pub fn write_word(memory: &mut [u8], addr: u32, word: u16) -> bool
    ensures written { IsTrue result ↔ HasWord memory.old addr }
    ensures memory { memory.new ≡ (if result then put memory.old addr (word_bytes word) else memory.old) }
{
    if addr % 2 != 0 || !has(memory, addr, 2) {
        return false;
    }
    put_word(memory, addr, word);
    true
}

/// Writes `word` at the even address `addr`, low byte first, and changes no other byte. The caller knows
/// that the two bytes lie in the memory.
#[tactic(auto, unfolding(crate::specs::Put::put, crate::specs::Words::word_bytes))]
pub fn put_word(memory: &mut [u8], addr: u32, word: u16)
    requires word { HasWord memory.old addr }
    ensures memory { memory.new ≡ put memory.old addr (word_bytes word) }
{
    let start = addr as usize;
    LittleEndian::write_u16(&mut memory[start..start + 2], word);
}

/// Writes these bytes from address `addr`, and changes no other byte. The caller knows that they fit in the
/// memory.
#[tactic(auto, unfolding(crate::specs::Put::put))]
pub fn put_bytes(memory: &mut [u8], addr: u32, bytes: &[u8])
    requires inside { addr + length bytes.now ≤ length memory.old }
    ensures memory { memory.new ≡ put memory.old addr bytes.now }
{
    let start = addr as usize;
    memory[start..start + bytes.len()].copy_from_slice(bytes);
}

/// Writes `len` zeros from address `addr`, and changes no other byte. The caller knows that they fit in the
/// memory.
#[tactic(auto, unfolding(crate::specs::Put::put))]
pub fn put_zeros(memory: &mut [u8], addr: u32, len: u32)
    requires inside { addr + len ≤ length memory.old }
    ensures memory { memory.new ≡ put memory.old addr (replicate len 0) }
{
    let start = addr as usize;
    memory[start..start + len as usize].fill(0);
}

/// Returns the `len` bytes from address `addr` for reading, or `None` if they don't all lie in the memory.
/// The address may be odd.
#[tactic(auto, unfolding(crate::specs::Put::part))]
pub fn window(memory: &[u8], addr: u32, len: u32) -> Option<&[u8]>
    ensures present { IsSome result ↔ (addr + len ≤ length memory.now) }
    ensures value { IfSome result (λ bytes. bytes.now ≡ part memory.now addr len) }
    ensures len { IfSome result (λ bytes. length bytes.now ≡ len) }
{
    let start = addr as usize;
    memory.get(start..start + len as usize)
}

/// Returns the 512 bytes from address `addr` for reading, or `None` if they don't all lie in the memory.
/// The address may be odd.
pub fn block(memory: &[u8], addr: u32) -> Option<&[u8; 512]>
    ensures present { IsSome result ↔ (addr + 512 ≤ length memory.now) }
    ensures value { IfSome result (λ block. block.now ≡ part memory.now addr 512) }
{
    window(memory, addr, 512)?.as_array()
}

/// Returns the 512 bytes from address `addr` for reading. The caller knows that they lie in the memory.
pub fn block_at(memory: &[u8], addr: u32) -> &[u8; 512]
    requires inside { addr + 512 ≤ length memory.now }
    ensures value { result.now ≡ part memory.now addr 512 }
{
    let Some(block) = block(memory, addr) else {
        unreachable!()
    };
    block
}
