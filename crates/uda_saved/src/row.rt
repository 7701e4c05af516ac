//! Rows: eight bytes of a saved state. Numbers are little-endian.
ghost use Rattle.std.specs.Prelude.{◌≡◌, ◌+◌, ◌*◌, ◌≤◌, length};
ghost use Rattle.byteorder.specs.Endian.{little_from};
ghost use Rattle.uda_mem.specs.Put.{part};
ghost use Rattle.uda_saved.specs.Rows.{flag_byte, is_set};

use byteorder::{ByteOrder, LittleEndian};

/// Eight bytes of a saved state.
pub(crate) type Row = [u8; 8];

/// Returns the `N` bytes at an offset.
#[tactic(auto, unfolding(uda_mem::specs::Put::part))]
pub(crate) fn part_at<const N: usize>(bytes: &[u8], at: usize) -> [u8; N]
    requires within { at + N ≤ length bytes.now }
    ensures part { result ≡ part bytes.now at N }
{
    let mut found = [0; N];
    found.copy_from_slice(&bytes[at..at + N]);
    found
}

/// Returns the row at an index of the saved state.
pub(crate) fn row_at(bytes: &[u8], index: usize) -> Row
    requires within { 8 * index + 8 ≤ length bytes.now }
    ensures { result ≡ part bytes.now (8 * index) 8 }
{
    part_at(bytes, 8 * index)
}

/// Returns the number of two bytes at an offset.
pub(crate) fn row_word(row: &Row, at: usize) -> u16
    requires within { at + 2 ≤ 8 }
    ensures { result ≡ little_from at 2 row.now }
{
    LittleEndian::read_u16(&row[at..])
}

/// Returns the number of four bytes at an offset.
pub(crate) fn long(row: &Row, at: usize) -> u32
    requires within { at + 4 ≤ 8 }
    ensures { result ≡ little_from at 4 row.now }
{
    LittleEndian::read_u32(&row[at..])
}

/// Returns the byte of a flag: 1 if it is set, and 0 otherwise.
pub(crate) fn flag_byte(flag: bool) -> u8
    ensures byte { result ≡ flag_byte flag }
    ensures back { is_set result ≡ flag }
{
    if flag { 1 } else { 0 }
}

/// Returns whether the byte of a flag is set.
pub(crate) fn is_set(byte: u8) -> bool
    ensures { result ≡ is_set byte }
{
    byte > 0
}
