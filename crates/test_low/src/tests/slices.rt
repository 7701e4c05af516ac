//! Memory in slices by its calls: a table of slices, with the calls of each and their results.

use std::test::Fail;
use uda_mem::{
    HostMemory, SLICE_LIMIT, block_at, has, is_memory, len, put_bytes, put_word, put_zeros,
    read_word, window, write_word,
};

/// A call of a slice, with its result.
#[derive(Clone, Copy)]
enum Call {
    /// Whether an address has this many bytes.
    Has(u32, u32, bool),
    /// 0x1234 is written to an address and read again, or there is no word.
    Word(u32, bool),
    /// The bytes at an address.
    Bytes(u32, &'static [u8]),
    /// The last byte of the block at an address.
    EndOfBlock(u32, u8),
    /// Bytes are put at an address that has that many.
    Put(u32, &'static [u8]),
    /// A word is put at an address that has one.
    PutWord(u32, u16),
    /// This many zeros are put at an address that has that many bytes.
    PutZeros(u32, u32),
    /// Whether this many bytes can be a memory.
    IsMemory(usize, bool),
    /// The number of bytes of a memory.
    Len(u32),
}

impl Call {
    /// Makes the call, and returns whether it has that result.
    fn is_answered(self, bytes: &mut [u8]) -> bool {
        match self {
            Call::Has(addr, len, wanted) => has(bytes, addr, len) == wanted,
            Call::Word(addr, true) => {
                write_word(bytes, addr, 0x1234) && read_word(bytes, addr) == Some(0x1234)
            }
            Call::Word(addr, false) => {
                !write_word(bytes, addr, 0x1234) && read_word(bytes, addr).is_none()
            }
            Call::Bytes(addr, wanted) if wanted.len() < 512 => {
                window(bytes, addr, wanted.len() as u32) == Some(wanted)
            }
            Call::EndOfBlock(addr, byte) => {
                has(bytes, addr, 512) && block_at(bytes, addr)[511] == byte
            }
            Call::Put(addr, put) if put.len() < 512 && has(bytes, addr, put.len() as u32) => {
                put_bytes(bytes, addr, put);
                true
            }
            Call::PutWord(addr, word) if addr % 2 == 0 && has(bytes, addr, 2) => {
                put_word(bytes, addr, word);
                true
            }
            Call::PutZeros(addr, count) if has(bytes, addr, count) => {
                put_zeros(bytes, addr, count);
                true
            }
            Call::IsMemory(count, wanted) if count <= bytes.len() => {
                is_memory(&bytes[..count]) == wanted
            }
            Call::Len(wanted) => is_memory(bytes) && len(bytes) == wanted,
            _ => false,
        }
    }
}

/// Slices by their lengths and the byte that they are filled with, each with the calls of it.
static SLICES: [(usize, u8, &[Call]); 3] = [
    // the last byte of an odd length is in no word
    (
        7,
        0xff,
        &[
            Call::Word(0, true),
            Call::Word(3, false),
            Call::Word(4, true),
            Call::Word(5, false),
            Call::Word(6, false),
            Call::Word(8, false),
            Call::Word(u32::MAX, false),
            Call::Bytes(0, &[0x34, 0x12, 0xff, 0xff, 0x34, 0x12, 0xff]),
            Call::Has(6, 1, true),
            Call::Has(6, 2, false),
            Call::Has(7, 0, true),
        ],
    ),
    // addresses have 22 bits
    (
        4_194_304,
        0,
        &[
            Call::Word(0x4_0000, true),
            Call::Word(0x3f_fffe, true),
            Call::Word(0x40_0000, false),
            Call::Bytes(0, &[0; 5]),
            Call::Put(0x3f_fffb, &[1, 2, 3, 0x34]),
            Call::Bytes(0x3f_fffb, &[1, 2, 3, 0x34, 0x12]),
            Call::PutZeros(0x3f_fffc, 2),
            Call::Bytes(0x3f_fffb, &[1, 0, 0, 0x34, 0x12]),
            Call::EndOfBlock(0x3f_fe00, 0x12),
        ],
    ),
    // a memory has an even length, and 22 bits of addresses
    (
        4_194_306,
        0,
        &[
            Call::IsMemory(0, true),
            Call::IsMemory(1, false),
            Call::IsMemory(2, true),
            Call::IsMemory(65_535, false),
            Call::IsMemory(65_536, true),
            Call::IsMemory(4_194_302, true),
            Call::IsMemory(4_194_303, false),
            Call::IsMemory(4_194_304, true),
            Call::IsMemory(4_194_305, false),
            Call::IsMemory(4_194_306, false),
        ],
    ),
];

/// The calls of the bytes of a host memory of 8 bytes.
const LENT: [Call; 3] = [
    Call::Len(8),
    Call::Has(4, 2, true),
    Call::PutWord(4, 0x5678),
];

/// Makes these calls of a slice, and returns the index of the first with a wrong answer.
fn first_wrong(bytes: &mut [u8], calls: &[Call]) -> Option<usize> {
    for (n, call) in calls.iter().enumerate() {
        if !call.is_answered(bytes) {
            return Some(n);
        }
    }
    None
}

#[test]
fn slices(rt: HostRuntime) -> Result<(), Fail> {
    for &(length, byte, calls) in &SLICES {
        let mut bytes = Vec::from_elem(rt.alloc(), byte, length)?;
        let wrong = first_wrong(&mut bytes, calls);
        assert!(rt;
            wrong.is_none(),
            "{length} bytes: call {}",
            wrong.unwrap_or(0)
        );
    }
    assert!(rt; SLICE_LIMIT == 4_194_304);
    Ok(())
}

#[test]
fn slices_of_a_memory(rt: HostRuntime) -> Result<(), Fail> {
    let mut memory = HostMemory::new(rt.alloc(), 8)?;
    assert!(rt; first_wrong(memory.as_mut_slice(), &LENT).is_none());
    assert!(rt; memory.as_slice() == [0, 0, 0, 0, 0x78, 0x56, 0, 0].as_slice());
    Ok(())
}
