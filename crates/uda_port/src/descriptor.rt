//! Ring descriptors.
//!
//! UDA50 Programmer's Documentation Kit: ring descriptors.
ghost use Rattle.std.specs.Prelude.{◌≡◌};

use crate::profile::Profile;
use uda_mem::HostMemory;

/// The two words of a ring descriptor. Descriptors of the command ring and of the response ring have the same
/// form. Every pair of words is a descriptor.
///
/// UDA50 Programmer's Documentation Kit: ring descriptors.
#[derive(Clone, Copy, Debug, PartialEq, Eq)]
pub struct Descriptor {
    /// The first word: bits 15-0 of the address of the message text.
    pub low: u16,
    /// The second word: the owner bit in bit 15, the flag bit in bit 14, and the high part of the address in
    /// bits 13-0.
    pub high: u16,
}

/// The owner bit, bit 15 of the second word. It is set while the port owns the descriptor.
const OWN: u16 = 0x8000;

/// The number of the flag bit in the second word. A host sets the flag to ask for an interrupt at a ring
/// transition. The port sets it when it returns the descriptor.
const FLAG_BIT: u16 = 14;

/// The flag bit as a mask.
const FLAG: u16 = 0x4000;

/// Bits 13-0 of the second word: the high part of the address.
const ADDRESS_HIGH: u16 = 0x3fff;

impl Descriptor {
    ghost use Rattle.std.specs.Prelude.{◌≡◌, ◌+◌, ◌%◌, ◌^◌, ◌<◌, ◌≤◌, OnSome, length};
    ghost use Rattle.uda_mem.specs.Slices.{IsMemory};
    ghost use Rattle.uda_port.specs.Ring.{descriptor_at, is_owned, address_of, returned_word};
    ghost use Rattle.uda_port.specs.Interrupt.{is_flagged};
    ghost use Rattle.uda_port.specs.Packet.{text_address};

    /// Returns the descriptor at the address `at`, or None if its four bytes aren't all in memory.
    ///
    /// `at` is even. The test computes `at + 4` without a wrap at 2^32, so every even address is allowed.
    pub fn read(memory: &HostMemory, at: u32) -> Option<Descriptor>
        requires even { at % 2 ≡ 0 }
        ensures descriptor { result ≡ descriptor_at memory.now at }
        ensures addressable { OnSome result (at + 4 < 2 ^ 32) }
        ensures there { OnSome result (at + 4 ≤ length memory.now) }
    {
        Descriptor::read_in(memory.as_slice(), at)
    }

    /// Does the same in a slice: [`read`](Descriptor::read) over borrowed bytes.
    pub fn read_in(memory: &[u8], at: u32) -> Option<Descriptor>
        requires memory { IsMemory memory.now }
        requires even { at % 2 ≡ 0 }
        ensures descriptor { result ≡ descriptor_at memory.now at }
        ensures addressable { OnSome result (at + 4 < 2 ^ 32) }
        ensures there { OnSome result (at + 4 ≤ length memory.now) }
    {
        if u64::from(at) + 4 > u64::from(uda_mem::len(memory)) {
            return None;
        }
        Some(Descriptor {
            low: uda_mem::word_at(memory, at),
            high: uda_mem::word_at(memory, at + 2),
        })
    }

    /// Returns whether the port owns the descriptor: bit 15 of the second word is set. The flag bit doesn't
    /// matter.
    pub fn is_owned(self) -> bool
        ensures owned { result ≡ is_owned self }
    {
        self.high & OWN != 0
    }

    /// Returns whether the host asks for an interrupt at a ring transition: bit 14 of the second word is set.
    pub fn is_flagged(self) -> bool
        ensures flagged { result ≡ is_flagged self }
    {
        self.high >> FLAG_BIT & 1 != 0
    }

    /// Returns the address of the message text, below 2^30. An address of more than 18 bits is in no
    /// [`HostMemory`], but it may be in a slice.
    pub fn address(self) -> u32
        ensures address { result ≡ address_of self }
    {
        u32::from(self.high & ADDRESS_HIGH) << 16 | u32::from(self.low)
    }

    /// Returns the address of the message text in the given profile. The compatible profile drops bit 0 and
    /// the bits that the bus doesn't have.
    pub(crate) fn text_address(self, profile: Profile) -> u32
        ensures { result ≡ text_address profile self }
    {
        match profile {
            Profile::Strict => self.address(),
            Profile::Compatible(identity) => identity.bus_address(self.address()) / 2 * 2,
        }
    }

    /// Returns the second word as the port writes it to return the descriptor to the host. The owner bit is
    /// clear, the flag bit is set, and the address bits are unchanged.
    pub fn returned_word(self) -> u16
        ensures second_word { result ≡ returned_word self.high }
    {
        (self.high & ADDRESS_HIGH) | FLAG
    }
}
