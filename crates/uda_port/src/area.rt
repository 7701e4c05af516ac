//! The communication area, which the first three words of initialization describe.
//!
//! UDA50 Programmer's Documentation Kit: initialization, communication area.
ghost use Rattle.std.specs.Prelude.{◌≡◌, ◌+◌, ◌*◌, ◌≤◌, ◌%◌, ◌^◌, ◌<◌, ◌⊎◌, IsTrue, false, length};
ghost use Rattle.uda_port.specs.declared.profile.Profile.TheVariants.{Strict};
ghost use Rattle.uda_port.specs.Ring.{is_ring_length};
ghost use Rattle.uda_port.specs.Startup.{area_of, IsArea, has_area, memory_with_area, rings_size, ring_base};
ghost use Rattle.uda_port.specs.Startup.{response_count, command_count, high_addresses, refuses_third};
ghost use Rattle.uda_port.specs.StartupUse.{area_range};
ghost use Rattle.uda_port.specs.Possible.{addresses_by};

use crate::profile::Profile;
use crate::ring::Ring;
use uda_mem::ByteRange;
use uda_packet::Bus;

/// The position and size of a host's rings, with the bytes below them that belong to the area.
#[derive(Clone, Copy, Debug, PartialEq, Eq)]
pub(crate) struct Area {
    /// The ring base. The response ring begins here, and the command ring follows it.
    pub(crate) base: u32,
    /// The number of bytes below the ring base that belong to the area: 4 or 8.
    pub(crate) below: u32,
    /// The number of descriptors of the response ring.
    pub(crate) responses: u16,
    /// The number of descriptors of the command ring.
    pub(crate) commands: u16,
}

/// The bit of the second word that asks for purge interrupts.
const PURGE_MASK: u16 = 0x0001;

impl Area {
    /// Returns the area that the first three words describe. In the strict profile the whole third word is
    /// the high part of the ring base.
    pub(crate) fn of_words(profile: Profile, first: u16, second: u16, third: u16) -> Area
        requires high { profile ≡ Strict → third < 2 ^ 15 }
        ensures area { result ≡ area_of profile first second third }
        ensures valid { IsArea result }
        ensures below { 4 ≤ result.below }
        ensures base { refuses_third profile third ≡ false → result.base < addresses_by profile }
    {
        let responses = response_count(first);
        let commands = command_count(first);
        match profile {
            Profile::Strict => Area {
                base: ring_base(second, third),
                below: 4,
                responses,
                commands,
            },
            Profile::Compatible(identity) => Area {
                base: ring_base(second, base_high(identity.bus, third)),
                below: if second & PURGE_MASK == 0 { 4 } else { 8 },
                responses,
                commands,
            },
        }
    }

    /// Returns whether the whole area is in memory.
    pub(crate) fn is_in(&self, memory: &[u8]) -> bool
        requires valid { IsArea self.now }
        ensures area { result ≡ has_area self.now (length memory.now) }
        ensures above { IsTrue result → self.now.below ≤ self.now.base }
        ensures within { IsTrue result → self.now.base + rings_size self.now ≤ length memory.now }
    {
        self.base >= self.below && (self.base + self.size()) as usize <= memory.len()
    }

    /// Returns the range of the area, which is in memory.
    pub(crate) fn range(&self) -> ByteRange
        requires valid { IsArea self.now }
        requires above { self.now.below ≤ self.now.base }
        ensures range { result ≡ area_range self.now }
    {
        ByteRange {
            at: self.base - self.below,
            bytes: self.below + self.size(),
        }
    }

    /// Zeroes the area: the bytes below the ring base that belong to it, and both rings.
    pub(crate) fn zero(&self, memory: &mut [u8])
        requires valid { IsArea self.now }
        requires above { self.now.below ≤ self.now.base }
        requires within { self.now.base + rings_size self.now ≤ length memory.old }
        ensures { memory.new ≡ memory_with_area self.now memory.old }
    {
        uda_mem::put_zeros(memory, self.base - self.below, self.below + self.size());
    }

    /// Returns the response ring, which begins at the ring base.
    pub(crate) fn response_ring(&self) -> Ring
        requires valid { IsArea self.now }
        ensures ring { result ≡ record { base = self.now.base; count = self.now.responses; place = 0 } }
    {
        Ring::placed(self.base, self.responses)
    }

    /// Returns the command ring, which follows the response ring.
    pub(crate) fn command_ring(&self) -> Ring
        requires valid { IsArea self.now }
        ensures ring { result ≡ record {
          base = self.now.base + 4 * self.now.responses;
          count = self.now.commands;
          place = 0;
        } }
    {
        let following = self.base + 4 * u32::from(self.responses);
        Ring::placed(following, self.commands)
    }

    // Returns the number of bytes of both rings.
    fn size(&self) -> u32
        requires valid { IsArea self.now }
        ensures size { result ≡ rings_size self.now }
        ensures within { result ≤ 1024 }
    {
        4 * (u32::from(self.responses) + u32::from(self.commands))
    }
}

// Returns the high part of a ring base in the compatible profile. It has as many bits of the third word as an
// address of the bus has above bit 15.
fn base_high(bus: Bus, third: u16) -> u16
    ensures bits { result ≡ third % high_addresses bus }
    ensures small { result < 64 }
{
    match bus {
        Bus::Unibus => third % 4,
        Bus::Qbus => third % 64,
    }
}

// Returns the number of descriptors of a ring with this exponent.
fn ring_count(exponent: u16) -> u16
    requires { exponent < 8 }
    ensures count { result ≡ 2 ^ exponent }
    ensures length { IsTrue (is_ring_length result) }
    ensures within { result ≤ 128 }
{
    match exponent {
        0 => 1,
        1 => 2,
        2 => 4,
        3 => 8,
        4 => 16,
        5 => 32,
        6 => 64,
        _ => 128,
    }
}

// Returns the number of descriptors of the response ring, from bits 10-8 of the first word.
fn response_count(first: u16) -> u16
    ensures count { result ≡ response_count first }
    ensures length { IsTrue (is_ring_length result) }
    ensures within { result ≤ 128 }
{
    ring_count(first >> 8 & 7)
}

// Returns the number of descriptors of the command ring, from bits 13-11 of the first word.
fn command_count(first: u16) -> u16
    ensures count { result ≡ command_count first }
    ensures length { IsTrue (is_ring_length result) }
    ensures within { result ≤ 128 }
{
    ring_count(first >> 11 & 7)
}

// Returns the ring base: bits 15-1 of the second word, with the third word above them.
fn ring_base(second: u16, third: u16) -> u32
    requires high { third < 2 ^ 15 }
    ensures base { result ≡ ring_base second third }
    ensures even { result % 2 ≡ 0 }
    ensures within { result < 2 ^ 31 }
{
    u32::from(third) << 16 | u32::from(second & !1)
}
