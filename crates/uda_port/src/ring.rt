//! Rings of descriptors in host memory. The port fetches packets from a command ring and puts packets into a
//! response ring. Each access uses the descriptor at the ring's next index, and then advances the index by
//! one.
//!
//! UDA50 Programmer's Documentation Kit: communication area, command and response rings.
ghost use Rattle.std.specs.Prelude.{◌≡◌, ◌≤◌, IsTrue, length};
ghost use Rattle.uda_port.specs.Ring.{is_ring_length};
ghost use Rattle.uda_port.specs.Interrupt.{IsBelow, memory_with_indicator};

use crate::descriptor::Descriptor;
use crate::packet::{Delivery, Fetched, Fetching, has_room, packet_at, put_packet};
use crate::profile::Profile;
use std::error::Error;
use std::fmt;
use std::marker::Model;
use uda_mem::HostMemory;

/// The largest base that [`Ring::new`] accepts: the last even address of 18 bits. A strict ring base has 18
/// bits.
///
/// UDA50 Programmer's Documentation Kit: communication area.
pub const RING_BASE_LIMIT: u32 = 262_142;

/// Why no packet could be fetched or delivered: the next descriptor, or the packet it points to, isn't
/// usable.
///
/// UDA50 Programmer's Documentation Kit: command ring, response ring.
#[derive(Clone, Copy, Debug, PartialEq, Eq)]
pub enum RingFault {
    /// The next descriptor isn't wholly in memory: fewer than four bytes follow from its address on.
    Ring,
    /// The port owns the next descriptor, but its packet isn't usable. The text's address is odd, or is below
    /// 4 and leaves no room for the envelope, or the text isn't wholly in memory. A strict port also reports
    /// it for a response buffer whose length word is under 48.
    Packet,
}

impl fmt::Display for RingFault {
    fn fmt<W: fmt::Write>(&self, f: &mut fmt::Formatter<W>) -> fmt::Result {
        f.write_str(match self {
            RingFault::Ring => "the descriptor isn't in memory",
            RingFault::Packet => "the packet isn't in memory",
        })
    }
}

impl Error for RingFault {}

/// The port's state of a ring: its address in host memory, its number of descriptors, and the index of the
/// next one. The first descriptor follows the last.
///
/// The descriptors themselves are in host memory, which each call takes as an argument and may find changed.
///
/// UDA50 Programmer's Documentation Kit: communication area, command and response rings.
#[derive(Clone, Copy, Debug, PartialEq, Eq)]
pub struct Ring {
    base: u32,
    count: u16,
    place: u16,
}

/// The numbers of a ring, by which it can be saved and made again.
///
/// UDA50 Programmer's Documentation Kit: communication area.
#[derive(Clone, Copy, Debug, PartialEq, Eq)]
pub struct RingParts {
    /// The address of the first descriptor.
    pub base: u32,
    /// The number of descriptors.
    pub count: u16,
    /// The index of the next descriptor, counted from 0.
    pub place: u16,
}

/// The largest base of a ring that initialization describes: that of a command ring which follows 128
/// descriptors from the largest address of 31 bits on.
const LARGEST_BASE: u32 = 0x8000_0200;

/// The next descriptor of a ring.
#[derive(Clone, Copy)]
pub(crate) enum NextDescriptor {
    /// It isn't wholly in memory.
    OutsideMemory,
    /// The host owns it.
    OwnedByHost,
    /// The port owns it.
    OwnedByPort(Descriptor),
}

impl Model for Ring {
    ghost use Rattle.std.specs.Prelude.{◌≡◌, ◌+◌, ◌%◌, ◌^◌, ◌<◌, ◌≤◌, IsTrue};
    ghost use Rattle.uda_port.specs.Ring.{RingState, is_ring_length};

    ghost Value = { RingState };

    ghost view = { λ r. record { base = r.base; count = r.count; place = r.place } };

    // Bases of 31 bits are allowed, and a command ring follows up to 128 descriptors.
    ghost invariant = { λ r. (r.base % 2 ≡ 0) × (r.base ≤ 2 ^ 31 + 512) × (IsTrue (is_ring_length r.count))
        × (r.count ≤ 128) × (r.place < r.count) };

    ghost inverse = { λ r. record { base = r.base; count = r.count; place = r.place } };
}

impl Ring {
    ghost use Rattle.std.specs.Prelude.{◌≡◌, ◌+◌, ◌%◌, ◌^◌, ◌<◌, ◌≤◌, ◌↔◌, IsTrue, length, OnOk, IfSome, MatchOption, Some, None};
    ghost use Rattle.uda_mem.specs.Slices.{IsMemory};
    ghost use Rattle.uda_port.specs.Ring.{IsRingBase, is_ring_length, descriptor_address, ring_advanced};
    ghost use Rattle.uda_port.specs.Ring.{ring_of, parts_of};
    ghost use Rattle.uda_port.specs.Ring.{memory_returned, next_descriptor};
    ghost use Rattle.uda_port.specs.Interrupt.{is_ring_transition, ring_before, any_owned, word_below};
    ghost use Rattle.uda_port.specs.Fetch.{FetchEffect, ReadsNext, OrderKept, STRICT_FETCHING};
    ghost use Rattle.uda_port.specs.Fetch.{IsNext, Stays, Takes, TakesFirst, PacketUnreadable};
    ghost use Rattle.uda_port.specs.declared.descriptor.Descriptor.{Descriptor as DescriptorValue};
    ghost use Rattle.uda_port.specs.declared.ring.NextDescriptor.TheVariants.{OwnedByPort};
    ghost use Rattle.uda_port.specs.Delivery.{DeliveryEffect};
    ghost use Rattle.uda_port.specs.declared.profile.Profile.TheVariants.{Strict};

    /// Returns a ring of `n` descriptors from the address `base` on, with the first one next.
    ///
    /// `base` is even and at most [`RING_BASE_LIMIT`] ([`is_base`](Ring::is_base)), and `n` is 1, 2, 4, 8,
    /// 16, 32, 64 or 128. The ring may be outside memory: each access checks that.
    ///
    /// UDA50 Programmer's Documentation Kit: communication area.
    pub fn new(base: u32, n: u16) -> Ring
        requires base { IsRingBase base }
        requires count { IsTrue (is_ring_length n) }
        ensures ring { result ≡ record { base = base; count = n; place = 0 } }
    {
        Ring::placed(base, n)
    }

    /// Returns a ring of `n` descriptors from the even address `base` on, as initialization describes it.
    /// Bases of 31 bits are allowed, and a command ring follows up to 128 descriptors.
    pub(crate) fn placed(base: u32, n: u16) -> Ring
        requires even { base % 2 ≡ 0 }
        requires within { base ≤ 2 ^ 31 + 512 }
        requires count { IsTrue (is_ring_length n) }
        ensures ring { result ≡ record { base = base; count = n; place = 0 } }
    {
        Ring {
            base,
            count: n,
            place: 0,
        }
    }

    /// Returns the ring with these numbers, or None if there is no such ring: its base is odd or above
    /// 2^31 + 512, it doesn't have 1, 2, 4, .. 128 descriptors, or the next index isn't below their number.
    pub fn of_parts(parts: RingParts) -> Option<Ring>
        ensures ring { result ≡ ring_of parts }
    {
        let RingParts { base, count, place } = parts;
        if base % 2 != 0 {
            return None;
        }
        if base > LARGEST_BASE {
            return None;
        }
        if !is_length(count) {
            return None;
        }
        if place >= count {
            return None;
        }
        Some(Ring { base, count, place })
    }

    /// Returns the numbers of the ring. [`of_parts`](Ring::of_parts) makes it again from them.
    pub fn parts(self) -> RingParts
        ensures parts { result ≡ parts_of self }
        ensures back { ring_of result ≡ Some self }
    {
        RingParts {
            base: self.base,
            count: self.count,
            place: self.place,
        }
    }

    /// Returns whether [`Ring::new`] accepts the address `base`: it is even and at most [`RING_BASE_LIMIT`].
    pub fn is_base(base: u32) -> bool
        ensures base { IsTrue result ↔ IsRingBase base }
    {
        base % 2 == 0 && base <= RING_BASE_LIMIT
    }

    /// Returns the address of the first descriptor.
    pub fn base(self) -> u32
        ensures base { result ≡ self.base }
    {
        self.base
    }

    /// Returns the number of descriptors.
    pub fn count(self) -> u16
        ensures count { result ≡ self.count }
    {
        self.count
    }

    /// Returns the index of the next descriptor, counted from 0.
    pub fn place(self) -> u16
        ensures place { result ≡ self.place }
        ensures within { result < self.count }
    {
        self.place
    }

    /// Fetches the next command: reads the packet of the next descriptor, returns the descriptor to the host,
    /// and advances the index around the ring.
    ///
    /// Returns None if the host owns the descriptor, whatever follows it: commands are fetched in ring order,
    /// each once. Fails with [`RingFault::Ring`] if the descriptor isn't wholly in memory, and with
    /// [`RingFault::Packet`] if the port owns it and can't read its packet. After None or an error, ring and
    /// memory are unchanged. Otherwise only the second word of the descriptor changes
    /// ([`Descriptor::returned_word`]), and the result is the packet as it was before.
    ///
    /// UDA50 Programmer's Documentation Kit: command ring, message envelopes.
    #[tactic(auto, using(crate::proofs::Length::wholes))]
    pub fn fetch(&mut self, memory: &mut HostMemory) -> Result<Option<Fetched>, RingFault>
        ensures effect { FetchEffect STRICT_FETCHING self.old memory.old result self.new memory.new }
        ensures order { OrderKept self.old memory.old result self.new memory.new }
    {
        self.fetch_in(memory.as_mut_slice())
    }

    /// Does the same over a slice: [`fetch`](Ring::fetch) from borrowed memory.
    pub fn fetch_in(&mut self, memory: &mut [u8]) -> Result<Option<Fetched>, RingFault>
        requires memory { IsMemory memory.old }
        ensures effect { FetchEffect STRICT_FETCHING self.old memory.old result self.new memory.new }
        ensures order { OrderKept self.old memory.old result self.new memory.new }
    {
        let descriptor = match self.next(memory) {
            NextDescriptor::OwnedByPort(descriptor) => descriptor,
            NextDescriptor::OwnedByHost => return Ok(None),
            NextDescriptor::OutsideMemory => return Err(RingFault::Ring),
        };
        let fetching = Fetching {
            profile: Profile::Strict,
            indicator: None,
        };
        match self.take(memory, descriptor, fetching) {
            Some(packet) => Ok(Some(packet)),
            None => Err(RingFault::Packet),
        }
    }

    /// Fetches the packet of the next descriptor, which the port owns, in either profile. Sets the interrupt
    /// indicator if there is one to set, returns the descriptor to the host, and advances the index around the
    /// ring. Returns None if the packet isn't readable, and then nothing changes.
    pub(crate) fn take(
        &mut self,
        memory: &mut [u8],
        descriptor: Descriptor,
        fetching: Fetching,
    ) -> Option<Fetched>
        requires memory { IsMemory memory.old }
        requires next { IsNext self.old memory.old descriptor }
        requires there { descriptor_address self.old + 4 ≤ length memory.old }
        requires place { self.old.place < self.old.count }
        requires below { IsBelow fetching.indicator self.old.base }
        ensures effect { MatchOption result
            (PacketUnreadable fetching.profile self.old memory.old × Stays self.old memory.old self.new memory.new)
            (λ packet. Takes fetching self.old memory.old packet self.new memory.new) }
        ensures order { IfSome result (λ packet. TakesFirst self.old memory.old self.new memory.new) }
        ensures base { self.new.base ≡ self.old.base }
        ensures count { self.new.count ≡ self.old.count }
    {
        let fetched = packet_at(memory, descriptor.text_address(fetching.profile))?;
        set_indicator(memory, fetching.indicator);
        self.give_back(memory, descriptor);
        Some(fetched)
    }

    /// Delivers a text with an envelope to the buffer of the next descriptor, which the port owns. Returns the
    /// descriptor to the host, and advances the index around the ring. The envelope grants `delivery.credits`
    /// credits.
    ///
    /// The writes come in this order: text, envelope, the interrupt indicator if there is one to set, and the
    /// second word of the descriptor. Returns false if the text doesn't fit its buffer, and then nothing
    /// changes.
    ///
    /// UDA50 Programmer's Documentation Kit: response ring, message envelopes.
    // Inlined, it copies a strict port's texts with a fixed length.
    #[inline(always)]
    pub(crate) fn put(
        &mut self,
        memory: &mut [u8],
        descriptor: Descriptor,
        delivery: Delivery,
        text: &[u8],
    ) -> bool
        requires memory { IsMemory memory.old }
        requires next { IsNext self.old memory.old descriptor }
        requires there { descriptor_address self.old + 4 ≤ length memory.old }
        requires few { delivery.credits ≤ 15 }
        requires below { IsBelow delivery.indicator self.old.base }
        requires long { delivery.profile ≡ Strict → length text.now ≡ 48 }
        requires short { length text.now ≤ 48 }
        ensures effect { DeliveryEffect delivery self.old memory.old text.now result self.new memory.new }
        ensures base { self.new.base ≡ self.old.base }
        ensures count { self.new.count ≡ self.old.count }
    {
        let address = descriptor.text_address(delivery.profile);
        if !has_room(delivery.profile, memory, address, text.len() as u16) {
            return false;
        }
        put_packet(memory, address, delivery.credits, text);
        set_indicator(memory, delivery.indicator);
        self.give_back(memory, descriptor);
        true
    }

    /// Returns whether the return of the next descriptor is a ring transition that the host asks about. The
    /// flag bit of the descriptor is set, and the port owns the descriptor before it around the ring.
    #[inline(always)]
    pub(crate) fn is_ring_transition(&self, memory: &[u8], descriptor: Descriptor) -> bool
        requires memory { IsMemory memory.now }
        requires next { next_descriptor memory.now self.now ≡ Some descriptor }
        ensures is_ring_transition { result ≡ is_ring_transition memory.now self.now }
    {
        descriptor.is_flagged() && self.owns_before(memory)
    }

    // Returns whether the port owns the descriptor before the next one. Few hosts set the flag, so the function
    // isn't inlined.
    #[cold]
    #[inline(never)]
    fn owns_before(&self, memory: &[u8]) -> bool
        requires memory { IsMemory memory.now }
        ensures owns { result ≡ any_owned (next_descriptor memory.now (ring_before self.now)) }
    {
        match Descriptor::read_in(memory, self.address_before()) {
            Some(descriptor) => descriptor.is_owned(),
            None => false,
        }
    }

    /// Returns the address of the descriptor before the next one.
    pub(crate) fn address_before(&self) -> u32
        ensures address { result ≡ descriptor_address (ring_before self.now) }
        ensures even { result % 2 ≡ 0 }
    {
        let before = (self.place + (self.count - 1)) % self.count;
        self.base + 4 * u32::from(before)
    }

    /// Returns the address that is `bytes` bytes below the ring base, or None if the base is smaller.
    pub(crate) fn word_below(&self, bytes: u32) -> Option<u32>
        requires even { bytes % 2 ≡ 0 }
        requires some { 2 ≤ bytes }
        ensures word { result ≡ word_below self.now.base bytes }
        ensures below { IsBelow result self.now.base }
    {
        if bytes <= self.base {
            Some(self.base - bytes)
        } else {
            None
        }
    }

    /// Reads the next descriptor.
    pub(crate) fn next(&self, memory: &[u8]) -> NextDescriptor
        requires memory { IsMemory memory.now }
        ensures next { ReadsNext self.now memory.now result }
        ensures there { (next : DescriptorValue) → result ≡ OwnedByPort next
            → descriptor_address self.now + 4 ≤ length memory.now }
        ensures place { self.now.place < self.now.count }
    {
        match Descriptor::read_in(memory, self.address()) {
            None => NextDescriptor::OutsideMemory,
            Some(descriptor) if descriptor.is_owned() => NextDescriptor::OwnedByPort(descriptor),
            Some(_) => NextDescriptor::OwnedByHost,
        }
    }

    // Returns the next descriptor to the host, and advances the index.
    #[inline(always)]
    fn give_back(&mut self, memory: &mut [u8], descriptor: Descriptor)
        requires there { descriptor_address self.old + 4 ≤ length memory.old }
        ensures ring { self.new ≡ ring_advanced self.old }
        ensures memory { memory.new ≡ memory_returned memory.old self.old descriptor }
    {
        let at = self.address();
        uda_mem::put_word(memory, at + 2, descriptor.returned_word());
        self.place = self.place_behind();
    }

    // Returns the index after the next one, around the ring. It compares, since a division takes longer.
    fn place_behind(&self) -> u16
        ensures place { result ≡ (self.now.place + 1) % self.now.count }
        ensures within { result < self.now.count }
    {
        let next = self.place + 1;
        if next < self.count { next } else { 0 }
    }

    /// Returns the address of the next descriptor.
    pub(crate) fn address(&self) -> u32
        ensures address { result ≡ descriptor_address self.now }
        ensures even { result % 2 ≡ 0 }
        ensures within { result + 4 < 2 ^ 32 }
        ensures place { self.now.place < self.now.count }
    {
        self.base + 4 * u32::from(self.place)
    }
}

// Returns whether a ring has as many descriptors: 1, 2, 4, .. 128.
fn is_length(count: u16) -> bool
    ensures length { result ≡ is_ring_length count }
    ensures few { IsTrue result → count ≤ 128 }
{
    matches!(count, 1 | 2 | 4 | 8 | 16 | 32 | 64 | 128)
}

// Sets the interrupt indicator at this address to 1.
fn set_indicator(memory: &mut [u8], indicator: Option<u32>)
    requires there { IsBelow indicator (length memory.old) }
    ensures indicator { memory.new ≡ memory_with_indicator memory.old indicator }
    ensures length { length memory.new ≡ length memory.old }
{
    if let Some(at) = indicator {
        uda_mem::put_word(memory, at, 1);
    }
}
