//! What a turn reads and writes of host memory.
//!
//! UDA50 Programmer's Documentation Kit: command ring polling, message envelopes, UNIBUS addresses.
ghost use Rattle.std.specs.Prelude.{◌≡◌, ◌≤◌, ◌<◌, ◌+◌, ℕ, List, All, length, true};
ghost use Rattle.uda_mem.specs.Slices.{IsMemory};
ghost use Rattle.uda_mem.specs.Ranges.{LiesIn};
ghost use Rattle.uda_exec.specs.Disks.{PENDING_LIMIT};
ghost use Rattle.uda_port.specs.Fetch.{IsNext};
ghost use Rattle.uda_port.specs.Interrupt.{ring_before};
ghost use Rattle.uda_port.specs.Packet.{text_address};
ghost use Rattle.uda_port.specs.Ring.{descriptor_address};
ghost use Rattle.uda_port.specs.MemoryUse.{IsPlace, IsBody, descriptor_ranges, packet_range, indicator_range, returned_range};
ghost use Rattle.uda_port.specs.MemoryUse.{fetch_use, command_use, delivery_use};
ghost use Rattle.uda_port.specs.MemoryUse.{looked_at, looked_up, use_by, use_of, AgreesInDescriptors};
ghost use Rattle.uda_port.specs.Plan.{IsPlan};

use crate::descriptor::Descriptor;
use crate::packet::{TEXT, has_room, has_text};
use crate::plan::Plan;
use crate::port::Port;
use crate::ring::Ring;
use uda_exec::BufferUse;
use uda_image::BlockStore;
use uda_mem::ByteRange;

/// The packet or the buffer that the next turn uses.
#[derive(Clone, Copy, Debug, PartialEq, Eq)]
pub struct Body {
    /// Its bytes. The turn reads or writes them, or part of them. Of a transfer of 0 bytes it
    /// is one byte: the turn doesn't read it, but its address must lead somewhere.
    pub range: ByteRange,
    /// Whether the turn reads it. If it doesn't, as the buffer of a Read, only its addresses matter.
    pub is_read: bool,
}

/// Which of the addresses that a turn uses lead nowhere.
#[derive(Clone, Copy, Debug, PartialEq, Eq)]
pub struct Missing {
    /// Those of the next command descriptor.
    pub commands: bool,
    /// Those of the next response descriptor.
    pub responses: bool,
    /// Those of the body ([`Port::body`]).
    pub body: bool,
}

pub(crate) const NONE_WRITTEN: [ByteRange; 4] = [
    ByteRange::EMPTY,
    ByteRange::EMPTY,
    ByteRange::EMPTY,
    ByteRange::EMPTY,
];

/// The body of a turn that uses only descriptors.
const NO_BODY: Body = Body {
    range: ByteRange::EMPTY,
    is_read: false,
};

impl<S: BlockStore> Port<S> {
    /// Returns the index of the pending command that a turn of this plan executes, if it executes one. It is for
    /// [`body`](Port::body) and [`turn_at`](Port::turn_at), and remains valid until something else is done with the
    /// port.
    pub fn next_place(&self, plan: Plan) -> usize
        ensures place { IsPlace self.now.exec.pending result }
        ensures within { result < PENDING_LIMIT }
    {
        match plan {
            Plan::ToExecute => self.exec.next().unwrap_or(0),
            _ => 0,
        }
    }

    /// Returns the ranges of the next command descriptor, the one before it, the next response descriptor, and
    /// the one before that. Those of a ring at which the next turn doesn't look are empty. Of memory only the length
    /// matters.
    pub fn descriptor_ranges(&self, memory: &[u8]) -> [ByteRange; 4]
        requires memory { IsMemory memory.now }
        ensures ranges { result ≡ descriptor_ranges self.now memory.now }
        ensures within { All (LiesIn memory.now) result }
    {
        let commands = self.looks_at_commands();
        let responses = self.looks_at_responses();
        [
            self.commands.next_range(commands, memory),
            self.commands.range_before(commands, memory),
            self.responses.next_range(responses, memory),
            self.responses.range_before(responses, memory),
        ]
    }

    /// Returns the packet or the buffer that a turn of this plan uses. If the turn executes a command, that is the pending
    /// command at index `place`. Of memory only the descriptors matter.
    pub fn body(&self, plan: Plan, memory: &[u8], place: usize) -> Body
        requires memory { IsMemory memory.now }
        requires planned { IsPlan self.now memory.now plan }
        ensures body { IsBody result (use_of self.now memory.now place) }
        ensures by_descriptors { (other : List ℕ) → AgreesInDescriptors self.now memory.now other
            → IsBody result (use_of self.now other place) }
        ensures within { LiesIn memory.now result.range }
    {
        self.body_by(plan, memory, place)
    }

    // Returns the same, by the plan.
    fn body_by(&self, plan: Plan, memory: &[u8], place: usize) -> Body
        requires memory { IsMemory memory.now }
        ensures body { IsBody result (use_by self.now memory.now place plan) }
        ensures within { LiesIn memory.now result.range }
    {
        match plan {
            Plan::ToFetch(next) => self.packet_at(memory, next, TEXT),
            Plan::ToExecute => command_body(memory, self.exec.buffer_use_at(place)),
            Plan::ToDeliver(next, size) => self.packet_at(memory, next, size),
            Plan::AtRest | Plan::NoCommandRing | Plan::NoMessage => NO_BODY,
            Plan::ToWait | Plan::NoResponseRing => NO_BODY,
        }
    }

    // Returns the packet of a descriptor with a text of `size` bytes, which is read.
    fn packet_at(&self, memory: &[u8], next: Descriptor, size: u16) -> Body
        requires memory { IsMemory memory.now }
        ensures range { result.range ≡ packet_range memory.now (text_address self.now.profile next) size }
        ensures read { result.is_read ≡ true }
        ensures within { LiesIn memory.now result.range }
    {
        Body {
            range: packet_range(memory, next.text_address(self.profile), size),
            is_read: true,
        }
    }

    // Returns what a turn of this plan may write of memory.
    #[tactic(auto, using(crate::proofs::MemoryUseLaws::none_lies))]
    pub(crate) fn written_by(&self, plan: Plan, memory: &[u8], place: usize) -> [ByteRange; 4]
        requires memory { IsMemory memory.now }
        requires planned { IsPlan self.now memory.now plan }
        ensures written { result ≡ (use_by self.now memory.now place plan).written }
        ensures within { All (LiesIn memory.now) result }
    {
        match plan {
            Plan::ToFetch(next) => self.written_by_fetch(memory, next),
            Plan::ToExecute => command_written(memory, self.exec.buffer_use_at(place)),
            Plan::ToDeliver(next, size) => self.written_by_delivery(memory, next, size),
            Plan::AtRest | Plan::NoCommandRing | Plan::NoMessage => NONE_WRITTEN,
            Plan::ToWait | Plan::NoResponseRing => NONE_WRITTEN,
        }
    }

    // Returns what the fetch of a packet writes: nothing if the packet isn't readable.
    fn written_by_fetch(&self, memory: &[u8], next: Descriptor) -> [ByteRange; 4]
        requires memory { IsMemory memory.now }
        requires next { IsNext self.now.commands memory.now next }
        requires there { descriptor_address self.now.commands + 4 ≤ length memory.now }
        ensures written { result ≡ (fetch_use self.now memory.now (text_address self.now.profile next)).written }
        ensures within { All (LiesIn memory.now) result }
    {
        if has_text(memory, next.text_address(self.profile), TEXT) {
            [
                indicator_range(self.command_indicator(memory, next)),
                self.commands.returned_range(),
                ByteRange::EMPTY,
                ByteRange::EMPTY,
            ]
        } else {
            NONE_WRITTEN
        }
    }

    // Returns what the delivery of a message of `size` bytes writes: nothing if there is no room for it.
    fn written_by_delivery(&self, memory: &[u8], next: Descriptor, size: u16) -> [ByteRange; 4]
        requires memory { IsMemory memory.now }
        requires next { IsNext self.now.responses memory.now next }
        requires there { descriptor_address self.now.responses + 4 ≤ length memory.now }
        requires short { size ≤ 48 }
        ensures written { result ≡ (delivery_use self.now memory.now
            (record { at = text_address self.now.profile next; bytes = size })).written }
        ensures within { All (LiesIn memory.now) result }
    {
        let at = next.text_address(self.profile);
        if has_room(self.profile, memory, at, size) {
            let text = ByteRange {
                at,
                bytes: u32::from(size),
            };
            let envelope = ByteRange {
                at: at - 4,
                bytes: 4,
            };
            let indicator = indicator_range(self.response_indicator(memory, next));
            [text, envelope, indicator, self.responses.returned_range()]
        } else {
            NONE_WRITTEN
        }
    }
}

impl Ring {
    // Returns the range of the next descriptor, if the turn looks at it.
    fn next_range(&self, looks: bool, memory: &[u8]) -> ByteRange
        requires memory { IsMemory memory.now }
        ensures range { result ≡ looked_at looks memory.now self.now }
        ensures within { LiesIn memory.now result }
    {
        if looks {
            ByteRange::clipped(self.address(), 4, memory)
        } else {
            ByteRange::EMPTY
        }
    }

    // Returns the range of the descriptor before it, if the turn looks at it.
    fn range_before(&self, looks: bool, memory: &[u8]) -> ByteRange
        requires memory { IsMemory memory.now }
        ensures range { result ≡ looked_at looks memory.now (ring_before self.now) }
        ensures within { LiesIn memory.now result }
    {
        if looks {
            ByteRange::clipped(self.address_before(), 4, memory)
        } else {
            ByteRange::EMPTY
        }
    }

    // Returns the range of the second word of the next descriptor.
    fn returned_range(&self) -> ByteRange
        ensures range { result ≡ returned_range self.now }
    {
        ByteRange {
            at: self.address() + 2,
            bytes: 2,
        }
    }
}

// Returns the body of a turn that executes a command with this buffer.
fn command_body(memory: &[u8], buffer: Option<BufferUse>) -> Body
    requires memory { IsMemory memory.now }
    ensures body { IsBody result (command_use memory.now buffer) }
    ensures within { LiesIn memory.now result.range }
{
    match buffer {
        Some(buffer) => Body {
            range: ByteRange::clipped(buffer.start, looked_up(buffer), memory),
            is_read: buffer.changed == 0,
        },
        None => NO_BODY,
    }
}

// Returns what a turn may write that executes a command with this buffer.
fn command_written(memory: &[u8], buffer: Option<BufferUse>) -> [ByteRange; 4]
    requires memory { IsMemory memory.now }
    ensures written { result ≡ (command_use memory.now buffer).written }
    ensures within { All (LiesIn memory.now) result }
{
    let mut written = NONE_WRITTEN;
    if let Some(buffer) = buffer {
        written[0] = ByteRange::clipped(buffer.start, buffer.changed, memory);
    }
    written
}

// Returns the number of bytes that a command looks up at its buffer's address.
fn looked_up(buffer: BufferUse) -> u32
    ensures { result ≡ looked_up buffer }
{
    buffer.used.max(buffer.start.min(1))
}

// Returns the range of a packet with a text of `size` bytes at an address.
fn packet_range(memory: &[u8], at: u32, size: u16) -> ByteRange
    requires memory { IsMemory memory.now }
    ensures range { result ≡ packet_range memory.now at size }
    ensures within { LiesIn memory.now result }
{
    ByteRange::clipped(at.saturating_sub(4), u32::from(size) + 4, memory)
}

// Returns the range of an interrupt indicator that is set, if any.
fn indicator_range(indicator: Option<u32>) -> ByteRange
    ensures { result ≡ indicator_range indicator }
{
    match indicator {
        None => ByteRange::EMPTY,
        Some(at) => ByteRange { at, bytes: 2 },
    }
}
