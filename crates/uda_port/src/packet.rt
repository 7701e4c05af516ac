//! Packets in host memory: a text of 48 bytes, and its envelope in the four bytes below.
//!
//! UDA50 Programmer's Documentation Kit: message envelopes.
ghost use Rattle.std.specs.Prelude.{◌≡◌, ◌≤◌, ◌↔◌, IsTrue, IsSome, IfSome, length};
ghost use Rattle.uda_port.specs.Packet.{HasPacket, HasText, IsPacketAt, DeclaresRoom, HasRoom};
ghost use Rattle.uda_port.specs.Packet.{packet_put};

use crate::profile::Profile;
use uda_packet::Envelope;

/// The number of bytes of a text.
pub(crate) const TEXT: u16 = 48;

/// The settings of a fetch.
#[derive(Clone, Copy, Debug, PartialEq, Eq)]
pub(crate) struct Fetching {
    /// The profile, which decides how the address of the text is read.
    pub(crate) profile: Profile,
    /// The address of the command interrupt indicator to set, if any.
    pub(crate) indicator: Option<u32>,
}

/// The settings of a delivery.
#[derive(Clone, Copy, Debug, PartialEq, Eq)]
pub(crate) struct Delivery {
    /// The profile, which decides how the address of the buffer is read and how its size is checked.
    pub(crate) profile: Profile,
    /// The number of credits that the envelope grants.
    pub(crate) credits: u8,
    /// The address of the response interrupt indicator to set, if any.
    pub(crate) indicator: Option<u32>,
}

/// A message text, and the number of its bytes to deliver.
#[derive(Clone, Copy, Debug, PartialEq, Eq)]
pub(crate) struct Message {
    /// The text.
    pub(crate) text: [u8; 48],
    /// The number of bytes to deliver.
    pub(crate) size: u16,
}

/// An attention message and its drive.
#[derive(Clone, Copy, Debug, PartialEq, Eq)]
pub(crate) struct Notice {
    /// The drive.
    pub(crate) drive: u16,
    /// The message.
    pub(crate) message: Message,
}

/// A command packet as it was in host memory: the two words of its envelope, and its text.
///
/// UDA50 Programmer's Documentation Kit: message envelopes.
#[derive(Clone, Copy, Debug, PartialEq, Eq)]
pub struct Fetched {
    /// The two words of the envelope, which is in the four bytes below the text. The first is the length in
    /// bytes. The second has the credits in bits 3-0, the message type in bits 7-4 and the connection in bits
    /// 15-8. The ring accepts every value.
    pub words: (u16, u16),
    /// The 48 bytes of the text.
    pub text: [u8; 48],
}

/// Returns the packet at an address. Returns None if the address is odd or below 4, or the packet isn't
/// wholly in memory.
pub(crate) fn packet_at(memory: &[u8], address: u32) -> Option<Fetched>
    ensures readable { IsSome result ↔ HasPacket memory.now address }
    ensures packet { IfSome result (λ p. IsPacketAt memory.now address p) }
{
    if address % 2 != 0 || address < 4 {
        return None;
    }
    let text = uda_mem::window(memory, address, 48)?.as_array()?;
    let first = uda_mem::word_at(memory, address - 4);
    let second = uda_mem::word_at(memory, address - 2);
    Some(Fetched {
        words: (first, second),
        text: *text,
    })
}

/// Returns whether a packet with a text of `size` bytes can be written at an address. The packet must be in
/// memory. In the strict profile the length word must also declare a buffer of at least 48 bytes.
pub(crate) fn has_room(profile: Profile, memory: &[u8], address: u32, size: u16) -> bool
    ensures { IsTrue result ↔ HasRoom profile memory.now address size }
{
    match profile {
        Profile::Strict => tells_room(memory, address),
        Profile::Compatible(_) => has_text(memory, address, size),
    }
}

/// Returns whether a packet with a text of `size` bytes is wholly in memory, at an even address.
pub(crate) fn has_text(memory: &[u8], address: u32, size: u16) -> bool
    ensures { IsTrue result ↔ HasText memory.now address size }
{
    address % 2 == 0 && address >= 4 && uda_mem::has(memory, address, u32::from(size))
}

// Returns whether a packet with a text of 48 bytes is in memory, and its length word is at least 48.
fn tells_room(memory: &[u8], address: u32) -> bool
    ensures { IsTrue result ↔ DeclaresRoom memory.now address }
{
    if address % 2 != 0 || address < 4 || !uda_mem::has(memory, address, u32::from(TEXT)) {
        return false;
    }
    uda_mem::word_at(memory, address - 4) >= TEXT
}

/// Writes a text, and then the envelope below it, which grants `credits` credits.
#[tactic(auto, using(crate::proofs::Length::lengths))]
#[inline(always)]
pub(crate) fn put_packet(memory: &mut [u8], address: u32, credits: u8, text: &[u8])
    requires few { credits ≤ 15 }
    requires short { length text.now ≤ 48 }
    requires room { HasText memory.old address (length text.now) }
    ensures written { memory.new ≡ packet_put memory.old address credits text.now }
    ensures length { length memory.new ≡ length memory.old }
{
    let envelope = Envelope {
        length: text.len() as u16,
        credits,
        kind: 0,
        connection: 0,
    };
    let (first, second) = envelope.words();
    uda_mem::put_bytes(memory, address, text);
    uda_mem::put_word(memory, address - 4, first);
    uda_mem::put_word(memory, address - 2, second);
}
