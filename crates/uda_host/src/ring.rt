//! A host's reads and writes of its memory.
ghost use Rattle.std.specs.Prelude.{◌≡◌, ℕ, ◌+◌, ◌*◌, ◌%◌, ◌<◌, ◌≤◌, length, Ok};
ghost use Rattle.uda_mem.specs.Put.{put, part};
ghost use Rattle.uda_mem.specs.Words.{word_at, word_bytes};
ghost use Rattle.uda_packet.specs.Written.{written_command};
ghost use Rattle.uda_packet.specs.Reading.{read_command, read_end};
ghost use Rattle.uda_host.specs.Layout.{slots, buffer_address, memory_size, response_packet};
ghost use Rattle.uda_host.specs.Slots.{with_command, memory_reopened};

use uda_mem::HostMemory;
use uda_packet::{Command, End, decode_end, encode_command};

/// The size of the host's memory in bytes.
pub(crate) const MEMORY_SIZE: u32 = 249_856;

/// The number of descriptors of each ring.
pub(crate) const SLOTS: u32 = 16;

/// The first word of initialization for such rings. It contains their exponent, 4, twice.
pub(crate) const RINGS: u16 = 0xA400;

/// The address of the response ring, which is the ring base.
pub(crate) const RESPONSE_RING: u32 = 8;

/// The address of the command ring, which follows the response ring.
pub(crate) const COMMAND_RING: u32 = 72;

/// The address of the packet of the first response descriptor.
pub(crate) const RESPONSE_PACKETS: u32 = 0x100;

/// The address of the packet of the first command descriptor.
pub(crate) const COMMAND_PACKETS: u32 = 0x500;

/// The distance between two packets in bytes.
pub(crate) const PACKET_STEP: u32 = 64;

/// The second word of a descriptor that the port owns.
pub(crate) const OWNER: u16 = 0x8000;

/// Returns the address of a buffer, by its number.
pub fn buffer_address(number: u8) -> u32
    ensures address { result ≡ buffer_address number }
{
    BUFFERS + BUFFER_SIZE * u32::from(number)
}

/// The size of a buffer in bytes: 32 blocks.
pub(crate) const BUFFER_SIZE: u32 = 0x4000;

const BUFFERS: u32 = 0x1000;

// Writes a text of 48 bytes. The caller checks that it fits.
fn put_text(memory: &mut HostMemory, at: u32, text: &[u8; 48])
    requires { at + 48 ≤ length memory.old }
    ensures put { memory.new ≡ put memory.old at text.now }
{
    memory.within(at, 48).copy_from_slice(text);
}

/// Posts a command at an index of the command ring: writes its packet, and then its descriptor, which the
/// port owns from then on.
#[tactic(auto, using(uda_port::proofs::Length::lengths))]
pub(crate) fn write_command(memory: &mut HostMemory, place: u32, command: &Command)
    requires size { length memory.old ≡ memory_size }
    requires within { place < slots }
    ensures posted { memory.new ≡ with_command memory.old place command.now }
    ensures legible { read_command (written_command command.now) ≡ Ok command.now }
{
    let packet = COMMAND_PACKETS + PACKET_STEP * place;
    let descriptor = COMMAND_RING + 4 * place;
    memory.put_word(packet, 48);
    memory.put_word(packet + 2, 0);
    put_text(memory, packet + 4, &encode_command(command));
    memory.put_word(descriptor, (packet + 4) as u16);
    memory.put_word(descriptor + 2, OWNER);
}

/// Returns the end message at an index of the response ring.
pub(crate) fn end_at(memory: &HostMemory, place: u32) -> Option<End>
    requires within { place < slots }
    ensures end { length memory.now ≡ memory_size
        → result ≡ read_end (part memory.now (response_packet place + 4) 48) }
{
    let mut text = [0; 48];
    if let Some(window) = memory.window(RESPONSE_PACKETS + PACKET_STEP * place + 4, 48) {
        text.copy_from_slice(window);
    }
    decode_end(&text)
}

/// Returns the credits that the end message there grants.
pub(crate) fn credits_at(memory: &HostMemory, place: u32) -> u32
    requires within { place < slots }
    ensures few { result < 65536 }
    ensures word { length memory.now ≡ memory_size → result ≡ word_at memory.now (response_packet place + 2) }
{
    match memory.read_word(RESPONSE_PACKETS + PACKET_STEP * place + 2) {
        Some(word) => u32::from(word),
        None => 0,
    }
}

/// Returns the response descriptor at an index to the port.
pub(crate) fn reopen(memory: &mut HostMemory, place: u32)
    requires within { place < slots }
    ensures open { length memory.old ≡ memory_size → memory.new ≡ memory_reopened memory.old place }
{
    memory.write_word(RESPONSE_RING + 4 * place + 2, OWNER);
}
