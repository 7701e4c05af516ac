//! Initialization of a host's port.
ghost use Rattle.std.specs.Prelude.{◌≡◌, ℕ, ◌+◌, ◌-◌, ◌*◌, ◌<◌, ◌≤◌, length, replicate, IfOk};
ghost use Rattle.uda_mem.specs.Put.{put};
ghost use Rattle.uda_port.specs.declared.phase.Phase.TheVariants.{Step1};
ghost use Rattle.uda_port.specs.declared.profile.Profile.TheVariants.{Strict};
ghost use Rattle.uda_host.specs.Layout.{slots, area_size, memory_size, response_packet};
ghost use Rattle.uda_host.specs.Slots.{command_at, response_at, IsFree, IsOpen};
ghost use Rattle.uda_host.specs.Starting.{port_running};

use crate::ring::{MEMORY_SIZE, OWNER, PACKET_STEP, RESPONSE_PACKETS, RESPONSE_RING, RINGS, SLOTS};
use std::alloc::Global;
use uda_image::BlockStore;
use uda_mem::{HostMemory, NoMemory};
use uda_port::Port;

// The last word of initialization, with the go bit.
const GO_WORD: u16 = 1;

// The number of bytes of a message text.
const TEXT_SIZE: u16 = 48;

/// Writes the four words of initialization.
pub(crate) fn initialise<S: BlockStore>(port: &mut Port<S>, memory: &mut HostMemory)
    requires strict { port.old.profile ≡ Strict }
    requires step { port.old.phase ≡ Step1 }
    requires size { length memory.old ≡ memory_size }
    ensures port { port.new ≡ port_running port.old }
    ensures memory { memory.new ≡ put memory.old 4 (replicate area_size 0) }
{
    port.write_sa(RINGS, memory);
    port.write_sa(RESPONSE_RING as u16, memory);
    port.write_sa(0, memory);
    port.write_sa(GO_WORD, memory);
}

/// Gives every response descriptor to the port.
#[tactic(auto, using(uda_port::proofs::Length::lengths))]
pub(crate) fn open_all(memory: &mut HostMemory)
    requires size { length memory.old ≡ memory_size }
    ensures size { length memory.new ≡ memory_size }
    ensures responses { (i : ℕ) → i < slots → IsOpen (response_packet i) (response_at memory.new i) }
    ensures commands { (i : ℕ) → i < slots
        → IsFree (command_at memory.old i) → IsFree (command_at memory.new i) }
{
    for i in 0..SLOTS {
        let packet = RESPONSE_PACKETS + PACKET_STEP * i;
        let descriptor = RESPONSE_RING + 4 * i;
        memory.put_word(packet, TEXT_SIZE);
        memory.put_word(descriptor, (packet + 4) as u16);
        memory.put_word(descriptor + 2, OWNER);
    }
}

/// Allocates the memory. The contract promises only its length, since a list of that many zeros makes later
/// searches long.
pub(crate) fn host_memory(alloc: Global) -> Result<HostMemory, NoMemory>
    ensures size { IfOk result (λ m. length m ≡ memory_size) }
{
    HostMemory::new(alloc, MEMORY_SIZE)
}
