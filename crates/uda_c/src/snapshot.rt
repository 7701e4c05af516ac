//! The state of a controller for C.
ghost use Rattle.std.specs.Prelude.{◌≡◌, ◌≤◌, if◌then◌else◌};
ghost use Rattle.uda_c.specs.Snapshot.{phase_number, ring_snapshot, port_snapshot, attention_bits, unit_snapshot, type_code};

use crate::controller::is_called_in;
use crate::unit_image::UnitImage;
use uda_exec::UnitInfo;
use uda_image::BlockStore;
use uda_packet::DriveType;
use uda_port::{Phase, Port, Ring};

/// The state of a ring, in the form of C.
#[repr(C)]
#[derive(Clone, Copy, Debug, PartialEq, Eq)]
pub struct RingSnapshot {
    /// The address of the first descriptor.
    pub base: u32,
    /// The number of descriptors.
    pub count: u16,
    /// The index of the next descriptor.
    pub next: u16,
}

/// The state of a port, in the form of C.
#[repr(C)]
#[derive(Clone, Copy, Debug, PartialEq, Eq)]
pub struct PortSnapshot {
    /// The number of bytes of C's struct.
    pub size: usize,
    /// The number of its phase.
    pub phase: u32,
    /// The response ring.
    pub responses: RingSnapshot,
    /// The command ring.
    pub commands: RingSnapshot,
    /// The number of commands that were fetched and not executed yet.
    pub pending: u32,
    /// The number of queued end messages.
    pub queued: u32,
    /// What SA shows.
    pub sa: u16,
    /// The number of commands that the host may still post.
    pub credits: u16,
    /// Whether the port polls its command ring: 1, or 0.
    pub polling: u16,
    /// The address of the interrupt vector, 0 until the host has set it.
    pub vector: u16,
    /// The units for which an attention message is due: bit u for unit u.
    pub attentions: u32,
}

/// A unit's drive type, image and mode, in the form of C. A unit without an image has neither blocks nor a mode.
#[repr(C)]
#[derive(Clone, Copy, Debug, PartialEq, Eq)]
pub struct UnitSnapshot {
    /// The number of bytes of C's struct.
    pub size: usize,
    /// The number of blocks of the image.
    pub blocks: u32,
    /// The number of the drive type.
    pub drive_type: u32,
    /// Whether the unit has an image: 1, or 0.
    pub attached: u16,
    /// Whether C reads and writes the image by calls of its own: 1, or 0.
    pub called: u16,
    /// Whether the unit is online: 1, or 0.
    pub online: u16,
    /// Whether the image is hardware write-protected: 1, or 0.
    pub write_protected: u16,
    /// Whether the unit is software write-protected: 1, or 0.
    pub soft_protected: u16,
}

// Returns the number of a phase in C.
fn phase_number(phase: Phase) -> u32
    ensures { result ≡ phase_number phase }
{
    match phase {
        Phase::Step1 => 1,
        Phase::Step2 { .. } => 2,
        Phase::Step3 { .. } => 3,
        Phase::PurgeTest => 4,
        Phase::PollTest => 5,
        Phase::Step4 => 6,
        Phase::Running => 7,
        Phase::Dead { .. } => 8,
        Phase::Wrap { .. } => 9,
    }
}

impl RingSnapshot {
    fn of(ring: Ring) -> RingSnapshot
        ensures { result ≡ ring_snapshot ring }
    {
        RingSnapshot {
            base: ring.base(),
            count: ring.count(),
            next: ring.place(),
        }
    }
}

impl PortSnapshot {
    /// The number of bytes of the struct.
    pub const SIZE: usize = 48;

    /// Returns the state of a port.
    pub fn of<S: BlockStore>(port: &Port<S>) -> PortSnapshot
        ensures shown { result ≡ port_snapshot port.now }
    {
        PortSnapshot {
            size: PortSnapshot::SIZE,
            phase: phase_number(port.phase()),
            responses: RingSnapshot::of(port.responses()),
            commands: RingSnapshot::of(port.commands()),
            pending: port.pending() as u32,
            queued: port.waiting() as u32,
            sa: port.read_sa(),
            credits: u16::from(port.credits()),
            polling: flag(port.is_polling()),
            vector: port.interrupts().vector,
            attentions: attention_bits(port),
        }
    }
}

impl UnitSnapshot {
    /// The number of bytes of the struct.
    pub const SIZE: usize = 32;

    /// Returns the state of a unit of a port.
    pub fn of(port: &Port<UnitImage>, unit: usize) -> UnitSnapshot
        ensures shown { result ≡ unit_snapshot port.now unit }
    {
        let info = match port.unit(unit) {
            Some(info) => info,
            None => UnitInfo::ABSENT,
        };
        UnitSnapshot {
            size: UnitSnapshot::SIZE,
            blocks: info.size,
            drive_type: type_code(port.drive_type(unit)),
            attached: flag(port.unit(unit).is_some()),
            called: flag(is_called_in(port, unit)),
            online: flag(info.mode.online),
            write_protected: flag(info.mode.hard),
            soft_protected: flag(info.mode.soft),
        }
    }
}

// Returns the number of a drive type, or 0 if there is none.
fn type_code(kind: Option<DriveType>) -> u32
    ensures { result ≡ type_code kind }
{
    match kind {
        Some(kind) => u32::from(kind.number()),
        None => 0,
    }
}

// Returns the units for which an attention message is due: bit u for unit u.
fn attention_bits<S: BlockStore>(port: &Port<S>) -> u32
    ensures { result ≡ attention_bits port.now.guest.attentions }
{
    bit(port.is_attention_due(0), 1)
        + bit(port.is_attention_due(1), 2)
        + bit(port.is_attention_due(2), 4)
        + bit(port.is_attention_due(3), 8)
}

// Returns a flag as C has it.
fn flag(set: bool) -> u16
    ensures flag { result ≡ if set then 1 else 0 }
{
    if set { 1 } else { 0 }
}

// Returns a bit that is set.
fn bit(set: bool, bit: u32) -> u32
    ensures bit { result ≡ if set then bit else 0 }
    ensures within { result ≤ bit }
{
    if set { bit } else { 0 }
}
