//! The machine of a case: a port, an executor without a port, or a ring, and the memory of its host.
use crate::disk::RecordingImage;
use crate::fault::CaseFault;
use crate::memory::{Memory, Slice};
use crate::step::Preparation;
use crate::words::Words;
use std::alloc::Global;
use uda_exec::{Exec, UnitInfo};
use uda_image::Drive;
use uda_packet::{Bus, Identity};
use uda_port::{Phase, Port, Ring};

/// The initial size of a memory in bytes.
const MEMORY: u32 = 135_168;

/// The subject of a case.
#[derive(Drop)]
pub enum CaseSubject {
    Nothing,
    Port(Port<RecordingImage>),
    Executor(Exec<RecordingImage>),
    Ring(Ring),
}

/// The addresses of a host's rings and packets. The response descriptors begin at `base`, and as many command
/// descriptors follow. The packets begin at `packets`, in the same order, 64 bytes each.
#[derive(Clone, Copy)]
pub struct Layout {
    /// The number of descriptors of each ring.
    pub count: u16,
    /// The address of the rings.
    pub base: u32,
    /// The address of the packets.
    pub packets: u32,
}

/// The initial layout.
const LAYOUT: Layout = Layout {
    count: 8,
    base: 8,
    packets: 0x100,
};

impl Layout {
    /// Returns the address of descriptor i of both rings.
    pub fn descriptor(self, i: u16) -> u32 {
        self.base.saturating_add(4 * u32::from(i))
    }

    /// Returns the address of its packet's envelope.
    pub fn packet(self, i: u16) -> u32 {
        self.packets.saturating_add(64 * u32::from(i))
    }

    /// Returns the descriptor of both rings that command i has.
    pub fn command(self, i: u16) -> u16 {
        self.count.saturating_add(i)
    }

    /// Returns the words of initialization with these rings.
    pub fn start_up(self) -> [u16; 4] {
        let exponent = match self.count {
            1 => 0,
            2 => 1,
            4 => 2,
            8 => 3,
            16 => 4,
            32 => 5,
            64 => 6,
            _ => 7,
        };
        let first = 0x8000 | exponent << 11 | exponent << 8;
        [
            first,
            (self.base & 0xffff) as u16,
            (self.base >> 16) as u16,
            1,
        ]
    }
}

/// The machine of a case.
#[derive(Drop)]
pub struct CaseMachine {
    pub alloc: Global,
    pub subject: CaseSubject,
    pub memory: Memory,
    pub layout: Layout,
    /// The drive that was removed last.
    pub shelf: Option<Drive<RecordingImage>>,
    /// A stored copy of memory.
    pub kept: Vec<u8>,
    /// The bytes of a saved port.
    pub saved: Vec<u8>,
    /// The port's phase after random events.
    pub played: Option<Phase>,
    /// The turns that were run since the last printout, one a line.
    pub turns: String,
}

impl CaseMachine {
    /// Returns a machine without port and executor.
    pub fn new(alloc: Global) -> Result<CaseMachine, CaseFault> {
        Ok(CaseMachine {
            alloc,
            subject: CaseSubject::Nothing,
            memory: Memory::host(alloc, MEMORY, 0)?,
            layout: LAYOUT,
            shelf: None,
            kept: Vec::new(alloc),
            saved: Vec::new(alloc),
            played: None,
            turns: String::new(alloc),
        })
    }

    /// Prepares the machine.
    pub fn set(&mut self, setting: Preparation, words: &mut Words<'_>) -> Result<(), CaseFault> {
        match setting {
            Preparation::New => self.begin(words),
            Preparation::Memory => {
                let (count, byte) = size_and_byte(words)?;
                self.memory = Memory::host(self.alloc, count, byte)?;
                Ok(())
            }
            Preparation::Slice => {
                let (count, byte) = size_and_byte(words)?;
                self.memory = Memory::Slice(Slice::new(self.alloc, count, byte)?);
                Ok(())
            }
            Preparation::Wander => self.memory.wander(self.alloc),
            Preparation::Layout => {
                self.layout = layout_of(words)?;
                Ok(())
            }
        }
    }

    // Restarts with the initial memory and layout.
    fn begin(&mut self, words: &mut Words<'_>) -> Result<(), CaseFault> {
        self.subject = subject_of(self.alloc, words)?;
        self.memory = Memory::host(self.alloc, MEMORY, 0)?;
        self.layout = LAYOUT;
        self.shelf = None;
        Ok(())
    }

    /// Replaces the drive of a unit, and returns the old one. A port may then owe its host an attention
    /// message.
    pub fn set_drive(
        &mut self,
        unit: usize,
        drive: Option<Drive<RecordingImage>>,
    ) -> Result<Option<Drive<RecordingImage>>, CaseFault> {
        match &mut self.subject {
            CaseSubject::Port(port) => Ok(port.set_drive(unit, drive)),
            CaseSubject::Executor(exec) => Ok(exec.set_drive(unit, drive)),
            _ => Err(NO_UNITS),
        }
    }

    /// Does the same unseen by the host.
    pub fn exchange_drive(
        &mut self,
        unit: usize,
        drive: Option<Drive<RecordingImage>>,
    ) -> Result<Option<Drive<RecordingImage>>, CaseFault> {
        match &mut self.subject {
            CaseSubject::Port(port) => Ok(port.exchange_drive(unit, drive)),
            CaseSubject::Executor(exec) => Ok(exec.set_drive(unit, drive)),
            _ => Err(NO_UNITS),
        }
    }

    /// Returns the mode and the size of a unit.
    pub fn look(&self, unit: usize) -> Option<UnitInfo> {
        match &self.subject {
            CaseSubject::Port(port) => port.unit(unit),
            CaseSubject::Executor(exec) => exec.unit(unit),
            _ => None,
        }
    }
}

/// The fault of a case whose subject has no units.
pub const NO_UNITS: CaseFault = CaseFault::Wanted("a port or an executor before this line");

impl CaseSubject {
    /// Returns the port.
    pub fn port(&mut self) -> Result<&mut Port<RecordingImage>, CaseFault> {
        match self {
            CaseSubject::Port(port) => Ok(port),
            _ => Err(CaseFault::Wanted("a port before this line")),
        }
    }

    /// Returns the executor.
    pub fn executor(&mut self) -> Result<&mut Exec<RecordingImage>, CaseFault> {
        match self {
            CaseSubject::Executor(exec) => Ok(exec),
            _ => Err(CaseFault::Wanted("an executor before this line")),
        }
    }
}

// Returns the subject that the words name: a port without drives, an executor without drives, or a ring.
fn subject_of(alloc: Global, words: &mut Words<'_>) -> Result<CaseSubject, CaseFault> {
    let kind = "strict, guests, executor or ring";
    let name = words.word(kind)?;
    match name {
        "strict" => strict(alloc),
        "guests" => guests(alloc, identity(words)?),
        "executor" => Ok(CaseSubject::Executor(no_drives())),
        "ring" => parse_ring(words),
        _ => Err(CaseFault::Wanted(kind)),
    }
}

// Returns a strict port.
fn strict(alloc: Global) -> Result<CaseSubject, CaseFault> {
    match Port::new(alloc, no_drives()) {
        Ok(port) => Ok(CaseSubject::Port(port)),
        Err(_) => Err(CaseFault::NoMemory),
    }
}

// Returns the identity of the controller: on a UNIBUS or on a Q-bus, with units from a number on.
fn identity(words: &mut Words<'_>) -> Result<Identity, CaseFault> {
    let bus = if words.takes("qbus") {
        Bus::Qbus
    } else {
        words.takes("unibus");
        Bus::Unibus
    };
    let first_unit = if words.count() > 0 { words.small()? } else { 0 };
    Ok(Identity { bus, first_unit })
}

// Returns a port of the compatible profile.
fn guests(alloc: Global, identity: Identity) -> Result<CaseSubject, CaseFault> {
    match Port::compatible_as(alloc, identity, no_drives()) {
        Ok(port) => Ok(CaseSubject::Port(port)),
        Err(_) => Err(CaseFault::NoMemory),
    }
}

fn no_drives() -> Exec<RecordingImage> {
    Exec::new([None, None, None, None])
}

// Takes a number of bytes, and the byte that all of them have: 0 if none is named.
fn size_and_byte(words: &mut Words<'_>) -> Result<(u32, u8), CaseFault> {
    let count = words.number()?;
    let byte = if words.count() > 0 { words.byte()? } else { 0 };
    Ok((count, byte))
}

fn layout_of(words: &mut Words<'_>) -> Result<Layout, CaseFault> {
    Ok(Layout {
        count: words.small()?,
        base: words.address()?,
        packets: words.address()?,
    })
}

fn parse_ring(words: &mut Words<'_>) -> Result<CaseSubject, CaseFault> {
    let base = words.address()?;
    let count = words.small()?;
    if !Ring::is_base(base) {
        return Err(CaseFault::Wanted("a ring's base"));
    }
    match count {
        1 | 2 | 4 | 8 | 16 | 32 | 64 | 128 => Ok(CaseSubject::Ring(Ring::new(base, count))),
        _ => Err(CaseFault::Wanted("a ring's length")),
    }
}
