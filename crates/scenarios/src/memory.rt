//! The memory of a case's host: one of its own, or borrowed bytes in a slice. A memory that wanders is
//! another slice at each call.
use crate::disk::RecordingImage;
use crate::fault::CaseFault;
use std::alloc::Global;
use uda_exec::Exec;
use uda_mem::{HostMemory, MEMORY_LIMIT, SLICE_LIMIT, is_memory};
use uda_packet::End;
use uda_port::{Fetched, HostEvent, Port, Ring, RingFault, Trace};

/// The byte that fills a slice that its memory has left.
const LEFT: u8 = 0xee;

/// The memory of a host.
#[derive(Drop)]
pub enum Memory {
    /// Memory of the host's own.
    Host(HostMemory),
    /// Borrowed bytes.
    Slice(Slice),
}

/// Memory in a slice, with the next slice if it wanders.
#[derive(Drop)]
pub struct Slice {
    bytes: Vec<u8>,
    spare: Option<Vec<u8>>,
}

impl Slice {
    /// Returns a memory of `count` bytes.
    pub fn new(alloc: Global, count: u32, byte: u8) -> Result<Slice, CaseFault> {
        if count > SLICE_LIMIT {
            return Err(CaseFault::Memory);
        }
        Ok(Slice {
            bytes: vec![in alloc; byte; count as usize]?,
            spare: None,
        })
    }

    // Returns the bytes for the next call.
    fn next(&mut self) -> Result<&mut [u8], CaseFault> {
        if let Some(spare) = &mut self.spare {
            if spare.len() != self.bytes.len() {
                return Err(CaseFault::Memory);
            }
            spare.copy_from_slice(&self.bytes);
            self.bytes.fill(LEFT);
            std::mem::swap(&mut self.bytes, spare);
        }
        Ok(&mut self.bytes)
    }
}

impl Memory {
    /// Returns a host's own memory of `count` bytes.
    pub fn host(alloc: Global, count: u32, byte: u8) -> Result<Memory, CaseFault> {
        if count % 2 != 0 || count > MEMORY_LIMIT {
            return Err(CaseFault::Memory);
        }
        let mut memory = Memory::Host(HostMemory::new(alloc, count)?);
        memory.bytes_mut().fill(byte);
        Ok(memory)
    }

    /// Moves the memory to another slice at each following call.
    pub fn wander(&mut self, alloc: Global) -> Result<(), CaseFault> {
        if let Memory::Slice(slice) = self {
            let count = slice.bytes.len();
            slice.spare = Some(vec![in alloc; LEFT; count]?);
        }
        Ok(())
    }

    /// Returns all bytes.
    pub fn bytes(&self) -> &[u8] {
        match self {
            Memory::Host(memory) => memory.as_slice(),
            Memory::Slice(slice) => &slice.bytes,
        }
    }

    /// Returns all bytes for writing.
    pub fn bytes_mut(&mut self) -> &mut [u8] {
        match self {
            Memory::Host(memory) => memory.as_mut_slice(),
            Memory::Slice(slice) => &mut slice.bytes,
        }
    }

    /// Returns `count` bytes from an address on.
    pub fn window(&self, address: u32, count: u32) -> Result<&[u8], CaseFault> {
        uda_mem::window(self.bytes(), address, count).ok_or(CaseFault::Address)
    }

    /// Returns the word at an address.
    pub fn word(&self, address: u32) -> Result<u16, CaseFault> {
        uda_mem::read_word(self.bytes(), address).ok_or(CaseFault::Address)
    }

    /// Writes a word.
    pub fn poke(&mut self, address: u32, word: u16) -> Result<(), CaseFault> {
        if uda_mem::write_word(self.bytes_mut(), address, word) {
            Ok(())
        } else {
            Err(CaseFault::Address)
        }
    }

    /// Writes a byte.
    pub fn put(&mut self, address: u32, byte: u8) -> Result<(), CaseFault> {
        match self.bytes_mut().get_mut(address as usize) {
            Some(place) => *place = byte,
            None => return Err(CaseFault::Address),
        }
        Ok(())
    }

    /// Writes one byte to `count` addresses from one on.
    pub fn fill(&mut self, address: u32, count: u32, byte: u8) -> Result<(), CaseFault> {
        let start = address as usize;
        match self.bytes_mut().get_mut(start..start + count as usize) {
            Some(bytes) => bytes.fill(byte),
            None => return Err(CaseFault::Address),
        }
        Ok(())
    }

    /// Writes a word to a port's SA.
    pub fn write_sa(
        &mut self,
        port: &mut Port<RecordingImage>,
        word: u16,
    ) -> Result<(), CaseFault> {
        match self {
            Memory::Host(memory) => port.write_sa(word, memory),
            Memory::Slice(slice) => port.write_sa_in(word, slice.next()?),
        }
        Ok(())
    }

    /// Runs a turn of a port.
    pub fn turn(&mut self, port: &mut Port<RecordingImage>) -> Result<Trace, CaseFault> {
        match self {
            Memory::Host(memory) => traced_turn(port, memory.as_mut_slice()),
            Memory::Slice(slice) => traced_turn(port, slice.next()?),
        }
    }

    /// Applies events to a port.
    pub fn play(
        &mut self,
        port: &mut Port<RecordingImage>,
        events: &[HostEvent],
    ) -> Result<u16, CaseFault> {
        match self {
            Memory::Host(memory) => Ok(port.play(events, memory)),
            Memory::Slice(slice) => {
                let bytes = slice.next()?;
                for &event in events {
                    play_one(port, event, bytes)?;
                }
                Ok(port.read_sa())
            }
        }
    }

    /// Executes a command of an executor.
    pub fn execute(&mut self, exec: &mut Exec<RecordingImage>) -> Result<Option<End>, CaseFault> {
        match self {
            Memory::Host(memory) => Ok(exec.execute_one(memory)),
            Memory::Slice(slice) => {
                let bytes = slice.next()?;
                if !is_memory(bytes) {
                    return Err(CaseFault::Memory);
                }
                let Some(place) = exec.next() else {
                    return Ok(None);
                };
                Ok(Some(exec.execute_at_in(place, bytes).strict_end()))
            }
        }
    }

    /// Fetches a packet from a ring.
    pub fn fetch(
        &mut self,
        ring: &mut Ring,
    ) -> Result<Result<Option<Fetched>, RingFault>, CaseFault> {
        match self {
            Memory::Host(memory) => Ok(ring.fetch(memory)),
            Memory::Slice(slice) => {
                let bytes = slice.next()?;
                if !is_memory(bytes) {
                    return Err(CaseFault::Memory);
                }
                Ok(ring.fetch_in(bytes))
            }
        }
    }
}

// Runs a turn of a port over these bytes, and returns its trace record.
fn traced_turn(port: &mut Port<RecordingImage>, bytes: &mut [u8]) -> Result<Trace, CaseFault> {
    if !is_memory(bytes) {
        return Err(CaseFault::Memory);
    }
    let mut trace = Trace::Idle;
    port.turn_at(bytes, None, &mut trace);
    Ok(trace)
}

// Applies one event to a port over these bytes. It repeats the rules of `Port::play`, which takes only a host's memory.
fn play_one(
    port: &mut Port<RecordingImage>,
    event: HostEvent,
    bytes: &mut [u8],
) -> Result<(), CaseFault> {
    if !is_memory(bytes) {
        return Err(CaseFault::Memory);
    }
    match event {
        HostEvent::WriteIp => port.write_ip(0),
        HostEvent::ReadIp => {
            port.read_ip();
        }
        HostEvent::WriteSa(word) => port.write_sa_in(word, bytes),
        HostEvent::Word { address, word } => {
            uda_mem::write_word(bytes, address, word);
        }
        HostEvent::Turn => {
            port.turn_in(bytes);
        }
    }
    Ok(())
}
