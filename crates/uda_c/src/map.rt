//! Map registers, in the form of C.
//!
//! PDP-11 UNIBUS map, VAX UNIBUS adapter, Q-bus map: map registers.
ghost use Rattle.std.specs.Prelude.{◌≡◌, ◌≢◌, ◌≤◌, ◌*◌, ◌%◌, ◌^◌, IfOk, IfErr};
ghost use Rattle.uda_c.specs.Maps.{ReadsMapped, WritesMapped, map_answer, register_count, bus_answer, IsBusOf, registers_of, form_of};
ghost use Rattle.uda_c.specs.declared.call_status.CallStatus.TheVariants.{Done};

use crate::call_status::CallStatus;
use uda_bus::{BusMap, MapForm, Registers};
use uda_mem::SLICE_LIMIT;

/// How bus addresses lead to the guest's memory, in the form of C.
#[repr(C)]
#[derive(Clone, Copy, Debug)]
pub struct MapRegisters<'a> {
    /// The registers, if they don't lie in the guest's memory.
    pub registers: &'a [u32],
    /// The number of low bits of an address that are the offset in a page.
    pub page: u32,
    /// The bits of a register that say where the page begins.
    pub frame: u32,
    /// The bits that are set in a register that is used.
    pub valid: u32,
    /// The number of places by which the bits of `frame` are shifted to the left.
    pub scale: u32,
    /// The index in the guest's memory of the first register, if the registers lie there.
    pub at: u64,
    /// The number of registers that lie in the guest's memory, or 0 if they don't.
    pub in_memory: u32,
}

/// A bus whose addresses lead to memory through a map.
#[derive(Clone, Copy, Debug)]
pub struct MappedBus<'a> {
    /// The map.
    pub map: BusMap<'a>,
    /// The number of addresses.
    pub size: u32,
}

impl<'a> MapRegisters<'a> {
    /// Returns the bus of these registers, or the status of a map that no bus has.
    pub fn bus(&self) -> Result<MappedBus<'a>, CallStatus>
        ensures ok { IfOk result (λ bus. IsBusOf self.now bus × (map_answer self.now ≡ Done)) }
        ensures long { IfOk result (λ bus. (bus.size % 2 ≡ 0) × (bus.size ≤ 2 ^ 22)) }
        ensures err { IfErr result (λ r. (r ≡ map_answer self.now) × (r ≢ Done)) }
    {
        let Some(map) = BusMap::new(self.place(), self.form()) else {
            return Err(CallStatus::BadMap);
        };
        let size = bus_size(self.count(), self.page)?;
        Ok(MappedBus { map, size })
    }

    // Returns where the registers are.
    fn place(&self) -> Registers<'a>
        ensures { result ≡ registers_of self.now }
    {
        if self.in_memory == 0 {
            Registers::Apart(self.registers)
        } else {
            Registers::InMemory {
                at: self.at,
                count: self.in_memory,
            }
        }
    }

    // Returns how an address and a register are read.
    fn form(&self) -> MapForm
        ensures { result ≡ form_of self.now }
    {
        MapForm {
            page: self.page,
            frame: self.frame,
            valid: self.valid,
            scale: self.scale,
        }
    }

    // Returns the number of registers.
    fn count(&self) -> usize
        ensures { result ≡ register_count self.now }
    {
        if self.in_memory == 0 {
            self.registers.len()
        } else {
            self.in_memory as usize
        }
    }
}

// Returns the number of addresses of a bus with this many registers, each for a page, or the status of a bus that
// can't be.
fn bus_size(count: usize, page: u32) -> Result<u32, CallStatus>
    requires page { page ≤ 31 }
    ensures ok { IfOk result (λ size. (size ≡ count * 2 ^ page) × (bus_answer count page ≡ Done)) }
    ensures long { IfOk result (λ size. (size % 2 ≡ 0) × (size ≤ 2 ^ 22)) }
    ensures err { IfErr result (λ r. (r ≡ bus_answer count page) × (r ≢ Done)) }
{
    if count > SLICE_LIMIT as usize {
        return Err(CallStatus::TooLarge);
    }
    let size = (count as u64) << page;
    if size > u64::from(SLICE_LIMIT) {
        Err(CallStatus::TooLarge)
    } else if size % 2 != 0 {
        Err(CallStatus::BadLength)
    } else {
        Ok(size as u32)
    }
}

/// Copies bytes of a bus from an address on. Those whose address leads nowhere are 0.
pub fn read_mapped(memory: &[u8], map: &MapRegisters<'_>, address: u32, to: &mut [u8]) -> CallStatus
    ensures reads { ReadsMapped map.now memory.now address result (to.old, to.new) }
{
    match map.bus() {
        Ok(bus) => {
            if bus.map.read(memory, address, to) {
                CallStatus::Done
            } else {
                CallStatus::Nowhere
            }
        }
        Err(status) => status,
    }
}

/// Copies bytes to a bus from an address on, by rising address, except those whose address leads nowhere.
pub fn write_mapped(
    memory: &mut [u8],
    map: &MapRegisters<'_>,
    address: u32,
    from: &[u8],
) -> CallStatus
    ensures writes { WritesMapped map.now (memory.old, memory.new) address from.now result }
{
    match map.bus() {
        Ok(bus) => {
            bus.map.write(memory, address, from);
            CallStatus::Done
        }
        Err(status) => status,
    }
}
