//! Bytes that are read and written through a map.
ghost use Rattle.std.specs.Prelude.{◌≡◌, ◌↔◌, length, IsTrue};
ghost use Rattle.uda_bus.specs.Bytes.{shown, stored, AllLead};

use crate::copy::{bytes_there, copy_in, copy_out};
use crate::map::BusMap;

impl BusMap<'_> {
    /// Reads the bytes that the bus shows from the address `at` on. An address that leads nowhere reads as 0.
    /// Returns whether each address leads to a byte of memory.
    pub fn read(&self, memory: &[u8], at: u32, to: &mut [u8]) -> bool
        ensures shown { to.new ≡ shown self.now memory.now at (length to.old) }
        ensures whole { IsTrue result ↔ AllLead self.now memory.now at (length to.old) }
    {
        let mut whole = true;
        let mut done = 0;
        while done < to.len() {
            let piece = self.piece(memory, u64::from(at) + done as u64, to.len() - done);
            let next = done + piece.len;
            whole &= copy_out(memory, piece.start, &mut to[done..next]);
            done = next;
        }
        whole
    }

    /// Returns whether each of `bytes` addresses, from `at` on, leads to a byte of memory.
    pub fn leads(&self, memory: &[u8], at: u32, bytes: u32) -> bool
        ensures all { IsTrue result ↔ AllLead self.now memory.now at bytes }
    {
        let count = bytes as usize;
        let mut done = 0;
        while done < count {
            let piece = self.piece(memory, u64::from(at) + done as u64, count - done);
            if bytes_there(memory, piece.start).len() < piece.len {
                return false;
            }
            done += piece.len;
        }
        true
    }

    /// Writes bytes on the bus from the address `at` on, in the order of the addresses. Those for addresses
    /// that lead nowhere are dropped.
    ///
    /// A byte may change a map register that is in memory. Those after it go by the new register.
    pub fn write(&self, memory: &mut [u8], at: u32, from: &[u8])
        ensures stored { memory.new ≡ stored self.now memory.old at from.now }
        ensures length { length memory.new ≡ length memory.old }
    {
        let mut done = 0;
        while done < from.len() {
            let piece = self.piece(memory, u64::from(at) + done as u64, from.len() - done);
            let next = done + piece.len;
            copy_in(memory, piece.start, &from[done..next]);
            done = next;
        }
    }
}
