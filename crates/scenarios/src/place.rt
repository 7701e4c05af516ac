//! The visible state of memory.
use crate::fault::CaseFault;
use crate::machine::CaseMachine;
use crate::op::ReplyLine;
use crate::step::Place;
use crate::words::Words;
use std::fmt::Write;
use uda_mem::is_memory;
use uda_packet::decode_reply;
use uda_port::Descriptor;

impl CaseMachine {
    /// Writes the visible state of memory.
    pub fn find(
        &self,
        place: Place,
        words: &mut Words<'_>,
        wanted: usize,
        came: &mut String,
    ) -> Result<(), CaseFault> {
        match place {
            Place::Words => self.words(words.address()?, wanted, came),
            Place::Bytes => self.bytes(words.address()?, wanted, came),
            Place::Filled => self.filled(words, came),
            Place::Cleared => self.cleared(words, came),
            Place::Kept => self.same(came),
            Place::End => self.end(words, came),
            Place::Descriptor => self.descriptor(words.address()?, came),
            Place::State => self.state(words.number()?, wanted, came),
        }
    }

    // Writes `wanted` words from an address on.
    fn words(&self, first: u32, wanted: usize, came: &mut String) -> Result<(), CaseFault> {
        let mut address = first;
        for _ in 0..wanted {
            write!(came, "{:04x} ", self.memory.word(address)?)?;
            address = address.saturating_add(2);
        }
        Ok(())
    }

    // Writes `wanted` bytes from an address on.
    fn bytes(&self, first: u32, wanted: usize, came: &mut String) -> Result<(), CaseFault> {
        let bytes = self.memory.bytes();
        for byte in bytes.iter().skip(first as usize).take(wanted) {
            write!(came, "{byte:02x} ")?;
        }
        Ok(())
    }

    // Writes the byte that a number of bytes from an address on have, and the first that differs.
    fn filled(&self, words: &mut Words<'_>, came: &mut String) -> Result<(), CaseFault> {
        let first = words.address()?;
        let count = words.number()?;
        let bytes = self.memory.window(first, count)?;
        let Some(&byte) = bytes.first() else {
            return Err(CaseFault::Wanted("one byte or more"));
        };
        write!(came, "{byte:02x}")?;
        let run = run_of(bytes, byte);
        if run < bytes.len() {
            write!(
                came,
                ", another at {:x}",
                run.saturating_add(first as usize)
            )?;
        }
        Ok(())
    }

    // Writes the byte that memory has outside a range of zeros, and the first address that differs.
    fn cleared(&self, words: &mut Words<'_>, came: &mut String) -> Result<(), CaseFault> {
        let start = words.address()? as usize;
        let end = start.saturating_add(words.number()? as usize);
        let bytes = self.memory.bytes();
        let outside = if start > 0 { 0 } else { end };
        let other = bytes.get(outside).copied().unwrap_or(0);
        write!(came, "{other:02x}")?;
        for (at, byte) in bytes.iter().enumerate() {
            let inside = start <= at && at < end;
            if *byte != (if inside { 0 } else { other }) {
                write!(came, ", {byte:02x} at {at:x}")?;
                return Ok(());
            }
        }
        Ok(())
    }

    // Writes whether memory is equal to the stored copy.
    fn same(&self, came: &mut String) -> Result<(), CaseFault> {
        let bytes = self.memory.bytes();
        if bytes.len() != self.kept.len() {
            return Ok(came.push_str("no: another length")?);
        }
        for (at, (one, other)) in bytes.iter().zip(self.kept.iter()).enumerate() {
            if *one != *other {
                write!(came, "no: another byte at {at:x}")?;
                return Ok(());
            }
        }
        came.push_str("yes")?;
        Ok(())
    }

    // Writes the end message of response i.
    fn end(&self, words: &mut Words<'_>, came: &mut String) -> Result<(), CaseFault> {
        let packet = self.layout.packet(words.small()?);
        let bytes = self.memory.window(packet.saturating_add(4), 48)?;
        let mut text = [0; 48];
        for (place, byte) in text.iter_mut().zip(bytes) {
            *place = *byte;
        }
        match decode_reply(&text) {
            Some(end) => write!(came, "{}", ReplyLine(end))?,
            None => came.push_str("none")?,
        }
        Ok(())
    }

    // Writes the descriptor at an even address: its words, its owner, its address, and its second word as the
    // port returns it.
    fn descriptor(&self, at: u32, came: &mut String) -> Result<(), CaseFault> {
        let bytes = self.memory.bytes();
        if at % 2 != 0 || !is_memory(bytes) {
            return Err(CaseFault::Address);
        }
        let Some(d) = Descriptor::read_in(bytes, at) else {
            return Ok(came.push_str("none")?);
        };
        let owner = if d.is_owned() { "port" } else { "host" };
        write!(
            came,
            "{:04x} {:04x} {owner} {:x} {:04x}",
            d.low,
            d.high,
            d.address(),
            d.returned_word()
        )?;
        Ok(())
    }
}

/// Returns the number of bytes from the first on that are this one.
pub fn run_of(bytes: &[u8], byte: u8) -> usize {
    for (place, other) in bytes.iter().enumerate() {
        if *other != byte {
            return place;
        }
    }
    bytes.len()
}
