//! The actions of a host.
use crate::fault::CaseFault;
use crate::machine::CaseMachine;
use crate::op::command;
use crate::step::Deed;
use crate::words::Words;
use uda_packet::encode_command;

impl CaseMachine {
    /// Executes an action of a host.
    pub fn act(&mut self, deed: Deed, words: &mut Words<'_>) -> Result<(), CaseFault> {
        match deed {
            Deed::Start => self.start(),
            Deed::Write => self.write(words),
            Deed::Poke => self.poke(words),
            Deed::Put => self.put(words),
            Deed::Fill => self.fill(words),
            Deed::Response => self.open_response(words),
            Deed::Post => self.post(words),
            Deed::Text => self.post_text(words),
            Deed::Keep => self.keep(),
            Deed::Save => self.save(),
            Deed::Alter => self.alter(words),
        }
    }

    // Writes the words of initialization.
    fn start(&mut self) -> Result<(), CaseFault> {
        for word in self.layout.start_up() {
            self.memory.write_sa(self.subject.port()?, word)?;
        }
        Ok(())
    }

    // Writes IP, or words to SA.
    fn write(&mut self, words: &mut Words<'_>) -> Result<(), CaseFault> {
        let kind = "ip or sa";
        let is_ip = match words.word(kind)? {
            "ip" => true,
            "sa" => false,
            _ => return Err(CaseFault::Wanted(kind)),
        };
        for _ in 0..words.count() {
            let word = words.hex()?;
            if is_ip {
                self.subject.port()?.write_ip(word);
            } else {
                self.memory.write_sa(self.subject.port()?, word)?;
            }
        }
        Ok(())
    }

    // Writes words of memory from an address on.
    fn poke(&mut self, words: &mut Words<'_>) -> Result<(), CaseFault> {
        let mut address = words.address()?;
        for _ in 0..words.count() {
            self.memory.poke(address, words.hex()?)?;
            address = address.saturating_add(2);
        }
        Ok(())
    }

    // Writes bytes of memory from an address on.
    fn put(&mut self, words: &mut Words<'_>) -> Result<(), CaseFault> {
        let address = words.address()?;
        self.put_all(address, words)
    }

    fn put_all(&mut self, address: u32, words: &mut Words<'_>) -> Result<(), CaseFault> {
        let mut place = address;
        for _ in 0..words.count() {
            self.memory.put(place, words.byte()?)?;
            place = place.saturating_add(1);
        }
        Ok(())
    }

    fn fill(&mut self, words: &mut Words<'_>) -> Result<(), CaseFault> {
        let address = words.address()?;
        let count = words.number()?;
        self.memory.fill(address, count, words.byte()?)
    }

    // Gives descriptor i of both rings to the port, with the length word of its packet.
    fn hand(&mut self, i: u16, length: u16) -> Result<(), CaseFault> {
        let descriptor = self.layout.descriptor(i);
        let packet = self.layout.packet(i);
        let text = packet.saturating_add(4);
        self.memory.poke(packet, length)?;
        self.memory.poke(packet.saturating_add(2), 0)?;
        self.memory.poke(descriptor, (text & 0xffff) as u16)?;
        let high = 0x8000 | (text >> 16 & 0x3fff) as u16;
        self.memory.poke(descriptor.saturating_add(2), high)
    }

    // Gives response descriptor i to the port, with a buffer of 60 bytes or of the named size.
    fn open_response(&mut self, words: &mut Words<'_>) -> Result<(), CaseFault> {
        let i = words.small()?;
        let length = if words.count() > 0 {
            words.small()?
        } else {
            60
        };
        self.hand(i, length)
    }

    // Posts a command as command i, with the reference i + 1.
    fn post(&mut self, words: &mut Words<'_>) -> Result<(), CaseFault> {
        let i = words.small()?;
        let command = command(words, u32::from(i) + 1)?;
        let i = self.layout.command(i);
        let mut place = self.layout.packet(i).saturating_add(4);
        for byte in encode_command(&command) {
            self.memory.put(place, byte)?;
            place = place.saturating_add(1);
        }
        self.hand(i, 48)
    }

    // Posts a text as command i: these bytes, followed by zeros.
    fn post_text(&mut self, words: &mut Words<'_>) -> Result<(), CaseFault> {
        let i = self.layout.command(words.small()?);
        let text = self.layout.packet(i).saturating_add(4);
        self.memory.fill(text, 48, 0)?;
        self.put_all(text, words)?;
        self.hand(i, 48)
    }

    // Stores a copy of memory.
    fn keep(&mut self) -> Result<(), CaseFault> {
        self.kept = self.memory.bytes().to_vec(self.alloc)?;
        Ok(())
    }
}
