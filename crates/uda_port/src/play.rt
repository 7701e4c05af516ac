//! Lists of arbitrary host events, applied to a port.
//!
//! UDA50 Programmer's Documentation Kit: port registers, fatal errors.
ghost use Rattle.std.specs.Prelude.{◌≡◌};
ghost use Rattle.uda_mem.specs.Slices.{IsMemory};
ghost use Rattle.uda_disk.specs.Units.{AreWellFormed};
ghost use Rattle.uda_port.specs.Port.{CreditsAgree};
ghost use Rattle.uda_port.specs.Startup.{sa_shown};
ghost use Rattle.uda_port.specs.Events.{EventEffect, EventsEffect, DeathHasCause};

use crate::port::Port;
use uda_image::BlockStore;
use uda_mem::HostMemory;

/// One event between a host and its port.
#[derive(Clone, Copy, Debug, PartialEq, Eq)]
pub enum HostEvent {
    /// The host writes IP.
    WriteIp,
    /// The host reads IP.
    ReadIp,
    /// The host writes SA.
    WriteSa(u16),
    /// The host writes a word of its memory. Nothing happens if memory has no word at this address.
    Word {
        /// The address of the word.
        address: u32,
        /// The word.
        word: u16,
    },
    /// The port runs one turn.
    Turn,
}

impl<S: BlockStore> Port<S> {
    /// Applies the events in order, and returns SA after the last one. It ignores a write to a word that
    /// `memory` doesn't have.
    ///
    /// For all events and any memory of a host: if the port is dead afterwards, one of two cases holds. Either one of
    /// the events met the cause of that fatal error, and no later event writes IP. Or the port was dead of
    /// the same cause before, and no event writes IP.
    ///
    /// UDA50 Programmer's Documentation Kit: port registers, fatal errors.
    #[tactic(auto, using(crate::proofs::Length::wholes))]
    pub fn play(&mut self, events: &[HostEvent], memory: &mut HostMemory) -> u16
        ensures effect { EventsEffect events.now self.old memory.old self.new memory.new }
        ensures sa { result ≡ sa_shown self.new }
        ensures fatal_cause { DeathHasCause events.now self.old memory.old self.new memory.new }
        ensures credits { CreditsAgree self.new }
        ensures well_formed { AreWellFormed self.new.exec.units }
    {
        self.play_in(events, memory.as_mut_slice())
    }

    // Does the same over a slice.
    fn play_in(&mut self, events: &[HostEvent], memory: &mut [u8]) -> u16
        requires memory { IsMemory memory.old }
        ensures effect { EventsEffect events.now self.old memory.old self.new memory.new }
        ensures sa { result ≡ sa_shown self.new }
        ensures fatal_cause { DeathHasCause events.now self.old memory.old self.new memory.new }
        ensures credits { CreditsAgree self.new }
        ensures well_formed { AreWellFormed self.new.exec.units }
    {
        self.play_all(events, memory);
        self.keep();
        self.read_sa()
    }

    fn play_all(&mut self, events: &[HostEvent], memory: &mut [u8])
        requires { IsMemory memory.old }
        ensures { EventsEffect events.now self.old memory.old self.new memory.new }
    {
        for &event in events {
            self.play_one(event, memory);
        }
    }

    // Applies one event.
    fn play_one(&mut self, event: HostEvent, memory: &mut [u8])
        requires { IsMemory memory.old }
        ensures { EventEffect event self.old memory.old self.new memory.new }
    {
        match event {
            HostEvent::WriteIp => self.write_ip(0),
            HostEvent::ReadIp => {
                self.read_ip();
            }
            HostEvent::WriteSa(word) => self.write_sa_in(word, memory),
            HostEvent::Word { address, word } => {
                uda_mem::write_word(memory, address, word);
            }
            HostEvent::Turn => {
                self.turn_in(memory);
            }
        }
    }
}
