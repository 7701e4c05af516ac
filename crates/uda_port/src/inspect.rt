//! State of a port that an emulator can display, in addition to the registers.
//!
//! UDA50 Programmer's Documentation Kit: communication area, credits.
ghost use Rattle.std.specs.Prelude.{◌≡◌, slice_get, option_map};
ghost use Rattle.uda_exec.specs.Drives.{info_at, store_at};
ghost use Rattle.uda_port.specs.Guest.{is_due};

use crate::interrupt::Interrupts;
use crate::port::Port;
use crate::ring::Ring;
use uda_exec::UnitInfo;
use uda_image::BlockStore;

impl<S: BlockStore> Port<S> {
    /// Returns the response ring: its base, its number of descriptors and the index of the next one. Until
    /// initialization gives its address, it is one descriptor at address 0.
    pub fn responses(&self) -> Ring
        ensures ring { result ≡ self.now.responses }
    {
        self.responses
    }

    /// Returns the command ring. Until initialization gives its address, it is one descriptor at address 0.
    pub fn commands(&self) -> Ring
        ensures ring { result ≡ self.now.commands }
    {
        self.commands
    }

    /// Returns the mode and the size of a unit, or None if it has no drive or doesn't exist.
    pub fn unit(&self, unit: usize) -> Option<UnitInfo>
        ensures info { result ≡ info_at (slice_get self.now.exec.units unit) }
    {
        self.exec.unit(unit)
    }

    /// Returns the store of a unit, or None if it has no drive or doesn't exist.
    pub fn store(&self, unit: usize) -> Option<&S>
        ensures store { option_map (λ s. S.state s.now) result
            ≡ store_at (slice_get self.now.exec.units unit) }
    {
        self.exec.store(unit)
    }

    /// Returns the host's interrupt settings, and whether a request is pending.
    pub fn interrupts(&self) -> Interrupts
        ensures interrupts { result ≡ self.now.interrupts }
    {
        self.interrupts
    }

    /// Returns the number of credits that the host has: the number of commands that it may still post.
    pub fn credits(&self) -> u8
        ensures credits { result ≡ self.now.credits }
    {
        self.credits
    }

    /// Returns whether an attention message is due for a unit. It is delivered in the next turn that neither fetches nor
    /// executes, and finds a response descriptor of the port's. A dead port keeps what was due at its fatal error.
    ///
    /// MSCP Basic Disk Functions Manual: attention messages.
    pub fn is_attention_due(&self, unit: usize) -> bool
        ensures due { result ≡ is_due self.now.guest.attentions unit }
    {
        self.guest.is_due(unit)
    }
}
