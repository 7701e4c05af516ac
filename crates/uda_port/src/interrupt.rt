//! Interrupts: the host's settings, and the pending request.
//!
//! UDA50 Programmer's Documentation Kit: initialization, interrupts.
ghost use Rattle.std.specs.Prelude.{◌≡◌};
ghost use Rattle.uda_port.specs.Interrupt.{NO_INTERRUPTS, interrupts_asked, raised, noted, vector_of};
ghost use Rattle.uda_port.specs.Interrupt.{served, has_vector, raised_by_step};

use crate::profile::Profile;

/// The interrupt settings of the first word of initialization, and whether a request is pending.
///
/// UDA50 Programmer's Documentation Kit: initialization, interrupts.
#[derive(Clone, Copy, Debug, PartialEq, Eq)]
pub struct Interrupts {
    /// Whether the steps of initialization interrupt: bit 7 of the word.
    pub enabled: bool,
    /// The vector address: four times bits 6-0 of the word. If it is 0, nothing interrupts.
    pub vector: u16,
    /// Whether an interrupt request is pending.
    pub requested: bool,
}

/// The bit of the first word that enables interrupts by the steps of initialization.
const ENABLE: u16 = 7;

/// The bits of the first word that are a quarter of the vector address.
const VECTOR: u16 = 0x007f;

impl Interrupts {
    /// Returns the settings before the first word: no vector and no request.
    pub(crate) fn none() -> Interrupts
        ensures { result ≡ NO_INTERRUPTS }
    {
        Interrupts {
            enabled: false,
            vector: 0,
            requested: false,
        }
    }

    /// Returns the settings of the first word. The strict profile ignores them.
    pub(crate) fn asked(self, profile: Profile, first: u16) -> Interrupts
        ensures { result ≡ interrupts_asked profile self first }
    {
        match profile {
            Profile::Strict => self,
            Profile::Compatible(_) => Interrupts {
                enabled: first >> ENABLE & 1 != 0,
                vector: 4 * (first & VECTOR),
                requested: false,
            },
        }
    }

    /// Returns whether there is a vector. The vector 0 means that there is none.
    pub(crate) fn has_vector(self) -> bool
        ensures { result ≡ has_vector self }
    {
        self.vector > 0
    }

    /// Raises a request for a ring transition or a fatal error, if there is a vector. The strict profile
    /// raises none.
    pub(crate) fn raised(self, profile: Profile) -> Interrupts
        ensures { result ≡ raised profile self }
    {
        match profile {
            Profile::Strict => self,
            Profile::Compatible(_) => Interrupts {
                requested: self.requested || self.has_vector(),
                ..self
            },
        }
    }

    /// Raises a request for a step of initialization, if interrupts are enabled and there is a vector. The
    /// strict profile raises none.
    pub(crate) fn raised_by_step(self, profile: Profile) -> Interrupts
        ensures { result ≡ raised_by_step profile self }
    {
        match profile {
            Profile::Strict => self,
            Profile::Compatible(_) => Interrupts {
                requested: self.requested || (self.enabled && self.has_vector()),
                ..self
            },
        }
    }

    /// Raises a request if the port set an interrupt indicator.
    pub(crate) fn note(&mut self, profile: Profile, indicator: Option<u32>)
        ensures { self.new ≡ noted indicator profile self.old }
    {
        if let Some(_) = indicator {
            *self = self.raised(profile);
        }
    }

    /// Returns the vector of the pending request, or None.
    pub(crate) fn request(self) -> Option<u16>
        ensures { result ≡ vector_of self }
    {
        if self.requested {
            Some(self.vector)
        } else {
            None
        }
    }

    /// Returns the same settings without a request.
    pub(crate) fn served(self) -> Interrupts
        ensures { result ≡ served self }
    {
        Interrupts {
            requested: false,
            ..self
        }
    }
}
