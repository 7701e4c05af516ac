//! The modifiers of a command.
//!
//! MSCP Basic Disk Functions Manual: command modifiers.

ghost use Rattle.std.specs.Prelude.{⊤, [], ◌∷◌, codes};

use bitflags::{Flag, Flags, bitflag_items};

/// The modifiers of a command in the strict profile: only Online has one. Their methods are those of the
/// trait [`Flags`], which this crate re-exports.
#[derive(Clone, Copy, PartialEq, Eq, Debug)]
pub struct Modifiers(u16);

bitflag_items! {
    impl Modifiers: u16 {
        /// The unit flags of the command say whether the unit is to have software protection.
        const SET_WRITE_PROTECT = 0x0004;
    }
}

impl Flags for Modifiers {
    type Bits = u16;

    ghost exact = { ⊤ };

    ghost table = { (codes "SET_WRITE_PROTECT", 0x0004) ∷ [] };

    ghost set_of = { λ modifiers. modifiers.0 };

    fn flags<'a>() -> &'a [Flag<Modifiers>] {
        Modifiers::FLAGS
    }

    fn bits(&self) -> u16 {
        self.0
    }

    fn from_bits_retain(bits: u16) -> Modifiers {
        Modifiers(bits)
    }
}
