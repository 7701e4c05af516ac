//! The unit flags.
//!
//! MSCP Basic Disk Functions Manual: unit flags.

ghost use Rattle.std.specs.Prelude.{⊤, [], ◌∷◌, codes};

use bitflags::{Flag, Flags, bitflag_items};

/// The unit flags: how a unit is protected against writing. Their methods are those of the trait [`Flags`] of
/// the crate `bitflags`.
#[derive(Clone, Copy, PartialEq, Eq, Debug)]
pub struct UnitFlags(u16);

bitflag_items! {
    impl UnitFlags: u16 {
        /// Software protection, which an Online sets.
        const SOFT = 0x1000;
        /// Hardware protection: the switch of the drive.
        const HARD = 0x2000;
    }
}

impl Flags for UnitFlags {
    type Bits = u16;

    ghost exact = { ⊤ };

    ghost table = { (codes "SOFT", 0x1000) ∷ (codes "HARD", 0x2000) ∷ [] };

    ghost set_of = { λ flags. flags.0 };

    fn flags<'a>() -> &'a [Flag<UnitFlags>] {
        UnitFlags::FLAGS
    }

    fn bits(&self) -> u16 {
        self.0
    }

    fn from_bits_retain(bits: u16) -> UnitFlags {
        UnitFlags(bits)
    }
}
