//! The structs in which C gets its images when it frees a controller.
ghost use Rattle.std.specs.Prelude.{◌≡◌};
ghost use Rattle.uda_c.specs.Slots.{are_empty};

use crate::slot::Slot;

/// A slot for the image of each unit: in C an array of four.
#[repr(C)]
#[derive(Drop)]
pub struct UnitImages {
    pub unit_0: Slot,
    pub unit_1: Slot,
    pub unit_2: Slot,
    pub unit_3: Slot,
}

impl UnitImages {
    /// Returns whether no slot has an image.
    pub fn are_empty(&mut self) -> bool
        ensures value { result ≡ are_empty self.old }
        ensures same { self.new ≡ self.old }
    {
        let first = self.unit_0.is_empty();
        let second = self.unit_1.is_empty();
        let third = self.unit_2.is_empty();
        let last = self.unit_3.is_empty();
        first && second && third && last
    }
}
