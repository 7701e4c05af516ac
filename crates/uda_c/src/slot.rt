//! The struct with which C passes an image and gets it back.
ghost use Rattle.uda_c.specs.SlotOwns.{slot_owns};
ghost use Rattle.std.specs.Prelude.{List, ℕ};

use std::marker::Model;

mod methods;

/// The bytes of an image that C has, or none. If `len` is 0 there are none, whatever `at` is.
///
/// While a call has the struct, or a unit has the bytes, nothing else reads or writes them.
#[repr(C)]
#[derive(Drop)]
pub struct Slot {
    pub at: *mut u8,
    pub len: usize,
    pub ghost held: { List ℕ },
}

impl Model for Slot {
    ghost also_owns = { λ m. slot_owns m.at m.len m.held };
}
