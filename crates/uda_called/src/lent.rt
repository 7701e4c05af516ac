//! Bytes that C has lent.
ghost use Rattle.uda_called.specs.Lies.{lies};
ghost use Rattle.std.specs.Prelude.{List, ℕ};

use std::marker::Model;

mod methods;

/// `len` bytes at `at`, below 2^63. While the library has the struct, nothing else reads or writes them.
#[derive(Drop)]
pub struct BorrowedBytes {
    pub at: *mut u8,
    pub len: usize,
    pub ghost held: { List ℕ },
}

impl Model for BorrowedBytes {
    ghost also_owns = { λ m. lies m.at m.len m.held };
}

unsafe impl Send for BorrowedBytes {}
