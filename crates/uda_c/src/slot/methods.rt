//! Methods of a slot.
ghost use Rattle.uda_c.specs.Slots.{TakesSlot, slot_of, is_empty};
ghost use Rattle.std.specs.Prelude.{◌≡◌, length};

use super::Slot;
use crate::controller::length_of;
use std::ptr::null_mut;
use uda_called::BorrowedBytes;

impl Slot {
    /// Returns whether the slot has no bytes.
    #[tactic(auto, using(crate::proofs::Lending::empty, crate::proofs::Lending::full))]
    pub fn is_empty(&mut self) -> bool
        ensures value { result ≡ is_empty self.old }
        ensures same { self.new ≡ self.old }
    {
        match self.take() {
            Some(lent) => {
                self.put(lent);
                false
            }
            None => true,
        }
    }

    /// Returns the number of bytes in the slot.
    #[tactic(auto, using(crate::proofs::Lending::put_back))]
    pub fn length(&mut self) -> usize
        ensures value { result ≡ length self.old.held }
        ensures same { self.new ≡ self.old }
    {
        match self.take() {
            Some(lent) => {
                let mut lent = lent;
                let bytes = length_of(&mut lent);
                self.put(lent);
                bytes
            }
            None => 0,
        }
    }

    /// Takes the bytes out of the slot, if there are any.
    pub fn take(&mut self) -> Option<BorrowedBytes>
        ensures took { TakesSlot result self.old self.new }
    {
        let len = self.len;
        if len == 0 {
            return None;
        }
        let at = self.at;
        self.at = null_mut();
        self.len = 0;
        Some(BorrowedBytes { at, len })
    }

    /// Puts bytes into the slot, over any former ones.
    pub fn put(&mut self, lent: BorrowedBytes)
        ensures value { self.new ≡ slot_of lent }
    {
        let BorrowedBytes { at, len } = lent;
        self.at = at;
        self.len = len;
    }
}
