//! Access to the bytes.
ghost use Rattle.uda_called.specs.LendsBytes.{lent_follows};
ghost use Rattle.std.specs.Prelude.{length, ◌≡◌};
ghost use types.Logic.{sem};

use super::BorrowedBytes;

impl BorrowedBytes {
    /// Returns the bytes.
    pub fn bytes_mut(&mut self) -> &mut [u8]
        ensures* writes_back { sem 𝓛 (lent_follows self.entry result) }
        ensures value { result.now ≡ self.old.held }
    {
        unsafe { std::slice::from_raw_parts_mut(self.at, self.len) }
    }
}
