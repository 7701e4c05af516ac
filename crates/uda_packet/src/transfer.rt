//! Transfers: the commands that read, write or clear blocks.
//!
//! MSCP Basic Disk Functions Manual: transfer commands.

ghost use Rattle.std.specs.Prelude.{◌≡◌};
ghost use Rattle.uda_packet.specs.Transfer.{changes_blocks, has_buffer};

use crate::end::Kind;

/// The range and the buffer of a transfer of any of the four kinds.
///
/// MSCP Basic Disk Functions Manual: transfer commands.
#[derive(Clone, Copy, PartialEq, Eq, Debug)]
pub struct Transfer {
    /// The kind of transfer.
    pub kind: Kind,
    /// The number of bytes.
    pub bytes: u32,
    /// The first logical block.
    pub lbn: u32,
    /// The address of the host's buffer; 0 for an Access or an Erase, which have none.
    pub buffer: u32,
}

impl Kind {
    /// Returns whether such a transfer changes blocks: an Erase or a Write.
    pub fn changes_blocks(self) -> bool
        ensures changes { result ≡ changes_blocks self }
    {
        matches!(self, Kind::Erase | Kind::Write)
    }

    /// Returns whether such a transfer has a buffer in host memory: a Read or a Write.
    pub fn has_buffer(self) -> bool
        ensures buffer { result ≡ has_buffer self }
    {
        matches!(self, Kind::Read | Kind::Write)
    }
}
