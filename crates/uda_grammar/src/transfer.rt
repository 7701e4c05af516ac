//! The numbers of a transfer.

/// The numbers of a transfer: its unit, its first logical block, and its number of blocks or bytes.
#[derive(Clone, Copy)]
pub(crate) struct TransferNumbers {
    /// The unit's number.
    pub(crate) unit: u16,
    /// The first logical block.
    pub(crate) lbn: u32,
    /// The number of blocks or bytes.
    pub(crate) count: u32,
}
