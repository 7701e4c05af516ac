//! The status of a call from C.
ghost use Rattle.std.specs.Prelude.{◌≡◌};
ghost use Rattle.uda_c.specs.CallStatus.{status_code};

use uda_port::Turn;

/// The status that an export returns. C gets its code.
#[derive(Clone, Copy, Debug, PartialEq, Eq)]
pub enum CallStatus {
    /// The call succeeded.
    Done,
    /// The call ran a turn, with this result.
    RanTurn(Turn),
    /// The handle has no controller.
    NoController,
    /// An allocation failed.
    NoMemory,
    /// There is no such unit: units are 0 to 3.
    NoSuchUnit,
    /// The unit has an image already.
    AlreadyAttached,
    /// The unit has no image.
    NotAttached,
    /// The length is invalid: an image's is a multiple of 512 and not 0, that of guest memory or of a bus is even,
    /// a saved state's is fixed, and that of a struct which is filled is at least its own.
    BadLength,
    /// An image, a guest's memory or a bus may not have this many bytes.
    TooLarge,
    /// A slot for an image isn't empty.
    NotEmpty,
    /// The handle has a controller already.
    HasController,
    /// There is no such bus.
    NoSuchBus,
    /// There is no such drive type.
    NoSuchType,
    /// The saved state has another version.
    OtherVersion,
    /// No controller has the saved state.
    BadState,
    /// The units don't have images of the saved sizes and hardware write protections.
    OtherImages,
    /// The numbers of four units from this one on would wrap past 65,535.
    BadFirstUnit,
    /// The number of bits of an offset in a page of a map, or of its shift, is above 31.
    BadMap,
    /// The unit's image is in memory where the call needs one that C reads and writes, or the other way round. Or a
    /// unit has such an image, and the call accepts none. Or no blocks are prepared in the way of this number.
    OtherKind,
    /// An address leads nowhere.
    Nowhere,
    /// A step of a turn is of another controller, of an earlier turn, or out of order.
    Stale,
    /// A run stopped before a turn that uses blocks of an image that C reads and writes.
    NeedsBlocks,
}

impl CallStatus {
    /// Returns the number of the status in C.
    pub fn code(self) -> u32
        ensures { result ≡ status_code self }
    {
        match self {
            CallStatus::Done => 0,
            CallStatus::RanTurn(turn) => match turn {
                Turn::Idle => 0,
                Turn::Fetched => 1,
                Turn::Executed => 2,
                Turn::Delivered => 3,
                Turn::Notified => 4,
                Turn::Dead => 5,
            },
            CallStatus::NoController => 64,
            CallStatus::NoMemory => 65,
            CallStatus::NoSuchUnit => 66,
            CallStatus::AlreadyAttached => 67,
            CallStatus::NotAttached => 68,
            CallStatus::BadLength => 69,
            CallStatus::TooLarge => 70,
            CallStatus::NotEmpty => 71,
            CallStatus::HasController => 72,
            CallStatus::NoSuchBus => 73,
            CallStatus::NoSuchType => 74,
            CallStatus::OtherVersion => 75,
            CallStatus::BadState => 76,
            CallStatus::OtherImages => 77,
            CallStatus::BadFirstUnit => 78,
            CallStatus::BadMap => 79,
            CallStatus::OtherKind => 80,
            CallStatus::Nowhere => 81,
            CallStatus::Stale => 82,
            CallStatus::NeedsBlocks => 83,
        }
    }
}
