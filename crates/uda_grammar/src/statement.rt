//! The request of one line of a script.
ghost use Rattle.std.specs.Prelude.{◌≡◌};
ghost use Rattle.uda_grammar.specs.Amounts.{amount_of, bytes_in};

/// The unit in which a line counts.
#[derive(Clone, Copy, Debug, PartialEq, Eq)]
pub(crate) enum Measure {
    /// Blocks of 512 bytes.
    Blocks,
    /// Bytes.
    Bytes,
}

impl Measure {
    /// Returns this many blocks or bytes.
    pub(crate) fn amount(self, count: u32) -> Amount
        ensures amount { result ≡ amount_of self count }
    {
        match self {
            Measure::Blocks => Amount::Blocks(count),
            Measure::Bytes => Amount::Bytes(count),
        }
    }
}

/// The amount of a transfer, as its line counts it.
#[derive(Clone, Copy, Debug, PartialEq, Eq)]
pub enum Amount {
    /// A number of blocks of 512 bytes.
    Blocks(u32),
    /// A number of bytes.
    Bytes(u32),
}

impl Amount {
    /// Returns the number of bytes.
    pub fn bytes(self) -> u64
        ensures bytes { result ≡ bytes_in self }
    {
        match self {
            Amount::Blocks(count) => 512 * u64::from(count),
            Amount::Bytes(count) => u64::from(count),
        }
    }
}

/// The request of one line of a script.
#[derive(Clone, Copy, Debug, PartialEq, Eq)]
pub enum Statement {
    /// `online U` and `online U protect`.
    Online {
        /// The unit's number.
        unit: u16,
        /// Whether the unit is to have software write protection.
        protect: bool,
    },
    /// `available U`.
    Available {
        /// The unit's number.
        unit: u16,
    },
    /// `status U`.
    Status {
        /// The unit's number.
        unit: u16,
    },
    /// `read U L N` and `readb U L B`.
    Read {
        /// The unit's number.
        unit: u16,
        /// The first logical block.
        lbn: u32,
        /// The amount to read.
        amount: Amount,
    },
    /// `access U L N` and `accessb U L B`.
    Access {
        /// The unit's number.
        unit: u16,
        /// The first logical block.
        lbn: u32,
        /// The amount to access.
        amount: Amount,
    },
    /// `erase U L N` and `eraseb U L B`.
    Erase {
        /// The unit's number.
        unit: u16,
        /// The first logical block.
        lbn: u32,
        /// The amount to erase.
        amount: Amount,
    },
    /// `write U L N` and `writeb U L B`: the next bytes of the data.
    Write {
        /// The unit's number.
        unit: u16,
        /// The first logical block.
        lbn: u32,
        /// The amount to write, at most 16,384 bytes.
        amount: Amount,
    },
    /// `fill U L N XX`: blocks filled with one byte.
    Fill {
        /// The unit's number.
        unit: u16,
        /// The first logical block.
        lbn: u32,
        /// The number of blocks, at most 32.
        count: u32,
        /// The byte that fills them.
        byte: u8,
    },
}
