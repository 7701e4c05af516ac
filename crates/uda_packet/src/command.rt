//! Command messages.

ghost use Rattle.std.specs.Prelude.{◌≡◌, Some, None, false};
ghost use Rattle.uda_packet.specs.Display.{command_display, op_name};
ghost use Rattle.uda_packet.specs.Commands.{protection_in, protection_flags, protection_entries};
ghost use Rattle.uda_packet.specs.Field.{with_entries};
ghost use Rattle.uda_packet.specs.Opcode.{opcode_of, blank_body, allowed_modifiers, names_version};
ghost use Rattle.uda_packet.specs.Opcode.{op_named, parameters};
ghost use Rattle.uda_packet.specs.Range.{EntriesFit};
ghost use Rattle.uda_packet.specs.Transfer.{transfer_of};

use crate::end::{EndBody, Kind};
use crate::field::{ADDRESS, BYTE_COUNT, LBN, MODIFIERS, Text, UNIT_FLAGS};
use crate::flags::Modifiers;
use crate::transfer::Transfer;
use bitflags::Flags;
use std::fmt;
use uda_disk::UnitFlags;

/// A command message: the request of a host to one unit.
///
/// The default value is no request of a host. It fills unused elements of an array or a queue of commands.
///
/// MSCP Basic Disk Functions Manual: command messages.
#[derive(Clone, Copy, PartialEq, Eq, Debug, Default)]
pub struct Command {
    /// The command reference number, by which the host identifies the end message.
    pub reference: u32,
    /// The unit number.
    pub unit: u16,
    /// The operation, with its parameters.
    pub op: Op,
}

/// Writes a line such as `3 Read unit 0 lbn 9 bytes 512`, or `4 Online unit 0`.
impl fmt::Display for Command {
    ghost output = { λ command. Some (command_display command) };

    fn fmt<W: fmt::Write>(&self, f: &mut fmt::Formatter<W>) -> fmt::Result {
        let Command {
            reference,
            unit,
            op,
        } = *self;
        let name = op.name();
        match op.transfer() {
            Some(t) => write!(
                f,
                "{reference} {name} unit {unit} lbn {} bytes {}",
                t.lbn, t.bytes
            ),
            None => write!(f, "{reference} {name} unit {unit}"),
        }
    }
}

/// The operation of a command, with its parameters.
///
/// MSCP Basic Disk Functions Manual: opcodes.
#[derive(Clone, Copy, PartialEq, Eq, Debug, Default)]
pub enum Op {
    /// Get Unit Status: asks for the unit's state.
    #[default]
    Status,
    /// Set Controller Characteristics, for version 0 of MSCP.
    Controller,
    /// Available: makes the unit available, so that its use ends.
    Available,
    /// Online: brings the unit online.
    Online {
        /// Whether the unit is to have software write protection; `None` if the host doesn't say.
        soft: Option<bool>,
    },
    /// Access: reads blocks and moves nothing to the host.
    Access {
        /// The number of bytes.
        bytes: u32,
        /// The first logical block.
        lbn: u32,
    },
    /// Erase: writes zeros.
    Erase {
        /// The number of bytes.
        bytes: u32,
        /// The first logical block.
        lbn: u32,
    },
    /// Read: moves blocks into the host's buffer.
    Read {
        /// The number of bytes.
        bytes: u32,
        /// The address of the host's buffer.
        address: u32,
        /// The first logical block.
        lbn: u32,
    },
    /// Write: moves the host's buffer into blocks.
    Write {
        /// The number of bytes.
        bytes: u32,
        /// The address of the host's buffer.
        address: u32,
        /// The first logical block.
        lbn: u32,
    },
}

impl Op {
    /// Returns the opcode of the command.
    ///
    /// MSCP Basic Disk Functions Manual: opcodes.
    pub fn opcode(self) -> u8
        ensures opcode { result ≡ opcode_of self }
    {
        self.row().blank.opcode()
    }

    /// Returns the name of the command.
    pub fn name(self) -> &'static str
        ensures name { result.now ≡ op_name self }
    {
        self.row().blank.name()
    }

    /// Returns the body of the command's end message, with all numbers 0.
    pub fn blank_body(self) -> EndBody
        ensures blank { result ≡ blank_body self }
    {
        self.row().blank
    }

    /// Returns the range and the buffer of a transfer, or `None` for any other operation.
    pub fn transfer(self) -> Option<Transfer>
        ensures transfer { result ≡ transfer_of self }
    {
        self.row().transfer
    }

    // Returns the constant facts of the command, without its parameters.
    pub(crate) fn row(self) -> OpRow
        ensures blank { result.blank ≡ blank_body self }
        ensures modifiers { result.modifiers ≡ allowed_modifiers self }
        ensures versioned { result.versioned ≡ names_version self }
        ensures transfer { result.transfer ≡ transfer_of self }
    {
        match self {
            Op::Status => OpRow::plain(EndBody::Status { flags: 0 }),
            Op::Controller => OpRow {
                versioned: true,
                ..OpRow::plain(EndBody::Controller)
            },
            Op::Available => OpRow::plain(EndBody::Available),
            Op::Online { .. } => OpRow {
                modifiers: Modifiers::SET_WRITE_PROTECT.bits(),
                ..OpRow::plain(EndBody::Online { flags: 0, size: 0 })
            },
            Op::Access { bytes, lbn } => OpRow::extent(Kind::Access, bytes, lbn),
            Op::Erase { bytes, lbn } => OpRow::extent(Kind::Erase, bytes, lbn),
            Op::Read {
                bytes,
                address,
                lbn,
            } => OpRow::buffer(Kind::Read, bytes, address, lbn),
            Op::Write {
                bytes,
                address,
                lbn,
            } => OpRow::buffer(Kind::Write, bytes, address, lbn),
        }
    }

    // Returns the operation of an opcode, with the parameters in the text.
    pub(crate) fn of_code(code: u8, text: &Text) -> Option<Op>
        ensures { result ≡ op_named code text.now }
    {
        Some(match code {
            3 => Op::Status,
            4 => Op::Controller,
            8 => Op::Available,
            9 => Op::Online {
                soft: protection_in(text),
            },
            16 => Op::Access {
                bytes: BYTE_COUNT.get(text),
                lbn: LBN.get(text),
            },
            18 => Op::Erase {
                bytes: BYTE_COUNT.get(text),
                lbn: LBN.get(text),
            },
            33 => Op::Read {
                bytes: BYTE_COUNT.get(text),
                address: ADDRESS.get(text),
                lbn: LBN.get(text),
            },
            34 => Op::Write {
                bytes: BYTE_COUNT.get(text),
                address: ADDRESS.get(text),
                lbn: LBN.get(text),
            },
            _ => return None,
        })
    }

    // Writes the fields that follow the command's opcode.
    pub(crate) fn put(self, text: &mut Text)
        ensures written { text.new ≡ with_entries (parameters self) text.old }
        ensures fits { EntriesFit (parameters self) }
    {
        match self {
            Op::Status | Op::Controller | Op::Available => {}
            Op::Online { soft } => put_protection(text, soft),
            Op::Access { bytes, lbn } | Op::Erase { bytes, lbn } => {
                BYTE_COUNT.put(text, bytes);
                LBN.put(text, lbn);
            }
            Op::Read {
                bytes,
                address,
                lbn,
            }
            | Op::Write {
                bytes,
                address,
                lbn,
            } => {
                BYTE_COUNT.put(text, bytes);
                ADDRESS.put(text, address);
                LBN.put(text, lbn);
            }
        }
    }
}

// The constant facts of a command, without its parameters. Its opcode is that of its end message.
#[derive(Clone, Copy)]
pub(crate) struct OpRow {
    // The body of the end message, with all numbers 0.
    pub(crate) blank: EndBody,
    // The modifier bits that the command may have.
    pub(crate) modifiers: u16,
    // Whether the command has a field for the version of MSCP.
    pub(crate) versioned: bool,
    // The range and the buffer of a transfer.
    pub(crate) transfer: Option<Transfer>,
}

impl OpRow {
    // Makes the row of a command without modifiers, version and blocks.
    fn plain(blank: EndBody) -> OpRow
        ensures blank { result.blank ≡ blank }
        ensures modifiers { result.modifiers ≡ 0 }
        ensures versioned { result.versioned ≡ false }
        ensures transfer { result.transfer ≡ None }
    {
        OpRow {
            blank,
            modifiers: 0,
            versioned: false,
            transfer: None,
        }
    }

    // Makes the row of a transfer without a buffer. The address 0 replaces it.
    fn extent(kind: Kind, bytes: u32, lbn: u32) -> OpRow
        ensures row { result ≡ record {
          blank = EndBody.Moved kind 0;
          modifiers = 0;
          versioned = false;
          transfer = Some (record { kind = kind; bytes = bytes; lbn = lbn; buffer = 0 });
        } }
    {
        OpRow::buffer(kind, bytes, 0, lbn)
    }

    // Makes the row of a transfer with a buffer in host memory.
    fn buffer(kind: Kind, bytes: u32, address: u32, lbn: u32) -> OpRow
        ensures row { result ≡ record {
          blank = EndBody.Moved kind 0;
          modifiers = 0;
          versioned = false;
          transfer = Some (record { kind = kind; bytes = bytes; lbn = lbn; buffer = address });
        } }
    {
        let transfer = Transfer {
            kind,
            bytes,
            lbn,
            buffer: address,
        };
        OpRow {
            transfer: Some(transfer),
            ..OpRow::plain(EndBody::Moved { kind, bytes: 0 })
        }
    }
}

// Returns whether an Online asks for software protection, or `None` if its modifiers say nothing of it.
fn protection_in(text: &Text) -> Option<bool>
    ensures { result ≡ protection_in text.now }
{
    if MODIFIERS.get(text) == Modifiers::SET_WRITE_PROTECT.bits() {
        Some(UnitFlags::from_bits_retain(UNIT_FLAGS.get(text)).contains(UnitFlags::SOFT))
    } else {
        None
    }
}

// Writes the request for software protection: the modifier and the unit flag.
fn put_protection(text: &mut Text, soft: Option<bool>)
    ensures written { text.new ≡ with_entries (protection_entries soft) text.old }
    ensures fits { EntriesFit (protection_entries soft) }
{
    if let Some(soft) = soft {
        MODIFIERS.put(text, Modifiers::SET_WRITE_PROTECT.bits());
        UNIT_FLAGS.put(text, protection_flags(soft).bits());
    }
}

// Returns the unit flags that request software protection, or none.
fn protection_flags(soft: bool) -> UnitFlags
    ensures { result.0 ≡ protection_flags soft }
{
    if soft {
        UnitFlags::SOFT
    } else {
        UnitFlags::empty()
    }
}
