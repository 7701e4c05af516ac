//! Invalid commands.

ghost use Rattle.std.specs.Prelude.{◌≡◌, Some};
ghost use Rattle.uda_packet.specs.Bad.{fault_number, fault_status, bad_end};
ghost use Rattle.uda_packet.specs.Display.{bad_display, fault_display};

use crate::end::{End, EndBody};
use crate::status;
use std::error::Error;
use std::fmt;

/// The reason why a text is not a valid command.
///
/// MSCP Basic Disk Functions Manual: invalid command end message.
#[derive(Clone, Copy, PartialEq, Eq, Debug)]
pub struct Bad {
    /// The command reference number in the text.
    pub reference: u32,
    /// The unit number in the text.
    pub unit: u16,
    /// The invalid field.
    pub kind: BadKind,
    /// The body of the end message: that of the opcode with all numbers 0, or `Invalid` if no command has
    /// the opcode.
    pub body: EndBody,
}

/// The invalid field of a text. The numbers follow the order of the checks.
#[derive(Clone, Copy, PartialEq, Eq, Debug)]
pub enum BadKind {
    /// No command has this opcode.
    Opcode = 1,
    /// A modifier bit is set that the command doesn't have.
    Modifiers = 2,
    /// The host asks for a version of MSCP other than 0.
    Version = 3,
}

impl Bad {
    /// Returns the end message for the host. Its status is 0x0801 for an invalid opcode, 0x0A01 for invalid
    /// modifiers, and 0x0C01 for an invalid version.
    ///
    /// MSCP Basic Disk Functions Manual: invalid command end message.
    pub fn end(&self) -> End
        ensures end { result ≡ bad_end self.now }
    {
        End {
            reference: self.reference,
            unit: self.unit,
            status: self.kind.status(),
            body: self.body,
        }
    }
}

impl BadKind {
    /// Returns the number of the kind: 1 for the opcode, 2 for the modifiers, 3 for the version.
    pub fn number(self) -> u8
        ensures number { result ≡ fault_number self }
    {
        self as u8
    }

    // Returns the status: invalid command, with the field's byte offset in the text as its subcode.
    fn status(self) -> u16
        ensures { result ≡ fault_status self }
    {
        match self {
            BadKind::Opcode => status::INVALID_OPCODE,
            BadKind::Modifiers => status::INVALID_MODIFIERS,
            BadKind::Version => status::INVALID_VERSION,
        }
    }
}

impl fmt::Display for BadKind {
    ghost output = { λ kind. Some (fault_display kind) };

    fn fmt<W: fmt::Write>(&self, f: &mut fmt::Formatter<W>) -> fmt::Result {
        f.write_str(match self {
            BadKind::Opcode => "no command has this opcode",
            BadKind::Modifiers => "a modifier is none of the command's",
            BadKind::Version => "the version of MSCP is not 0",
        })
    }
}

impl Error for BadKind {}

/// Writes a line such as `reference 7, unit 2: no command has this opcode`.
impl fmt::Display for Bad {
    ghost output = { λ bad. Some (bad_display bad) };

    fn fmt<W: fmt::Write>(&self, f: &mut fmt::Formatter<W>) -> fmt::Result {
        let Bad {
            reference,
            unit,
            kind,
            ..
        } = *self;
        write!(f, "reference {reference}, unit {unit}: {kind}")
    }
}

impl Error for Bad {}
