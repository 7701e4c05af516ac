//! End messages of the compatible profile.
//!
//! MSCP Basic Disk Functions Manual: end messages; Abort, Get Command Status, Determine Access Paths, Compare
//! Controller Data, Flush, Set Unit Characteristics, Compare Host Data.

ghost use Rattle.std.specs.Prelude.{◌≡◌, ◌<◌, ◌≤◌, Some, length};
ghost use Rattle.uda_packet.specs.Field.{with_entries};
ghost use Rattle.uda_packet.specs.Reply.{basic_reply, strict_end, basic_body, reply_row, reply_code};
ghost use Rattle.uda_packet.specs.Reply.{reply_length, reply_name, reply_entries, reply_named, ReplyFits};
ghost use Rattle.uda_packet.specs.Reply.{read_reply, written_reply};

use crate::encoding::head;
use crate::end::{BodyRow, END_CODE, End, EndBody};
use crate::field::{
    BYTE_COUNT, NAMED, PROGRESS, REFERENCE, STATUS, Text, UNIT, UNIT_FLAGS, UNIT_SIZE, code_in,
};

/// An end message of the compatible profile. This profile has commands that the strict one doesn't know.
///
/// The default value is no controller's. It fills unused elements of an array of end messages.
///
/// MSCP Basic Disk Functions Manual: end messages.
#[derive(Clone, Copy, PartialEq, Eq, Debug, Default)]
pub struct Reply {
    /// The reference number of the command.
    pub reference: u32,
    /// The unit number of the command.
    pub unit: u16,
    /// The status word: the major status in bits 4-0, the subcode above.
    pub status: u16,
    /// The command that ended, with its results.
    pub body: ReplyBody,
}

impl Reply {
    /// Returns an end message of the strict profile in the form of the compatible profile.
    pub fn basic(end: End) -> Reply
        ensures reply { result ≡ basic_reply end }
    {
        Reply {
            reference: end.reference,
            unit: end.unit,
            status: end.status,
            body: ReplyBody::Basic(end.body),
        }
    }

    /// Returns the end message that a strict port sends: this one if the strict profile knows it, or that
    /// of an invalid command.
    pub fn strict_end(&self) -> End
        ensures end { result ≡ strict_end self.now }
    {
        End {
            reference: self.reference,
            unit: self.unit,
            status: self.status,
            body: self.body.basic(),
        }
    }
}

/// The command that an end message of the compatible profile ends, with its results.
///
/// MSCP Basic Disk Functions Manual: end messages.
#[derive(Clone, Copy, PartialEq, Eq, Debug, Default)]
pub enum ReplyBody {
    /// A command that the strict profile knows, or an invalid command.
    Basic(EndBody),
    /// Abort.
    Abort {
        /// The reference of the command to abort.
        named: u32,
    },
    /// Get Command Status.
    CommandStatus {
        /// The reference of the command whose status is requested.
        named: u32,
        /// The byte count of that command, if it is a pending transfer; otherwise 0.
        progress: u32,
    },
    /// Determine Access Paths.
    AccessPaths,
    /// Compare Controller Data.
    CompareController,
    /// Flush.
    #[default]
    Flush,
    /// Set Unit Characteristics.
    SetUnit {
        /// The unit flags: `UnitFlags` as a word.
        flags: u16,
        /// The unit's size in blocks.
        size: u32,
    },
    /// Compare Host Data.
    Compare {
        /// The number of bytes that are equal before the first difference, or before the block that could
        /// not be read.
        bytes: u32,
    },
}

impl ReplyBody {
    /// Returns the end code: the opcode of the command with bit 7 set, or only that bit for an invalid
    /// command.
    ///
    /// MSCP Basic Disk Functions Manual: end codes.
    pub fn code(self) -> u8
        ensures code { result ≡ reply_code self }
    {
        END_CODE + self.row().opcode
    }

    /// Returns the length in bytes that the manual gives such an end message.
    ///
    /// MSCP Basic Disk Functions Manual: end messages.
    pub fn length(self) -> u16
        ensures length { result ≡ reply_length self }
        ensures within { result ≤ 48 }
    {
        self.row().length
    }

    /// Returns the name of the command, or `invalid command`.
    pub fn name(self) -> &'static str
        ensures name { result.now ≡ reply_name self }
    {
        self.row().name
    }

    // Returns the body that a strict port sends.
    fn basic(self) -> EndBody
        ensures { result ≡ basic_body self }
    {
        match self {
            ReplyBody::Basic(body) => body,
            ReplyBody::Abort { .. } => EndBody::Invalid,
            ReplyBody::CommandStatus { .. } => EndBody::Invalid,
            ReplyBody::AccessPaths => EndBody::Invalid,
            ReplyBody::CompareController => EndBody::Invalid,
            ReplyBody::Flush => EndBody::Invalid,
            ReplyBody::SetUnit { .. } => EndBody::Invalid,
            ReplyBody::Compare { .. } => EndBody::Invalid,
        }
    }

    // Returns the constant facts of the body, without its numbers.
    fn row(self) -> BodyRow
        ensures opcode { result.opcode ≡ (reply_row self).opcode }
        ensures below { result.opcode < 128 }
        ensures length { result.length ≡ reply_length self }
        ensures within { result.length ≤ 48 }
        ensures name { result.name.now ≡ reply_name self }
    {
        match self {
            ReplyBody::Basic(body) => body.row(),
            ReplyBody::Abort { .. } => BodyRow::new(1, 16, "Abort"),
            ReplyBody::CommandStatus { .. } => BodyRow::new(2, 20, "Get Command Status"),
            ReplyBody::AccessPaths => BodyRow::new(11, 12, "Determine Access Paths"),
            ReplyBody::CompareController => BodyRow::new(17, 12, "Compare Controller Data"),
            ReplyBody::Flush => BodyRow::new(19, 12, "Flush"),
            ReplyBody::SetUnit { .. } => BodyRow::new(10, 44, "Set Unit Characteristics"),
            ReplyBody::Compare { .. } => BodyRow::new(32, 32, "Compare Host Data"),
        }
    }

    // Returns the body of an end code, with the numbers of the text.
    pub(crate) fn of_code(code: u8, text: &Text) -> Option<ReplyBody>
        ensures { result ≡ reply_named code text.now }
    {
        if let Some(body) = EndBody::of_code(code, text) {
            return Some(ReplyBody::Basic(body));
        }
        Some(match code {
            0x81 => ReplyBody::Abort {
                named: NAMED.get(text),
            },
            0x82 => ReplyBody::CommandStatus {
                named: NAMED.get(text),
                progress: PROGRESS.get(text),
            },
            0x8b => ReplyBody::AccessPaths,
            0x91 => ReplyBody::CompareController,
            0x93 => ReplyBody::Flush,
            0x8a => ReplyBody::SetUnit {
                flags: UNIT_FLAGS.get(text),
                size: UNIT_SIZE.get(text),
            },
            0xa0 => ReplyBody::Compare {
                bytes: BYTE_COUNT.get(text),
            },
            _ => return None,
        })
    }

    // Writes the fields that follow the status of an end message.
    pub(crate) fn put(self, text: &mut Text, unit: u16, status: u16)
        ensures written { text.new ≡ with_entries (reply_entries unit status self) text.old }
        ensures fits { ReplyFits self }
    {
        match self {
            ReplyBody::Basic(body) => body.put(text, unit, status),
            ReplyBody::Abort { named } => NAMED.put(text, named),
            ReplyBody::CommandStatus { named, progress } => {
                NAMED.put(text, named);
                PROGRESS.put(text, progress);
            }
            ReplyBody::AccessPaths | ReplyBody::CompareController | ReplyBody::Flush => {}
            ReplyBody::SetUnit { flags, size } => {
                UNIT_FLAGS.put(text, flags);
                UNIT_SIZE.put(text, size);
            }
            ReplyBody::Compare { bytes } => BYTE_COUNT.put(text, bytes),
        }
    }
}

/// Returns the text of an end message of the compatible profile. `decode_reply` reads it as the same end
/// message, whatever its numbers. A message that the strict profile knows has the text of
/// [`encode_end`](crate::encode_end).
///
/// MSCP Basic Disk Functions Manual: end messages.
pub fn encode_reply(reply: &Reply) -> [u8; 48]
    ensures written { result ≡ written_reply reply.now }
    ensures long { length result ≡ 48 }
    ensures back { read_reply result ≡ Some reply.now }
{
    let Reply {
        reference,
        unit,
        status,
        body,
    } = *reply;
    let mut text = head(reference, unit, body.code());
    STATUS.put(&mut text, status);
    body.put(&mut text, unit, status);
    text
}

/// Returns the end message of the compatible profile in a text, or `None` if byte 8 is no end code of this
/// profile. It is one that [`decode_end`](crate::decode_end) reads, or one of a command that the strict
/// profile doesn't know.
///
/// MSCP Basic Disk Functions Manual: end messages.
pub fn decode_reply(text: &[u8; 48]) -> Option<Reply>
    ensures read { result ≡ read_reply text.now }
{
    let body = ReplyBody::of_code(code_in(text), text)?;
    Some(Reply {
        reference: REFERENCE.get(text),
        unit: UNIT.get(text),
        status: STATUS.get(text),
        body,
    })
}
