//! Encoding of texts.
//!
//! MSCP Basic Disk Functions Manual: command and end messages.

ghost use Rattle.std.specs.Prelude.{◌≡◌, [], ◌∷◌, length};
ghost use Rattle.uda_packet.specs.Field.{◌holds◌, text_of, with_entries, reference_field, unit_field};
ghost use Rattle.uda_packet.specs.Field.{code_field};
ghost use Rattle.uda_packet.specs.Text.{CommandText, EndText};
ghost use Rattle.uda_packet.specs.Reading.{read_command, read_end};
ghost use Rattle.uda_packet.specs.Written.{written_command, written_end};

use crate::command::Command;
use crate::end::End;
use crate::field::{CODE, REFERENCE, STATUS, Text, UNIT};

/// Returns the text of a command. `decode_command` reads it as the same command, whatever its numbers.
///
/// Every byte that the command doesn't use is 0. An Online whose `soft` is not `None` has the modifier
/// 0x0004. Its unit flags are 0x1000 to request software protection, and 0 to request none.
///
/// MSCP Basic Disk Functions Manual: command messages.
pub fn encode_command(command: &Command) -> [u8; 48]
    ensures written { result ≡ written_command command.now }
    ensures long { length result ≡ 48 }
    ensures text { CommandText result command.now }
    ensures back { read_command result ≡ Ok command.now }
{
    let Command {
        reference,
        unit,
        op,
    } = *command;
    let mut text = head(reference, unit, op.opcode());
    op.put(&mut text);
    text
}

/// Returns the text of an end message. `decode_end` reads it as the same end message, whatever its numbers.
/// Every byte that the end message doesn't use is 0.
///
/// These fields depend on the status:
///
/// - the unit's identifier and media type in the end message of an Online: if the status is 0x0000 or
///   0x0100;
/// - the same in that of a Get Unit Status: if it is 0x0000 or 0x0004;
/// - the controller's identifier: if it is 0x0000.
///
/// MSCP Basic Disk Functions Manual: end messages.
pub fn encode_end(end: &End) -> [u8; 48]
    ensures written { result ≡ written_end end.now }
    ensures long { length result ≡ 48 }
    ensures text { EndText result end.now }
    ensures back { read_end result ≡ Some end.now }
{
    let End {
        reference,
        unit,
        status,
        body,
    } = *end;
    let mut text = head(reference, unit, body.code());
    STATUS.put(&mut text, status);
    body.put(&mut text, unit, status);
    text
}

// Makes a text with the fields that all messages begin with, and 0 elsewhere.
pub(crate) fn head(reference: u32, unit: u16, code: u8) -> Text
    ensures { result
        ≡ text_of (reference_field holds reference ∷ unit_field holds unit
        ∷ code_field holds code ∷ []) }
{
    let mut text = [0; 48];
    REFERENCE.put(&mut text, reference);
    UNIT.put(&mut text, unit);
    text[CODE] = code;
    text
}
