//! Decoding of texts.
//!
//! MSCP Basic Disk Functions Manual: command and end messages.

ghost use Rattle.std.specs.Prelude.{◌≡◌, ◌↔◌, MatchResult, MatchOption, IsNone};
ghost use Rattle.uda_packet.specs.declared.command.Command.{Command};
ghost use Rattle.uda_packet.specs.declared.end.End.{End};
ghost use Rattle.uda_packet.specs.declared.bad.Bad.{Bad};
ghost use Rattle.uda_packet.specs.Reading.{read_command, read_end};
ghost use Rattle.uda_packet.specs.Text.{CommandText, BadText, EndText, IsNoEnd};

use crate::bad::{Bad, BadKind};
use crate::command::{Command, Op};
use crate::end::{End, EndBody};
use crate::field::{MODIFIERS, REFERENCE, STATUS, UNIT, VERSION, code_in};

/// Returns the command of a text, or the reason why it is invalid.
///
/// Bytes that the command doesn't use may have any value. The opcode is checked first, then the modifiers,
/// then the version.
///
/// # Errors
///
/// The invalid field, with the reference and the unit of the text:
///
/// - no command has the opcode;
/// - a modifier bit is set that the command doesn't have;
/// - a Set Controller Characteristics asks for a version of MSCP other than 0.
///
/// MSCP Basic Disk Functions Manual: command messages.
pub fn decode_command(text: &[u8; 48]) -> Result<Command, Bad>
    ensures grammar { MatchResult result (λ c. CommandText text.now c) (λ b. BadText text.now b) }
    ensures read { read_command text.now ≡ result }
    ensures command { (c : Command) → (result ≡ Ok c) ↔ CommandText text.now c }
    ensures fault { (b : Bad) → (result ≡ Err b) ↔ BadText text.now b }
{
    let reference = REFERENCE.get(text);
    let unit = UNIT.get(text);
    let bad = |kind, body| Bad {
        reference,
        unit,
        kind,
        body,
    };
    let Some(op) = Op::of_code(code_in(text), text) else {
        return Err(bad(BadKind::Opcode, EndBody::Invalid));
    };
    let row = op.row();
    let modifiers = MODIFIERS.get(text);
    if modifiers & row.modifiers != modifiers {
        return Err(bad(BadKind::Modifiers, row.blank));
    }
    if row.versioned && VERSION.get(text) != 0 {
        return Err(bad(BadKind::Version, row.blank));
    }
    Ok(Command {
        reference,
        unit,
        op,
    })
}

/// Returns the end message of a text, or `None` if byte 8 is not an end code.
///
/// Bytes that the end message doesn't use may have any value. So may its end flags, identifier and media
/// type.
///
/// MSCP Basic Disk Functions Manual: end messages.
pub fn decode_end(text: &[u8; 48]) -> Option<End>
    ensures grammar { MatchOption result (IsNoEnd text.now) (λ e. EndText text.now e) }
    ensures read { read_end text.now ≡ result }
    ensures message { (e : End) → (result ≡ Some e) ↔ EndText text.now e }
    ensures none { IsNone result ↔ IsNoEnd text.now }
{
    let body = EndBody::of_code(code_in(text), text)?;
    Some(End {
        reference: REFERENCE.get(text),
        unit: UNIT.get(text),
        status: STATUS.get(text),
        body,
    })
}
