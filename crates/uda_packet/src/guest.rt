//! Decoding of guests' commands: any command of basic MSCP, whatever its modifiers.
//!
//! MSCP Basic Disk Functions Manual: command messages, opcodes, command modifiers.

ghost use Rattle.std.specs.Prelude.{◌≡◌, ℕ, List, None, false};
ghost use Rattle.uda_packet.specs.Guest.{body_at_once, next_from, asks_next, unit_meant, modifiers_meant};
ghost use Rattle.uda_packet.specs.Guest.{plain_text, read_guest, other_connection_reply};
ghost use Rattle.uda_packet.specs.Guest.{resembled_text, read_resembled, read_plain, asked_as};
ghost use Rattle.uda_packet.specs.GuestCommands.{guest_op};
ghost use Rattle.uda_packet.specs.declared.guest_command.GuestOp.TheVariants.{Basic};
ghost use Rattle.uda_packet.specs.Field.{number_in, code_field};

use crate::command::{Command, Op};
use crate::decoding::decode_command;
use crate::end::{End, EndBody};
use crate::field::{ADDRESS, CODE, MODIFIERS, NAMED, REFERENCE, Text, UNIT, code_in};
use crate::guest_command::{GuestCommand, GuestOp};
use crate::guest_end::Identity;
use crate::reply::{Reply, ReplyBody};
use crate::status;

// The opcode of Get Unit Status.
const GET_UNIT_STATUS: u8 = 3;

// The modifier "next unit" of Get Unit Status.
const NEXT_UNIT: u16 = 0x0001;

// The number of units of a controller.
const UNITS: u16 = 4;

/// Returns the command of a guest's text, if it is to be executed.
///
/// - Its unit is the number of the drive that the guest means.
/// - Modifiers that have no meaning for the command are ignored. So are address bits that the bus doesn't
///   have.
/// - A Get Unit Status with the modifier 0x0001, *next unit*, is for the lowest of the controller's units
///   that isn't below the unit of the text. It is for unit 0 if there is none.
/// - A Set Unit Characteristics has the parameters of an Online, and a Compare Host Data those of a Read.
///
/// # Errors
///
/// - For an Abort, a Get Command Status, a Determine Access Paths, a Compare Controller Data or a Flush:
///   its end message with status 0. That of a Get Command Status has progress 0, since the text doesn't
///   contain the progress of a command.
/// - For an invalid command: the end message of [`Bad::end`](crate::Bad::end).
///
/// MSCP Basic Disk Functions Manual: command messages, command modifiers.
#[inline(always)]
pub fn decode_for_guests(text: &[u8; 48], identity: Identity) -> Result<GuestCommand, Reply>
    ensures asked { result ≡ read_guest identity text.now }
{
    let code = code_in(text);
    if is_additional(code) {
        let op = guest_op(code);
        let command = decode_additional(text, identity)?;
        return Ok(GuestCommand { command, op });
    }
    let command = decode_plain(text, identity)?;
    Ok(GuestCommand {
        command,
        op: GuestOp::Basic,
    })
}

// Returns whether only the compatible profile knows the opcode.
fn is_additional(code: u8) -> bool
    ensures operation { result ≡ false → guest_op code ≡ Basic }
    ensures at_once { (text : List ℕ) → result ≡ false → body_at_once code text ≡ None }
{
    matches!(code, 1 | 2 | 10 | 11 | 17 | 19 | 32)
}

// Returns the command of any text, without its operation, or the end message. Few hosts post an additional
// command, so the function isn't inlined.
#[cold]
#[inline(never)]
fn decode_additional(text: &Text, identity: Identity) -> Result<Command, Reply>
    ensures { asked_as (guest_op (number_in code_field text.now)) result ≡ read_guest identity text.now }
{
    match guest_op(code_in(text)) {
        GuestOp::Basic => decode_resembled(text, identity),
        GuestOp::SetUnit | GuestOp::Compare => decode_resembled(&resembled_text(text), identity),
    }
}

// Returns the operation of an opcode in the compatible profile.
fn guest_op(code: u8) -> GuestOp
    ensures { result ≡ guest_op code }
{
    match code {
        10 => GuestOp::SetUnit,
        32 => GuestOp::Compare,
        _ => GuestOp::Basic,
    }
}

// Returns the text of the command whose parameters this one has.
fn resembled_text(text: &Text) -> Text
    ensures { result ≡ resembled_text text.now }
{
    let mut resembled = *text;
    resembled[CODE] = match code_in(text) {
        10 => 9,
        32 => 33,
        code => code,
    };
    resembled
}

// Returns the command of a text that the strict profile knows, or the end message.
fn decode_resembled(text: &Text, identity: Identity) -> Result<Command, Reply>
    ensures { result ≡ read_resembled identity text.now }
{
    match body_at_once(text) {
        None => decode_plain(text, identity),
        Some(body) => Err(Reply {
            reference: REFERENCE.get(text),
            unit: identity.drive_number(UNIT.get(text)),
            status: status::SUCCESS,
            body,
        }),
    }
}

// Returns the command of a text as the strict profile reads it, or the end message of an invalid command.
#[inline(always)]
fn decode_plain(text: &Text, identity: Identity) -> Result<Command, Reply>
    ensures { result ≡ read_plain identity text.now }
{
    decode_command(&plain_text(text, identity)).map_err(|bad| Reply::basic(bad.end()))
}

/// Returns the end message of a command on a connection that isn't MSCP's: that of an unknown opcode. It
/// has the reference of the text and the number of the drive that the guest means.
///
/// MSCP Basic Disk Functions Manual: invalid command end message.
pub fn other_connection_reply(text: &[u8; 48], identity: Identity) -> Reply
    ensures reply { result ≡ other_connection_reply identity text.now }
{
    Reply::basic(End {
        reference: REFERENCE.get(text),
        unit: identity.drive_number(UNIT.get(text)),
        status: status::INVALID_OPCODE,
        body: EndBody::Invalid,
    })
}

// Returns the body of the end message, if the port returns it when it fetches the command.
fn body_at_once(text: &Text) -> Option<ReplyBody>
    ensures { result ≡ body_at_once (number_in code_field text.now) text.now }
{
    match code_in(text) {
        1 => Some(ReplyBody::Abort {
            named: NAMED.get(text),
        }),
        2 => Some(ReplyBody::CommandStatus {
            named: NAMED.get(text),
            progress: 0,
        }),
        11 => Some(ReplyBody::AccessPaths),
        17 => Some(ReplyBody::CompareController),
        19 => Some(ReplyBody::Flush),
        _ => None,
    }
}

// Returns the text with the unit that it is for, and only the modifiers and address bits that have a
// meaning.
fn plain_text(text: &Text, identity: Identity) -> Text
    ensures { result ≡ plain_text identity text.now }
{
    let drive = identity.drive_number(unit_meant(text, identity));
    let modifiers = modifiers_meant(text);
    let address = identity.bus_address(ADDRESS.get(text));
    let mut plain = *text;
    UNIT.put(&mut plain, drive);
    MODIFIERS.put(&mut plain, modifiers);
    ADDRESS.put(&mut plain, address);
    plain
}

// Returns the unit that a command is for.
fn unit_meant(text: &Text, identity: Identity) -> u16
    ensures { result ≡ unit_meant identity text.now }
{
    let asked = UNIT.get(text);
    if asks_next(text) {
        next_from(identity.first_unit, asked)
    } else {
        asked
    }
}

// Returns whether a Get Unit Status asks for the next unit.
fn asks_next(text: &Text) -> bool
    ensures { result ≡ asks_next text.now }
{
    let modifiers = MODIFIERS.get(text);
    code_in(text) == GET_UNIT_STATUS && modifiers & NEXT_UNIT == NEXT_UNIT
}

// Returns the lowest of the controller's units that isn't below the one asked for, or unit 0 if there is
// none.
fn next_from(first: u16, asked: u16) -> u16
    ensures { result ≡ next_from first asked }
{
    if asked < first {
        first
    } else if asked - first < UNITS {
        asked
    } else {
        0
    }
}

// Returns the modifiers that have a meaning for the command.
fn modifiers_meant(text: &Text) -> u16
    ensures { result ≡ modifiers_meant text.now }
{
    match Op::of_code(code_in(text), text) {
        None => 0,
        Some(op) => MODIFIERS.get(text) & op.row().modifiers,
    }
}
