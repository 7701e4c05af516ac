//! Decoding of command packets.
//!
//! UDA50 Programmer's Documentation Kit: message envelopes.
ghost use Rattle.std.specs.Prelude.{◌≡◌, ◌↔◌, IsTrue, MatchOption, length};
ghost use Rattle.uda_port.specs.Message.{IsSequential, message_in, text_by_length, flags_kept};
ghost use Rattle.uda_exec.specs.Commands.{is_controller};
ghost use Rattle.uda_port.specs.Message.{mscp_message};
ghost use Rattle.uda_port.specs.declared.profile.Profile.TheVariants.{Strict, Compatible};

use crate::guest::Guest;
use crate::packet::{Fetched, TEXT};
use crate::profile::Profile;
use uda_packet::{
    End, Envelope, GuestCommand, GuestOp, Identity, Op, Reply, decode_command, decode_for_guests,
    other_connection_reply,
};

/// The connection of DUP, the diagnostics protocol.
const DUP: u8 = 2;

/// The number of bytes of a command up to the end of its opcode and modifiers.
const HEAD: u16 = 12;

/// Returns the command of a packet. Returns an end message instead if the packet is an invalid command or a
/// command that is ended at once. Returns None if the envelope has an invalid connection or message type.
pub(crate) fn message_in(profile: Profile, packet: &Fetched) -> Option<Result<GuestCommand, Reply>>
    ensures { MatchOption result (IsSequential profile packet.now → ⊥)
        (λ message. IsSequential profile packet.now × (message ≡ message_in profile packet.now)) }
{
    let envelope = Envelope::of_words(packet.words.0, packet.words.1);
    if envelope.kind != 0 {
        return None;
    }
    if envelope.connection == 0 {
        return Some(mscp_message(profile, packet));
    }
    match profile {
        Profile::Compatible(identity) if envelope.connection == DUP => Some(Err(
            other_connection_reply(&text_by_length(packet), identity),
        )),
        Profile::Strict | Profile::Compatible(_) => None,
    }
}

// Returns the command or end message of a packet on MSCP's connection.
fn mscp_message(profile: Profile, packet: &Fetched) -> Result<GuestCommand, Reply>
    ensures { result ≡ mscp_message profile packet.now }
{
    match profile {
        Profile::Strict => strict_message(packet),
        Profile::Compatible(identity) => guest_message(identity, packet),
    }
}

// Returns the command or end message of a packet in the strict profile, which reads all 48 bytes.
fn strict_message(packet: &Fetched) -> Result<GuestCommand, Reply>
    ensures { result ≡ mscp_message Strict packet.now }
{
    if packet.words.0 != TEXT {
        return Err(Reply::basic(End::for_invalid_length(&packet.text)));
    }
    match decode_command(&packet.text) {
        Ok(command) => Ok(GuestCommand {
            command,
            op: GuestOp::Basic,
        }),
        Err(bad) => Err(Reply::basic(bad.end())),
    }
}

// Returns the command or end message of a packet in the compatible profile, which reads as many bytes as the
// length word says, and at most 48.
fn guest_message(identity: Identity, packet: &Fetched) -> Result<GuestCommand, Reply>
    ensures { result ≡ mscp_message (Compatible identity) packet.now }
{
    if packet.words.0 < TEXT {
        return short_message(identity, packet);
    }
    decode_for_guests(&packet.text, identity)
}

// Does the same for a packet of fewer than 48 bytes. Few hosts post one, so the function isn't inlined.
#[cold]
#[inline(never)]
fn short_message(identity: Identity, packet: &Fetched) -> Result<GuestCommand, Reply>
    ensures { result ≡ mscp_message (Compatible identity) packet.now }
{
    let text = text_by_length(packet);
    if packet.words.0 < HEAD {
        let end = End::for_invalid_length(&text);
        return Err(Reply {
            unit: identity.drive_number(end.unit),
            ..Reply::basic(end)
        });
    }
    decode_for_guests(&text, identity)
}

/// Stores the controller flags of a Set Controller Characteristics command, in the compatible profile.
pub(crate) fn keep_flags(
    guest: &mut Guest,
    profile: Profile,
    packet: &Fetched,
    message: &Result<GuestCommand, Reply>,
)
    ensures { guest.new ≡ flags_kept profile packet.now message.now guest.old }
{
    let (Profile::Compatible(_), Ok(asked)) = (profile, message) else {
        return;
    };
    if is_controller(&asked.command.op) {
        guest.flags = uda_mem::word_at(&text_by_length(packet), 14);
    }
}

// Returns whether the command is Set Controller Characteristics.
fn is_controller(op: &Op) -> bool
    ensures { result ≡ is_controller op.now }
{
    matches!(op, Op::Controller)
}

// Returns the text of a packet, with zeros past its length. Few commands need it, so the function isn't inlined.
#[cold]
#[inline(never)]
fn text_by_length(packet: &Fetched) -> [u8; 48]
    ensures { result ≡ text_by_length packet.now }
{
    let length = packet.words.0;
    let mut text = packet.text;
    if length < TEXT {
        uda_mem::put_zeros(&mut text, u32::from(length), u32::from(TEXT - length));
    }
    text
}
