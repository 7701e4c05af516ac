//! The fields that valid and invalid commands have.
ghost use Rattle.std.specs.Prelude.{◌≡◌};
ghost use Rattle.uda_packet.specs.Field.{number_in, code_field, modifiers_field};

use byteorder::{ByteOrder, LittleEndian};

/// Returns the byte that is a command's opcode.
pub(crate) fn code(text: &[u8; 48]) -> u8
    ensures { result ≡ number_in code_field text.now }
{
    text[8]
}

/// Returns the modifiers.
pub(crate) fn modifiers(text: &[u8; 48]) -> u16
    ensures { result ≡ number_in modifiers_field text.now }
{
    LittleEndian::read_u16(&text[10..])
}
