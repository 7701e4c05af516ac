//! Bytes as hexadecimal text.

ghost use Rattle.std.specs.Prelude.{◌≡◌, ◌++◌, ◌<◌, ◌≤◌, OnOk, IfOk};
ghost use Rattle.std.specs.String.{string_bytes};
ghost use Rattle.uda_script.specs.Hexadecimal.{hexadecimal_digit, byte_text_at, byte_texts_from};

use std::alloc::{AllocError, Global};

/// Returns bytes as lines of 16. Each byte is two lower-case hexadecimal digits, followed by a line feed
/// after each 16th byte and by a space after any other.
pub fn hexadecimal(alloc: Global, bytes: &[u8]) -> Result<String, AllocError>
    ensures { IfOk result (λ lines. string_bytes lines ≡ byte_texts_from 0 bytes.now) }
{
    let mut lines = String::with_capacity(alloc, 144)?;
    for (place, byte) in bytes.iter().enumerate() {
        push_byte(&mut lines, place, *byte)?;
    }
    Ok(lines)
}

// Appends the byte at an index, with the space or line feed after it.
fn push_byte(lines: &mut String, place: usize, byte: u8) -> Result<(), AllocError>
    ensures { OnOk result (string_bytes lines.new ≡ string_bytes lines.old ++ byte_text_at place byte) }
{
    lines.push(hexadecimal_digit(byte / 16))?;
    lines.push(hexadecimal_digit(byte % 16))?;
    lines.push(if place % 16 == 15 { '\n' } else { ' ' })?;
    Ok(())
}

fn hexadecimal_digit(n: u8) -> char
    requires { n < 16 }
    ensures value { result ≡ hexadecimal_digit n }
    ensures ascii { result < 128 }
{
    char::from(if n < 10 { b'0' + n } else { b'a' - 10 + n })
}
