//! Names of files and arguments, without their control characters.
ghost use Rattle.std.specs.Prelude.{◌≡◌, ◌++◌, Some, codes};
ghost use Rattle.std.specs.Fmt.{WritesOnOk};
ghost use Rattle.std.specs.List.{flat_map};
ghost use Rattle.std.specs.Str.{chars};
ghost use Rattle.uda50_show.specs.Hex.{hex_byte};
ghost use Rattle.uda50_show.specs.Names.{escaped_character, is_control};

use crate::digits::{hex_byte, write_ascii};
use std::fmt;

/// A name that is printed without its control characters. An escape such as `\x1b` or `\u{9b}` replaces
/// each of them. All other characters are printed as they are.
#[derive(Clone, Copy, Debug)]
pub struct EscapedName<'n>(pub &'n str);

/// Returns whether a character is a control character, which no name is printed with.
pub fn is_control(character: char) -> bool
    ensures control { result ≡ is_control character }
{
    character < ' ' || ('\x7f' <= character && character <= '\u{9f}')
}

// Writes an escape of a character of ASCII, such as `\x1b`.
fn write_byte<W: fmt::Write>(f: &mut fmt::Formatter<W>, byte: u8) -> fmt::Result
    ensures { WritesOnOk W.write_str_gives f.old result (codes "\\x" ++ hex_byte byte) f.new }
{
    f.write_str("\\x")?;
    write_ascii(f, &hex_byte(byte))
}

// Writes an escape of another character, such as `\u{9b}`.
fn write_code_point<W: fmt::Write>(f: &mut fmt::Formatter<W>, byte: u8) -> fmt::Result
    ensures { WritesOnOk W.write_str_gives f.old result
        (codes "\\u{" ++ hex_byte byte ++ codes "}") f.new }
{
    f.write_str("\\u{")?;
    write_ascii(f, &hex_byte(byte))?;
    f.write_str("}")
}

// Writes a character, or the escape that replaces it.
fn write_escaped<W: fmt::Write>(f: &mut fmt::Formatter<W>, character: char) -> fmt::Result
    ensures { WritesOnOk W.write_str_gives f.old result (escaped_character character) f.new }
{
    if !is_control(character) {
        return write!(f, "{character}");
    }
    let code = u32::from(character);
    if code <= 127 {
        write_byte(f, code as u8)
    } else {
        write_code_point(f, code as u8)
    }
}

// Writes the characters of a name, or the escapes that replace them.
fn write_name<W: fmt::Write>(f: &mut fmt::Formatter<W>, name: &str) -> fmt::Result
    ensures { WritesOnOk W.write_str_gives f.old result (flat_map escaped_character (chars name.now)) f.new }
{
    for character in name.chars() {
        write_escaped(f, character)?;
    }
    Ok(())
}

impl fmt::Display for EscapedName<'_> {
    ghost output = { λ name. Some (flat_map escaped_character (chars name.0.now)) };

    fn fmt<W: fmt::Write>(&self, f: &mut fmt::Formatter<W>) -> fmt::Result {
        write_name(f, self.0)
    }
}

/// Bytes that may not be text. They are printed as a name is, and a byte that is not valid in UTF-8 as an
/// escape such as `\xff`.
#[derive(Clone, Copy, Debug)]
pub struct EscapedBytes<'b>(pub &'b [u8]);

impl fmt::Display for EscapedBytes<'_> {
    fn fmt<W: fmt::Write>(&self, f: &mut fmt::Formatter<W>) -> fmt::Result {
        for chunk in self.0.utf8_chunks() {
            write_name(f, chunk.valid())?;
            for byte in chunk.invalid() {
                write_byte(f, *byte)?;
            }
        }
        Ok(())
    }
}
