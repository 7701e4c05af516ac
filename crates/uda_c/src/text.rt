//! Strings in a buffer of C.
ghost use Rattle.std.specs.Prelude.{◌≡◌};
ghost use Rattle.uda_c.specs.Last.{text_in};

/// Writes a text into a buffer, as much of it as fits, followed by a 0.
pub fn put_c_string(buffer: &mut [u8], text: &str)
    ensures text { buffer.new ≡ text_in text.now buffer.old }
{
    if buffer.is_empty() {
        return;
    }
    let count = text.len().min(buffer.len() - 1);
    buffer[..count].copy_from_slice(&text.as_bytes()[..count]);
    buffer[count] = 0;
}
