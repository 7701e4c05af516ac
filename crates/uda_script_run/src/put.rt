//! Writes of bytes of which a known number is written if the write fails.

ghost use Rattle.std.specs.Prelude.{◌≡◌, OnOk, OnErr, IfErr};
ghost use Rattle.std.specs.Io.KnownBytes.{Appends};
ghost use Rattle.uda_script_run.specs.Texts.{AppendsBeginning};

use std::io::{ErrorKind, Write};
use uda_grammar::ScriptError;

/// Writes all of the bytes, and repeats an interrupted write.
///
/// Fails with [`ScriptError::Write`] if the writer fails, or writes no byte. A beginning of the bytes is
/// written then.
pub fn put_all<W: Write>(writer: &mut W, bytes: &[u8]) -> Result<(), ScriptError>
    ensures whole { OnOk result (Appends (W.contents writer.old) (W.contents writer.new) bytes.now) }
    ensures begun { OnErr result
        (AppendsBeginning (W.contents writer.old) (W.contents writer.new) bytes.now) }
    ensures error { IfErr result (λ e. e ≡ ScriptError.Write) }
{
    let mut rest = bytes;
    for _ in 0..u64::MAX {
        if rest.is_empty() {
            return Ok(());
        }
        match writer.write(rest) {
            Ok(0) => return Err(ScriptError::Write),
            Ok(count) => rest = &rest[count..],
            Err(error) => {
                if error.kind() != ErrorKind::Interrupted {
                    return Err(ScriptError::Write);
                }
            }
        }
    }
    Err(ScriptError::Write)
}
