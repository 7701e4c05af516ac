//! The texts that a script's run prints.

ghost use Rattle.std.specs.Prelude.{◌≡◌, ◌+◌, ◌<◌, ◌^◌, length, OnOk, OnErr, IfErr};
ghost use Rattle.std.specs.Io.KnownBytes.{Appends, Keeps};
ghost use Rattle.uda_disk.specs.Values.{answer_value, answer_values};
ghost use Rattle.uda_script_run.specs.Texts.{answer_bytes, out_text, report_line, named_line, styled_line};
ghost use Rattle.uda_script_run.specs.Texts.{part_text};
ghost use Rattle.uda_script_run.specs.Texts.{AppendsBeginning};

use crate::put::put_all;
use crate::report_line::ReportLine;
use crate::style::{ReportPart, ReportStyle, answer_name, has_succeeded};
use std::io::Write;
use uda_disk::Answer;
use uda_grammar::ScriptError;

/// Writes the bytes of all `Data` answers, in the order of their requests, and flushes `out`. Fails with
/// [`ScriptError::Write`] if a write or the flush fails.
pub fn put_all_data<W: Write>(out: &mut W, answers: &[Answer]) -> Result<(), ScriptError>
    ensures whole { OnOk result
        (Appends (W.contents out.old) (W.contents out.new) (out_text (answer_values answers.now))) }
    ensures begun { OnErr result (AppendsBeginning (W.contents out.old) (W.contents out.new)
        (out_text (answer_values answers.now))) }
    ensures error { IfErr result (λ e. e ≡ ScriptError.Write) }
{
    for answer in answers {
        put_data(out, answer)?;
    }
    flush(out)
}

/// Writes the lines of these answers, and flushes `report`. Fails with [`ScriptError::Write`] if a write or
/// the flush fails.
pub fn put_report<V: Write>(
    report: &mut V,
    part: ReportPart,
    answers: &[Answer],
) -> Result<(), ScriptError>
    requires { part.first + length answers.now < 2 ^ 64 }
    ensures whole { OnOk result (Appends (V.contents report.old) (V.contents report.new)
        (part_text part (answer_values answers.now))) }
    ensures begun { OnErr result (AppendsBeginning (V.contents report.old) (V.contents report.new)
        (part_text part (answer_values answers.now))) }
    ensures error { IfErr result (λ e. e ≡ ScriptError.Write) }
{
    for (place, answer) in answers.iter().enumerate() {
        put_styled(report, part.style, part.first + place, answer)?;
    }
    flush(report)
}

// Writes the line of one answer in this style, if it has one.
fn put_styled<V: Write>(
    report: &mut V,
    style: ReportStyle,
    number: usize,
    answer: &Answer,
) -> Result<(), ScriptError>
    ensures whole { OnOk result (Appends (V.contents report.old) (V.contents report.new)
        (styled_line style number (answer_value answer.now))) }
    ensures begun { OnErr result (AppendsBeginning (V.contents report.old) (V.contents report.new)
        (styled_line style number (answer_value answer.now))) }
    ensures error { IfErr result (λ e. e ≡ ScriptError.Write) }
{
    if style.failures_only && has_succeeded(answer) {
        Ok(())
    } else if style.names {
        put_named(report, number, answer)
    } else {
        put_line(report, number, answer)
    }
}

// Writes the bytes of an answer, if it has any.
fn put_data<W: Write>(out: &mut W, answer: &Answer) -> Result<(), ScriptError>
    ensures whole { OnOk result (Appends (W.contents out.old) (W.contents out.new)
        (answer_bytes (answer_value answer.now))) }
    ensures begun { OnErr result (AppendsBeginning (W.contents out.old) (W.contents out.new)
        (answer_bytes (answer_value answer.now))) }
    ensures error { IfErr result (λ e. e ≡ ScriptError.Write) }
{
    match answer {
        Answer::Data { bytes, .. } => put_all(out, bytes),
        _ => Ok(()),
    }
}

// Writes a line of the report, as one piece.
fn put_line<V: Write>(report: &mut V, number: usize, answer: &Answer) -> Result<(), ScriptError>
    ensures whole { OnOk result (Appends (V.contents report.old) (V.contents report.new)
        (report_line number (answer_value answer.now))) }
    ensures begun { OnErr result (AppendsBeginning (V.contents report.old) (V.contents report.new)
        (report_line number (answer_value answer.now))) }
    ensures error { IfErr result (λ e. e ≡ ScriptError.Write) }
{
    let mut line = ReportLine::line_feed();
    line.put_answer(answer);
    line.put_byte(b' ');
    line.put_number(number as u64);
    put_all(report, line.as_bytes())
}

// Writes a line with the name of the answer's status, as one piece.
fn put_named<V: Write>(report: &mut V, number: usize, answer: &Answer) -> Result<(), ScriptError>
    ensures whole { OnOk result (Appends (V.contents report.old) (V.contents report.new)
        (named_line number (answer_value answer.now))) }
    ensures begun { OnErr result (AppendsBeginning (V.contents report.old) (V.contents report.new)
        (named_line number (answer_value answer.now))) }
    ensures error { IfErr result (λ e. e ≡ ScriptError.Write) }
{
    let mut line = ReportLine::line_feed();
    line.put_byte(b')');
    line.put_text(answer_name(answer).as_bytes());
    line.put_text(b" (");
    line.put_answer(answer);
    line.put_byte(b' ');
    line.put_number(number as u64);
    put_all(report, line.as_bytes())
}

fn flush<W: Write>(writer: &mut W) -> Result<(), ScriptError>
    ensures same { Keeps (W.contents writer.old) (W.contents writer.new) }
    ensures error { IfErr result (λ e. e ≡ ScriptError.Write) }
{
    writer.flush().map_err(|_| ScriptError::Write)
}
