//! The run of a script by a driver.

ghost use Rattle.std.specs.Prelude.{◌≡◌, ◌+◌, ◌<◌, ◌≤◌, ◌^◌, length, OnOk, OnErr, IfOk, IfErr};
ghost use Rattle.std.specs.Io.KnownBytes.{Appends};
ghost use Rattle.uda_disk.specs.Units.{unit_attributes};
ghost use Rattle.uda_disk.specs.Values.{request_values, answer_values};
ghost use Rattle.uda_driver.specs.Run.{units_of, request_limit};
ghost use Rattle.uda_script_run.specs.Requests.{taken};
ghost use Rattle.uda_script_run.specs.Texts.{out_text, part_text};
ghost use Rattle.uda_script_run.specs.Script.{DriverRunHolds, streams, writers, TextsBegin, EndsWhole, EndsInError};

use crate::requests::read_requests;
use crate::style::{ReportPart, ReportStyle};
use crate::texts::{put_all_data, put_report};
use std::alloc::Global;
use std::io::{Read, Write};
use uda_disk::{Answer, Request};
use uda_driver::{Driver, RunError, Unwatched, Watch};
use uda_grammar::{Script, ScriptError};
use uda_image::BlockStore;

/// Runs a script: the driver executes the requests of its lines, and their results are written.
///
/// - The `write` and `writeb` lines read their bytes from `input`, one line after another. Exactly these
///   bytes are read. If there are none, the reader isn't called. An interrupted read is repeated.
/// - `out` gets the bytes of all `Data` answers in the order of the requests, and is flushed.
/// - Then `report` gets a line for each request: its number from 1, a space and its answer. It is flushed.
///
/// Reader and writers are borrowed, so the contract describes their state afterwards.
///
/// # Errors
///
/// [`ScriptError::NoMemory`], [`ScriptError::ShortData`] (the data ends inside the bytes of that line) and
/// [`ScriptError::Read`] occur before a request is posted. Then driver and writers are unchanged, and some
/// data may have been read. All memory is allocated before the first command.
///
/// After [`ScriptError::Write`] all requests were executed, and a beginning of the texts was written.
pub fn run_script<S: BlockStore, R: Read, W: Write, V: Write>(
    alloc: Global,
    script: &Script,
    input: &mut R,
    out: &mut W,
    report: &mut V,
    driver: &mut Driver<S>,
) -> Result<(), ScriptError>
    ensures whole { OnOk result (EndsWhole script.now
        (streams (R.remaining input.old) (W.contents out.old) (V.contents report.old))
        (streams (R.remaining input.new) (W.contents out.new) (V.contents report.new))
        driver.old driver.new) }
    ensures error { IfErr result (EndsInError script.now
        (streams (R.remaining input.old) (W.contents out.old) (V.contents report.old))
        (streams (R.remaining input.new) (W.contents out.new) (V.contents report.new))
        driver.old driver.new) }
    ensures idle { taken script.now ≡ 0 → input.new ≡ input.old }
    ensures all_attributes { unit_attributes (units_of driver.new) ≡ unit_attributes (units_of driver.old) }
    ensures four_units { OnOk result ((length (units_of driver.old) ≡ 4) × (length (units_of driver.new) ≡ 4)) }
{
    let requests = read_requests(alloc, script.lines(), input)?;
    let answers = serve(driver, &requests, Vec::new(alloc), &mut Unwatched)?;
    let part = ReportPart {
        style: ReportStyle::PLAIN,
        first: 1,
    };
    print(out, report, part, &answers)
}

/// Executes the requests, which are no more than one run can have. The answers reuse the memory of earlier
/// ones.
pub(crate) fn serve<S: BlockStore, H: Watch>(
    driver: &mut Driver<S>,
    requests: &[Request],
    used: Vec<Answer>,
    watch: &mut H,
) -> Result<Vec<Answer>, ScriptError>
    requires few { length requests.now ≤ request_limit }
    ensures answers { IfOk result (λ answers. DriverRunHolds (request_values requests.now)
        (answer_values answers.items) driver.old driver.new) }
    ensures unchanged { OnErr result (driver.new ≡ driver.old) }
    ensures error { IfErr result (λ e. e ≡ ScriptError.NoMemory) }
    ensures all_attributes { unit_attributes (units_of driver.new) ≡ unit_attributes (units_of driver.old) }
    ensures four_units { OnOk result ((length (units_of driver.old) ≡ 4) × (length (units_of driver.new) ≡ 4)) }
{
    match driver.run_reusing(requests, used, watch) {
        Ok(answers) => Ok(answers),
        Err(RunError::NoMemory) => Err(ScriptError::NoMemory),
        Err(RunError::TooMany) => Err(ScriptError::TooManyLines),
    }
}

/// Writes both texts of a part of a report: first all of `out`, then `report`.
pub(crate) fn print<W: Write, V: Write>(
    out: &mut W,
    report: &mut V,
    part: ReportPart,
    answers: &[Answer],
) -> Result<(), ScriptError>
    requires countable { part.first + length answers.now < 2 ^ 64 }
    ensures out { OnOk result
        (Appends (W.contents out.old) (W.contents out.new) (out_text (answer_values answers.now))) }
    ensures report { OnOk result (Appends (V.contents report.old) (V.contents report.new)
        (part_text part (answer_values answers.now))) }
    ensures begun { OnErr result (TextsBegin part (answer_values answers.now)
        (writers (W.contents out.old) (V.contents report.old))
        (writers (W.contents out.new) (V.contents report.new))) }
    ensures error { IfErr result (λ e. e ≡ ScriptError.Write) }
{
    put_all_data(out, answers)?;
    put_report(report, part, answers)
}
