//! One batch of a script's requests.

ghost use Rattle.std.specs.Prelude.{◌≡◌, ◌+◌, ◌<◌, ◌≤◌, ◌^◌, [], length, IfOk, IfErr};
ghost use Rattle.uda_disk.specs.Values.{answer_values};
ghost use Rattle.uda_driver.specs.Run.{request_limit};
ghost use Rattle.uda_script_run.specs.Texts.{outcome_of, both, part_after, whole_report};
ghost use Rattle.uda_script_run.specs.Batches.{setting, Ran, StopsInError};

use crate::channels::Channels;
use crate::requests::read_requests;
use crate::script::{print, serve};
use crate::style::{ReportPart, ReportStyle, ScriptOutcome};
use std::alloc::Global;
use std::io::{Read, Write};
use uda_disk::Answer;
use uda_driver::{Driver, Watch};
use uda_grammar::{Line, ScriptError};
use uda_image::BlockStore;

/// The progress of a script's run.
#[derive(Drop)]
pub(crate) struct ScriptProgress {
    /// The next part of the report.
    pub(crate) part: ReportPart,
    /// Whether all requests so far succeeded.
    pub(crate) outcome: ScriptOutcome,
    /// The answers of the last batch, whose memory the next batch reuses.
    pub(crate) answers: Vec<Answer>,
}

impl ScriptProgress {
    /// Returns the progress before the first request.
    pub(crate) fn start(alloc: Global, style: ReportStyle) -> ScriptProgress
        ensures part { result.part ≡ whole_report style }
        ensures outcome { result.outcome ≡ outcome_of [] }
    {
        ScriptProgress {
            part: ReportPart { style, first: 1 },
            outcome: ScriptOutcome::AllSucceeded,
            answers: Vec::new(alloc),
        }
    }
}

/// Executes the requests of these lines, and writes the bytes and the report of their answers.
pub(crate) fn run_batch<S: BlockStore, R: Read, W: Write, V: Write, H: Watch>(
    alloc: Global,
    lines: &[Line],
    progress: ScriptProgress,
    channels: &mut Channels<R, W, V, H>,
    driver: &mut Driver<S>,
) -> Result<ScriptProgress, ScriptError>
    requires few { length lines.now ≤ request_limit }
    requires countable { progress.part.first + length lines.now < 2 ^ 64 }
    ensures ran { IfOk result (λ next. Ran progress.part lines.now (answer_values next.answers.items)
        (setting (R.remaining channels.old.input) (W.contents channels.old.out)
        (V.contents channels.old.report) driver.old)
        (setting (R.remaining channels.new.input) (W.contents channels.new.out)
        (V.contents channels.new.report) driver.new)) }
    ensures part { IfOk result (λ next. next.part ≡ part_after progress.part (length lines.now)) }
    ensures outcome { IfOk result (λ next.
        next.outcome ≡ both progress.outcome (outcome_of (answer_values next.answers.items))) }
    ensures error { IfErr result (StopsInError progress.part lines.now
        (setting (R.remaining channels.old.input) (W.contents channels.old.out)
        (V.contents channels.old.report) driver.old)
        (setting (R.remaining channels.new.input) (W.contents channels.new.out)
        (V.contents channels.new.report) driver.new)) }
{
    let ScriptProgress {
        part,
        outcome,
        answers,
    } = progress;
    let requests = read_requests(alloc, lines, &mut channels.input)?;
    let answers = serve(driver, &requests, answers, &mut channels.watch)?;
    print(&mut channels.out, &mut channels.report, part, &answers)?;
    Ok(ScriptProgress {
        part: part.after(answers.len()),
        outcome: outcome.and(ScriptOutcome::of_answers(&answers)),
        answers,
    })
}
