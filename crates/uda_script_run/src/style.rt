//! The contents of a report, and the outcome of a run.

ghost use Rattle.std.specs.Prelude.{◌≡◌, ◌+◌, ◌<◌, ◌≤◌, ◌^◌, length};
ghost use Rattle.std.specs.List.{list_all};
ghost use Rattle.uda_disk.specs.Values.{answer_value, answer_values};
ghost use Rattle.uda_script_run.specs.Texts.{succeeded, outcome_of, both, status_told, answer_name, part_after};

use uda_disk::{Answer, status};

/// The requests that have a line in the report, and the contents of that line.
#[derive(Clone, Copy, Debug, PartialEq, Eq)]
pub struct ReportStyle {
    /// Whether a line ends with the name of its status, in parentheses.
    pub names: bool,
    /// Whether only requests that failed have a line.
    pub failures_only: bool,
}

impl ReportStyle {
    /// The style with a line for each request, and no names.
    pub const PLAIN: ReportStyle = ReportStyle {
        names: false,
        failures_only: false,
    };
}

/// A part of a report: its style, and the number of its first request.
#[derive(Clone, Copy)]
pub(crate) struct ReportPart {
    pub(crate) style: ReportStyle,
    pub(crate) first: usize,
}

impl ReportPart {
    /// Returns the part that follows `count` requests of this one.
    pub(crate) fn after(self, count: usize) -> ReportPart
        requires { self.first + count < 2 ^ 64 }
        ensures part { result ≡ part_after self count }
    {
        ReportPart {
            style: self.style,
            first: self.first + count,
        }
    }
}

/// Whether every request of a run succeeded.
///
/// A request succeeded if its status is `SUCCESS` or `ALREADY_ONLINE`.
#[derive(Clone, Copy, Debug, PartialEq, Eq)]
pub enum ScriptOutcome {
    /// All of them succeeded.
    AllSucceeded,
    /// At least one failed.
    SomeFailed,
}

// Returns the status of an answer, or `None` for one to a request that was too long for a command.
fn reported_status(answer: &Answer) -> Option<u16>
    ensures status { result ≡ status_told (answer_value answer.now) }
{
    match answer {
        Answer::TooLong => None,
        Answer::Plain { status }
        | Answer::Online { status, .. }
        | Answer::Status { status, .. }
        | Answer::Moved { status, .. }
        | Answer::Data { status, .. } => Some(*status),
    }
}

/// Returns whether the request succeeded: it was executed, or the unit was online already.
pub(crate) fn has_succeeded(answer: &Answer) -> bool
    ensures succeeded { result ≡ succeeded (answer_value answer.now) }
{
    matches!(
        reported_status(answer),
        Some(status::SUCCESS | status::ALREADY_ONLINE)
    )
}

// Returns whether all succeeded.
fn have_succeeded(answers: &[Answer]) -> bool
    ensures { result ≡ list_all (λ answer. succeeded (answer_value answer)) answers.now }
{
    answers.iter().all(|answer| has_succeeded(answer))
}

/// Returns the name of an answer's status.
#[tactic(auto, using(crate::proofs::Names::short_name))]
pub(crate) fn answer_name(answer: &Answer) -> &'static str
    ensures name { result.now ≡ answer_name (answer_value answer.now) }
    ensures short { length result.now ≤ 29 }
{
    match reported_status(answer) {
        None => "too long",
        Some(status) => status::name(status),
    }
}

impl ScriptOutcome {
    /// Returns the outcome of both runs.
    pub(crate) fn and(self, other: ScriptOutcome) -> ScriptOutcome
        ensures both { result ≡ both self other }
    {
        match self {
            ScriptOutcome::AllSucceeded => other,
            ScriptOutcome::SomeFailed => ScriptOutcome::SomeFailed,
        }
    }

    /// Returns the outcome of requests with these answers.
    pub(crate) fn of_answers(answers: &[Answer]) -> ScriptOutcome
        ensures outcome { result ≡ outcome_of (answer_values answers.now) }
    {
        if have_succeeded(answers) {
            ScriptOutcome::AllSucceeded
        } else {
            ScriptOutcome::SomeFailed
        }
    }
}
