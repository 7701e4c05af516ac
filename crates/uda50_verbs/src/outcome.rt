//! The outcomes of a verb.

use uda_script_run::ScriptOutcome;

/// The outcome of a verb that had no unreported fault.
#[derive(Clone, Copy, Debug, PartialEq, Eq)]
pub enum Outcome {
    /// All succeeded.
    Done,
    /// A request failed, blocks were lost, or a packet was invalid.
    Failed,
    /// A fault has been reported already.
    FaultReported,
}

impl Outcome {
    ghost use Rattle.std.specs.Prelude.{◌≡◌, ◌↔◌};
    ghost use Rattle.uda50_verbs.specs.Statuses.{exit_status};

    /// Returns the outcome of a script.
    pub(crate) fn of_script(outcome: ScriptOutcome) -> Outcome
        ensures failed { (result ≡ Outcome.Failed) ↔ (outcome ≡ ScriptOutcome.SomeFailed) }
        ensures done { (result ≡ Outcome.Done) ↔ (outcome ≡ ScriptOutcome.AllSucceeded) }
    {
        match outcome {
            ScriptOutcome::AllSucceeded => Outcome::Done,
            ScriptOutcome::SomeFailed => Outcome::Failed,
        }
    }

    /// Returns the exit status.
    pub fn status(self) -> u8
        ensures status { result ≡ exit_status self }
    {
        match self {
            Outcome::Done => 0,
            Outcome::FaultReported => 1,
            Outcome::Failed => 3,
        }
    }
}
