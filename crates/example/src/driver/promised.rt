//! The promises of a run to a caller that doesn't search its answers for drive errors: over stores that
//! never fail, and over any stores.
ghost use Rattle.std.specs.Prelude.{◌≡◌, ℕ, true, [], ◌∷◌, length, slice_get, IfOk, IfSome};
ghost use Rattle.uda_disk.specs.Answer.{Status};
ghost use Rattle.uda_disk.specs.Status.{UNIT_UNKNOWN};
ghost use Rattle.uda_disk.specs.Units.{AllFaithful, is_infallible};
ghost use Rattle.uda_disk.specs.Values.{request_values, answer_values};
ghost use Rattle.uda_driver.specs.Run.{units_of, IsInOrderRun};

use uda_driver::{Answer, Driver, Request, RunError};
use uda_image::BlockStore;

/// Executes requests over stores that never fail, such as images in memory. The run is the in-order run.
pub fn run_infallible<S: BlockStore>(
    driver: &mut Driver<S>,
    requests: &[Request],
) -> Result<Vec<Answer>, RunError>
    requires faithful { AllFaithful (units_of driver.old) }
    requires infallible { (u : ℕ) → is_infallible (slice_get (units_of driver.old) u) ≡ true }
    ensures in_order_run { IfOk result (λ answers.
        IsInOrderRun (units_of driver.old) (request_values requests.now)
        (answer_values answers.items) (units_of driver.new)) }
{
    let answers = driver.run(requests)?;
    Ok(answers)
}

/// Requests the status of unit 7, which no controller has. Over any stores the answer is that it is
/// unknown.
pub fn ask_unit_seven<S: BlockStore>(driver: &mut Driver<S>) -> Result<Vec<Answer>, RunError>
    ensures unknown { IfOk result (λ answers.
        answer_values answers.items ≡ Status UNIT_UNKNOWN 0 ∷ []) }
{
    let answers = driver.run(&[Request::Status { unit: 7 }])?;
    Ok(answers)
}

/// Returns the first block of unit 0, if a Read of it succeeds. Over any stores it is one whole block.
pub fn first_block<S: BlockStore>(driver: &mut Driver<S>) -> Result<Option<Vec<u8>>, RunError>
    ensures whole { IfOk result (λ found. IfSome found (λ block. length block.items ≡ 512)) }
{
    let mut answers = driver.run(&[Request::Read {
        unit: 0,
        lbn: 0,
        bytes: 512,
    }])?;
    match answers.pop() {
        Some(Answer::Data { status: 0, bytes }) => Ok(Some(bytes)),
        _ => Ok(None),
    }
}
