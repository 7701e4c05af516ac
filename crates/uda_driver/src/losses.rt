//! The test for drive errors in answers.
//!
//! MSCP Basic Disk Functions Manual: status and event codes, drive error.
ghost use Rattle.std.specs.Prelude.{◌≡◌};
ghost use Rattle.std.specs.List.{list_any};
ghost use Rattle.uda_disk.specs.Answer.{status_of};
ghost use Rattle.uda_disk.specs.Values.{answer_value, answer_values};
ghost use Rattle.uda_driver.specs.Run.{is_drive_error, any_drive_error};

use uda_disk::{Answer, status};

/// Returns whether one of these answers has the status drive error, 0x000B: a store failed in that
/// transfer.
pub fn any_drive_error(answers: &[Answer]) -> bool
    ensures found { result ≡ any_drive_error (answer_values answers.now) }
{
    any_is_lost(answers)
}

// Returns the same for the answers of the code.
fn any_is_lost(answers: &[Answer]) -> bool
    ensures { result ≡ list_any (λ answer. is_drive_error (answer_value answer)) answers.now }
{
    answers.iter().any(|answer| is_drive_error(answer))
}

fn is_drive_error(answer: &Answer) -> bool
    ensures { result ≡ is_drive_error (answer_value answer.now) }
{
    status_of(answer) == status::DRIVE_ERROR
}

// Returns the status of an answer, or 0 for one that is too long.
fn status_of(answer: &Answer) -> u16
    ensures { result ≡ status_of (answer_value answer.now) }
{
    match answer {
        Answer::TooLong => 0,
        Answer::Plain { status }
        | Answer::Online { status, .. }
        | Answer::Status { status, .. }
        | Answer::Moved { status, .. }
        | Answer::Data { status, .. } => *status,
    }
}
