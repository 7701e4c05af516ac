//! Four units, and the execution of lists of requests on them.
ghost use Rattle.std.specs.Prelude.{◌≡◌, false, Some, IfOk, IfErr, option_map};
ghost use Rattle.uda_disk.specs.RequestEffect.{Done, answer_by, check_at, disk_by};
ghost use Rattle.uda_disk.specs.InOrderRun.{too_long, run_in_order, step};
ghost use Rattle.uda_disk.specs.Values.{request_value, request_values, answer_value, answer_values};

use crate::disk::{PlainDisk, refused};
use std::alloc::Global;
use std::marker::Model;
use uda_disk::{Answer, Refusal, Request};
use uda_mem::NoMemory;

/// Four units, numbered from 0; `None` is a unit without a drive.
#[derive(Debug, Drop)]
pub struct PlainUnits {
    units: [Option<PlainDisk>; 4],
}

impl Model for PlainUnits {
    ghost use Rattle.uda_disk.specs.Disk.{Disks};

    ghost Value = { Disks };

    ghost view = { λ u. u.units };
}

// Executes one request, which isn't too long, on its unit.
fn step_unit(
    unit: &mut Option<PlainDisk>,
    alloc: Global,
    request: &Request,
) -> Result<Answer, NoMemory>
    requires short { too_long (request_value request.now) ≡ false }
    ensures answer { IfOk result (λ answer. answer_value answer
        ≡ answer_by Done (request_value request.now).act
        (check_at (request_value request.now).act (Some unit.old))) }
    ensures unit { IfOk result (λ _. unit.new
        ≡ option_map (disk_by Done (request_value request.now).act
        (check_at (request_value request.now).act (Some unit.old))) unit.old) }
    ensures unchanged { IfErr result (λ _. unit.new ≡ unit.old) }
{
    match unit {
        None => Ok(refused(alloc, request, Refusal::NoVolume)),
        Some(disk) => disk.step(alloc, request),
    }
}

fn step(
    units: &mut [Option<PlainDisk>],
    alloc: Global,
    request: &Request,
) -> Result<Answer, NoMemory>
    ensures step { IfOk result (λ answer.
        (answer_value answer, units.new) ≡ step (request_value request.now) units.old) }
    ensures unchanged { IfErr result (λ _. units.new ≡ units.old) }
{
    if request.is_too_long() {
        return Ok(Answer::TooLong);
    }
    let unit = usize::from(request.unit());
    if unit >= units.len() {
        return Ok(refused(alloc, request, Refusal::UnitUnknown));
    }
    step_unit(&mut units[unit], alloc, request)
}

impl PlainUnits {
    /// Makes units 0 to 3 of these disks.
    pub fn new(units: [Option<PlainDisk>; 4]) -> PlainUnits
        ensures disks { result ≡ units }
    {
        PlainUnits { units }
    }

    /// Returns the disks of units 0 to 3.
    pub fn disks(&self) -> &[Option<PlainDisk>]
        ensures disks { result.now ≡ self.now }
    {
        self.units.as_slice()
    }

    /// Executes one request.
    ///
    /// # Errors
    ///
    /// [`NoMemory`] if the bytes of a Read can't be allocated. Nothing has changed then.
    pub fn step(&mut self, alloc: Global, request: &Request) -> Result<Answer, NoMemory>
        ensures step { IfOk result (λ answer.
            (answer_value answer, self.new) ≡ step (request_value request.now) self.old) }
        ensures unchanged { IfErr result (λ _. self.new ≡ self.old) }
    {
        step(&mut self.units, alloc, request)
    }

    /// Executes the requests from the first to the last, and returns an answer for each.
    ///
    /// # Errors
    ///
    /// [`NoMemory`] if an answer can't be allocated. The requests before it were executed, and it may have
    /// been too.
    pub fn run(&mut self, alloc: Global, requests: &[Request]) -> Result<Vec<Answer>, NoMemory>
        ensures in_order_run { IfOk result (λ answers.
            (answer_values answers.items, self.new) ≡ run_in_order self.old (request_values requests.now)) }
    {
        let mut answers = Vec::new(alloc);
        for request in requests {
            let answer = self.step(alloc, request)?;
            let Ok(()) = answers.push(answer) else {
                return Err(NoMemory);
            };
        }
        Ok(answers)
    }
}
