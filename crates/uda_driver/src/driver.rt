//! The driver.
ghost use Rattle.std.specs.Prelude.{◌≡◌, ◌<◌, ◌≤◌, ◌↔◌, false, length, Err, IfOk, IfErr};
ghost use Rattle.uda_exec.specs.Drives.{drive_states, fresh_units, drives_in};
ghost use Rattle.uda_disk.specs.Units.{unit_attributes, AllFaithful, AreWellFormed};
ghost use Rattle.uda_disk.specs.Units.{AllSound, AreSoundBefore, AreWellFormedIfSound};
ghost use Rattle.uda_disk.specs.Values.{request_values, answer_values};
ghost use Rattle.uda_driver.specs.Run.{request_limit, AreAnswersOf, NoStoreFailed, IsInOrderRun, ReportsEveryFailure};
ghost use Rattle.uda_driver.specs.Run.{HasTurnCounts, units_of, any_drive_error, InfallibleDidNotFail, MatchesUpToData};
ghost use Rattle.uda_driver.specs.Blank.{AreBlank};
ghost use Rattle.uda_driver.specs.Driver.{IsAtRest};

use crate::answers::blanks;
use crate::errors::StartError;
use crate::run_loop::drive;
use crate::watch::{Unwatched, Watch};
use std::alloc::Global;
use std::marker::Model;
use uda_disk::{Answer, Request};
use uda_exec::Exec;
use uda_host::Host;
use uda_image::{BlockStore, Drive};

/// The most requests of one run.
pub const REQUEST_LIMIT: usize = 4096;

/// The reason why a run executed nothing.
#[derive(Clone, Copy, Debug, PartialEq, Eq)]
pub enum RunError {
    /// Memory allocation for the answers failed.
    NoMemory,
    /// More than [`REQUEST_LIMIT`] requests.
    TooMany,
}

/// A class driver: a host over the units' executor.
///
/// It reaches its units only through the port, and keeps no copy of their blocks.
#[derive(Drop)]
pub struct Driver<S: BlockStore> {
    alloc: Global,
    host: Host<S>,
}

impl<S: BlockStore> Model for Driver<S> {
    ghost use Rattle.uda_host.specs.Host.{HostState};

    ghost Value = { HostState };

    ghost use Rattle.uda_driver.specs.Driver.{DriverInvariant};

    ghost view = { λ d. d.host };

    ghost invariant = { λ d. DriverInvariant d.host };
}

impl<S: BlockStore> Driver<S> {
    /// Makes a driver over the drives of units 0 to 3. It allocates memory and port, initializes the port,
    /// and executes one Set Controller Characteristics.
    ///
    /// It calls no store. Every unit with a drive is then available, without software protection. Its
    /// blocks and its hardware protection are as given. No command is outstanding, and the driver holds
    /// fifteen credits.
    ///
    /// Fails with a [`StartError`] if `alloc` has no memory. The error returns the drives unchanged.
    ///
    /// UDA50 Programmer's Documentation Kit: initialisation, credits.
    pub fn start(alloc: Global, drives: [Option<Drive<S>>; 4]) -> Result<Driver<S>, StartError<S>>
        ensures at_rest { IfOk result (λ driver. IsAtRest driver) }
        ensures units { IfOk result (λ driver.
            units_of driver ≡ fresh_units (drive_states S.state drives)) }
        ensures four_units { IfOk result (λ driver. length (units_of driver) ≡ 4) }
        ensures well_formed { IfOk result (λ driver. AreWellFormed (units_of driver)) }
        ensures well_formed_if_sound { IfOk result (λ driver. AreWellFormedIfSound (units_of driver)) }
        ensures refused { IfErr result (λ refusal.
            drive_states S.state refusal.drives ≡ drive_states S.state drives) }
    {
        match Host::start(alloc, Exec::new(drives)) {
            Err(refusal) => Err(StartError {
                drives: refusal.exec.into_stores(),
            }),
            Ok(host) => Ok(Driver { alloc, host }),
        }
    }

    /// Executes the requests, and returns an answer for each.
    ///
    /// Up to fifteen commands are outstanding at once, and the controller executes them in any order that
    /// it chooses. The contract relates the result to the in-order run: the requests executed one at a
    /// time, in order, on one array of blocks for each unit.
    ///
    /// Over faithful stores:
    ///
    /// - If no store fails, answers and disks are those of the in-order run (`in_order_run`). The same holds if
    ///   no answer has the status drive error (`in_order_run_if_no_error`), which
    ///   [`any_drive_error`](crate::any_drive_error) tests.
    /// - If stores fail, they are those of an in-order run in which transfers may fail part-way. Each
    ///   failure of a store is reported by exactly one answer (`in_order_run_with_failures`).
    /// - A store that never fails has not failed (`infallible`).
    ///
    /// The same holds if each store is sound after the run: it is faithful, or it is a file that has been
    /// honest ([`FileImage`](uda_image::FileImage)). See `in_order_run_if_sound`,
    /// `in_order_run_if_sound_and_no_error`, `in_order_run_with_failures_if_sound` and `infallible_if_sound`. A
    /// store that is sound after the run was sound before it (`sound_before`).
    ///
    /// Over any stores:
    ///
    /// - Each request has an answer of its own form (`answer_forms`).
    /// - Sizes, modes and rejections are those of the in-order run. A transfer that succeeds there succeeds
    ///   here, or fails with a drive error and the number of bytes moved before it. The bytes that a Read
    ///   returns may differ (`in_order_run_up_to_data`).
    /// - The turns of the port are counted (`turn_counts`).
    ///
    /// All memory is allocated before the first command. The run fails, and executes nothing, with:
    ///
    /// - `TooMany` if there are more than 4096 requests;
    /// - `NoMemory` if the answers can't be allocated.
    pub fn run(&mut self, requests: &[Request]) -> Result<Vec<Answer>, RunError>
        ensures too_many { (result ≡ Err RunError.TooMany) ↔ (request_limit < length requests.now) }
        ensures unchanged { IfErr result (λ _. self.new ≡ self.old) }
        ensures at_rest { IsAtRest self.new }
        ensures all_attributes { unit_attributes (units_of self.new) ≡ unit_attributes (units_of self.old) }
        ensures four_units { (length (units_of self.old) ≡ 4) × (length (units_of self.new) ≡ 4) }
        ensures well_formed { AreWellFormed (units_of self.old) × AreWellFormed (units_of self.new) }
        ensures answer_forms { IfOk result (λ answers.
            AreAnswersOf (request_values requests.now) (answer_values answers.items)) }
        ensures in_order_run { IfOk result (λ answers.
            AllFaithful (units_of self.old) → NoStoreFailed (units_of self.old) (units_of self.new)
            → IsInOrderRun (units_of self.old) (request_values requests.now)
            (answer_values answers.items) (units_of self.new)) }
        ensures in_order_run_if_no_error { IfOk result (λ answers.
            AllFaithful (units_of self.old)
            → any_drive_error (answer_values answers.items) ≡ false
            → IsInOrderRun (units_of self.old) (request_values requests.now)
            (answer_values answers.items) (units_of self.new)) }
        ensures infallible { AllFaithful (units_of self.old)
            → InfallibleDidNotFail (units_of self.old) (units_of self.new) }
        ensures in_order_run_with_failures { IfOk result (λ answers.
            AllFaithful (units_of self.old)
            → ReportsEveryFailure (units_of self.old) (request_values requests.now)
            (answer_values answers.items) (units_of self.new)) }
        ensures sound_before { AreSoundBefore (units_of self.old) (units_of self.new) }
        ensures well_formed_if_sound { AreWellFormedIfSound (units_of self.old)
            → AreWellFormedIfSound (units_of self.new) }
        ensures in_order_run_if_sound { IfOk result (λ answers.
            AllSound (units_of self.new) → NoStoreFailed (units_of self.old) (units_of self.new)
            → IsInOrderRun (units_of self.old) (request_values requests.now)
            (answer_values answers.items) (units_of self.new)) }
        ensures in_order_run_if_sound_and_no_error { IfOk result (λ answers.
            AllSound (units_of self.new)
            → any_drive_error (answer_values answers.items) ≡ false
            → IsInOrderRun (units_of self.old) (request_values requests.now)
            (answer_values answers.items) (units_of self.new)) }
        ensures infallible_if_sound { AllSound (units_of self.new)
            → InfallibleDidNotFail (units_of self.old) (units_of self.new) }
        ensures in_order_run_with_failures_if_sound { IfOk result (λ answers.
            AllSound (units_of self.new)
            → ReportsEveryFailure (units_of self.old) (request_values requests.now)
            (answer_values answers.items) (units_of self.new)) }
        ensures in_order_run_up_to_data { IfOk result (λ answers.
            MatchesUpToData (units_of self.old) (request_values requests.now)
            (answer_values answers.items) (units_of self.new)) }
        ensures turn_counts { IfOk result (λ _.
            HasTurnCounts (request_values requests.now) self.old self.new) }
    {
        self.run_reusing(requests, Vec::new(self.alloc), &mut Unwatched)
    }

    /// Executes the requests as [`run`](Driver::run) does, and reuses the memory of earlier answers.
    ///
    /// The bytes of a Read are put in an earlier answer's memory if its capacity suffices. The contents of
    /// the earlier answers are lost. `watch` receives each turn of the port, and can't change the run.
    pub fn run_reusing<W: Watch>(
        &mut self,
        requests: &[Request],
        used: Vec<Answer>,
        watch: &mut W,
    ) -> Result<Vec<Answer>, RunError>
        ensures too_many { (result ≡ Err RunError.TooMany) ↔ (request_limit < length requests.now) }
        ensures unchanged { IfErr result (λ _. self.new ≡ self.old) }
        ensures at_rest { IsAtRest self.new }
        ensures all_attributes { unit_attributes (units_of self.new) ≡ unit_attributes (units_of self.old) }
        ensures four_units { (length (units_of self.old) ≡ 4) × (length (units_of self.new) ≡ 4) }
        ensures well_formed { AreWellFormed (units_of self.old) × AreWellFormed (units_of self.new) }
        ensures answer_forms { IfOk result (λ answers.
            AreAnswersOf (request_values requests.now) (answer_values answers.items)) }
        ensures in_order_run { IfOk result (λ answers.
            AllFaithful (units_of self.old) → NoStoreFailed (units_of self.old) (units_of self.new)
            → IsInOrderRun (units_of self.old) (request_values requests.now)
            (answer_values answers.items) (units_of self.new)) }
        ensures in_order_run_if_no_error { IfOk result (λ answers.
            AllFaithful (units_of self.old)
            → any_drive_error (answer_values answers.items) ≡ false
            → IsInOrderRun (units_of self.old) (request_values requests.now)
            (answer_values answers.items) (units_of self.new)) }
        ensures infallible { AllFaithful (units_of self.old)
            → InfallibleDidNotFail (units_of self.old) (units_of self.new) }
        ensures in_order_run_with_failures { IfOk result (λ answers.
            AllFaithful (units_of self.old)
            → ReportsEveryFailure (units_of self.old) (request_values requests.now)
            (answer_values answers.items) (units_of self.new)) }
        ensures sound_before { AreSoundBefore (units_of self.old) (units_of self.new) }
        ensures well_formed_if_sound { AreWellFormedIfSound (units_of self.old)
            → AreWellFormedIfSound (units_of self.new) }
        ensures in_order_run_if_sound { IfOk result (λ answers.
            AllSound (units_of self.new) → NoStoreFailed (units_of self.old) (units_of self.new)
            → IsInOrderRun (units_of self.old) (request_values requests.now)
            (answer_values answers.items) (units_of self.new)) }
        ensures in_order_run_if_sound_and_no_error { IfOk result (λ answers.
            AllSound (units_of self.new)
            → any_drive_error (answer_values answers.items) ≡ false
            → IsInOrderRun (units_of self.old) (request_values requests.now)
            (answer_values answers.items) (units_of self.new)) }
        ensures infallible_if_sound { AllSound (units_of self.new)
            → InfallibleDidNotFail (units_of self.old) (units_of self.new) }
        ensures in_order_run_with_failures_if_sound { IfOk result (λ answers.
            AllSound (units_of self.new)
            → ReportsEveryFailure (units_of self.old) (request_values requests.now)
            (answer_values answers.items) (units_of self.new)) }
        ensures in_order_run_up_to_data { IfOk result (λ answers.
            MatchesUpToData (units_of self.old) (request_values requests.now)
            (answer_values answers.items) (units_of self.new)) }
        ensures turn_counts { IfOk result (λ _.
            HasTurnCounts (request_values requests.now) self.old self.new) }
    {
        let answers = prepare(self.alloc, requests, used)?;
        Ok(drive(&mut self.host, requests, answers, watch))
    }

    /// Returns the drives as the last run left them, with their hardware protection. It calls no store.
    pub fn into_stores(self) -> [Option<Drive<S>>; 4]
        ensures drives { drive_states S.state result ≡ drives_in (units_of self) }
    {
        let Driver { host, .. } = self;
        host.into_exec().into_stores()
    }
}

// Makes an answer for each request, with capacity for the bytes of a Read.
fn prepare(alloc: Global, requests: &[Request], used: Vec<Answer>) -> Result<Vec<Answer>, RunError>
    ensures too_many { (result ≡ Err RunError.TooMany) ↔ (request_limit < length requests.now) }
    ensures few { IfOk result (λ _. length requests.now ≤ request_limit) }
    ensures counted { IfOk result (λ answers. length answers.items ≡ length requests.now) }
    ensures blank { IfOk result (λ answers.
        AreBlank (request_values requests.now) 0 answers.items) }
{
    if requests.len() > REQUEST_LIMIT {
        return Err(RunError::TooMany);
    }
    match blanks(alloc, requests, used) {
        Ok(answers) => Ok(answers),
        Err(_) => Err(RunError::NoMemory),
    }
}
