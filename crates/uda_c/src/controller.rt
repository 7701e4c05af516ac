//! The controller of a handle.
ghost use Rattle.std.specs.Prelude.{◌≡◌, ◌||◌, true, false, Some, ◌≢◌, ◌≤◌, ◌/◌, ◌%◌, ℕ, [], length, slice_get, unwrap_or, nat_lt, IfSome, IfNone, IfOk, IfErr, IsTrue, ◌⊎◌};
ghost use Rattle.uda_image.specs.Limits.{store_limit};
ghost use Rattle.uda_mem.specs.Slices.{IsMemory};
ghost use Rattle.uda_c.specs.declared.call_status.CallStatus.TheVariants.{RanTurn, Done, NoMemory, BadLength, OtherKind, Stale};
ghost use Rattle.uda_c.specs.Controllers.{controller_at_start, refusal_of_profile, SetsType, Attaches, Detaches, TurnsWhereMemory};
ghost use Rattle.uda_c.specs.Controllers.{closed, FailsAt, controller_failing, is_called_at, port_put_back, TakesTurn, memory_refusal, IsValidPort};
ghost use Rattle.uda_c.specs.Saving.{Saves, RestoreOutcome, controller_saved, failing_call_of};
ghost use Rattle.uda_c.specs.Saving.{controller_failing_at};
ghost use Rattle.uda_port.specs.Port.{port_restarted, port_after_ip_read, read_only_at};
ghost use Rattle.uda_port.specs.Interrupt.{vector_of, served, IsVectorAddress};
ghost use Rattle.uda_c.specs.Fits.{numbers_fit};
ghost use Rattle.uda_c.specs.Controllers.{WritesSa, GivesBack, image_answer, image_at, image_bytes_at, SetsProtection, any_called};
ghost use Rattle.uda_c.specs.BorrowedImage.{IsWhole};
ghost use Rattle.uda_c.specs.UnitImage.{unit_state, store_failing, bytes_of_store, is_called_in};
ghost use Rattle.uda_c.specs.Slots.{empty_slot, is_empty};
ghost use Rattle.uda_exec.specs.Drives.{drive_state};
ghost use Rattle.uda_port.specs.MemoryUse.{IsPlace};
ghost use Rattle.uda_c.specs.TurnUse.{TakesTurnAt, WritesSaAt};
ghost use Rattle.uda_c.specs.Steps.{BeginsTurn, opened, turn_begun, GetsBody, IsFilled, IsRefused, TurnsAt, TurnsWithBlocks, is_current, is_short};
ghost use Rattle.uda_c.specs.Runs.{TakesTurns, RunsWhereMemory, does_nothing, UnlessCalled};
ghost use Rattle.uda_c.specs.Maps.{IsBusOf, map_answer, OverMap, TakesTurnThroughMap, TakesTurnsThroughMap, WritesSaOver};

use crate::block_range::BlockRange;
use crate::call_status::CallStatus;
use crate::fits::{fits_controller, numbers_fit};
use crate::map::{MapRegisters, MappedBus};
use crate::saving::{RestoreRefusal, calls_have_drives, ops_have_commands};
use crate::slot::Slot;
use crate::turn_use::{Step, TurnUse};
use crate::unit_image::UnitImage;
use crate::unit_images::UnitImages;
use std::alloc::Global;
use std::marker::Model;
use uda_bus::Window;
use uda_called::BorrowedBytes;
use uda_disk::Mode;
use uda_exec::Exec;
use uda_image::{Drive, STORE_LIMIT};
use uda_mem::ByteRange;
use uda_packet::DriveType;
use uda_port::{BusTurn, Plan, Port, Profile, Trace, Turn};
use uda_saved::{STATE_LENGTH, SavedState};

/// A port over the images that C has lent, and the record of its last turn.
#[derive(Drop)]
pub struct Controller {
    pub port: Port<UnitImage>,
    pub last: Option<Trace>,
    // How many units have an image that C reads and writes by calls of its own.
    pub(crate) called: u8,
    // Whether the struct of the turn that was begun last is of its present turn.
    current: bool,
    // How many turns were begun by steps, modulo 2^64. One that is begun twice counts once.
    pub(crate) count: u64,
    // The number that C gave it when it began the last of them.
    number: u64,
    // The window of the last call over a map, which the next one uses again.
    window: Option<Window>,
    pub(crate) alloc: Global,
}

impl Model for Controller {
    ghost use Rattle.std.specs.Prelude.{nat_lt};
    ghost use Rattle.uda_disk.specs.Units.{AllFaithful};
    ghost use Rattle.uda_c.specs.ControllerState.{ControllerState};
    ghost use Rattle.uda_c.specs.Fits.{FitsController};

    ghost Value = { ControllerState };

    ghost view = { λ c. record {
      port = c.port;
      last = c.last;
      called = nat_lt 0 c.called;
      current = c.current;
      count = c.count;
      number = c.number;
    } };

    ghost invariant = { λ c. AllFaithful c.port.exec.units × FitsController c.port };
}

impl Controller {
    /// Returns a controller without drives, whose port is in step 1. Fails with `BadFirstUnit` if the numbers of its
    /// units would wrap past 65,535, and with `NoMemory` if an allocation fails.
    pub fn new(alloc: Global, profile: Profile) -> Result<Controller, CallStatus>
        ensures start { IfOk result (λ c. (c ≡ controller_at_start profile) × (numbers_fit profile ≡ true)) }
        ensures refused { IfErr result (λ r. r ≡ refusal_of_profile profile) }
    {
        if !numbers_fit(profile) {
            return Err(CallStatus::BadFirstUnit);
        }
        let exec = Exec::new([None, None, None, None]);
        let port = match profile {
            Profile::Strict => Port::new(alloc, exec),
            Profile::Compatible(identity) => Port::compatible_as(alloc, identity, exec),
        };
        match port {
            Ok(port) => Ok(Controller {
                port,
                last: None,
                called: 0,
                current: false,
                count: 0,
                number: 0,
                window: None,
                alloc,
            }),
            Err(_) => Err(CallStatus::NoMemory),
        }
    }

    /// States the invariant of every controller. It does nothing.
    pub fn keep(&self)
        ensures valid { IsValidPort self.now.port }
    {
        self.port.keep();
    }

    /// Notes a call that changes the controller: no struct is of its present turn.
    pub fn close(&mut self)
        ensures closed { self.new ≡ closed self.old }
    {
        self.current = false;
    }

    /// Begins a turn of this struct, which is of the present turn then.
    pub(crate) fn open_turn(&mut self, turn: &TurnUse)
        ensures opened { self.new ≡ opened self.old turn.now }
    {
        if !self.current {
            self.current = true;
            self.count = self.count.wrapping_add(1);
        }
        self.number = turn.controller;
    }

    /// Writes IP for the guest.
    pub fn write_ip(&mut self, word: u16)
        ensures restarts { self.new ≡ record self.old { port = port_restarted self.old.port } }
    {
        self.port.write_ip(word);
    }

    /// Reads IP for the guest.
    pub fn read_ip(&mut self) -> u16
        ensures reads_zero { result ≡ 0 }
        ensures starts_polling { self.new ≡ record self.old { port = port_after_ip_read self.old.port.phase self.old.port } }
    {
        self.port.read_ip()
    }

    /// Writes SA for the guest. Fails with `OtherKind` if a unit has an image that C reads and writes.
    pub fn write_sa(&mut self, word: u16, memory: &mut [u8]) -> CallStatus
        ensures effect { UnlessCalled (self.old, memory.old) result (self.new, memory.new)
            ((result ≡ Done) × WritesSa self.old memory.old word self.new memory.new) }
    {
        if self.called == 0 {
            self.port.write_sa_in(word, memory);
            return CallStatus::Done;
        }
        CallStatus::OtherKind
    }

    /// Takes the pending interrupt request, if there is one, and returns its vector address.
    pub fn take_interrupt(&mut self) -> Option<u16>
        ensures vector { result ≡ vector_of self.old.port.interrupts }
        ensures address { IfSome result (λ vector. IsVectorAddress vector) }
        ensures request_cleared { self.new ≡ record self.old {
          port = record self.old.port { interrupts = served self.old.port.interrupts };
        } }
    {
        self.port.take_interrupt()
    }

    /// Takes the bytes of C's slot as the image of a unit. If it fails, the bytes remain in the slot.
    pub fn attach(&mut self, unit: u32, image: &mut Slot, hard: bool) -> CallStatus
        ensures attaches { Attaches (self.old, image.old) unit hard result (self.new, image.new) }
    {
        let unit = unit as usize;
        if unit > 3 {
            return CallStatus::NoSuchUnit;
        }
        if self.port.unit(unit).is_some() {
            return CallStatus::AlreadyAttached;
        }
        match take_image(image) {
            Ok(lent) => {
                let store = UnitImage::of_bytes(lent);
                self.port.set_drive(unit, Some(Drive { store, hard }));
                CallStatus::Done
            }
            Err(refusal) => refusal,
        }
    }

    /// Puts the image of a unit into C's empty slot.
    #[tactic(auto, using(crate::proofs::Lending::put_back))]
    pub fn detach(&mut self, unit: u32, image: &mut Slot) -> CallStatus
        ensures detaches { Detaches (self.old, image.old) unit result (self.new, image.new) }
    {
        let unit = unit as usize;
        if unit > 3 {
            return CallStatus::NoSuchUnit;
        }
        let Some(_look) = self.port.unit(unit) else {
            return CallStatus::NotAttached;
        };
        if let Some(lent) = image.take() {
            image.put(lent);
            return CallStatus::NotEmpty;
        }
        if let Some(drive) = self.port.set_drive(unit, None) {
            put_lent(drive.store, image);
        }
        self.called = called_units(&self.port);
        CallStatus::Done
    }

    /// Puts the images of all units into C's slots, if all of these are empty.
    pub fn give_back(&mut self, images: &mut UnitImages) -> CallStatus
        ensures gives_back { GivesBack (self.old, images.old) result (self.new, images.new) }
    {
        if !images.are_empty() {
            return CallStatus::NotEmpty;
        }
        self.give_back_one(0, &mut images.unit_0);
        self.give_back_one(1, &mut images.unit_1);
        self.give_back_one(2, &mut images.unit_2);
        self.give_back_one(3, &mut images.unit_3);
        CallStatus::Done
    }

    // Puts the image of a unit into C's empty slot, if the unit has one.
    fn give_back_one(&mut self, unit: u32, image: &mut Slot)
        requires low { unit ≤ 3 }
        requires empty { IsTrue (is_empty image.old) }
        ensures given_back { image.new.held ≡ image_bytes_at self.old unit }
        ensures others { (k : ℕ) → k ≢ unit → image_at self.new k ≡ image_at self.old k }
    {
        self.detach(unit, image);
    }

    /// Makes one block call of a unit's image fail, counted from now on, or none.
    pub fn set_failing_call(&mut self, unit: u32, call: Option<u32>) -> CallStatus
        ensures fails { FailsAt self.old unit call result self.new }
    {
        let unit = unit as usize;
        if unit > 3 {
            return CallStatus::NoSuchUnit;
        }
        let Some(look) = self.port.unit(unit) else {
            return CallStatus::NotAttached;
        };
        if self.is_called(unit) {
            return CallStatus::OtherKind;
        }
        if let Some(drive) = self.port.exchange_drive(unit, None) {
            put_back(&mut self.port, unit, failing(drive, call), look.mode);
        }
        CallStatus::Done
    }

    /// Returns whether C reads and writes a unit's image by calls of its own.
    pub fn is_called(&self, unit: usize) -> bool
        ensures called { result ≡ is_called_at self.now unit }
    {
        is_called_in(&self.port, unit)
    }

    /// Moves the write-protect button of a unit's drive. An image of a read-only type stays protected.
    pub fn set_protected(&mut self, unit: u32, hard: bool) -> CallStatus
        ensures protects { SetsProtection self.old unit hard result self.new }
    {
        let unit = unit as usize;
        if unit > 3 {
            return CallStatus::NoSuchUnit;
        }
        let Some(look) = self.port.unit(unit) else {
            return CallStatus::NotAttached;
        };
        let hard = is_protected(&self.port, unit, hard);
        if let Some(Drive { store, .. }) = self.port.exchange_drive(unit, None) {
            let mode = protected_mode(look.mode, hard);
            put_back(&mut self.port, unit, Drive { store, hard }, mode);
        }
        CallStatus::Done
    }

    /// Sets the drive type of a unit without an image.
    pub fn set_type(&mut self, unit: u32, kind: Option<DriveType>) -> CallStatus
        ensures sets { SetsType self.old unit kind result self.new }
    {
        let unit = unit as usize;
        if unit > 3 {
            return CallStatus::NoSuchUnit;
        }
        let Some(kind) = kind else {
            return CallStatus::NoSuchType;
        };
        if self.port.set_type(unit, kind) {
            CallStatus::Done
        } else {
            CallStatus::AlreadyAttached
        }
    }

    /// Copies the state of the controller into C's bytes.
    pub fn save(&self, bytes: &mut [u8]) -> CallStatus
        ensures saves { Saves self.now bytes.old result bytes.new }
    {
        if bytes.len() != STATE_LENGTH {
            return CallStatus::BadLength;
        }
        bytes.copy_from_slice(self.saved().to_bytes().as_slice());
        CallStatus::Done
    }

    // Returns the state of the controller.
    #[tactic(auto, using(crate::proofs::SavedUnits::saved_calls))]
    fn saved(&self) -> SavedState
        ensures { result ≡ controller_saved self.now }
    {
        self.keep();
        SavedState {
            port: self.port.save(),
            failing_calls: [
                self.failing_call(0),
                self.failing_call(1),
                self.failing_call(2),
                self.failing_call(3),
            ],
        }
    }

    // Returns the number of the call of a unit's image that is to fail, or None.
    fn failing_call(&self, unit: usize) -> Option<u32>
        ensures { result ≡ failing_call_of (slice_get self.now.port.exec.units unit) }
    {
        self.port.store(unit)?.failing_call()
    }

    /// Continues from saved bytes, over the images that are attached.
    pub fn restore(&mut self, bytes: &[u8]) -> Result<(), RestoreRefusal>
        ensures restores { RestoreOutcome result self.old bytes.now self.new }
    {
        let state = match SavedState::from_bytes(bytes) {
            Ok(state) => state,
            Err(cause) => return Err(RestoreRefusal::Bytes(cause)),
        };
        if !calls_have_drives(state.port.exec.units, state.failing_calls) {
            return Err(RestoreRefusal::CallWithoutDrive);
        }
        if !fits_controller(&state.port) {
            return Err(RestoreRefusal::UnfitUnits);
        }
        if !ops_have_commands(&state.port.exec) {
            return Err(RestoreRefusal::OpWithoutCommand);
        }
        match self.port.restore(&state.port) {
            Ok(()) => {
                self.last = None;
                self.set_failing_calls(state.failing_calls);
                Ok(())
            }
            Err(cause) => Err(RestoreRefusal::Port(cause)),
        }
    }

    // Sets the failing calls of all images.
    fn set_failing_calls(&mut self, calls: [Option<u32>; 4])
        ensures set { self.new ≡ controller_failing_at calls self.old }
    {
        self.keep();
        let [a, b, c, d] = calls;
        self.set_call_of(0, a);
        self.set_call_of(1, b);
        self.set_call_of(2, c);
        self.set_call_of(3, d);
    }

    // Sets the failing call of a unit's image, if the unit has one.
    #[tactic(auto, using(crate::proofs::SavedUnits::unit_fails))]
    fn set_call_of(&mut self, unit: u32, call: Option<u32>)
        requires low { unit ≤ 3 }
        ensures set { self.new ≡ controller_failing self.old unit call }
    {
        self.set_failing_call(unit, call);
    }

    /// Runs one turn of the port in the guest's memory. Fails with `OtherKind` if a unit has an image that C reads and
    /// writes.
    pub fn turn(&mut self, memory: &mut [u8]) -> CallStatus
        ensures effect { UnlessCalled (self.old, memory.old) result (self.new, memory.new)
            (TurnsWhereMemory self.old memory.old result self.new memory.new) }
    {
        match self.refusal(memory) {
            Some(refusal) => refusal,
            None => CallStatus::RanTurn(self.take_turn(memory)),
        }
    }

    /// Runs up to `limit` turns, and stops after the first that does nothing. Fails with `OtherKind` if a unit has an
    /// image that C reads and writes.
    pub fn run(&mut self, limit: u32, memory: &mut [u8]) -> CallStatus
        ensures runs { UnlessCalled (self.old, memory.old) result (self.new, memory.new)
            (RunsWhereMemory limit (self.old, memory.old) result (self.new, memory.new)) }
    {
        match self.refusal(memory) {
            Some(refusal) => refusal,
            None => self.run_in(limit, memory),
        }
    }

    // Returns why no turn can be taken in this memory, or None if turns can be.
    fn refusal(&self, memory: &[u8]) -> Option<CallStatus>
        ensures works { IfNone result ((self.now.called ≡ false) × IsMemory memory.now) }
        ensures called { self.now.called ≡ true → result ≡ Some OtherKind }
        ensures refused { self.now.called ≡ false
            → IfSome result (λ r. (IsMemory memory.now → ⊥) × (r ≡ memory_refusal memory.now)) }
    {
        if self.called == 0 {
            refusal_of(memory)
        } else {
            Some(CallStatus::OtherKind)
        }
    }

    // Does the same in valid memory.
    fn run_in(&mut self, limit: u32, memory: &mut [u8]) -> CallStatus
        requires memory { IsMemory memory.old }
        ensures { TakesTurns limit Done (self.old, memory.old) result (self.new, memory.new) }
    {
        let mut answer = CallStatus::Done;
        for _ in 0..limit {
            let turn = self.take_turn(memory);
            answer = CallStatus::RanTurn(turn);
            if does_nothing(turn) {
                return answer;
            }
        }
        answer
    }

    /// Begins a turn: fills the struct with its descriptors, and with whose turn it is.
    pub fn get_descriptors(&mut self, memory: &[u8], turn: &mut TurnUse) -> CallStatus
        ensures begins { BeginsTurn (self.old, turn.old) memory.now result (self.new, turn.new) }
    {
        if turn.is_short() {
            return CallStatus::BadLength;
        }
        match refusal_of(memory) {
            Some(refusal) => refusal,
            None => {
                self.open_turn(turn);
                self.begin_turn(memory, turn);
                CallStatus::Done
            }
        }
    }

    // Fills the struct in valid memory.
    fn begin_turn(&self, memory: &[u8], turn: &mut TurnUse)
        requires memory { IsMemory memory.now }
        ensures begun { turn.new ≡ turn_begun self.now memory.now turn.old }
    {
        turn.forget_lent();
        turn.count = self.count;
        turn.step = Step::Began.code();
        let descriptors = self.port.descriptor_ranges(memory);
        turn.descriptors = descriptors;
        turn.body = ByteRange::EMPTY;
        turn.written = [ByteRange::EMPTY; 4];
        turn.place = 0;
        turn.missing = 0;
        turn.reads_body = 0;
        turn.blocks = BlockRange::NONE;
        turn.ready = 0;
    }

    /// Fills in the command that the next turn executes, what the turn uses besides the descriptors, and the blocks
    /// that it uses of an image that C reads and writes.
    pub fn get_body(&self, memory: &[u8], turn: &mut TurnUse) -> CallStatus
        ensures gets { GetsBody self.now memory.now turn.old result turn.new }
    {
        match self.refusal_of_step(Step::Began, memory, turn) {
            Some(refusal) => refusal,
            None => {
                self.fill(memory, turn);
                CallStatus::Done
            }
        }
    }

    // Does the same in valid memory.
    fn fill(&self, memory: &[u8], turn: &mut TurnUse)
        requires memory { IsMemory memory.now }
        ensures filled { IsFilled self.now memory.now turn.old turn.new }
    {
        let plan = self.port.plan(memory);
        let place = self.port.next_place(plan);
        let missing = turn.missing_before_body();
        turn.step = Step::Filled.code();
        turn.place = place as u32;
        let body = self.port.body(plan, memory, place);
        turn.body = body.range;
        turn.reads_body = u32::from(body.is_read);
        let bus = BusTurn {
            plan,
            place,
            missing,
        };
        turn.blocks = self.blocks_used(memory, &bus);
    }

    /// Returns the status of a step that is refused after this one, or None if it may be taken.
    pub(crate) fn refusal_of_step(
        &self,
        step: Step,
        memory: &[u8],
        turn: &TurnUse,
    ) -> Option<CallStatus>
        ensures follows { IfNone result ((is_current step self.now turn.now ≡ true)
            × (is_short turn.now ≡ false) × IsMemory memory.now) }
        ensures refused { IfSome result (λ r. IsRefused step (self.now, turn.now) memory.now r) }
    {
        if !self.is_current(step, turn) {
            return Some(CallStatus::Stale);
        }
        if turn.is_short() {
            return Some(CallStatus::BadLength);
        }
        refusal_of(memory)
    }

    // Returns whether the struct is of the controller's present turn, and this step was done last.
    fn is_current(&self, step: Step, turn: &TurnUse) -> bool
        ensures { result ≡ is_current step self.now turn.now }
    {
        self.current
            && (turn.controller == self.number
                && (turn.count == self.count && turn.step == step.code()))
    }

    /// Runs one turn of the port over a window into the guest's memory, and fills in what it wrote. The blocks that C
    /// has moved are ready only for this turn.
    pub fn turn_at(&mut self, memory: &mut [u8], turn: &mut TurnUse) -> CallStatus
        ensures effect { TurnsAt (self.old, memory.old) turn.old result turn.new (self.new, memory.new) }
    {
        match self.refusal_of_step(Step::Filled, memory, turn) {
            Some(refusal) => refusal,
            None => self.turn_with_blocks(memory, turn),
        }
    }

    // Does the same in valid memory, as the next step.
    fn turn_with_blocks(&mut self, memory: &mut [u8], turn: &mut TurnUse) -> CallStatus
        requires memory { IsMemory memory.old }
        ensures turns { TurnsWithBlocks (self.old, memory.old) turn.old result turn.new (self.new, memory.new) }
    {
        match self.make_ready(turn) {
            CallStatus::Done => {
                self.close();
                let answer = self.take_turn_at(memory, turn);
                if let Some(lent) = self.drop_blocks(turn.blocks) {
                    turn.lent.put(lent);
                }
                answer
            }
            refusal => refusal,
        }
    }

    // Does the same in valid memory, and stores the record of the turn as the last.
    fn take_turn_at(&mut self, memory: &mut [u8], turn: &mut TurnUse) -> CallStatus
        requires memory { IsMemory memory.old }
        ensures { TakesTurnAt (self.old, memory.old) turn.old result turn.new (self.new, memory.new) }
    {
        let plan = self.port.plan(memory);
        let place = self.place_of(plan, turn.place);
        let missing = turn.missing();
        let trace = self.last.get_or_insert(Trace::Idle);
        let bus = BusTurn {
            plan,
            place,
            missing,
        };
        let taken = self.port.turn_at(memory, Some(&bus), trace);
        let written = taken.written;
        turn.written = written;
        CallStatus::RanTurn(taken.turn)
    }

    // Returns the index of the command that C asks for, if it is eligible, or else the port's own choice for this plan.
    pub(crate) fn place_of(&self, plan: Plan, asked: u32) -> usize
        ensures place { IsPlace self.now.port.exec.pending result }
        ensures asked { IsPlace self.now.port.exec.pending asked → result ≡ asked }
    {
        let asked = asked as usize;
        if self.port.is_place(asked) {
            asked
        } else {
            self.port.next_place(plan)
        }
    }

    /// Writes SA for the guest over a window into its memory, and returns the range that was zeroed.
    pub fn write_sa_at(&mut self, word: u16, memory: &mut [u8], missing: bool) -> ByteRange
        ensures effect { WritesSaAt missing (self.old, memory.old) word result (self.new, memory.new) }
    {
        self.port.write_sa_at(word, memory, missing)
    }

    /// Runs up to `limit` turns over memory through map registers, and stops after the first that does nothing. Fails
    /// with `OtherKind` if a unit has an image that C reads and writes.
    pub fn run_mapped(
        &mut self,
        limit: u32,
        memory: &mut [u8],
        map: &MapRegisters<'_>,
    ) -> CallStatus
        ensures runs { UnlessCalled (self.old, memory.old) result (self.new, memory.new)
            (OverMap map.now (self.old, memory.old) result (self.new, memory.new)
            (λ bus. TakesTurnsThroughMap bus limit Done (self.old, memory.old) (result, (self.new, memory.new)))) }
    {
        match self.ready(map) {
            Ok(ReadyBus { bus, window }) => {
                let mut window = window;
                let answer = self.run_through(limit, memory, &bus, &mut window);
                self.window = Some(window);
                answer
            }
            Err(status) => status,
        }
    }

    /// Writes SA for the guest over memory through map registers. Fails with `OtherKind` if a unit has an image that C
    /// reads and writes.
    pub fn write_sa_mapped(
        &mut self,
        word: u16,
        memory: &mut [u8],
        map: &MapRegisters<'_>,
    ) -> CallStatus
        ensures effect { UnlessCalled (self.old, memory.old) result (self.new, memory.new)
            (OverMap map.now (self.old, memory.old) result (self.new, memory.new)
            (λ bus. WritesSaOver bus (self.old, memory.old) word result (self.new, memory.new))) }
    {
        match self.ready(map) {
            Ok(ReadyBus { bus, window }) => {
                let mut window = window;
                bus.map.write_sa(&mut self.port, word, memory, &mut window);
                self.window = Some(window);
                CallStatus::Done
            }
            Err(status) => status,
        }
    }

    // Returns the bus of a map with the controller's window, which has as many bytes as the bus has addresses. Fails if a
    // unit has an image that C reads and writes.
    fn ready<'a>(&mut self, map: &MapRegisters<'a>) -> Result<ReadyBus<'a>, CallStatus>
        ensures same { self.new ≡ self.old }
        ensures ok { IfOk result (λ ready. IsBusOf map.now ready.bus × (length ready.window ≡ ready.bus.size)
            × (map_answer map.now ≡ Done)) }
        ensures uncalled { IfOk result (λ _. self.old.called ≡ false) }
        ensures called { IfErr result (λ r. self.old.called ≡ true → r ≡ OtherKind) }
        ensures err { IfErr result (λ r. self.old.called ≡ false → ((r ≡ NoMemory) × (map_answer map.now ≡ Done))
            ⊎ ((r ≡ map_answer map.now) × (r ≢ Done))) }
    {
        if self.called != 0 {
            return Err(CallStatus::OtherKind);
        }
        let bus = map.bus()?;
        let mut window = match self.window.take() {
            Some(window) => window,
            None => Window::new(self.alloc),
        };
        match window.fit(self.alloc, bus.size) {
            Ok(()) => Ok(ReadyBus { bus, window }),
            Err(_) => {
                self.window = Some(window);
                Err(CallStatus::NoMemory)
            }
        }
    }

    // Runs up to `limit` turns over a bus.
    fn run_through(
        &mut self,
        limit: u32,
        memory: &mut [u8],
        bus: &MappedBus<'_>,
        window: &mut Window,
    ) -> CallStatus
        requires window { length window.old ≡ bus.now.size }
        ensures runs { TakesTurnsThroughMap bus.now limit Done (self.old, memory.old)
            (result, (self.new, memory.new)) }
    {
        let mut answer = CallStatus::Done;
        for _ in 0..limit {
            let turn = self.take_turn_mapped(memory, bus, window);
            answer = CallStatus::RanTurn(turn);
            if does_nothing(turn) {
                return answer;
            }
        }
        answer
    }

    // Runs a turn over a bus, and stores its record as the last.
    fn take_turn_mapped(
        &mut self,
        memory: &mut [u8],
        bus: &MappedBus<'_>,
        window: &mut Window,
    ) -> Turn
        requires window { length window.old ≡ bus.now.size }
        ensures turn { TakesTurnThroughMap bus.now (self.old, memory.old) (RanTurn result) (self.new, memory.new) }
        ensures window { length window.new ≡ length window.old }
    {
        let trace = self.last.get_or_insert(Trace::Idle);
        bus.map.turn(&mut self.port, memory, window, trace)
    }

    // Runs a turn, and stores its record as the last.
    fn take_turn(&mut self, memory: &mut [u8]) -> Turn
        requires memory { IsMemory memory.old }
        ensures { TakesTurn self.old memory.old (RanTurn result) self.new memory.new }
    {
        let trace = self.last.get_or_insert(Trace::Idle);
        self.port.turn_at(memory, None, trace).turn
    }
}

// A bus with map registers, and a window with as many bytes as it has addresses.
struct ReadyBus<'a> {
    bus: MappedBus<'a>,
    window: Window,
}

// Takes an image out of a slot. Fails and leaves the slot unchanged if the slot is empty or the image is
// invalid.
#[tactic(auto, using(crate::proofs::Lending::put_back))]
fn take_image(slot: &mut Slot) -> Result<BorrowedBytes, CallStatus>
    ensures ok { IfOk result (λ lent. (lent.held ≡ slot.old.held) × IsWhole lent.held
        × (slot.new ≡ empty_slot) × (image_answer (length slot.old.held) ≡ Done)) }
    ensures err { IfErr result (λ r. (r ≡ image_answer (length slot.old.held)) × (r ≢ Done)
        × (slot.new ≡ slot.old)) }
{
    let Some(lent) = slot.take() else {
        return Err(CallStatus::BadLength);
    };
    let mut lent = lent;
    match image_answer(length_of(&mut lent)) {
        CallStatus::Done => Ok(lent),
        refusal => {
            slot.put(lent);
            Err(refusal)
        }
    }
}

// Returns the number of bytes.
pub(crate) fn length_of(lent: &mut BorrowedBytes) -> usize
    ensures length { result ≡ length lent.old.held }
    ensures same { lent.new ≡ lent.old }
{
    lent.bytes_mut().len()
}

// Returns the status of an image of this many bytes.
fn image_answer(bytes: usize) -> CallStatus
    ensures answer { result ≡ image_answer bytes }
    ensures whole { result ≡ Done → (bytes % 512 ≡ 0) × (bytes / 512 ≤ store_limit) }
{
    if bytes == 0 || bytes % 512 != 0 {
        CallStatus::BadLength
    } else if bytes / 512 > STORE_LIMIT as usize {
        CallStatus::TooLarge
    } else {
        CallStatus::Done
    }
}

// Puts the bytes of an image into C's empty slot, if C has lent them.
fn put_lent(image: UnitImage, slot: &mut Slot)
    requires empty { slot.old.held ≡ [] }
    ensures bytes { slot.new.held ≡ unwrap_or (bytes_of_store (unit_state image)) [] }
{
    if let Some(lent) = image.into_lent() {
        slot.put(lent);
    }
}

// Puts a drive back that was removed, and its unit into its former mode.
pub(crate) fn put_back(port: &mut Port<UnitImage>, unit: usize, drive: Drive<UnitImage>, mode: Mode)
    ensures back { port.new ≡ port_put_back port.old unit (drive_state unit_state drive) mode }
{
    port.exchange_drive(unit, Some(drive));
    port.restore_mode(unit, mode);
}

// Returns whether C reads and writes a unit's image by calls of its own.
pub(crate) fn is_called_in(port: &Port<UnitImage>, unit: usize) -> bool
    ensures called { result ≡ is_called_in (slice_get port.now.exec.units unit) }
{
    match port.store(unit) {
        Some(image) => image.is_called(),
        None => false,
    }
}

// Returns whether C reads and writes the image of any of the four units by calls of its own.
pub(crate) fn any_called(port: &Port<UnitImage>) -> bool
    ensures called { result ≡ any_called port.now.exec.units }
{
    is_called_in(port, 0) || is_called_in(port, 1) || is_called_in(port, 2) || is_called_in(port, 3)
}

// Returns how many of the four units have an image that C reads and writes by calls of its own.
fn called_units(port: &Port<UnitImage>) -> u8
    ensures called { nat_lt 0 result ≡ any_called port.now.exec.units }
{
    u8::from(is_called_in(port, 0))
        + u8::from(is_called_in(port, 1))
        + u8::from(is_called_in(port, 2))
        + u8::from(is_called_in(port, 3))
}

// Returns whether a unit's type is read-only in the port's profile.
fn read_only_at(port: &Port<UnitImage>, unit: usize) -> bool
    ensures { result ≡ read_only_at port.now unit }
{
    match (port.profile(), port.drive_type(unit)) {
        (Profile::Compatible(_), Some(kind)) => kind.traits().is_read_only,
        _ => false,
    }
}

// Returns whether a unit's image is write-protected while its drive's button asks for this: one of a read-only type is.
fn is_protected(port: &Port<UnitImage>, unit: usize, asked: bool) -> bool
    ensures { result ≡ (read_only_at port.now unit || asked) }
{
    read_only_at(port, unit) || asked
}

// Returns a mode with this hardware write protection.
fn protected_mode(mode: Mode, hard: bool) -> Mode
    ensures { result ≡ record mode { hard = hard } }
{
    Mode { hard, ..mode }
}

// Returns a drive whose store fails at a call, counted from now on, or never, if its bytes are in memory.
fn failing(drive: Drive<UnitImage>, call: Option<u32>) -> Drive<UnitImage>
    ensures store { drive_state unit_state result ≡ record (drive_state unit_state drive) {
      store = store_failing call (unit_state drive.store);
    } }
{
    let Drive { store, hard } = drive;
    let mut store = store;
    store.set_failing_call(call);
    Drive { store, hard }
}

// Returns whether a turn is one of an idle or dead port.
pub(crate) fn does_nothing(turn: Turn) -> bool
    ensures { result ≡ does_nothing turn }
{
    matches!(turn, Turn::Idle | Turn::Dead)
}

// Returns the status of invalid memory, or None if a port can use the memory.
pub(crate) fn refusal_of(memory: &[u8]) -> Option<CallStatus>
    ensures works { IfNone result (IsMemory memory.now) }
    ensures refused { IfSome result (λ r. (IsMemory memory.now → ⊥) × (r ≡ memory_refusal memory.now)) }
{
    if uda_mem::is_memory(memory) {
        None
    } else if memory.len() % 2 == 0 {
        Some(CallStatus::TooLarge)
    } else {
        Some(CallStatus::BadLength)
    }
}
