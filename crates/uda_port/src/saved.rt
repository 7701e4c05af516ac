//! Save and restore: the state of a port as a plain value.
//!
//! UDA50 Programmer's Documentation Kit: port registers, communication area, credits.
ghost use Rattle.std.specs.Prelude.{◌≡◌, ◌+◌, ◌*◌, ◌≤◌, true, length};
ghost use Rattle.circular_buffer.specs.Buffer.{buffer};
ghost use Rattle.uda_exec.specs.Disks.{PENDING_LIMIT};
ghost use Rattle.uda_port.specs.Saved.{saved_port, is_consistent, outstanding, credits_due, least_deliveries, lists_ops};
ghost use Rattle.uda_port.specs.Saved.{work_fits, has_no_work, profile_fits};
ghost use Rattle.uda_port.specs.Saved.{RestoreEffect, RestoredIsSaved, SameFuture};

use crate::guest::Guest;
use crate::interrupt::Interrupts;
use crate::phase::Phase;
use crate::port::Port;
use crate::possible::{
    can_interrupt, guest_fits, has_phase, is_first_position, queue_fits, rings_fit,
};
use crate::profile::Profile;
use crate::ring::Ring;
use crate::tally::Tally;
use crate::turn::CREDITS;
use arrayvec::ArrayVec;
use circular_buffer::HeapCircularBuffer;
use std::error::Error;
use std::fmt;
use uda_exec::{PENDING, SavedExec};
use uda_image::BlockStore;
use uda_packet::{GuestOp, Reply};

/// The whole state of a port, without the stores of its units. [`Port::save`] returns it, and
/// [`Port::restore`] continues from it. Every value is allowed; `restore` rejects one that no port can have.
#[derive(Debug, Drop)]
pub struct Saved {
    /// The profile.
    pub profile: Profile,
    /// The phase, with the words of initialization or the cause of a fatal error.
    pub phase: Phase,
    /// Whether an end message was delivered since initialization.
    pub begun: bool,
    /// The response ring, with its next index.
    pub responses: Ring,
    /// The command ring, with its next index.
    pub commands: Ring,
    /// The queued end messages, the next one first.
    pub waiting: ArrayVec<Reply, PENDING>,
    /// Whether the port polls its command ring.
    pub polling: bool,
    /// The host's credits.
    pub credits: u8,
    /// The interrupt settings, and whether a request is pending.
    pub interrupts: Interrupts,
    /// The drive types, the controller flags and the due attention messages.
    pub guest: Guest,
    /// The modes and sizes of the units, the pending commands, and the position of the last transfer.
    pub exec: SavedExec,
}

/// Why a port can't continue from a saved state.
#[derive(Clone, Copy, Debug, PartialEq, Eq)]
pub enum RestoreError {
    /// No port can have this state. Its interrupts, rings or work don't fit its phase, or the credits, the pending
    /// commands and the queued end messages aren't together as many as the host was granted. Or a strict port has
    /// what only the compatible profile has (`specs/Possible.antt`).
    Inconsistent,
    /// The units don't have the saved drives: drives of the same sizes, with the same hardware write
    /// protection.
    OtherDrives,
}

impl fmt::Display for RestoreError {
    fn fmt<W: fmt::Write>(&self, f: &mut fmt::Formatter<W>) -> fmt::Result {
        f.write_str(match self {
            RestoreError::Inconsistent => "no port can have this state",
            RestoreError::OtherDrives => "the drives aren't those that were saved",
        })
    }
}

impl Error for RestoreError {}

impl<S: BlockStore> Port<S> {
    /// Returns the whole state of the port as a plain value, without the stores of its units. It may be called
    /// in every phase, between any two calls. [`restore`](Port::restore) accepts it.
    pub fn save(&self) -> Saved
        ensures saved { result ≡ saved_port self.now }
        ensures consistent { is_consistent result ≡ true }
    {
        Saved {
            profile: self.profile,
            phase: self.phase,
            begun: self.begun,
            responses: self.responses,
            commands: self.commands,
            waiting: queued(&self.waiting),
            polling: self.polling,
            credits: self.credits,
            interrupts: self.interrupts,
            guest: self.guest,
            exec: self.exec.save(),
        }
    }

    /// Continues from a saved state, over the stores of this port's units. Its own state is dropped.
    ///
    /// The port is then the saved one: whatever the host does, answers, memory and blocks are the same
    /// ([`restored_is_saved`], [`same_future`]), if the blocks are the same. The call uses no store and can't
    /// see whether they are. Of the counts since initialization, `turns` and the load are 0, `deliveries` is 0
    /// or 1, and `fetches` agrees with them.
    ///
    /// # Errors
    ///
    /// The first check that fails decides: [`RestoreError::Inconsistent`], [`RestoreError::OtherDrives`].
    /// Nothing changes then.
    pub fn restore(&mut self, saved: &Saved) -> Result<(), RestoreError>
        ensures effect { RestoreEffect saved.now self.old result self.new }
    {
        if !is_consistent(saved) {
            return Err(RestoreError::Inconsistent);
        }
        if !self.exec.fits(&saved.exec) {
            return Err(RestoreError::OtherDrives);
        }
        let deliveries = least_deliveries(saved.begun);
        let outstanding = outstanding(saved);
        self.profile = saved.profile;
        self.phase = saved.phase;
        self.begun = saved.begun;
        self.exec.restore(&saved.exec);
        self.responses = saved.responses;
        self.commands = saved.commands;
        queue(&mut self.waiting, saved.waiting.as_slice());
        self.polling = saved.polling;
        self.credits = saved.credits;
        self.interrupts = saved.interrupts;
        self.turns = Tally::new();
        self.fetches = Tally::of(deliveries + outstanding);
        self.deliveries = Tally::of(deliveries);
        self.load = Tally::new();
        self.guest = saved.guest;
        Ok(())
    }
}

// Returns whether a port can have this state.
fn is_consistent(saved: &Saved) -> bool
    ensures { result ≡ is_consistent saved.now }
{
    has_phase(saved.profile, saved.phase)
        && (can_interrupt(saved.profile, saved.phase, saved.interrupts)
            && (rings_fit(saved.profile, saved.phase, saved.responses, saved.commands)
                && (guest_fits(saved.profile, saved.phase, &saved.guest)
                    && (work_fits(saved) && profile_fits(saved)))))
}

// Returns whether the credits agree with what is outstanding, and a port that hasn't run has no work.
fn work_fits(saved: &Saved) -> bool
    ensures { result ≡ work_fits saved.now }
{
    usize::from(saved.credits) + outstanding(saved) == credits_due(saved.begun)
        && (saved.phase.has_run() || has_no_work(saved))
}

// Returns whether the port doesn't poll, and nothing was fetched.
fn has_no_work(saved: &Saved) -> bool
    ensures { result ≡ has_no_work saved.now }
{
    !saved.polling
        && (!saved.begun && (outstanding(saved) == 0 && is_first_position(saved.exec.position)))
}

// Returns whether the profile has the listed operations and the queued end messages.
fn profile_fits(saved: &Saved) -> bool
    ensures { result ≡ profile_fits saved.now }
{
    !lists_ops(saved.profile, saved.exec.guest_ops.as_slice())
        && queue_fits(saved.profile, saved.waiting.as_slice())
}

// Returns the number of pending commands and queued end messages.
fn outstanding(saved: &Saved) -> usize
    ensures outstanding { result ≡ outstanding saved.now }
    ensures few { result ≤ 2 * PENDING_LIMIT }
{
    saved.exec.pending.len() + saved.waiting.len()
}

// Returns the credits of a host that has nothing outstanding.
fn credits_due(begun: bool) -> usize
    ensures { result ≡ credits_due begun }
{
    if begun { usize::from(CREDITS) } else { 1 }
}

// Returns whether a strict port lists an additional operation.
fn lists_ops(profile: Profile, ops: &[GuestOp]) -> bool
    ensures { result ≡ lists_ops profile ops.now }
{
    match profile {
        Profile::Strict => !ops.is_empty(),
        Profile::Compatible(_) => false,
    }
}

// Returns the least number of deliveries that agrees with the credits.
fn least_deliveries(begun: bool) -> usize
    ensures deliveries { result ≡ least_deliveries begun }
    ensures few { result ≤ 1 }
{
    if begun { 1 } else { 0 }
}

// Returns the queued end messages in a vector of their own.
fn queued(waiting: &HeapCircularBuffer<Reply>) -> ArrayVec<Reply, PENDING>
    requires few { length waiting.now.items ≤ PENDING_LIMIT }
    ensures same { result.items ≡ waiting.now.items }
{
    let (front, back) = waiting.as_slices();
    let mut ends = ArrayVec::new();
    let _ = ends.try_extend_from_slice(front);
    let _ = ends.try_extend_from_slice(back);
    ends
}

// Replaces the queued end messages.
fn queue(waiting: &mut HeapCircularBuffer<Reply>, ends: &[Reply])
    requires room { length ends.now ≤ waiting.old.capacity }
    ensures replaced { waiting.new ≡ buffer ends.now waiting.old.capacity }
{
    waiting.clear();
    waiting.fill_from_slice(ends);
}

/// States the law of save and restore: a port with the drives of a saved one, restored from its state, is the
/// saved one, except for the counts since initialization.
pub fn restored_is_saved()
    ensures law { RestoredIsSaved }
{}

/// States what the counts decide: nothing that a host can see. For two ports that differ only in their
/// counts,
/// each turn and each list of events of the one is possible for the other. It has the same answer, leaves the
/// same memory, and leads to ports that differ only in their counts.
pub fn same_future()
    ensures law { SameFuture }
{}
