//! The port: its state, its IP register, and queries for an emulator.
//!
//! UDA50 Programmer's Documentation Kit: port registers, initialization.
ghost use Rattle.std.specs.Prelude.{◌≡◌, ◌≤◌, IfOk, IfErr, IfSome, length};
ghost use Rattle.uda_port.specs.Port.{port_at_start, port_restarted, port_after_ip_read};
ghost use Rattle.uda_port.specs.Guest.{usual_identity};
ghost use Rattle.uda_port.specs.Interrupt.{vector_of, served, IsVectorAddress};
ghost use Rattle.uda_port.specs.declared.profile.Profile.TheVariants.{Strict, Compatible};

use crate::alloc_error::PortAllocError;
use crate::guest::Guest;
use crate::interrupt::Interrupts;
use crate::phase::Phase;
use crate::profile::Profile;
use crate::ring::Ring;
use crate::tally::Tally;
use circular_buffer::HeapCircularBuffer;
use std::alloc::Global;
use std::fmt;
use std::marker::Model;
use uda_exec::{Exec, PENDING};
use uda_image::BlockStore;
use uda_packet::{Bus, Identity, Reply};

/// The identity that [`Port::compatible`] uses: a UDA50 on a UNIBUS, whose units have the numbers from 0 on.
pub const USUAL_IDENTITY: Identity = Identity {
    bus: Bus::Unibus,
    first_unit: 0,
};

/// The port of a controller. It connects a host, which uses two registers and the rings in host memory, to an
/// executor with its units.
///
/// Each call that uses host memory takes it as an argument: a [`HostMemory`](uda_mem::HostMemory), or a slice
/// of borrowed bytes. It may be another one each time. Every content of memory and every register access is
/// allowed. The port fails only with a [`Fatal`](crate::Fatal) error, and is then dead until the host writes
/// IP.
///
/// Contracts read these parts of the state:
///
/// - the profile and the phase;
/// - the executor's units and pending commands;
/// - the base, the length and the next index of both rings;
/// - the queued end messages;
/// - whether the port polls its command ring;
/// - the host's credits and the interrupts;
/// - four counts since initialization: turns, fetches, deliveries, and the load.
///
/// Each execution adds the number of commands then pending to the load. The counts exist only in contracts.
///
/// UDA50 Programmer's Documentation Kit: port registers, initialization, credits.
#[derive(Drop)]
pub struct Port<S: BlockStore> {
    pub(crate) profile: Profile,
    pub(crate) phase: Phase,
    // Whether an end message was delivered since initialization.
    pub(crate) begun: bool,
    pub(crate) responses: Ring,
    pub(crate) commands: Ring,
    // The queued end messages, the next one first.
    pub(crate) waiting: HeapCircularBuffer<Reply>,
    // Whether the port polls its command ring.
    pub(crate) polling: bool,
    // The host's credits.
    pub(crate) credits: u8,
    pub(crate) interrupts: Interrupts,
    pub(crate) turns: Tally,
    pub(crate) fetches: Tally,
    pub(crate) deliveries: Tally,
    pub(crate) load: Tally,
    // What a compatible port reports in addition to the state of its units.
    pub(crate) guest: Guest,
    // The last field, as in every type with a store: the toolchain finds the size of a moved value soonest
    // there.
    pub(crate) exec: Exec<S>,
}

impl<S: BlockStore> Model for Port<S> {
    ghost use Rattle.uda_port.specs.Port.{PortState};
    ghost use Rattle.uda_port.specs.PortInvariant.{PortInvariant};

    ghost Value = { PortState };

    ghost view = { λ p. record {
      profile = p.profile;
      phase = p.phase;
      exec = p.exec;
      responses = p.responses;
      commands = p.commands;
      waiting = p.waiting.items;
      polling = p.polling;
      credits = p.credits;
      interrupts = p.interrupts;
      turns = p.turns;
      fetches = p.fetches;
      deliveries = p.deliveries;
      load = p.load;
      guest = p.guest;
    } };

    ghost invariant = { PortInvariant };
}

impl<S: BlockStore> Port<S> {
    /// Returns a strict port over `exec`, which it resets. The port is in step 1, as after
    /// [`write_ip`](Port::write_ip).
    ///
    /// Allocates the queue of end messages; no later call allocates. If the allocation fails, returns a
    /// [`PortAllocError`] with the unchanged `exec`.
    ///
    /// UDA50 Programmer's Documentation Kit: initialization.
    pub fn new(alloc: Global, exec: Exec<S>) -> Result<Port<S>, PortAllocError<Exec<S>>>
        ensures ok { IfOk result (λ port. port ≡ port_at_start Strict exec) }
        ensures err { IfErr result (λ refusal. refusal.exec ≡ exec) }
    {
        Port::over(alloc, Profile::Strict, exec)
    }

    /// Returns a port of the compatible profile, for existing bootstraps and operating systems. Otherwise it
    /// is as [`new`](Port::new).
    pub fn compatible(alloc: Global, exec: Exec<S>) -> Result<Port<S>, PortAllocError<Exec<S>>>
        ensures ok { IfOk result (λ port. port ≡ port_at_start (Compatible usual_identity) exec) }
        ensures err { IfErr result (λ refusal. refusal.exec ≡ exec) }
    {
        Port::compatible_as(alloc, USUAL_IDENTITY, exec)
    }

    /// Returns a port of the compatible profile with the given identity. [`compatible`](Port::compatible)
    /// makes one on a UNIBUS, whose units have the numbers from 0 on.
    ///
    /// `identity` decides what SA shows in steps 1 and 4, how many bits an address has, and which numbers the
    /// host uses for the units.
    pub fn compatible_as(
        alloc: Global,
        identity: Identity,
        exec: Exec<S>,
    ) -> Result<Port<S>, PortAllocError<Exec<S>>>
        ensures ok { IfOk result (λ port. port ≡ port_at_start (Compatible identity) exec) }
        ensures err { IfErr result (λ refusal. refusal.exec ≡ exec) }
    {
        Port::over(alloc, Profile::Compatible(identity), exec)
    }

    // Returns a port of the given profile.
    fn over(
        alloc: Global,
        profile: Profile,
        exec: Exec<S>,
    ) -> Result<Port<S>, PortAllocError<Exec<S>>>
        ensures ok { IfOk result (λ port. port ≡ port_at_start profile exec) }
        ensures err { IfErr result (λ refusal. refusal.exec ≡ exec) }
    {
        match HeapCircularBuffer::with_capacity(alloc, PENDING) {
            Err(_) => Err(PortAllocError { exec }),
            Ok(waiting) => {
                let mut exec = exec;
                exec.reset();
                Ok(Port {
                    profile,
                    phase: Phase::Step1,
                    begun: false,
                    exec,
                    responses: Ring::new(0, 1),
                    commands: Ring::new(0, 1),
                    waiting,
                    polling: false,
                    credits: 1,
                    interrupts: Interrupts::none(),
                    turns: Tally::new(),
                    fetches: Tally::new(),
                    deliveries: Tally::new(),
                    load: Tally::new(),
                    guest: Guest::new(),
                })
            }
        }
    }

    /// Restarts initialization: the host writes IP, with any value and in any phase.
    ///
    /// Drops the pending commands, the queued end messages and the interrupt request. Makes every unit that
    /// has a drive available, without software write protection. Stops polling, and resets credits, ring
    /// indexes and counts. Clears the controller flags and the due attention messages. Blocks, hardware write
    /// protection, drive types and the profile don't change.
    ///
    /// UDA50 Programmer's Documentation Kit: initialization.
    pub fn write_ip(&mut self, _value: u16)
        ensures restarts { self.new ≡ port_restarted self.old }
    {
        self.phase = Phase::Step1;
        self.begun = false;
        self.exec.reset();
        self.responses = Ring::new(0, 1);
        self.commands = Ring::new(0, 1);
        self.waiting.clear();
        self.polling = false;
        self.credits = 1;
        self.interrupts = Interrupts::none();
        self.turns = Tally::new();
        self.fetches = Tally::new();
        self.deliveries = Tally::new();
        self.load = Tally::new();
        self.guest = self.guest.restarted();
    }

    /// Starts polling of the command ring if the port runs: the host reads IP. A port in the poll test
    /// continues with step 4. Always returns 0.
    ///
    /// UDA50 Programmer's Documentation Kit: command ring polling, initialization.
    pub fn read_ip(&mut self) -> u16
        ensures reads_zero { result ≡ 0 }
        ensures starts_polling { self.new ≡ port_after_ip_read self.old.phase self.old }
    {
        match self.phase {
            Phase::Running => self.polling = true,
            Phase::PollTest => {
                self.phase = Phase::Step4;
                self.interrupts = self.interrupts.raised_by_step(self.profile);
            }
            _ => {}
        }
        0
    }

    /// Takes the pending interrupt request, and returns its vector address: a multiple of 4 from 4 to 0x1FC.
    /// Returns None if no request is pending.
    ///
    /// In the compatible profile these events raise a request, if the vector isn't 0:
    ///
    /// - the port enters step 2, 3 or 4, and the first word has bit 7 set;
    /// - a ring transition that the host asked about;
    /// - a fatal error.
    ///
    /// The strict profile raises no request. A pending request stays pending until this call or a write to
    /// IP.
    ///
    /// UDA50 Programmer's Documentation Kit: interrupts.
    pub fn take_interrupt(&mut self) -> Option<u16>
        ensures vector { result ≡ vector_of self.old.interrupts }
        ensures address { IfSome result (λ vector. IsVectorAddress vector) }
        ensures request_cleared { self.new ≡ record self.old { interrupts = served self.old.interrupts } }
    {
        let request = self.interrupts.request();
        self.interrupts = self.interrupts.served();
        request
    }

    /// Returns the profile.
    pub fn profile(&self) -> Profile
        ensures profile { result ≡ self.now.profile }
    {
        self.profile
    }

    /// Returns the phase. A dead port's phase contains the cause.
    pub fn phase(&self) -> Phase
        ensures phase { result ≡ self.now.phase }
    {
        self.phase
    }

    /// Returns the number of commands that the port fetched and hasn't executed yet.
    pub fn pending(&self) -> usize
        ensures count { result ≡ length self.now.exec.pending }
        ensures within { result ≤ PENDING }
    {
        self.exec.pending()
    }

    /// Returns the number of queued end messages.
    pub fn waiting(&self) -> usize
        ensures count { result ≡ length self.now.waiting }
        ensures within { result ≤ PENDING }
    {
        self.waiting.len()
    }

    /// Returns whether the port polls its command ring. A read of IP starts polling, and a poll that finds a
    /// descriptor of the host's ends it.
    ///
    /// In the compatible profile polling also ends while the host has no credit, and the next delivery of an
    /// end message starts it again. A fatal error doesn't change the value.
    pub fn is_polling(&self) -> bool
        ensures polling { result ≡ self.now.polling }
    {
        self.polling
    }

    /// Returns the executor, with its units and its pending commands unchanged.
    pub fn into_exec(self) -> Exec<S>
        ensures exec { result ≡ self.exec }
    {
        let Port { exec, .. } = self;
        exec
    }
}

impl<S: BlockStore> fmt::Debug for Port<S> {
    fn fmt<W: fmt::Write>(&self, f: &mut fmt::Formatter<W>) -> fmt::Result {
        f.debug_struct("Port")
            .field("phase", &self.phase)
            .field("pending", &self.exec.pending())
            .field("waiting", &self.waiting.len())
            .field("looking", &self.polling)
            .field("credits", &self.credits)
            .finish_non_exhaustive()
    }
}
