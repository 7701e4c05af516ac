//! The host of a port.
ghost use Rattle.std.specs.Prelude.{◌≡◌, ◌<◌, ◌≤◌, ◌↔◌, length, map, IfOk, IfErr, IsSome};
ghost use Rattle.uda_mem.specs.Put.{put, part};
ghost use Rattle.uda_disk.specs.Units.{AreWellFormed};
ghost use Rattle.uda_exec.specs.Disks.{PENDING_LIMIT};
ghost use Rattle.uda_exec.specs.Drives.{reset_unit};
ghost use Rattle.uda_host.specs.Layout.{buffer_address, buffer_size};
ghost use Rattle.uda_port.specs.Port.{CreditsAgree};
ghost use Rattle.uda_port.specs.Turn.{TurnEffect};
ghost use Rattle.uda_port.specs.Trace.{turn_of};
ghost use Rattle.uda_port.specs.declared.turn.Turn.TheVariants.{Delivered};
ghost use Rattle.uda_host.specs.HostPortAgreement.{IsAbove};
ghost use Rattle.uda_host.specs.Host.{outstanding_count, Posts, StepEffect, IsConsistent, IsIdle, IsStarted, ExecutedAlone};

use crate::posted::PostedSoFar;
use crate::ring::{BUFFER_SIZE, SLOTS, buffer_address, credits_at, end_at, reopen, write_command};
use crate::start::{host_memory, initialise, open_all};
use std::alloc::Global;
use std::marker::Model;
use uda_exec::Exec;
use uda_image::BlockStore;
use uda_mem::HostMemory;
use uda_packet::{Command, End, Op};
use uda_port::{Port, PortAllocError, Trace, Turn};

/// A host with its port: it posts commands, runs turns of the port, and receives end messages.
///
/// Contracts read its buffers, the units, the outstanding commands, the queued end messages, its credits and
/// some counts (`HostState`). The rings and their indexes are private.
#[derive(Drop)]
pub struct Host<S: BlockStore> {
    memory: HostMemory,
    command_place: u32,
    response_place: u32,
    held: u32,
    posted: PostedSoFar,
    port: Port<S>,
}

impl<S: BlockStore> Model for Host<S> {
    ghost use Rattle.uda_host.specs.Host.{HostState};

    ghost Value = { HostState };

    ghost use Rattle.uda_host.specs.HostInvariant.{host_view, HostInvariant};

    ghost view = { host_view };

    ghost invariant = { HostInvariant };
}

impl<S: BlockStore> Host<S> {
    /// Returns a host over the units of `exec`, which it resets. Allocates memory and port, initializes the
    /// port, and executes one Set Controller Characteristics, whose end message grants all credits.
    ///
    /// If an allocation fails, returns a [`PortAllocError`] with the unchanged `exec`.
    ///
    /// UDA50 Programmer's Documentation Kit: initialization, credits.
    #[tactic(auto, using(uda_port::proofs::Length::lengths))]
    pub fn start(alloc: Global, exec: Exec<S>) -> Result<Host<S>, PortAllocError<Exec<S>>>
        ensures started { IfOk result (λ host. IsStarted (map reset_unit exec.units) host) }
        ensures well_formed { IfOk result (λ host. AreWellFormed host.units) }
        ensures consistent { IfOk result (λ host. IsConsistent host) }
        ensures refused { IfErr result (λ refusal. refusal.exec ≡ exec) }
    {
        let Ok(mut memory) = host_memory(alloc) else {
            return Err(PortAllocError { exec });
        };
        match Port::new(alloc, exec) {
            Err(refusal) => Err(refusal),
            Ok(mut port) => {
                initialise(&mut port, &mut memory);
                open_all(&mut memory);
                let mut host = Host {
                    memory,
                    command_place: 0,
                    response_place: 0,
                    held: 1,
                    posted: PostedSoFar::new(),
                    port,
                };
                host.execute(&Command {
                    reference: 1,
                    unit: 0,
                    op: Op::Controller,
                });
                Ok(host)
            }
        }
    }

    /// Posts a command at the next index of the command ring, and reads IP, so that the port polls. If the
    /// command has a buffer, it must be one of the host's.
    ///
    /// UDA50 Programmer's Documentation Kit: command ring, polling.
    pub fn post(&mut self, command: &Command)
        requires credit { 0 < self.old.credits }
        requires above { IsAbove command.now }
        ensures posts { Posts command.now self.old self.new }
        ensures before { IsConsistent self.old }
        ensures consistent { IsConsistent self.new }
    {
        write_command(&mut self.memory, self.command_place, command);
        self.port.read_ip();
        self.command_place = (self.command_place + 1) % SLOTS;
        self.held -= 1;
        self.posted.push(*command);
    }

    /// Runs one turn of the port, stores its record in `trace`, and returns the end message that the port delivers,
    /// or None. The host reads the message at the next index of the response ring, gives the descriptor back to the
    /// port, and adds the credits.
    ///
    /// UDA50 Programmer's Documentation Kit: response ring, credits.
    pub fn step(&mut self, trace: &mut Trace) -> Option<End>
        requires some { 0 < outstanding_count self.old }
        ensures effect { StepEffect self.old result self.new }
        ensures delivered { IsSome result ↔ (turn_of trace.new ≡ Delivered) }
        ensures consistent { IsConsistent self.new }
        ensures well_formed { AreWellFormed self.new.units }
    {
        let turn = turn_into(&mut self.port, &mut self.memory, trace);
        let Turn::Delivered = turn else {
            return None;
        };
        let Some(end) = end_at(&self.memory, self.response_place) else {
            unreachable!()
        };
        let credits = credits_at(&self.memory, self.response_place);
        reopen(&mut self.memory, self.response_place);
        self.response_place = (self.response_place + 1) % SLOTS;
        self.held += credits;
        Some(end)
    }

    /// Executes one command, in three turns, while no other is outstanding, and returns its end message.
    pub fn execute(&mut self, command: &Command) -> End
        requires idle { IsIdle self.old }
        requires credit { 0 < self.old.credits }
        requires above { IsAbove command.now }
        ensures executed_alone { ExecutedAlone self.old command.now result self.new }
        ensures consistent { IsConsistent self.new }
        ensures well_formed { AreWellFormed self.new.units }
    {
        let mut trace = Trace::Idle;
        self.post(command);
        self.step(&mut trace);
        self.step(&mut trace);
        let Some(end) = self.step(&mut trace) else {
            unreachable!()
        };
        end
    }

    /// Writes bytes to a buffer, from its start on.
    pub fn fill(&mut self, number: u8, bytes: &[u8])
        requires number { number < PENDING_LIMIT }
        requires room { length bytes.now ≤ buffer_size }
        ensures filled { self.new ≡ record self.old {
          memory = put self.old.memory (buffer_address number) bytes.now;
        } }
    {
        self.memory
            .within(buffer_address(number), bytes.len() as u32)
            .copy_from_slice(bytes);
    }

    /// Returns the bytes of a buffer.
    pub fn buffer(&self, number: u8) -> &[u8]
        requires number { number < PENDING_LIMIT }
        ensures bytes { result.now ≡ part self.now.memory (buffer_address number) buffer_size }
        ensures length { length result.now ≡ buffer_size }
    {
        let Some(bytes) = self.memory.window(buffer_address(number), BUFFER_SIZE) else {
            unreachable!()
        };
        bytes
    }

    /// Returns the number of commands that may be posted now.
    pub fn credits(&self) -> u32
        ensures credits { result ≡ self.now.credits }
        ensures consistent { IsConsistent self.now }
    {
        self.held
    }

    /// Returns the executor, with its units unchanged.
    pub fn into_exec(self) -> Exec<S>
        ensures units { result.units ≡ self.units }
    {
        let Host { port, .. } = self;
        port.into_exec()
    }
}

// Runs a turn of the port over the host's memory, and stores what it did in `trace`.
#[tactic(auto, using(uda_port::proofs::Length::wholes))]
fn turn_into<S: BlockStore>(port: &mut Port<S>, memory: &mut HostMemory, trace: &mut Trace) -> Turn
    ensures effect { TurnEffect port.old.phase port.old memory.old result port.new memory.new }
    ensures turn { result ≡ turn_of trace.new }
    ensures credits { CreditsAgree port.new }
    ensures well_formed { AreWellFormed port.new.exec.units }
{
    port.turn_at(memory.as_mut_slice(), None, trace).turn
}
