//! The turns of a port.
//!
//! UDA50 Programmer's Documentation Kit: command ring polling, message envelopes, credits.
ghost use Rattle.std.specs.Prelude.{◌≡◌, ◌≢◌, ◌+◌, ◌<◌, ◌≤◌, IfSome, IfOk, IfErr, IsNone, ◌↔◌, ℕ, option_map, slice_get, [], ◌∷◌, ◌++◌, length};
ghost use Rattle.std.specs.Prelude.{take, Some, IsSome, is_some, true, ◌||◌};
ghost use Rattle.uda_mem.specs.Slices.{IsMemory};
ghost use Rattle.uda_disk.specs.Units.{AreWellFormed};
ghost use Rattle.uda_exec.specs.Disks.{PENDING_LIMIT};
ghost use Rattle.uda_exec.specs.Order.{IsEligible};
ghost use Rattle.circular_buffer.specs.Buffer.{buffer};
ghost use Rattle.uda_port.specs.Port.{CreditsAgree, next_grant, command_indicator, response_indicator};
ghost use Rattle.uda_port.specs.Interrupt.{IsBelow};
ghost use Rattle.uda_port.specs.Turn.{FetchRule, ExecutesOne, ExecuteRule, DeliverRule, NotifyRule, LaterRulesEffect, FirstRuleEffect, RunningTurn};
ghost use Rattle.uda_port.specs.Turn.{TurnEffect, delivery_of, may_fetch, port_turn_on, port_not_polling};
ghost use Rattle.uda_port.specs.MemoryUse.{IsChoice, ExecutesChosen};
ghost use Rattle.uda_port.specs.Attention.{MayNotify, goes_before_ends, turns_to_notify, ComesNearer};
ghost use Rattle.uda_port.specs.Attention.{MOST_TURNS_TO_NOTIFY};
ghost use Rattle.uda_port.specs.Trace.{Reports, ReportsIf};
ghost use Rattle.uda_port.specs.declared.turn.Turn.TheVariants.{Fetched, Executed, Idle as IdleTurn};
ghost use Rattle.uda_port.specs.declared.trace.Trace.TheVariants.{Idle, Dead as TraceDead};
ghost use Rattle.uda_port.specs.Port.{lacks_credit};
ghost use Rattle.uda_port.specs.Report.{end_text, report_of, attention_text};
ghost use Rattle.uda_port.specs.Guest.{first_due};
ghost use Rattle.uda_port.specs.declared.profile.Profile.TheVariants.{Strict};
ghost use Rattle.uda_port.specs.declared.phase.Phase.TheVariants.{Running};
ghost use Rattle.uda_port.specs.Possible.{CanDie};
ghost use Rattle.uda_port.specs.Saved.{HasPossibleState};
ghost use Rattle.uda_port.specs.Packet.{IsLegible};
ghost use Rattle.uda_port.specs.Ring.{next_descriptor, descriptor_address};
ghost use Rattle.uda_port.specs.Fetch.{IsNext};
ghost use Rattle.uda_port.specs.Delivery.{DeliveryEffect};

use crate::at_once::answer_at_once;
use crate::descriptor::Descriptor;
use crate::message::{keep_flags, message_in};
use crate::packet::{Delivery, Fetching, Message, Notice, TEXT};
use crate::phase::{Fatal, Phase};
use crate::port::Port;
use crate::profile::Profile;
use crate::ring::{NextDescriptor, Ring};
use crate::trace::Trace;
use circular_buffer::HeapCircularBuffer;
use uda_exec::PENDING;
use uda_image::BlockStore;
use uda_mem::HostMemory;
use uda_packet::{
    ATTENTION_LENGTH, Identity, Reply, Report, encode_end, encode_guest_end, encode_unit_available,
};

/// The credits that the first end message since initialization grants. As many commands may then be
/// outstanding, and as many may be pending.
///
/// UDA50 Programmer's Documentation Kit: credits.
pub const CREDITS: u8 = PENDING as u8;

/// What a turn did.
#[derive(Clone, Copy, Debug, PartialEq, Eq)]
pub enum Turn {
    /// The port fetched a command packet. The command is pending, or an end message is queued instead.
    Fetched,
    /// The port executed a pending command, and queued its end message.
    Executed,
    /// The port delivered the first queued end message to the response ring.
    Delivered,
    /// The port delivered an attention message to the response ring.
    Notified,
    /// The port did nothing. It is in initialization, has nothing to do, or has a message and the host owns
    /// the next response descriptor.
    Idle,
    /// The port did nothing, since it is dead. The fatal error may have occurred in this turn.
    Dead,
}

impl<S: BlockStore> Port<S> {
    /// Runs one turn: applies the first of these rules that fits.
    ///
    /// 1. Fetch. The port polls, and it owns the next command descriptor or can't read it. If it can't read
    ///    the descriptor or the packet, it fails, and memory is unchanged. Otherwise it returns the
    ///    descriptor to the host and checks the packet.
    /// 2. Execute. The port stops polling. If a command is pending, the port executes an eligible one and
    ///    queues its end message.
    /// 3. Deliver. An end message is queued, and the port owns the next response descriptor or can't read it.
    ///    The port writes the text, then the envelope with its credits, then the second word of the
    ///    descriptor. The first end message since initialization grants [`CREDITS`] credits, and each later
    ///    one grants 1. If the port can't use the descriptor or the buffer, it fails.
    /// 4. Otherwise the result is [`Turn::Idle`].
    ///
    /// The first of these checks that fits decides about a fetched packet:
    ///
    /// 1. The host had no credit left: the port fails with [`Fatal::CreditsExceeded`].
    /// 2. The connection or the message type isn't 0: the port fails with [`Fatal::InvalidConnection`].
    /// 3. The length isn't 48: an end message of status 0x0001 is queued.
    /// 4. The command is invalid: an end message that says what is wrong is queued.
    /// 5. Otherwise the command is pending.
    ///
    /// Those are the rules of the strict profile. The compatible profile differs:
    ///
    /// - It reads a text by its length word. In a shorter text the bytes past its length count as 0; of a
    ///   longer one it reads 48. A length under 12 makes the end message of status 0x0001.
    /// - Connection 2, DUP, isn't fatal: each of its commands is invalid.
    /// - Some commands are ended at once: the fetch queues their end messages.
    /// - It ignores a response buffer's length word, and writes as many bytes as the kind of end message has.
    /// - At a ring transition with the flag set, it first writes 1 to an interrupt indicator. The command
    ///   indicator is 4 bytes below the ring base, the response indicator 2 bytes. The port also raises an
    ///   interrupt request ([`take_interrupt`](Port::take_interrupt)).
    /// - While the host has no credit, it doesn't fetch. After the next delivery it polls again.
    /// - In rule 3 it delivers an attention message that is due before the queued end messages.
    ///
    /// A port in initialization returns [`Turn::Idle`], and a dead one [`Turn::Dead`]. Neither changes
    /// anything.
    ///
    /// UDA50 Programmer's Documentation Kit: command ring polling, message envelopes, credits.
    #[tactic(auto, using(crate::proofs::Length::wholes))]
    pub fn turn(&mut self, memory: &mut HostMemory) -> Turn
        ensures effect { TurnEffect self.old.phase self.old memory.old result self.new memory.new }
        ensures attention { MayNotify self.old memory.old → goes_before_ends result ≡ true }
        ensures attention_nearer { MayNotify self.old memory.old → ComesNearer self.old result self.new }
        ensures credits { CreditsAgree self.new }
        ensures four_units { length self.new.exec.units ≡ 4 }
        ensures well_formed { AreWellFormed self.new.exec.units }
    {
        self.turn_in(memory.as_mut_slice())
    }

    /// Does the same over a slice: [`turn`](Port::turn) with borrowed memory. The length of the slice is even
    /// and at most [`SLICE_LIMIT`](uda_mem::SLICE_LIMIT) ([`is_memory`](uda_mem::is_memory)). Each call may
    /// get another slice.
    pub fn turn_in(&mut self, memory: &mut [u8]) -> Turn
        requires memory { IsMemory memory.old }
        ensures effect { TurnEffect self.old.phase self.old memory.old result self.new memory.new }
        ensures attention { MayNotify self.old memory.old → goes_before_ends result ≡ true }
        ensures attention_nearer { MayNotify self.old memory.old → ComesNearer self.old result self.new }
        ensures credits { CreditsAgree self.new }
        ensures four_units { length self.new.exec.units ≡ 4 }
        ensures well_formed { AreWellFormed self.new.exec.units }
    {
        let mut trace = Trace::Idle;
        let turn = self.take_turn(memory, None, &mut trace);
        self.keep();
        turn
    }

    /// States the invariant of every port: it has four units, each of them well formed, its credits are
    /// consistent, and [`restore`](Port::restore) accepts its state. At most 34 turns with a free response descriptor
    /// go by until no attention message is due ([`attention_arrives`](crate::attention_arrives)).
    pub fn keep(&self)
        ensures credits { CreditsAgree self.now }
        ensures attention { turns_to_notify self.now ≤ MOST_TURNS_TO_NOTIFY }
        ensures possible { HasPossibleState self.now }
        ensures four_units { length self.now.exec.units ≡ 4 }
        ensures well_formed { AreWellFormed self.now.exec.units }
    {
        let _ = &self.credits;
    }

    // Runs a turn, by the phase, and reports it in `trace`. If it executes a command, that is the chosen one, or
    // one that the port chooses. The function isn't inlined, so that it writes the record only once, where it is.
    #[inline(never)]
    pub(crate) fn take_turn(
        &mut self,
        memory: &mut [u8],
        choice: Option<usize>,
        trace: &mut Trace,
    ) -> Turn
        requires memory { IsMemory memory.old }
        requires choice { IsChoice self.old.exec.pending choice }
        ensures effect { TurnEffect self.old.phase self.old memory.old result self.new memory.new }
        ensures chosen { ExecutesChosen choice result (port_not_polling (port_turn_on self.old), memory.old)
            (self.new, memory.new) }
        ensures reports { Reports result trace.new self.old self.new }
    {
        match self.phase {
            Phase::Running => self.run(memory, choice, trace),
            Phase::Dead { cause } => {
                report_dead(trace, cause);
                Turn::Dead
            }
            Phase::Step1 => initializing(trace),
            Phase::Step2 { .. } => initializing(trace),
            Phase::Step3 { .. } => initializing(trace),
            Phase::Wrap { .. } => initializing(trace),
            Phase::PurgeTest => initializing(trace),
            Phase::PollTest => initializing(trace),
            Phase::Step4 => initializing(trace),
        }
    }

    // Runs a turn of a running port.
    #[tactic(auto, using(crate::proofs::TurnLaws::running_turn))]
    fn run(&mut self, memory: &mut [u8], choice: Option<usize>, trace: &mut Trace) -> Turn
        requires memory { IsMemory memory.old }
        requires running { self.old.phase ≡ Running }
        requires choice { IsChoice self.old.exec.pending choice }
        ensures effect { RunningTurn self.old memory.old result self.new memory.new }
        ensures chosen { ExecutesChosen choice result (port_not_polling (port_turn_on self.old), memory.old)
            (self.new, memory.new) }
        ensures reports { Reports result trace.new self.old self.new }
    {
        self.turns.add(1);
        match self.lines(memory, choice, trace) {
            Ok(turn) => turn,
            Err(cause) => {
                self.die(cause);
                report_dead(trace, cause);
                Turn::Dead
            }
        }
    }

    // Applies the first rule that fits.
    fn lines(
        &mut self,
        memory: &mut [u8],
        choice: Option<usize>,
        trace: &mut Trace,
    ) -> Result<Turn, Fatal>
        requires memory { IsMemory memory.old }
        requires running { self.old.phase ≡ Running }
        requires choice { IsChoice self.old.exec.pending choice }
        ensures effect { FirstRuleEffect self.old memory.old result self.new memory.new }
        ensures chosen { IfOk result (λ turn. ExecutesChosen choice turn (port_not_polling self.old, memory.old)
            (self.new, memory.new)) }
        ensures cause { IfErr result (λ cause. CanDie self.new.profile self.new.phase cause) }
        ensures reports { IfOk result (λ turn. Reports turn trace.new self.old self.new) }
    {
        match self.fetch(memory, trace) {
            Err(cause) => Err(cause),
            Ok(true) => Ok(Turn::Fetched),
            Ok(false) => {
                self.polling = false;
                self.rest(memory, choice, trace)
            }
        }
    }

    // Applies the rules after the first.
    #[tactic(auto, using(crate::proofs::TurnLaws::none_first))]
    fn rest(
        &mut self,
        memory: &mut [u8],
        choice: Option<usize>,
        trace: &mut Trace,
    ) -> Result<Turn, Fatal>
        requires memory { IsMemory memory.old }
        requires running { self.old.phase ≡ Running }
        requires choice { IsChoice self.old.exec.pending choice }
        ensures effect { LaterRulesEffect self.old memory.old result self.new memory.new }
        ensures chosen { IfOk result (λ turn. ExecutesChosen choice turn (self.old, memory.old)
            (self.new, memory.new)) }
        ensures cause { IfErr result (λ cause. CanDie self.new.profile self.new.phase cause) }
        ensures reports { IfOk result (λ turn. Reports turn trace.new self.old self.new) }
    {
        if self.execute(memory, choice, trace) {
            return Ok(Turn::Executed);
        }
        if self.has_notice() {
            return match self.notify(memory) {
                Err(cause) => Err(cause),
                Ok(true) => {
                    *trace = Trace::Notified;
                    Ok(Turn::Notified)
                }
                Ok(false) => Ok(idle(trace)),
            };
        }
        let Some(end) = self.waiting.front().copied() else {
            return Ok(idle(trace));
        };
        match self.deliver(memory, end) {
            Err(cause) => Err(cause),
            Ok(true) => {
                *trace = Trace::Delivered(end);
                Ok(Turn::Delivered)
            }
            Ok(false) => Ok(idle(trace)),
        }
    }

    // Applies the first rule: fetches a command if the port polls and one is posted.
    fn fetch(&mut self, memory: &mut [u8], trace: &mut Trace) -> Result<bool, Fatal>
        requires memory { IsMemory memory.old }
        requires running { self.old.phase ≡ Running }
        ensures effect { FetchRule self.old memory.old result self.new memory.new }
        ensures cause { IfErr result (λ cause. CanDie self.new.profile self.new.phase cause) }
        ensures reports { IfOk result (λ b. ReportsIf b Fetched trace.new (self.old, self.new)) }
    {
        if !self.may_fetch() {
            return Ok(false);
        }
        let descriptor = match self.commands.next(memory) {
            NextDescriptor::OwnedByPort(descriptor) => descriptor,
            NextDescriptor::OwnedByHost => return Ok(false),
            NextDescriptor::OutsideMemory => return Err(Fatal::RingRead),
        };
        let indicator = self.command_indicator(memory, descriptor);
        let fetching = Fetching {
            profile: self.profile,
            indicator,
        };
        let Some(fetched) = self.commands.take(memory, descriptor, fetching) else {
            return Err(Fatal::PacketRead);
        };
        self.interrupts.note(self.profile, indicator);
        if self.credits == 0 {
            return Err(Fatal::CreditsExceeded);
        }
        let Some(message) = message_in(self.profile, &fetched) else {
            return Err(Fatal::InvalidConnection);
        };
        self.credits -= 1;
        self.fetches.add(1);
        keep_flags(&mut self.guest, self.profile, &fetched, &message);
        match message {
            Ok(asked) => {
                self.exec.accept_guest(asked);
                *trace = Trace::Fetched(asked);
                Ok(true)
            }
            Err(reply) => {
                answer_at_once(
                    self.profile,
                    &mut self.exec,
                    &mut self.waiting,
                    reply,
                    trace,
                );
                Ok(true)
            }
        }
    }

    /// Returns whether the port may fetch: it polls, and its host isn't without credit in the compatible
    /// profile.
    pub(crate) fn may_fetch(&self) -> bool
        ensures { result ≡ may_fetch self.now }
    {
        self.polling && !self.lacks_credit()
    }

    // Returns whether the host has no credit left, in the compatible profile. The strict profile checks that
    // after a fetch.
    fn lacks_credit(&self) -> bool
        ensures { result ≡ lacks_credit self.now.profile self.now.credits }
    {
        match self.profile {
            Profile::Strict => false,
            Profile::Compatible(_) => self.credits == 0,
        }
    }

    // Applies the second rule: executes a pending command, if there is one.
    fn execute(&mut self, memory: &mut [u8], choice: Option<usize>, trace: &mut Trace) -> bool
        requires memory { IsMemory memory.old }
        requires running { self.old.phase ≡ Running }
        requires choice { IsChoice self.old.exec.pending choice }
        ensures running { self.new.phase ≡ Running }
        ensures effect { ExecuteRule self.old memory.old result self.new memory.new }
        ensures chosen { result ≡ true → ExecutesChosen choice Executed (self.old, memory.old)
            (self.new, memory.new) }
        ensures reports { ReportsIf result Executed trace.new (self.old, self.new) }
    {
        let Some(place) = self.place_by(choice) else {
            return false;
        };
        self.execute_at(memory, place, trace);
        true
    }

    // Returns the index of the pending command to execute, or None if nothing is pending.
    fn place_by(&self, choice: Option<usize>) -> Option<usize>
        requires choice { IsChoice self.now.exec.pending choice }
        ensures none_iff_empty { IsNone result ↔ (self.now.exec.pending ≡ []) }
        ensures eligible { IfSome result (λ place. IsEligible self.now.exec.pending place) }
        ensures chosen { IfSome result (λ place. (j : ℕ) → choice ≡ Some j → place ≡ j) }
    {
        if self.exec.pending() == 0 {
            return None;
        }
        match choice {
            None => self.exec.next(),
            Some(place) => Some(place),
        }
    }

    // Executes the pending command at this index, which is eligible, and queues its end message.
    fn execute_at(&mut self, memory: &mut [u8], place: usize, trace: &mut Trace)
        requires memory { IsMemory memory.old }
        requires running { self.old.phase ≡ Running }
        requires eligible { IsEligible self.old.exec.pending place }
        ensures running { self.new.phase ≡ Running }
        ensures effect { ExecutesOne place self.old memory.old self.new memory.new }
        ensures reports { Reports Executed trace.new self.old self.new }
    {
        let pending = self.exec.pending();
        let end = self.exec.execute_at_in(place, memory);
        self.load.add(pending);
        self.guest.note_end(&end);
        hold(&mut self.waiting, end);
        *trace = Trace::Executed(end);
    }

    // Applies the third rule if no attention message is due: delivers the first queued end message, if the port owns
    // the next response descriptor.
    fn deliver(&mut self, memory: &mut [u8], end: Reply) -> Result<bool, Fatal>
        requires memory { IsMemory memory.old }
        requires none_due { attention_text self.old ≡ None }
        requires first { slice_get self.old.waiting 0 ≡ Some end }
        requires running { self.old.phase ≡ Running }
        ensures effect { DeliverRule self.old memory.old result self.new memory.new }
        ensures cause { IfErr result (λ cause. CanDie self.new.profile self.new.phase cause) }
        ensures taken { IfOk result (λ b. b ≡ true → self.old.waiting ≡ end ∷ self.new.waiting) }
    {
        let descriptor = match self.responses.next(memory) {
            NextDescriptor::OwnedByPort(descriptor) => descriptor,
            NextDescriptor::OwnedByHost => return Ok(false),
            NextDescriptor::OutsideMemory => return Err(Fatal::RingRead),
        };
        let delivery = self.delivery(memory, descriptor);
        let looks = self.looks_again();
        let message = self.end_text(&end);
        if !put_message(&mut self.responses, memory, descriptor, delivery, &message) {
            return Err(Fatal::PacketWrite);
        }
        release(&mut self.waiting, end);
        self.interrupts.note(self.profile, delivery.indicator);
        self.polling = looks;
        self.credits += delivery.credits;
        self.begun = true;
        self.deliveries.add(1);
        Ok(true)
    }

    // Returns whether the port polls after a delivery: it polled before, or the host had no credit.
    fn looks_again(&self) -> bool
        ensures { result ≡ (lacks_credit self.now.profile self.now.credits || self.now.polling) }
    {
        self.lacks_credit() || self.polling
    }

    // Applies the third rule if an attention message is due: delivers it, if the port owns the next response
    // descriptor. That is rare, so the function isn't inlined.
    #[inline(never)]
    fn notify(&mut self, memory: &mut [u8]) -> Result<bool, Fatal>
        requires memory { IsMemory memory.old }
        requires due { IsSome (attention_text self.old) }
        requires running { self.old.phase ≡ Running }
        ensures effect { NotifyRule self.old memory.old result self.new memory.new }
        ensures cause { IfErr result (λ cause. CanDie self.new.profile self.new.phase cause) }
    {
        let Some(notice) = self.notice() else {
            return Ok(false);
        };
        let descriptor = match self.responses.next(memory) {
            NextDescriptor::OwnedByPort(descriptor) => descriptor,
            NextDescriptor::OwnedByHost => return Ok(false),
            NextDescriptor::OutsideMemory => return Err(Fatal::RingRead),
        };
        let delivery = Delivery {
            credits: 0,
            ..self.delivery(memory, descriptor)
        };
        let message = &notice.message;
        if !put_message(&mut self.responses, memory, descriptor, delivery, message) {
            return Err(Fatal::PacketWrite);
        }
        self.guest.set_attention(usize::from(notice.drive), false);
        self.interrupts.note(self.profile, delivery.indicator);
        Ok(true)
    }

    /// Returns whether an attention message is due.
    #[inline(always)]
    pub(crate) fn has_notice(&self) -> bool
        ensures due { result ≡ is_some (attention_text self.now) }
    {
        match self.profile {
            Profile::Strict => false,
            Profile::Compatible(_) => self.guest.is_any_due(),
        }
    }

    /// Returns the next attention message that is due, or None.
    pub(crate) fn notice(&self) -> Option<Notice>
        ensures text { option_map (λ n. take n.message.size n.message.text) result ≡ attention_text self.now }
        ensures due { IfSome result (λ n. first_due self.now.guest.attentions ≡ Some n.drive) }
        ensures within { IfSome result (λ n. n.message.size ≤ 48) }
        ensures guests { IfSome result (λ n. self.now.profile ≢ Strict) }
    {
        let Profile::Compatible(identity) = self.profile else {
            return None;
        };
        let drive = self.guest.first_due()?;
        let at = usize::from(drive);
        let unit = self.guest.unit(at, self.exec.unit_or_absent(at))?;
        Some(Notice {
            drive,
            message: Message {
                text: encode_unit_available(&unit, identity.unit_number(drive)),
                size: ATTENTION_LENGTH,
            },
        })
    }

    /// Returns the text of an end message, with as many bytes as the profile gives it.
    #[inline(always)]
    pub(crate) fn end_text(&self, end: &Reply) -> Message
        ensures text { take result.size result.text ≡ end_text self.now end.now }
        ensures within { result.size ≤ 48 }
        ensures whole { self.now.profile ≡ Strict → result.size ≡ 48 }
        ensures legible { self.now.profile ≡ Strict → IsLegible end.now }
    {
        match self.profile {
            Profile::Strict => Message {
                text: encode_end(&end.strict_end()),
                size: TEXT,
            },
            Profile::Compatible(identity) => Message {
                text: encode_guest_end(end, &self.report(identity, end.unit)),
                size: end.body.length(),
            },
        }
    }

    /// Returns the number of bytes of the text of an end message ([`end_text`](Port::end_text)).
    pub(crate) fn end_size(&self, end: &Reply) -> u16
        ensures size { result ≡ length (end_text self.now end.now) }
        ensures within { result ≤ 48 }
    {
        match self.profile {
            Profile::Strict => TEXT,
            Profile::Compatible(_) => end.body.length(),
        }
    }

    // Returns what the end message reports about the controller and this drive.
    fn report(&self, identity: Identity, drive: u16) -> Report
        ensures report { result ≡ report_of identity self.now.guest self.now.exec.units drive }
    {
        let unit = usize::from(drive);
        Report {
            identity,
            controller_flags: self.guest.flags,
            unit: self.guest.unit(unit, self.exec.unit_or_absent(unit)),
        }
    }

    /// Returns the address of the command interrupt indicator, if the next fetch must set it.
    pub(crate) fn command_indicator(&self, memory: &[u8], next: Descriptor) -> Option<u32>
        requires memory { IsMemory memory.now }
        requires next { next_descriptor memory.now self.now.commands ≡ Some next }
        ensures indicator { result ≡ command_indicator self.now memory.now }
        ensures below { IsBelow result self.now.commands.base }
    {
        match self.profile {
            Profile::Compatible(_) if self.commands.is_ring_transition(memory, next) => self
                .responses
                .word_below(4),
            _ => None,
        }
    }

    /// Returns the address of the response interrupt indicator, if the next delivery must set it.
    pub(crate) fn response_indicator(&self, memory: &[u8], next: Descriptor) -> Option<u32>
        requires memory { IsMemory memory.now }
        requires next { next_descriptor memory.now self.now.responses ≡ Some next }
        ensures indicator { result ≡ response_indicator self.now memory.now }
        ensures below { IsBelow result self.now.responses.base }
    {
        match self.profile {
            Profile::Compatible(_) if self.responses.is_ring_transition(memory, next) => self
                .responses
                .word_below(2),
            _ => None,
        }
    }

    // Returns the settings of the next delivery of an end message.
    fn delivery(&self, memory: &[u8], next: Descriptor) -> Delivery
        requires memory { IsMemory memory.now }
        requires next { next_descriptor memory.now self.now.responses ≡ Some next }
        ensures delivery { result ≡ delivery_of self.now memory.now }
        ensures below { IsBelow result.indicator self.now.responses.base }
        ensures few { result.credits ≤ PENDING_LIMIT }
        ensures room { self.now.credits + result.credits ≤ PENDING_LIMIT + 1 }
    {
        Delivery {
            profile: self.profile,
            credits: self.next_grant(),
            indicator: self.response_indicator(memory, next),
        }
    }

    // Returns the number of credits that the next end message grants.
    fn next_grant(&self) -> u8
        ensures grant { result ≡ next_grant self.now.deliveries }
        ensures few { result ≤ PENDING_LIMIT }
        ensures room { self.now.credits + result ≤ PENDING_LIMIT + 1 }
    {
        if self.begun { 1 } else { CREDITS }
    }
}

// Delivers a message to the next descriptor of a response ring, which the port owns. Returns false if the message
// doesn't fit its buffer.
#[inline(always)]
fn put_message(
    responses: &mut Ring,
    memory: &mut [u8],
    next: Descriptor,
    delivery: Delivery,
    message: &Message,
) -> bool
    requires memory { IsMemory memory.old }
    requires next { IsNext responses.old memory.old next }
    requires there { descriptor_address responses.old + 4 ≤ length memory.old }
    requires few { delivery.credits ≤ 15 }
    requires below { IsBelow delivery.indicator responses.old.base }
    requires within { message.now.size ≤ 48 }
    requires whole { delivery.profile ≡ Strict → message.now.size ≡ 48 }
    ensures effect { DeliveryEffect delivery responses.old memory.old (take message.now.size message.now.text)
        result responses.new memory.new }
    ensures base { responses.new.base ≡ responses.old.base }
    ensures count { responses.new.count ≡ responses.old.count }
{
    // A text of 48 bytes is copied with a fixed length.
    if message.size == TEXT {
        responses.put(memory, next, delivery, &message.text)
    } else {
        responses.put(
            memory,
            next,
            delivery,
            &message.text[..usize::from(message.size)],
        )
    }
}

// Stores the trace record of a turn that did nothing, and returns that turn.
fn idle(trace: &mut Trace) -> Turn
    ensures trace { trace.new ≡ Idle }
    ensures turn { result ≡ IdleTurn }
{
    *trace = Trace::Idle;
    Turn::Idle
}

// Does the same for a port in initialization. That is rare, so the function isn't inlined.
#[cold]
#[inline(never)]
fn initializing(trace: &mut Trace) -> Turn
    ensures trace { trace.new ≡ Idle }
    ensures turn { result ≡ IdleTurn }
{
    idle(trace)
}

/// Stores the trace record of a dead port. That is rare, so the function isn't inlined.
#[cold]
#[inline(never)]
pub(crate) fn report_dead(trace: &mut Trace, cause: Fatal)
    ensures { trace.new ≡ TraceDead cause }
{
    *trace = Trace::Dead(cause);
}

// Appends an end message to the queue.
pub(crate) fn hold(waiting: &mut HeapCircularBuffer<Reply>, end: Reply)
    requires room { length waiting.old.items < waiting.old.capacity }
    ensures last { waiting.new ≡ buffer (waiting.old.items ++ end ∷ []) waiting.old.capacity }
    ensures longer { length waiting.new.items ≡ length waiting.old.items + 1 }
    ensures capacity { waiting.new.capacity ≡ waiting.old.capacity }
{
    waiting.push_back(end);
}

// Removes the first end message from the queue.
fn release(waiting: &mut HeapCircularBuffer<Reply>, end: Reply)
    requires first { slice_get waiting.old.items 0 ≡ Some end }
    ensures items { waiting.old.items ≡ end ∷ waiting.new.items }
    ensures capacity { waiting.new.capacity ≡ waiting.old.capacity }
{
    waiting.pop_front();
}
