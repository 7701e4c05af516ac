//! Turns with their trace records, over a whole memory or through map registers.
//!
//! UDA50 Programmer's Documentation Kit: command ring polling, message envelopes, UNIBUS addresses.
ghost use Rattle.std.specs.Prelude.{◌≡◌, ◌↔◌, ℕ, List, All, IfNone, IfSome, IsTrue, length};
ghost use Rattle.uda_mem.specs.Slices.{IsMemory};
ghost use Rattle.uda_mem.specs.Ranges.{LiesIn};
ghost use Rattle.uda_disk.specs.Units.{AreWellFormed};
ghost use Rattle.uda_exec.specs.Order.{IsEligible};
ghost use Rattle.uda_exec.specs.BlockChanges.{ChangesOnly};
ghost use Rattle.uda_port.specs.BlockUse.{blocks_of, block_bytes_of};
ghost use Rattle.uda_port.specs.Plan.{plan_of, IsPlan};
ghost use Rattle.uda_port.specs.Port.{CreditsAgree};
ghost use Rattle.uda_port.specs.Trace.{Reports, Traces, turn_of};
ghost use Rattle.uda_port.specs.Turn.{TurnEffect, may_fetch, port_turn_on, port_not_polling};
ghost use Rattle.uda_port.specs.MemoryUse.{NONE_WRITTEN, fate_at, fate_running, fate_in, FailsUnread, ExecutesWithout};
ghost use Rattle.uda_port.specs.MemoryUse.{EffectBy, EffectWithout, written_by_fate, IsLocal, IsPlace};
ghost use Rattle.uda_port.specs.MemoryUse.{HasValidRings, CanFail, Agrees, newest_count, written_after, written_of};
ghost use Rattle.uda_port.specs.Possible.{CanDie};
ghost use Rattle.uda_port.specs.declared.phase.Phase.TheVariants.{Running};
ghost use Rattle.uda_port.specs.declared.plan.Plan.TheVariants.{ToExecute};
ghost use Rattle.uda_port.specs.declared.turn_at.Fate.TheVariants.{WithoutBuffer};

use crate::memory_use::{Missing, NONE_WRITTEN};
use crate::phase::{Fatal, Phase};
use crate::plan::Plan;
use crate::port::Port;
use crate::trace::Trace;
use crate::turn::{Turn, report_dead};
use uda_exec::bytes_moved;
use uda_image::BlockStore;
use uda_mem::ByteRange;

/// The next turn over a bus, before it is taken: what it will do, which command it executes, and which addresses lead
/// nowhere.
#[derive(Clone, Copy, Debug, PartialEq, Eq)]
pub struct BusTurn {
    /// What the turn will do, as [`plan`](Port::plan) returns it.
    pub plan: Plan,
    /// The index of the pending command to execute. [`next_place`](Port::next_place) returns one, and
    /// [`is_place`](Port::is_place) tests one.
    pub place: usize,
    /// Which of the addresses that the turn uses lead nowhere.
    pub missing: Missing,
}

/// The result of a turn.
#[derive(Clone, Copy, Debug, PartialEq, Eq)]
pub struct TurnTaken {
    /// What the turn did.
    pub turn: Turn,
    /// Over a bus: the ranges of the window that the turn wrote, in the order of its writes. Some may be empty. Of a
    /// Read's buffer it is the bytes that the end message counts. Otherwise all are empty, whatever the turn wrote.
    pub written: [ByteRange; 4],
}

/// How a turn goes, by the addresses that lead nowhere.
#[derive(Clone, Copy, Debug, PartialEq, Eq)]
pub enum Fate {
    /// As usual.
    Usual,
    /// The port fails before it stops polling.
    FailsInFetch(Fatal),
    /// The port fails after it has stopped polling.
    FailsLater(Fatal),
    /// The port executes a command as if memory had no bytes.
    WithoutBuffer,
}

impl<S: BlockStore> Port<S> {
    /// Runs one turn, and stores its trace record. If `bus` is None, `memory` is the host's, as with
    /// [`turn_in`](Port::turn_in). Otherwise the host's memory is reached through map registers, and `memory` is a
    /// window, which has as many bytes as the bus has addresses.
    ///
    /// Before a turn over a bus the caller copies [`descriptor_ranges`](Port::descriptor_ranges) into the window, and
    /// plans the turn ([`plan`](Port::plan)). Then it copies the body ([`body`](Port::body)), if the turn reads it. The
    /// plan remains the same. Nothing else in the window matters. After the turn the caller copies the written ranges out
    /// of the window, in their order. The rest of a Read's buffer in the window may hold anything.
    ///
    /// `missing` says in which of these ranges an address leads nowhere. A turn that needs one is
    /// as at the end of memory. For a packet, a response buffer or the next descriptor of a ring the port fails. A
    /// command whose buffer is missing ends with status 0x0069 unless an earlier check fails, and moves nothing. A
    /// turn that doesn't need the range is as usual. A missing descriptor before the next one counts as one that the
    /// host owns, so the caller fills its range with zeros.
    ///
    /// Over a bus only the blocks of [`blocks_at`](Port::blocks_at) may change, and only by a Write or an Erase. They
    /// get the bytes of [`copy_written`](Port::copy_written), up to a block at which the store fails. That block may
    /// have any 512 bytes. This holds of each unit whose store is sound after the turn.
    ///
    /// UDA50 Programmer's Documentation Kit: command ring polling, UNIBUS addresses, fatal errors.
    pub fn turn_at(
        &mut self,
        memory: &mut [u8],
        bus: Option<&BusTurn>,
        trace: &mut Trace,
    ) -> TurnTaken
        requires memory { IsMemory memory.old }
        requires place { IfSome bus (λ b. IsPlace self.old.exec.pending b.now.place) }
        requires planned { IfSome bus (λ b. IsPlan self.old memory.old b.now.plan) }
        ensures effect { IfNone bus.entry (TurnEffect self.old.phase self.old memory.old result.turn self.new memory.new) }
        ensures none_told { IfNone bus.entry (result.written ≡ NONE_WRITTEN) }
        ensures effect_over_bus { IfSome bus.entry (λ b.
            EffectWithout b.now.missing b.now.place (self.old, memory.old) result.turn (self.new, memory.new)) }
        ensures local { IfSome bus.entry (λ b.
            IsLocal b.now.missing b.now.place (self.old, memory.old) result (self.new, memory.new)) }
        ensures within { All (LiesIn memory.old) result.written }
        ensures written { IfSome bus.entry (λ b. (other : List ℕ) → Agrees self.old b.now.place memory.old other
            → result.written ≡ written_of b.now.missing (self.old, other) b.now.place (newest_count self.new)) }
        ensures used_blocks { IfSome bus.entry (λ b. ChangesOnly (blocks_of b.now.missing self.old memory.old b.now.place)
            (block_bytes_of b.now.missing self.old memory.old b.now.place) self.old.exec.units self.new.exec.units) }
        ensures turn { result.turn ≡ turn_of trace.new }
        ensures accurate { Traces trace.new self.old self.new }
        ensures credits { CreditsAgree self.new }
        ensures four_units { length self.new.exec.units ≡ 4 }
        ensures well_formed { AreWellFormed self.new.exec.units }
    {
        let taken = self.take_turn_over(memory, bus, trace);
        self.keep();
        taken
    }

    // Runs one turn over a bus, or over the host's memory.
    #[tactic(auto, using(crate::proofs::MemoryUseLaws::none_lies))]
    fn take_turn_over(
        &mut self,
        memory: &mut [u8],
        bus: Option<&BusTurn>,
        trace: &mut Trace,
    ) -> TurnTaken
        requires memory { IsMemory memory.old }
        requires place { IfSome bus (λ b. IsPlace self.old.exec.pending b.now.place) }
        requires planned { IfSome bus (λ b. IsPlan self.old memory.old b.now.plan) }
        ensures effect { IfNone bus.entry (TurnEffect self.old.phase self.old memory.old result.turn self.new memory.new) }
        ensures none_told { IfNone bus.entry (result.written ≡ NONE_WRITTEN) }
        ensures effect_over_bus { IfSome bus.entry (λ b.
            EffectWithout b.now.missing b.now.place (self.old, memory.old) result.turn (self.new, memory.new)) }
        ensures local { IfSome bus.entry (λ b.
            IsLocal b.now.missing b.now.place (self.old, memory.old) result (self.new, memory.new)) }
        ensures within { All (LiesIn memory.old) result.written }
        ensures written { IfSome bus.entry (λ b. (other : List ℕ) → Agrees self.old b.now.place memory.old other
            → result.written ≡ written_of b.now.missing (self.old, other) b.now.place (newest_count self.new)) }
        ensures used_blocks { IfSome bus.entry (λ b. ChangesOnly (blocks_of b.now.missing self.old memory.old b.now.place)
            (block_bytes_of b.now.missing self.old memory.old b.now.place) self.old.exec.units self.new.exec.units) }
        ensures reports { Reports result.turn trace.new self.old self.new }
    {
        match bus {
            None => {
                let turn = self.take_turn(memory, None, trace);
                TurnTaken {
                    turn,
                    written: NONE_WRITTEN,
                }
            }
            Some(bus) => self.take_bus_turn(memory, bus, trace),
        }
    }

    // Runs one turn over a bus. It isn't inlined, so that `turn_at` remains small enough to be inlined.
    #[inline(never)]
    fn take_bus_turn(&mut self, memory: &mut [u8], bus: &BusTurn, trace: &mut Trace) -> TurnTaken
        requires memory { IsMemory memory.old }
        requires place { IsPlace self.old.exec.pending bus.now.place }
        requires planned { IsPlan self.old memory.old bus.now.plan }
        ensures effect_over_bus { EffectWithout bus.now.missing bus.now.place (self.old, memory.old) result.turn
            (self.new, memory.new) }
        ensures local { IsLocal bus.now.missing bus.now.place (self.old, memory.old) result (self.new, memory.new) }
        ensures within { All (LiesIn memory.old) result.written }
        ensures written { (other : List ℕ) → Agrees self.old bus.now.place memory.old other
            → result.written ≡ written_of bus.now.missing (self.old, other) bus.now.place (newest_count self.new) }
        ensures used_blocks { ChangesOnly (blocks_of bus.now.missing self.old memory.old bus.now.place)
            (block_bytes_of bus.now.missing self.old memory.old bus.now.place) self.old.exec.units self.new.exec.units }
        ensures reports { Reports result.turn trace.new self.old self.new }
    {
        self.rings_are_valid();
        let plan = bus.plan;
        let fate = self.fate(bus.missing, plan);
        let writable = written_by_fate(fate, self.written_by(plan, memory, bus.place));
        let turn = self.turn_by(memory, bus.place, fate, trace);
        let written = written_after(plan, self.newest_count(), writable);
        TurnTaken { turn, written }
    }

    // Returns the byte count of the newest end message, or 0 if it has none or no end message waits.
    fn newest_count(&self) -> u32
        ensures { result ≡ newest_count self.now }
    {
        match self.waiting.back() {
            Some(end) => bytes_moved(end.body),
            None => 0,
        }
    }

    /// Returns whether the pending command at index `place` is eligible, or nothing is pending.
    pub fn is_place(&self, place: usize) -> bool
        ensures place { IsTrue result ↔ IsPlace self.now.exec.pending place }
    {
        self.exec.pending() == 0 || self.exec.may_execute(place)
    }

    // States what is always true of the rings, and of the operations of a strict port.
    fn rings_are_valid(&self)
        ensures valid { HasValidRings self.now }
    {
        let _address = self.responses.address();
        let _place = self.commands.place();
    }

    // Returns the fate of a turn of this plan.
    pub(crate) fn fate(&self, missing: Missing, plan: Plan) -> Fate
        ensures { result ≡ fate_in self.now.phase missing (may_fetch self.now) plan }
    {
        match self.phase {
            Phase::Running => fate_running(missing, self.may_fetch(), plan),
            _ => Fate::Usual,
        }
    }

    // Runs a turn with this fate, which executes the command at index `place` when it executes one.
    fn turn_by(&mut self, memory: &mut [u8], place: usize, fate: Fate, trace: &mut Trace) -> Turn
        requires memory { IsMemory memory.old }
        requires place { IsPlace self.old.exec.pending place }
        requires buffer { fate ≡ WithoutBuffer → plan_of self.old memory.old ≡ ToExecute }
        requires dies { CanFail self.old.profile self.old.phase fate }
        ensures effect { EffectBy fate place (self.old, memory.old) result (self.new, memory.new) }
        ensures reports { Reports result trace.new self.old self.new }
    {
        match fate {
            Fate::Usual => self.take_turn(memory, Some(place), trace),
            Fate::FailsInFetch(cause) => self.fail_turn(cause, trace),
            Fate::FailsLater(cause) => {
                self.polling = false;
                self.fail_turn(cause, trace)
            }
            Fate::WithoutBuffer => self.turn_without_buffer(place, trace),
        }
    }

    // Runs a turn that executes the command at index `place` as if memory had no bytes.
    fn turn_without_buffer(&mut self, place: usize, trace: &mut Trace) -> Turn
        requires running { self.old.phase ≡ Running }
        requires eligible { IsEligible self.old.exec.pending place }
        ensures executes { ExecutesWithout place (port_not_polling (port_turn_on self.old)) result self.new }
        ensures reports { Reports result trace.new self.old self.new }
    {
        let mut none: [u8; 0] = [];
        self.polling = false;
        self.take_turn(&mut none, Some(place), trace)
    }

    // Runs a turn that fails with this error.
    fn fail_turn(&mut self, cause: Fatal, trace: &mut Trace) -> Turn
        requires dies { CanDie self.old.profile self.old.phase cause }
        ensures failed { FailsUnread cause (port_turn_on self.old) result self.new }
        ensures reports { Reports result trace.new self.old self.new }
    {
        self.turns.add(1);
        self.die(cause);
        report_dead(trace, cause);
        Turn::Dead
    }
}

// Returns the fate of a turn of a running port, by whether it may fetch, and by its plan.
fn fate_running(missing: Missing, looks: bool, plan: Plan) -> Fate
    ensures { result ≡ fate_running missing looks plan }
{
    if looks && missing.commands {
        return Fate::FailsInFetch(Fatal::RingRead);
    }
    fate_at(missing, plan)
}

// Returns the fate of a turn of this plan whose command descriptor is there.
fn fate_at(missing: Missing, plan: Plan) -> Fate
    ensures { result ≡ fate_at missing plan }
{
    match plan {
        Plan::ToFetch(_) if missing.body => Fate::FailsInFetch(Fatal::PacketRead),
        Plan::ToExecute if missing.body => Fate::WithoutBuffer,
        Plan::ToWait if missing.responses => Fate::FailsLater(Fatal::RingRead),
        Plan::NoResponseRing if missing.responses => Fate::FailsLater(Fatal::RingRead),
        Plan::ToDeliver(..) if missing.responses => Fate::FailsLater(Fatal::RingRead),
        Plan::ToDeliver(..) if missing.body => Fate::FailsLater(Fatal::PacketWrite),
        _ => Fate::Usual,
    }
}

// Returns what a turn of this plan wrote of these ranges: an executed command the `count` bytes that its end message
// counts.
fn written_after(plan: Plan, count: u32, ranges: [ByteRange; 4]) -> [ByteRange; 4]
    ensures { result ≡ written_after plan count ranges }
{
    match plan {
        Plan::ToExecute => {
            let [buffer, second, third, fourth] = ranges;
            let moved = ByteRange {
                at: buffer.at,
                bytes: buffer.bytes.min(count),
            };
            [moved, second, third, fourth]
        }
        _ => ranges,
    }
}

// Returns what a turn with this fate may write, of these ranges.
fn written_by_fate(fate: Fate, written: [ByteRange; 4]) -> [ByteRange; 4]
    ensures { result ≡ written_by_fate fate written }
{
    match fate {
        Fate::Usual => written,
        Fate::FailsInFetch(_) | Fate::FailsLater(_) | Fate::WithoutBuffer => NONE_WRITTEN,
    }
}
