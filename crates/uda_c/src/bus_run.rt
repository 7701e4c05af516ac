//! Runs over memory through map registers that stop before each turn that uses blocks of an image that C reads and writes.
//!
//! PDP-11 UNIBUS map, VAX UNIBUS adapter, Q-bus map: map registers.
ghost use Rattle.std.specs.Prelude.{◌≡◌, ◌<◌, length};
ghost use Rattle.uda_mem.specs.Slices.{IsMemory};
ghost use Rattle.uda_exec.specs.Disks.{PENDING_LIMIT};
ghost use Rattle.uda_port.specs.BlockUse.{blocks_of};
ghost use Rattle.uda_bus.specs.Turns.{stored_ranges, IsBegun};
ghost use Rattle.uda_c.specs.declared.call_status.CallStatus.TheVariants.{Done, RanTurn};
ghost use Rattle.uda_c.specs.BlockRange.{NO_BLOCKS, range_reported};
ghost use Rattle.uda_c.specs.Steps.{emptied, opened, step_code};
ghost use Rattle.uda_c.specs.TurnUse.{missing_of};
ghost use Rattle.uda_c.specs.declared.turn_use.Step.TheVariants.{Filled};
ghost use Rattle.uda_c.specs.RunsToBlocks.{RunsToBlocks, RunsOver, ResumesRun, TurnsToBlocks, TakesUnblockedTurn};

use crate::block_range::BlockRange;
use crate::call_status::CallStatus;
use crate::controller::{Controller, does_nothing};
use crate::map::{MapRegisters, MappedBus};
use crate::turn_use::{Step, TurnUse};
use uda_port::{BusTurn, Missing, Trace, Turn};

impl Controller {
    /// Runs up to `turns` turns of the struct, and stops after the first that does nothing. It also stops before a turn
    /// that uses blocks of an image that C reads and writes, and tells them in the struct. If the struct has blocks, its
    /// turn is taken first, with those that C has moved.
    pub fn run_to_blocks(
        &mut self,
        memory: &mut [u8],
        map: &MapRegisters<'_>,
        window: &mut [u8],
        turn: &mut TurnUse,
    ) -> CallStatus
        ensures runs { RunsToBlocks map.now
            (record { machine = (self.old, memory.old); window = window.old; turn = turn.old }) result
            (record { machine = (self.new, memory.new); window = window.new; turn = turn.new }) }
    {
        if turn.is_short() {
            return CallStatus::BadLength;
        }
        let bus = match map.bus() {
            Ok(bus) => bus,
            Err(status) => return status,
        };
        if window.len() == bus.size as usize {
            self.run_over(memory, &bus, window, turn)
        } else {
            CallStatus::BadLength
        }
    }

    // Does the same over a bus.
    fn run_over(
        &mut self,
        memory: &mut [u8],
        bus: &MappedBus<'_>,
        window: &mut [u8],
        turn: &mut TurnUse,
    ) -> CallStatus
        requires valid { IsMemory window.old }
        requires window { length window.old ≡ bus.now.size }
        ensures runs { RunsOver bus.now
            (record { machine = (self.old, memory.old); window = window.old; turn = turn.old }) result
            (record { machine = (self.new, memory.new); window = window.new; turn = turn.new }) }
    {
        if turn.blocks.count == 0 {
            self.close();
            self.run_on(memory, bus, window, turn, CallStatus::Done)
        } else {
            self.resume(memory, bus, window, turn)
        }
    }

    // Takes the struct's turn, and goes on with the run.
    fn resume(
        &mut self,
        memory: &mut [u8],
        bus: &MappedBus<'_>,
        window: &mut [u8],
        turn: &mut TurnUse,
    ) -> CallStatus
        requires valid { IsMemory window.old }
        requires window { length window.old ≡ bus.now.size }
        ensures resumes { ResumesRun bus.now
            (record { machine = (self.old, memory.old); window = window.old; turn = turn.old }) result
            (record { machine = (self.new, memory.new); window = window.new; turn = turn.new }) }
    {
        match self.turn_at(window, turn) {
            CallStatus::RanTurn(taken) => {
                bus.map.store(memory, &turn.written, window);
                turn.end_run_step();
                let answer = CallStatus::RanTurn(taken);
                if does_nothing(taken) {
                    return answer;
                }
                self.run_on(memory, bus, window, turn, answer)
            }
            refusal => refusal,
        }
    }

    // Runs turns over a bus. `before` is the status if there are none.
    fn run_on(
        &mut self,
        memory: &mut [u8],
        bus: &MappedBus<'_>,
        window: &mut [u8],
        turn: &mut TurnUse,
        before: CallStatus,
    ) -> CallStatus
        requires valid { IsMemory window.old }
        requires window { length window.old ≡ bus.now.size }
        ensures runs { TurnsToBlocks bus.now turn.old.turns before ((self.old, memory.old), turn.old)
            (result, record { machine = (self.new, memory.new); window = window.new; turn = turn.new }) }
    {
        let mut answer = before;
        let turns = turn.turns;
        for taken in 0..turns {
            let next = bus.map.begin(&self.port, memory, window);
            let blocks = self.blocks_asked(window, &next);
            if blocks.count != 0 {
                self.stop(turn, &next, blocks, turns - taken);
                return CallStatus::NeedsBlocks;
            }
            let ran = self.take_begun(memory, bus, window, &next);
            answer = CallStatus::RanTurn(ran);
            if does_nothing(ran) {
                return answer;
            }
        }
        answer
    }

    // Tells in the struct the turn before which a run stops, its blocks, and how many turns are left.
    fn stop(&mut self, turn: &mut TurnUse, next: &BusTurn, blocks: BlockRange, left: u32)
        requires place { next.now.place < PENDING_LIMIT }
        ensures opened { self.new ≡ opened self.old turn.old }
        ensures missing { missing_of turn.new.missing ≡ next.now.missing }
        ensures few { turn.new.missing < 8 }
        ensures turn { turn.new ≡ record turn.old {
          count = (opened self.old turn.old).count;
          step = step_code Filled;
          place = next.now.place;
          missing = turn.new.missing;
          blocks = blocks;
          ready = 0;
          lent = emptied turn.old.lent;
          turns = left;
        } }
    {
        self.open_turn(turn);
        turn.forget_lent();
        turn.count = self.count;
        turn.step = Step::Filled.code();
        turn.place = next.place as u32;
        turn.missing = missing_bits(next.missing);
        turn.blocks = blocks;
        turn.ready = 0;
        turn.turns = left;
    }

    // Takes a turn over a bus that was begun and uses no blocks of an image that C reads and writes. Stores its record as the
    // last.
    fn take_begun(
        &mut self,
        memory: &mut [u8],
        bus: &MappedBus<'_>,
        window: &mut [u8],
        next: &BusTurn,
    ) -> Turn
        requires valid { IsMemory window.old }
        requires window { length window.old ≡ bus.now.size }
        requires begun { IsBegun bus.now.map bus.now.size (self.old.port, memory.old) next.now window.old }
        requires none { (range_reported self.old
            (blocks_of next.now.missing self.old.port window.old next.now.place)).count ≡ 0 }
        ensures turn { TakesUnblockedTurn bus.now (self.old, memory.old) (RanTurn result) (self.new, memory.new) }
        ensures window { length window.new ≡ length window.old }
    {
        let trace = self.last.get_or_insert(Trace::Idle);
        bus.map.end(&mut self.port, memory, window, next, trace)
    }
}

// Returns which addresses lead nowhere, by the bits of a number.
fn missing_bits(missing: Missing) -> u32
    ensures bits { missing_of result ≡ missing }
    ensures few { result < 8 }
{
    u32::from(missing.commands) + 2 * u32::from(missing.responses) + 4 * u32::from(missing.body)
}
