//! Images that C reads and writes by calls of its own, and the blocks of them that a turn uses.
ghost use Rattle.std.specs.Prelude.{◌≡◌, ◌≢◌, ◌⊎◌, ◌+◌, ◌*◌, ◌≤◌, length, option_map, Some, None};
ghost use Rattle.uda_image.specs.Limits.{store_limit};
ghost use Rattle.uda_mem.specs.Slices.{IsMemory};
ghost use Rattle.uda_c.specs.declared.call_status.CallStatus.TheVariants.{Done};
ghost use Rattle.uda_c.specs.BlockRange.{AttachesCalled, LendsBlocks, AllowsBlocks, range_reported, with_none_ready};
ghost use Rattle.uda_c.specs.BlockRange.{access_numbered, blocks_dropped, lent_at, lent_by, lent_for};
ghost use Rattle.uda_c.specs.Slots.{bytes_of_slot};
ghost use Rattle.uda_c.specs.Steps.{MakesReady, MakesBlocksReady, with_lent_put_back, emptied, GetsWritten, CopiesWritten};
ghost use Rattle.uda_called.specs.CalledImage.{as_lent};
ghost use Rattle.uda_port.specs.BlockUse.{blocks_of};
ghost use Rattle.uda_port.specs.Plan.{IsPlan};
ghost use Rattle.uda_c.specs.UnitImage.{status_of};

use crate::block_range::{BlockRange, Prepared};
use crate::call_status::CallStatus;
use crate::controller::{Controller, any_called, put_back};
use crate::slot::Slot;
use crate::turn_use::{Step, TurnUse};
use crate::unit_image::UnitImage;
use uda_called::BorrowedBytes;
use uda_exec::BlockAccess;
use uda_image::Drive;
use uda_port::{BusTurn, Plan};

impl Controller {
    /// Attaches an image of `blocks` blocks that C reads and writes by calls of its own.
    pub fn attach_called(&mut self, unit: u32, blocks: u64, hard: bool) -> CallStatus
        ensures attaches { AttachesCalled self.old (unit, (blocks, hard)) result self.new }
    {
        let unit = unit as usize;
        if unit > 3 {
            return CallStatus::NoSuchUnit;
        }
        if self.port.unit(unit).is_some() {
            return CallStatus::AlreadyAttached;
        }
        if blocks == 0 {
            return CallStatus::BadLength;
        }
        let Some(store) = UnitImage::of_calls(blocks) else {
            return CallStatus::TooLarge;
        };
        self.port.set_drive(unit, Some(Drive { store, hard }));
        self.called = self.called.saturating_add(1);
        CallStatus::Done
    }

    /// Returns the blocks that this turn uses of an image that C reads and writes.
    pub(crate) fn blocks_used(&self, memory: &[u8], bus: &BusTurn) -> BlockRange
        requires memory { IsMemory memory.now }
        requires planned { IsPlan self.now.port memory.now bus.now.plan }
        ensures blocks { result
            ≡ range_reported self.now (blocks_of bus.now.missing self.now.port memory.now bus.now.place) }
    {
        self.keep();
        if any_called(&self.port) {
            self.blocks_asked(memory, bus)
        } else {
            BlockRange::NONE
        }
    }

    /// Returns the same, without first asking whether a unit has such an image.
    pub(crate) fn blocks_asked(&self, memory: &[u8], bus: &BusTurn) -> BlockRange
        requires memory { IsMemory memory.now }
        requires planned { IsPlan self.now.port memory.now bus.now.plan }
        ensures blocks { result
            ≡ range_reported self.now (blocks_of bus.now.missing self.now.port memory.now bus.now.place) }
    {
        let Plan::ToExecute = bus.plan else {
            return BlockRange::NONE;
        };
        match self.port.blocks_at(memory, bus) {
            Some(used) if self.is_called(usize::from(used.unit)) => BlockRange::of(used),
            _ => BlockRange::NONE,
        }
    }

    /// Makes only those of the turn's blocks ready that C has moved, and lends the image the bytes that C has lent, if the
    /// turn reads them. Fails if there are fewer, or other bytes. Then it lends none.
    pub(crate) fn make_ready(&mut self, turn: &mut TurnUse) -> CallStatus
        ensures ready { MakesReady self.old turn.old result self.new }
        ensures lent { result ≡ Done → turn.old ≡ with_lent_put_back (lent_for self.new turn.new.blocks) turn.new }
        ensures refused { result ≢ Done → turn.new ≡ turn.old }
    {
        let blocks = turn.blocks;
        let ready = turn.ready;
        if ready > blocks.count || !turn.has_bytes() {
            return CallStatus::BadLength;
        }
        if blocks.count == 0 {
            return CallStatus::Done;
        }
        self.make_blocks_ready(turn)
    }

    // Makes the turn's first blocks ready, as many as C has moved, and no others of that image.
    fn make_blocks_ready(&mut self, turn: &mut TurnUse) -> CallStatus
        ensures ready { MakesBlocksReady (access_numbered turn.old.blocks.access)
            (with_none_ready self.old turn.old.blocks.unit turn.old.blocks.first) turn.old result self.new }
        ensures lent { result ≡ Done → turn.old ≡ with_lent_put_back (lent_by (access_numbered turn.new.blocks.access)
            (lent_at self.new turn.new.blocks.unit turn.new.blocks.first)) turn.new }
        ensures refused { result ≢ Done → turn.new ≡ turn.old }
    {
        let blocks = turn.blocks;
        let ready = turn.ready;
        match blocks.use_of() {
            Some(BlockAccess::Reads) => self.lend_slot(blocks, &mut turn.lent),
            Some(BlockAccess::Checks) => {
                self.begin(blocks.unit, blocks.first);
                self.allow_blocks(blocks.unit, Prepared::Checked, ready)
            }
            Some(BlockAccess::Writes) => {
                self.begin(blocks.unit, blocks.first);
                self.allow_blocks(blocks.unit, Prepared::Written, ready)
            }
            None => {
                self.begin(blocks.unit, blocks.first);
                CallStatus::Done
            }
        }
    }

    /// Drops what is ready of the image of these blocks, if there are any. Returns the bytes that C has lent for them.
    pub(crate) fn drop_blocks(&mut self, blocks: BlockRange) -> Option<BorrowedBytes>
        ensures dropped { self.new ≡ blocks_dropped self.old blocks }
        ensures lent { option_map as_lent result ≡ lent_for self.old blocks }
    {
        if blocks.count != 0 {
            let lent = self.begin(blocks.unit, blocks.first);
            if let Some(BlockAccess::Reads) = blocks.use_of() {
                return lent;
            }
        }
        None
    }

    // Drops what is ready of a unit's image, if C reads and writes it, and returns the bytes that C has lent for ready
    // blocks. Blocks are made ready from block `first` on then. Does nothing if the image has fewer blocks.
    fn begin(&mut self, unit: u32, first: u32) -> Option<BorrowedBytes>
        ensures begun { self.new ≡ with_none_ready self.old unit first }
        ensures lent { option_map as_lent result ≡ lent_at self.old unit first }
    {
        let unit = unit as usize;
        let Some(look) = self.port.unit(unit) else {
            return None;
        };
        match self.port.exchange_drive(unit, None) {
            Some(Drive { store, hard }) => {
                let mut store = store;
                let lent = store.begin(first);
                put_back(&mut self.port, unit, Drive { store, hard }, look.mode);
                lent
            }
            None => None,
        }
    }

    // Drops what is ready of the image of these blocks, and lends it the bytes of a slot, as those of its blocks from the
    // first of these on. If it fails, they remain in the slot.
    #[tactic(auto, using(crate::proofs::Lending::bytes_taken))]
    fn lend_slot(&mut self, blocks: BlockRange, slot: &mut Slot) -> CallStatus
        ensures lends { LendsBlocks (with_none_ready self.old blocks.unit blocks.first) (blocks.unit, blocks.first)
            (bytes_of_slot slot.old) result self.new }
        ensures taken { (result ≡ Done) × (slot.new ≡ emptied slot.old) ⊎ (result ≢ Done) × (slot.new ≡ slot.old) }
    {
        let mut lent = slot.take();
        let answer = self.lend_blocks(blocks.unit, blocks.first, &mut lent);
        if let Some(lent) = lent {
            slot.put(lent);
        }
        answer
    }

    /// Fills `to` with bytes of the blocks that the next turn writes, after the first `skip` of them.
    pub fn get_written(&self, memory: &[u8], turn: &TurnUse, skip: u32, to: &mut [u8]) -> CallStatus
        ensures gets { GetsWritten self.now memory.now (turn.now, skip) result (to.old, to.new) }
    {
        match self.refusal_of_step(Step::Filled, memory, turn) {
            Some(refusal) => refusal,
            None => self.copy_written(memory, turn, skip, to),
        }
    }

    // Does the same in valid memory.
    fn copy_written(&self, memory: &[u8], turn: &TurnUse, skip: u32, to: &mut [u8]) -> CallStatus
        requires memory { IsMemory memory.now }
        ensures copies { CopiesWritten self.now memory.now (turn.now, skip) result (to.old, to.new) }
    {
        let plan = self.port.plan(memory);
        let place = self.place_of(plan, turn.place);
        let missing = turn.missing();
        let bus = BusTurn {
            plan,
            place,
            missing,
        };
        if self.port.copy_written(memory, &bus, skip, to) {
            CallStatus::Done
        } else {
            CallStatus::BadLength
        }
    }

    // Drops what is ready of a unit's image, and lends bytes as those of its blocks from block `first` on. If it fails, it
    // takes none.
    fn lend_blocks(&mut self, unit: u32, first: u32, from: &mut Option<BorrowedBytes>) -> CallStatus
        ensures lends { LendsBlocks (with_none_ready self.old unit first) (unit, first) from.old result self.new }
        ensures taken { (result ≡ Done) × (from.new ≡ None) ⊎ (result ≢ Done) × (from.new ≡ from.old) }
    {
        self.keep();
        let unit = unit as usize;
        if unit > 3 {
            return CallStatus::NoSuchUnit;
        }
        let Some(look) = self.port.unit(unit) else {
            return CallStatus::NotAttached;
        };
        match self.port.exchange_drive(unit, None) {
            Some(Drive { store, hard }) => {
                let mut store = store;
                store.begin(first);
                let lent = store.lend(first, from);
                put_back(&mut self.port, unit, Drive { store, hard }, look.mode);
                status_of(lent)
            }
            None => CallStatus::NotAttached,
        }
    }

    // Makes the next blocks of a unit's image ready, which C checked or wrote.
    fn allow_blocks(&mut self, unit: u32, prepared: Prepared, count: u32) -> CallStatus
        ensures allows { AllowsBlocks self.old (unit, count) prepared result self.new }
    {
        let unit = unit as usize;
        if unit > 3 {
            return CallStatus::NoSuchUnit;
        }
        let Some(look) = self.port.unit(unit) else {
            return CallStatus::NotAttached;
        };
        match self.port.exchange_drive(unit, None) {
            Some(Drive { store, hard }) => {
                let mut store = store;
                let allowed = store.allow(prepared, count);
                put_back(&mut self.port, unit, Drive { store, hard }, look.mode);
                status_of(allowed)
            }
            None => CallStatus::NotAttached,
        }
    }
}

// Returns the status of a call with this result.
fn status_of(made: Result<(), CallStatus>) -> CallStatus
    ensures { result ≡ status_of made }
{
    match made {
        Ok(()) => CallStatus::Done,
        Err(status) => status,
    }
}
