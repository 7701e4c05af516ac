//! What the next turn uses of memory and of images, for C, and the steps of a turn.
ghost use Rattle.std.specs.Prelude.{◌≡◌};
ghost use Rattle.uda_c.specs.Slots.{is_empty};
ghost use Rattle.uda_c.specs.TurnUse.{missing_of, missing_before_body};
ghost use Rattle.uda_c.specs.Steps.{step_code, is_short, is_current, emptied, has_bytes};
ghost use Rattle.uda_c.specs.ControllerState.{ControllerState};
ghost use Rattle.uda_c.specs.RunsToBlocks.{turn_over};

use crate::block_range::BlockRange;
use crate::slot::Slot;
use uda_mem::ByteRange;
use uda_port::Missing;

/// What the next turn uses of guest memory and of an image by calls, and what it wrote, in the form of C.
#[repr(C)]
#[derive(Drop)]
pub struct TurnUse {
    /// The number of bytes that C has for the struct.
    pub size: usize,
    /// The number that C gives the controller.
    pub controller: u64,
    /// The controller's count when the turn began.
    pub count: u64,
    /// The step that was done last, by its number.
    pub step: u32,
    /// The ranges of the next command descriptor, the one before it, the next response descriptor, and the one
    /// before that.
    pub descriptors: [ByteRange; 4],
    /// The packet or the buffer that the turn uses.
    pub body: ByteRange,
    /// What the turn wrote, in this order.
    pub written: [ByteRange; 4],
    /// The index of the pending command that the turn executes, if it executes one.
    pub place: u32,
    /// Which addresses lead nowhere: bit 0 those of the next command descriptor, bit 1 those of the next response
    /// descriptor, bit 2 those of the body.
    pub missing: u32,
    /// 1 if the turn reads the body, and 0 if its addresses need only lead somewhere.
    pub reads_body: u32,
    /// The blocks of an image by calls that the turn uses, unless an address of the body leads nowhere.
    pub blocks: BlockRange,
    /// How many of these blocks C has moved, from the first on.
    pub ready: u32,
    /// The bytes of these blocks, if the turn reads them.
    pub lent: Slot,
    /// How many turns a run has left.
    pub turns: u32,
}

/// The number of bytes of the struct in C.
pub const STRUCT_LENGTH: usize = 160;

/// A step that another one follows.
#[derive(Clone, Copy, Debug, PartialEq, Eq)]
pub enum Step {
    /// The turn began: its descriptors are filled in.
    Began,
    /// What else it uses is filled in.
    Filled,
}

impl Step {
    /// Returns the number of the step in C.
    pub fn code(self) -> u32
        ensures { result ≡ step_code self }
    {
        match self {
            Step::Began => 1,
            Step::Filled => 2,
        }
    }
}

impl TurnUse {
    /// Returns whether C has fewer bytes for the struct.
    pub fn is_short(&self) -> bool
        ensures { result ≡ is_short self.now }
    {
        self.size < STRUCT_LENGTH
    }

    /// Returns which addresses lead nowhere.
    pub fn missing(&self) -> Missing
        ensures { result ≡ missing_of self.now.missing }
    {
        Missing {
            commands: self.missing & 1 != 0,
            responses: self.missing >> 1 & 1 != 0,
            body: self.missing >> 2 & 1 != 0,
        }
    }

    /// Returns which addresses lead nowhere, as if all those of the body led somewhere.
    pub fn missing_before_body(&self) -> Missing
        ensures { result ≡ missing_before_body self.now.missing }
    {
        Missing {
            body: false,
            ..self.missing()
        }
    }

    /// Returns whether C has lent as many bytes as the ready blocks have, if the turn reads them.
    pub fn has_bytes(&mut self) -> bool
        ensures value { result ≡ has_bytes self.old }
        ensures same { self.new ≡ self.old }
    {
        self.blocks.access != 1 || self.lent.length() == 512 * self.ready as usize
    }

    /// Ends the turn of a run: the struct has no blocks any more, and one turn less to run.
    pub fn end_run_step(&mut self)
        ensures { self.new ≡ turn_over self.old }
    {
        self.blocks = BlockRange::NONE;
        self.turns = self.turns.saturating_sub(1);
    }

    /// Empties the struct of bytes that C has lent.
    pub fn forget_lent(&mut self)
        ensures { self.new ≡ record self.old { lent = emptied self.old.lent } }
    {
        if let Some(_lent) = self.lent.take() {}
    }
}
