//! What a controller shows to C. The caller says how large its struct is, so that a later version can have more members.
ghost use Rattle.std.specs.Prelude.{◌≡◌};
ghost use Rattle.uda_c.specs.Inspection.{GetsState, GetsLastTurn, GetsUnit};

use crate::call_status::CallStatus;
use crate::controller::Controller;
use crate::last::TurnRecord;
use crate::snapshot::{PortSnapshot, UnitSnapshot};

impl Controller {
    /// Fills in the state of the port.
    pub fn get_state(&self, state: &mut PortSnapshot) -> CallStatus
        ensures gets { GetsState self.now state.old result state.new }
    {
        let size = state.size;
        if size < PortSnapshot::SIZE {
            return CallStatus::BadLength;
        }
        *state = PortSnapshot {
            size,
            ..PortSnapshot::of(&self.port)
        };
        CallStatus::Done
    }

    /// Fills in the record of the last turn.
    pub fn get_last_turn(&self, turn: &mut TurnRecord) -> CallStatus
        ensures gets { GetsLastTurn self.now turn.old result turn.new }
    {
        let size = turn.size;
        if size < TurnRecord::SIZE {
            return CallStatus::BadLength;
        }
        *turn = TurnRecord {
            size,
            ..TurnRecord::of(self.last)
        };
        CallStatus::Done
    }

    /// Fills in a unit's drive type, image and mode.
    pub fn get_unit(&self, unit: u32, info: &mut UnitSnapshot) -> CallStatus
        ensures gets { GetsUnit self.now unit info.old result info.new }
    {
        let unit = unit as usize;
        if unit > 3 {
            return CallStatus::NoSuchUnit;
        }
        let size = info.size;
        if size < UnitSnapshot::SIZE {
            return CallStatus::BadLength;
        }
        *info = UnitSnapshot {
            size,
            ..UnitSnapshot::of(&self.port, unit)
        };
        CallStatus::Done
    }
}
