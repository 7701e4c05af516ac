//! The choice of the next pending command. The oldest eligible command that isn't a transfer comes first. If
//! there is none, the next eligible transfer in unit and block order follows the last one, around the end.
//!
//! MSCP Basic Disk Functions Manual: command ordering, which leaves this open.
ghost use Rattle.std.specs.Prelude.{◌≡◌, ◌↔◌, ◌<◌, [], length, true, IsTrue, IsNone, IfSome, slice_get};
ghost use Rattle.std.specs.Prelude.{slice_index};
ghost use Rattle.uda_exec.specs.Order.{IsEligible, command_may_overtake, same_unit};
ghost use Rattle.uda_exec.specs.Commands.{is_controller, is_transfer};

use uda_packet::{Command, Op};

/// The start of a transfer's range. Positions are ordered by unit, and within a unit by block.
#[derive(Clone, Copy, Debug, PartialEq, Eq)]
pub struct Position {
    /// The unit number.
    pub unit: u16,
    /// The block.
    pub lbn: u32,
}

impl Position {
    /// The first position: block 0 of unit 0.
    pub const START: Position = Position { unit: 0, lbn: 0 };

    // Returns whether the position comes before another one.
    fn comes_before(self, other: Position) -> bool {
        self.unit < other.unit || (self.unit == other.unit && self.lbn < other.lbn)
    }

    // Returns the position of a transfer, or None for any other command.
    fn of(command: Command) -> Option<Position> {
        let t = command.op.transfer()?;
        Some(Position {
            unit: command.unit,
            lbn: t.lbn,
        })
    }

    /// Moves to the range of a command that is executed, if it is a transfer.
    pub fn move_to(&mut self, command: Command) {
        if let Some(reached) = Position::of(command) {
            *self = reached;
        }
    }
}

// An eligible transfer. The first candidate is chosen: positions before the last one come last, and of equal
// positions the oldest command comes first.
#[derive(Clone, Copy)]
struct Candidate {
    is_behind: bool,
    position: Position,
    place: usize,
}

impl Candidate {
    // Returns whether the candidate comes before an older one.
    fn comes_before(self, older: Candidate) -> bool {
        if self.is_behind == older.is_behind {
            self.position.comes_before(older.position)
        } else {
            older.is_behind
        }
    }
}

// Returns whether the two commands are for one unit. Set Controller Characteristics commands count as
// commands for a unit of their own.
fn same_unit(c: Command, d: Command) -> bool
    ensures { result ≡ same_unit c d }
{
    match (c.op, d.op) {
        (Op::Controller, Op::Controller) => true,
        (Op::Controller, _) | (_, Op::Controller) => false,
        _ => c.unit == d.unit,
    }
}

// Returns whether a command is a transfer.
fn is_transfer(command: Command) -> bool
    ensures { result ≡ is_transfer command.op }
{
    command.op.transfer().is_some()
}

// Returns whether a command may overtake an older one.
fn command_may_overtake(older: Command, command: Command) -> bool
    ensures { result ≡ command_may_overtake older command }
{
    !same_unit(older, command) || (is_transfer(older) && is_transfer(command))
}

/// Returns whether the command at this index is eligible: it may overtake every older one.
pub fn is_eligible(pending: &[Command], place: usize) -> bool
    requires { place < length pending.now }
    ensures { IsTrue result ↔ IsEligible pending.now place }
{
    let command = pending[place];
    for older in &pending[..place] {
        if !command_may_overtake(*older, command) {
            return false;
        }
    }
    true
}

/// Returns the index of the next command to execute, or None if nothing is pending. `position` is that of the
/// last transfer.
#[inline(always)]
pub fn next_place(pending: &[Command], position: Position) -> Option<usize>
    ensures none { IsNone result ↔ (pending.now ≡ []) }
    ensures may { IfSome result (λ place. IsEligible pending.now place) }
{
    let oldest = pending.first()?;
    if pending.len() == 1 || !is_transfer(*oldest) {
        return Some(0);
    }
    let mut least: Option<Candidate> = None;
    // Transfers may overtake each other, so the first ones need no comparison in pairs.
    let mut only_transfers = true;
    for (place, command) in pending.iter().enumerate() {
        only_transfers = only_transfers && is_transfer(*command);
        if !only_transfers && !is_eligible(pending, place) {
            continue;
        }
        let Some(reached) = Position::of(*command) else {
            return Some(place);
        };
        let candidate = Candidate {
            is_behind: reached.comes_before(position),
            position: reached,
            place,
        };
        match least {
            Some(other) if !candidate.comes_before(other) => {}
            _ => least = Some(candidate),
        }
    }
    Some(least?.place)
}
