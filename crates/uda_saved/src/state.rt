//! The whole state: fifteen rows, the additional operations, and the texts of the pending commands and of the
//! queued end messages.
//!
//! UDA50 Programmer's Documentation Kit: port registers, communication area, credits. MSCP Basic Disk
//! Functions Manual: command and end messages.
ghost use Rattle.std.specs.Prelude.{◌≡◌, ◌+◌, ◌*◌, ◌≤◌, ◌++◌, ◌-◌, length, map, replicate, All};
ghost use Rattle.std.specs.List.{concat};
ghost use Rattle.uda_packet.specs.Written.{written_command};
ghost use Rattle.uda_packet.specs.Reply.{written_reply};
ghost use Rattle.uda_saved.specs.State.{op_bytes, op_of_byte, command_in, reply_in, limited, items_in, IsReadBack};
ghost use Rattle.uda_saved.specs.State.{controller_of, counts_of, drives_row_of, port_rows, unit_rows, call_rows, rows};
ghost use Rattle.uda_saved.specs.State.{state_bytes, state_in, port_in, exec_in, version_in, IsRead, BytesEffect};
ghost use Rattle.uda_saved.specs.State.{ArePortRows, AreUnitRows, AreCallRows, AreRows, IsEachBack};

use crate::row::{part_at, row_at};
use crate::rows::{
    ControllerRow, CountsRow, DrivesRow, call_in, call_row, controller_in, controller_row,
    counts_in, counts_row, drives_row, drives_row_in, op_in, op_number, phase_in, phase_row,
    position_in, position_row, ring_in, ring_row, unit_in, unit_row,
};
use arrayvec::ArrayVec;
use byteorder::{ByteOrder, LittleEndian};
use std::error::Error;
use std::fmt;
use uda_exec::{PENDING, SavedExec, UnitInfo};
use uda_packet::{
    Command, GuestOp, Op, Reply, ReplyBody, decode_command, decode_reply, encode_command,
    encode_reply,
};
use uda_port::{Guest, Interrupts, Saved};

/// The number of bytes of a saved state.
pub const STATE_LENGTH: usize = 1_576;

/// The version of the bytes that [`SavedState::to_bytes`] writes and [`SavedState::from_bytes`] reads.
pub const STATE_VERSION: u16 = 1;

// The offset of the additional operations, after the rows.
const OPS: usize = 120;

// The offset of the pending commands.
const COMMANDS: usize = 136;

// The offset of the queued end messages.
const REPLIES: usize = 856;

// The bytes of a state while they are written.
type Bytes = ArrayVec<u8, STATE_LENGTH>;

/// The state of a controller: its port, and the failures that were injected into its units.
#[derive(Debug, Drop)]
pub struct SavedState {
    /// The state of the port.
    pub port: Saved,
    /// For each unit, the number of the call of its store that is to fail, counted from now on and from 1; 0
    /// if
    /// that call is over. None if no call was set to fail.
    pub failing_calls: [Option<u32>; 4],
}

/// Why bytes are no saved state.
#[derive(Clone, Copy, Debug, PartialEq, Eq)]
pub enum BytesError {
    /// They have the version [`STATE_VERSION`] or none, and aren't [`STATE_LENGTH`] bytes.
    Length,
    /// They have another version than [`STATE_VERSION`].
    Version,
    /// No state has these bytes.
    Invalid,
}

impl fmt::Display for BytesError {
    fn fmt<W: fmt::Write>(&self, f: &mut fmt::Formatter<W>) -> fmt::Result {
        f.write_str(match self {
            BytesError::Length => "a saved state has 1576 bytes",
            BytesError::Version => "the saved state has another version",
            BytesError::Invalid => "no state has these bytes",
        })
    }
}

impl Error for BytesError {}

impl SavedState {
    /// Returns the bytes of the state. [`from_bytes`](SavedState::from_bytes) reads them as the same state.
    #[tactic(auto, using(crate::proofs::StateLaws::is_read))]
    pub fn to_bytes(&self) -> ArrayVec<u8, STATE_LENGTH>
        ensures bytes { result.items ≡ state_bytes self.now }
        ensures long { length result.items ≡ 1576 }
        ensures back { IsRead result.items self.now }
    {
        let mut bytes = ArrayVec::new();
        put_state(&mut bytes, self);
        bytes
    }

    /// Returns the state that has these bytes.
    ///
    /// # Errors
    ///
    /// The first check that fails decides: [`BytesError::Version`], [`BytesError::Length`],
    /// [`BytesError::Invalid`]. So bytes of another version have that error whatever their number is. Fewer
    /// than two bytes have no version.
    pub fn from_bytes(bytes: &[u8]) -> Result<SavedState, BytesError>
        ensures effect { BytesEffect bytes.now result }
    {
        if bytes.len() < 2 {
            return Err(BytesError::Length);
        }
        if version_in(bytes) != STATE_VERSION {
            return Err(BytesError::Version);
        }
        if bytes.len() != STATE_LENGTH {
            return Err(BytesError::Length);
        }
        let state = state_in(bytes);
        if state.to_bytes().as_slice() == bytes {
            Ok(state)
        } else {
            Err(BytesError::Invalid)
        }
    }
}

// Appends the bytes of a state.
fn put_state(bytes: &mut Bytes, state: &SavedState)
    requires empty { length bytes.old.items ≡ 0 }
    ensures put { bytes.new.items ≡ state_bytes state.now }
    ensures long { length bytes.new.items ≡ 1576 }
    ensures back { IsEachBack state.now }
{
    put_rows(bytes, state);
    put_ops(bytes, state.port.exec.guest_ops.as_slice());
    fill_to(bytes, COMMANDS);
    put_commands(bytes, state.port.exec.pending.as_slice());
    fill_to(bytes, REPLIES);
    put_replies(bytes, state.port.waiting.as_slice());
    fill_to(bytes, STATE_LENGTH);
}

// Appends bytes.
fn append_bytes(bytes: &mut Bytes, more: &[u8])
    requires room { length bytes.old.items + length more.now ≤ 1576 }
    ensures put { bytes.new.items ≡ bytes.old.items ++ more.now }
    ensures longer { length bytes.new.items ≡ length bytes.old.items + length more.now }
{
    let _ = bytes.try_extend_from_slice(more);
}

// Appends bytes of 0 up to an offset.
#[tactic(auto, using(crate::proofs::StateLaws::zeros_taken))]
fn fill_to(bytes: &mut Bytes, end: usize)
    requires within { end ≤ 1576 }
    requires before { length bytes.old.items ≤ end }
    requires near { end ≤ length bytes.old.items + 720 }
    ensures filled { bytes.new.items ≡ bytes.old.items ++ replicate (end - length bytes.old.items) 0 }
    ensures long { length bytes.new.items ≡ end }
{
    let zeros = [0; 720];
    append_bytes(bytes, &zeros[..end - bytes.len()]);
}

// Appends the rows.
fn put_rows(bytes: &mut Bytes, state: &SavedState)
    requires empty { length bytes.old.items ≡ 0 }
    ensures put { bytes.new.items ≡ concat (rows state.now) }
    ensures long { length bytes.new.items ≡ 120 }
    ensures rows { AreRows state.now }
{
    put_port(bytes, &state.port);
    put_units(bytes, state.port.exec.units);
    put_calls(bytes, state.failing_calls);
}

// Appends the first seven rows.
fn put_port(bytes: &mut Bytes, port: &Saved)
    requires empty { length bytes.old.items ≡ 0 }
    ensures put { bytes.new.items ≡ concat (port_rows port.now) }
    ensures long { length bytes.new.items ≡ 56 }
    ensures rows { ArePortRows port.now }
{
    append_bytes(bytes, &phase_row(port.phase));
    append_bytes(bytes, &controller_row(controller_of(port)));
    append_bytes(bytes, &counts_row(counts_of(port)));
    append_bytes(bytes, &drives_row(drives_row_of(port)));
    append_bytes(bytes, &position_row(port.exec.position));
    append_bytes(bytes, &ring_row(port.responses));
    append_bytes(bytes, &ring_row(port.commands));
}

// Appends the rows of the units.
fn put_units(bytes: &mut Bytes, units: [Option<UnitInfo>; 4])
    requires room { length bytes.old.items ≡ 56 }
    ensures put { bytes.new.items ≡ bytes.old.items ++ concat (unit_rows units) }
    ensures long { length bytes.new.items ≡ 88 }
    ensures rows { AreUnitRows units }
{
    let [a, b, c, d] = units;
    append_bytes(bytes, &unit_row(a));
    append_bytes(bytes, &unit_row(b));
    append_bytes(bytes, &unit_row(c));
    append_bytes(bytes, &unit_row(d));
}

// Appends the rows of the calls that are to fail.
fn put_calls(bytes: &mut Bytes, calls: [Option<u32>; 4])
    requires room { length bytes.old.items ≡ 88 }
    ensures put { bytes.new.items ≡ bytes.old.items ++ concat (call_rows calls) }
    ensures long { length bytes.new.items ≡ 120 }
    ensures rows { AreCallRows calls }
{
    let [a, b, c, d] = calls;
    append_bytes(bytes, &call_row(a));
    append_bytes(bytes, &call_row(b));
    append_bytes(bytes, &call_row(c));
    append_bytes(bytes, &call_row(d));
}

// Appends the additional operations.
fn put_ops(bytes: &mut Bytes, ops: &[GuestOp])
    requires few { length ops.now ≤ 15 }
    requires room { length bytes.old.items ≡ 120 }
    ensures put { bytes.new.items ≡ bytes.old.items ++ concat (map op_bytes ops.now) }
    ensures longer { length bytes.new.items ≡ 120 + length ops.now }
    ensures back { All (IsReadBack 1 op_of_byte op_bytes) ops.now }
{
    for op in ops {
        append_bytes(bytes, &[op_number(*op)]);
    }
}

// Appends the texts of the pending commands.
fn put_commands(bytes: &mut Bytes, commands: &[Command])
    requires few { length commands.now ≤ 15 }
    requires room { length bytes.old.items ≡ 136 }
    ensures put { bytes.new.items ≡ bytes.old.items ++ concat (map written_command commands.now) }
    ensures longer { length bytes.new.items ≡ 136 + 48 * length commands.now }
    ensures back { All (IsReadBack 48 command_in written_command) commands.now }
{
    for command in commands {
        append_bytes(bytes, &encode_command(command));
    }
}

// Appends the texts of the queued end messages.
fn put_replies(bytes: &mut Bytes, replies: &[Reply])
    requires few { length replies.now ≤ 15 }
    requires room { length bytes.old.items ≡ 856 }
    ensures put { bytes.new.items ≡ bytes.old.items ++ concat (map written_reply replies.now) }
    ensures longer { length bytes.new.items ≡ 856 + 48 * length replies.now }
    ensures back { All (IsReadBack 48 reply_in written_reply) replies.now }
{
    for reply in replies {
        append_bytes(bytes, &encode_reply(reply));
    }
}

// Returns the profile, the controller flags and the interrupt vector of a port.
fn controller_of(port: &Saved) -> ControllerRow
    ensures { result ≡ controller_of port.now }
{
    ControllerRow {
        profile: port.profile,
        flags: port.guest.flags,
        vector: port.interrupts.vector,
    }
}

// Returns the flags and counts of a port.
fn counts_of(port: &Saved) -> CountsRow
    ensures { result ≡ counts_of port.now }
{
    CountsRow {
        begun: port.begun,
        polling: port.polling,
        enabled: port.interrupts.enabled,
        requested: port.interrupts.requested,
        credits: port.credits,
        pending: port.exec.pending.as_slice().len() as u8,
        ops: port.exec.guest_ops.as_slice().len() as u8,
        waiting: port.waiting.as_slice().len() as u8,
    }
}

// Returns the types of the units and the due attention messages of a port.
fn drives_row_of(port: &Saved) -> DrivesRow
    ensures { result ≡ drives_row_of port.now }
{
    DrivesRow {
        types: port.guest.types,
        attentions: port.guest.attentions,
    }
}

// Returns the version of bytes.
fn version_in(bytes: &[u8]) -> u16
    requires long { 2 ≤ length bytes.now }
    ensures { result ≡ version_in bytes.now }
{
    LittleEndian::read_u16(bytes)
}

// Returns the state that has these bytes, if there is one, and some state otherwise.
fn state_in(bytes: &[u8]) -> SavedState
    requires long { length bytes.now ≡ 1576 }
    ensures { result ≡ state_in bytes.now }
{
    SavedState {
        port: port_in(bytes),
        failing_calls: [
            call_in(&row_at(bytes, 11)),
            call_in(&row_at(bytes, 12)),
            call_in(&row_at(bytes, 13)),
            call_in(&row_at(bytes, 14)),
        ],
    }
}

// Returns the port of such a state.
fn port_in(bytes: &[u8]) -> Saved
    requires long { length bytes.now ≡ 1576 }
    ensures { result ≡ port_in bytes.now }
{
    let controller = controller_in(&row_at(bytes, 1));
    let counts = counts_in(&row_at(bytes, 2));
    let DrivesRow { types, attentions } = drives_row_in(&row_at(bytes, 3));
    Saved {
        profile: controller.profile,
        phase: phase_in(&row_at(bytes, 0)),
        begun: counts.begun,
        responses: ring_in(&row_at(bytes, 5)),
        commands: ring_in(&row_at(bytes, 6)),
        waiting: queued_in(bytes, limited(counts.waiting)),
        polling: counts.polling,
        credits: counts.credits,
        interrupts: Interrupts {
            enabled: counts.enabled,
            vector: controller.vector,
            requested: counts.requested,
        },
        guest: Guest {
            types,
            flags: controller.flags,
            attentions,
        },
        exec: exec_in(bytes, counts),
    }
}

// Returns the executor of such a state.
fn exec_in(bytes: &[u8], counts: CountsRow) -> SavedExec
    requires long { length bytes.now ≡ 1576 }
    ensures { result ≡ exec_in bytes.now counts }
{
    SavedExec {
        units: [
            unit_in(&row_at(bytes, 7)),
            unit_in(&row_at(bytes, 8)),
            unit_in(&row_at(bytes, 9)),
            unit_in(&row_at(bytes, 10)),
        ],
        pending: pending_in(bytes, limited(counts.pending)),
        guest_ops: listed_in(bytes, limited(counts.ops)),
        position: position_in(&row_at(bytes, 4)),
    }
}

// Returns a number of items, or 15 if it is larger.
fn limited(count: u8) -> usize
    ensures limited { result ≡ limited count }
    ensures few { result ≤ 15 }
{
    if count > 15 { 15 } else { usize::from(count) }
}

// Returns the additional operations of a state.
fn listed_in(bytes: &[u8], count: usize) -> ArrayVec<GuestOp, PENDING>
    requires long { length bytes.now ≡ 1576 }
    requires few { count ≤ 15 }
    ensures { result.items ≡ items_in 1 op_of_byte count 120 bytes.now }
{
    let mut ops = ArrayVec::new();
    for index in 0..count {
        ops.push(op_of_byte(&part_at(bytes, OPS + index)));
    }
    ops
}

// Returns the pending commands of a state.
fn pending_in(bytes: &[u8], count: usize) -> ArrayVec<Command, PENDING>
    requires long { length bytes.now ≡ 1576 }
    requires few { count ≤ 15 }
    ensures { result.items ≡ items_in 48 command_in count 136 bytes.now }
{
    let mut commands = ArrayVec::new();
    for index in 0..count {
        commands.push(command_in(&part_at(bytes, COMMANDS + 48 * index)));
    }
    commands
}

// Returns the queued end messages of a state.
fn queued_in(bytes: &[u8], count: usize) -> ArrayVec<Reply, PENDING>
    requires long { length bytes.now ≡ 1576 }
    requires few { count ≤ 15 }
    ensures { result.items ≡ items_in 48 reply_in count 856 bytes.now }
{
    let mut replies = ArrayVec::new();
    for index in 0..count {
        replies.push(reply_in(&part_at(bytes, REPLIES + 48 * index)));
    }
    replies
}

// Returns the additional operation of its byte.
fn op_of_byte(byte: &[u8; 1]) -> GuestOp
    ensures { result ≡ op_of_byte byte.now }
{
    op_in(byte[0])
}

// Returns the command of a text, or some command if it is invalid.
fn command_in(text: &[u8; 48]) -> Command
    ensures { result ≡ command_in text.now }
{
    match decode_command(text) {
        Ok(command) => command,
        Err(_) => Command {
            reference: 0,
            unit: 0,
            op: Op::Status,
        },
    }
}

// Returns the end message of a text, or some end message if it has none.
fn reply_in(text: &[u8; 48]) -> Reply
    ensures { result ≡ reply_in text.now }
{
    match decode_reply(text) {
        Some(reply) => reply,
        None => Reply {
            reference: 0,
            unit: 0,
            status: 0,
            body: ReplyBody::Flush,
        },
    }
}
