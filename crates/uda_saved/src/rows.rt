//! The rows of a saved state. Each pair of functions writes a row and reads it. A row that no state has is
//! read
//! as some state; [`SavedState::from_bytes`](crate::SavedState::from_bytes) rejects it, because that state
//! has
//! other bytes.
//!
//! UDA50 Programmer's Documentation Kit: initialization, communication area, credits. MSCP Basic Disk
//! Functions Manual: unit states, controller flags.
ghost use Rattle.std.specs.Prelude.{◌≡◌, ◌≤◌, length};
ghost use Rattle.uda_saved.specs.Rows.{profile_number, first_unit_of, profile_in, phase_numbers, cause_in, phase_numbered};
ghost use Rattle.uda_saved.specs.Rows.{phase_row, phase_in, controller_row, controller_in, counts_row, counts_in};
ghost use Rattle.uda_saved.specs.Rows.{drives_row, drives_row_in, type_in, position_row, position_in, ring_row, ring_in};
ghost use Rattle.uda_saved.specs.Rows.{unit_row, unit_in, call_row, call_in, op_number, op_in};

use crate::row::{Row, flag_byte, is_set, long, row_word};
use crate::state::STATE_VERSION;
use uda_disk::Mode;
use uda_exec::{Position, UnitInfo};
use uda_packet::{Bus, DriveType, GuestOp, Identity};
use uda_port::{Fatal, Phase, Profile, Ring, RingParts};

/// The number of a phase, with its words or the code of its fatal error.
#[derive(Clone, Copy)]
pub(crate) struct PhaseNumbers {
    pub kind: u8,
    pub first: u16,
    pub second: u16,
}

/// The profile, the controller flags and the interrupt vector.
#[derive(Clone, Copy)]
pub(crate) struct ControllerRow {
    pub profile: Profile,
    pub flags: u16,
    pub vector: u16,
}

/// The flags of a port, its credits, and the numbers of pending commands, listed operations and queued end
/// messages.
#[derive(Clone, Copy)]
pub(crate) struct CountsRow {
    pub begun: bool,
    pub polling: bool,
    pub enabled: bool,
    pub requested: bool,
    pub credits: u8,
    pub pending: u8,
    pub ops: u8,
    pub waiting: u8,
}

/// The types of the units, and whether an attention message is due for each.
#[derive(Clone, Copy)]
pub(crate) struct DrivesRow {
    pub types: [DriveType; 4],
    pub attentions: [bool; 4],
}

fn profile_number(profile: Profile) -> u8
    ensures { result ≡ profile_number profile }
{
    match profile {
        Profile::Strict => 0,
        Profile::Compatible(identity) => match identity.bus {
            Bus::Unibus => 1,
            Bus::Qbus => 2,
        },
    }
}

fn first_unit_of(profile: Profile) -> u16
    ensures { result ≡ first_unit_of profile }
{
    match profile {
        Profile::Strict => 0,
        Profile::Compatible(identity) => identity.first_unit,
    }
}

fn profile_in(number: u8, first_unit: u16) -> Profile
    ensures { result ≡ profile_in number first_unit }
{
    match number {
        0 => Profile::Strict,
        1 => Profile::Compatible(Identity {
            bus: Bus::Unibus,
            first_unit,
        }),
        _ => Profile::Compatible(Identity {
            bus: Bus::Qbus,
            first_unit,
        }),
    }
}

fn phase_numbers(phase: Phase) -> PhaseNumbers
    ensures numbers { result ≡ phase_numbers phase }
    ensures back { phase_numbered result ≡ phase }
{
    let (kind, first, second) = match phase {
        Phase::Step1 => (0, 0, 0),
        Phase::Step2 { first } => (1, first, 0),
        Phase::Step3 { first, second } => (2, first, second),
        Phase::Wrap { word } => (3, word, 0),
        Phase::PurgeTest => (4, 0, 0),
        Phase::PollTest => (5, 0, 0),
        Phase::Step4 => (6, 0, 0),
        Phase::Running => (7, 0, 0),
        Phase::Dead { cause } => (8, cause.code(), 0),
    };
    PhaseNumbers {
        kind,
        first,
        second,
    }
}

fn cause_in(code: u16) -> Fatal
    ensures { result ≡ cause_in code }
{
    match code {
        1 => Fatal::PacketRead,
        2 => Fatal::PacketWrite,
        6 => Fatal::RingRead,
        7 => Fatal::RingWrite,
        10 => Fatal::CreditsExceeded,
        14 => Fatal::InvalidConnection,
        _ => Fatal::InitializationError,
    }
}

fn phase_numbered(numbers: PhaseNumbers) -> Phase
    ensures { result ≡ phase_numbered numbers }
{
    let PhaseNumbers {
        kind,
        first,
        second,
    } = numbers;
    match kind {
        0 => Phase::Step1,
        1 => Phase::Step2 { first },
        2 => Phase::Step3 { first, second },
        3 => Phase::Wrap { word: first },
        4 => Phase::PurgeTest,
        5 => Phase::PollTest,
        6 => Phase::Step4,
        7 => Phase::Running,
        _ => Phase::Dead {
            cause: cause_in(first),
        },
    }
}

/// Returns the row of the version and the phase.
pub(crate) fn phase_row(phase: Phase) -> Row
    ensures row { result ≡ phase_row phase }
    ensures long { length result ≡ 8 }
    ensures back { phase_in result ≡ phase }
{
    let numbers = phase_numbers(phase);
    let [v0, v1] = STATE_VERSION.to_le_bytes();
    let [f0, f1] = numbers.first.to_le_bytes();
    let [s0, s1] = numbers.second.to_le_bytes();
    [v0, v1, numbers.kind, 0, f0, f1, s0, s1]
}

/// Returns the phase of a row.
pub(crate) fn phase_in(row: &Row) -> Phase
    ensures { result ≡ phase_in row.now }
{
    phase_numbered(PhaseNumbers {
        kind: row[2],
        first: row_word(row, 4),
        second: row_word(row, 6),
    })
}

/// Returns the row of the profile, the controller flags and the interrupt vector.
pub(crate) fn controller_row(controller: ControllerRow) -> Row
    ensures row { result ≡ controller_row controller }
    ensures long { length result ≡ 8 }
    ensures back { controller_in result ≡ controller }
{
    let [u0, u1] = first_unit_of(controller.profile).to_le_bytes();
    let [f0, f1] = controller.flags.to_le_bytes();
    let [v0, v1] = controller.vector.to_le_bytes();
    [
        profile_number(controller.profile),
        0,
        u0,
        u1,
        f0,
        f1,
        v0,
        v1,
    ]
}

/// Returns the profile, the controller flags and the interrupt vector of a row.
pub(crate) fn controller_in(row: &Row) -> ControllerRow
    ensures { result ≡ controller_in row.now }
{
    ControllerRow {
        profile: profile_in(row[0], row_word(row, 2)),
        flags: row_word(row, 4),
        vector: row_word(row, 6),
    }
}

/// Returns the row of the flags and counts.
pub(crate) fn counts_row(counts: CountsRow) -> Row
    ensures row { result ≡ counts_row counts }
    ensures long { length result ≡ 8 }
    ensures back { counts_in result ≡ counts }
{
    [
        flag_byte(counts.begun),
        flag_byte(counts.polling),
        flag_byte(counts.enabled),
        flag_byte(counts.requested),
        counts.credits,
        counts.pending,
        counts.ops,
        counts.waiting,
    ]
}

/// Returns the flags and counts of a row.
pub(crate) fn counts_in(row: &Row) -> CountsRow
    ensures { result ≡ counts_in row.now }
{
    CountsRow {
        begun: is_set(row[0]),
        polling: is_set(row[1]),
        enabled: is_set(row[2]),
        requested: is_set(row[3]),
        credits: row[4],
        pending: row[5],
        ops: row[6],
        waiting: row[7],
    }
}

fn type_in(number: u8) -> DriveType
    ensures { result ≡ type_in number }
{
    DriveType::of_number(u32::from(number)).unwrap_or(DriveType::Ra81)
}

/// Returns the row of the units' types and due attention messages.
pub(crate) fn drives_row(drives: DrivesRow) -> Row
    ensures row { result ≡ drives_row drives }
    ensures long { length result ≡ 8 }
    ensures back { drives_row_in result ≡ drives }
{
    let [a, b, c, d] = drives.types;
    let [e, f, g, h] = drives.attentions;
    [
        a.number(),
        b.number(),
        c.number(),
        d.number(),
        flag_byte(e),
        flag_byte(f),
        flag_byte(g),
        flag_byte(h),
    ]
}

/// Returns the units' types and due attention messages of a row.
pub(crate) fn drives_row_in(row: &Row) -> DrivesRow
    ensures { result ≡ drives_row_in row.now }
{
    DrivesRow {
        types: [
            type_in(row[0]),
            type_in(row[1]),
            type_in(row[2]),
            type_in(row[3]),
        ],
        attentions: [
            is_set(row[4]),
            is_set(row[5]),
            is_set(row[6]),
            is_set(row[7]),
        ],
    }
}

/// Returns the row of the last transfer's start.
pub(crate) fn position_row(position: Position) -> Row
    ensures row { result ≡ position_row position }
    ensures long { length result ≡ 8 }
    ensures back { position_in result ≡ position }
{
    let [u0, u1] = position.unit.to_le_bytes();
    let [l0, l1, l2, l3] = position.lbn.to_le_bytes();
    [u0, u1, 0, 0, l0, l1, l2, l3]
}

/// Returns the last transfer's start of a row.
pub(crate) fn position_in(row: &Row) -> Position
    ensures { result ≡ position_in row.now }
{
    Position {
        unit: row_word(row, 0),
        lbn: long(row, 4),
    }
}

/// Returns the row of a ring.
pub(crate) fn ring_row(ring: Ring) -> Row
    ensures row { result ≡ ring_row ring }
    ensures long { length result ≡ 8 }
    ensures back { ring_in result ≡ ring }
{
    let parts = ring.parts();
    let [b0, b1, b2, b3] = parts.base.to_le_bytes();
    let [c0, c1] = parts.count.to_le_bytes();
    let [p0, p1] = parts.place.to_le_bytes();
    [b0, b1, b2, b3, c0, c1, p0, p1]
}

/// Returns the ring of a row.
pub(crate) fn ring_in(row: &Row) -> Ring
    ensures { result ≡ ring_in row.now }
{
    let parts = RingParts {
        base: long(row, 0),
        count: row_word(row, 4),
        place: row_word(row, 6),
    };
    match Ring::of_parts(parts) {
        Some(ring) => ring,
        None => Ring::new(0, 1),
    }
}

/// Returns the row of a unit: its mode and its size, or 0 in each byte if it has no drive.
pub(crate) fn unit_row(unit: Option<UnitInfo>) -> Row
    ensures row { result ≡ unit_row unit }
    ensures long { length result ≡ 8 }
    ensures back { unit_in result ≡ unit }
{
    let Some(info) = unit else {
        return [0; 8];
    };
    let [s0, s1, s2, s3] = info.size.to_le_bytes();
    [
        1,
        flag_byte(info.mode.online),
        flag_byte(info.mode.hard),
        flag_byte(info.mode.soft),
        s0,
        s1,
        s2,
        s3,
    ]
}

/// Returns the unit of a row.
pub(crate) fn unit_in(row: &Row) -> Option<UnitInfo>
    ensures { result ≡ unit_in row.now }
{
    if is_set(row[0]) {
        let mode = Mode {
            online: is_set(row[1]),
            hard: is_set(row[2]),
            soft: is_set(row[3]),
        };
        Some(UnitInfo {
            mode,
            size: long(row, 4),
        })
    } else {
        None
    }
}

/// Returns the row of the number of a call that is to fail, or 0 in each byte if none was set to fail.
pub(crate) fn call_row(call: Option<u32>) -> Row
    ensures row { result ≡ call_row call }
    ensures long { length result ≡ 8 }
    ensures back { call_in result ≡ call }
{
    let Some(number) = call else {
        return [0; 8];
    };
    let [n0, n1, n2, n3] = number.to_le_bytes();
    [1, 0, 0, 0, n0, n1, n2, n3]
}

/// Returns the number of a call that is to fail of a row.
pub(crate) fn call_in(row: &Row) -> Option<u32>
    ensures { result ≡ call_in row.now }
{
    if is_set(row[0]) {
        Some(long(row, 4))
    } else {
        None
    }
}

/// Returns the byte of an additional operation.
pub(crate) fn op_number(op: GuestOp) -> u8
    ensures number { result ≡ op_number op }
    ensures back { op_in result ≡ op }
{
    match op {
        GuestOp::Basic => 0,
        GuestOp::SetUnit => 1,
        GuestOp::Compare => 2,
    }
}

/// Returns the additional operation of a byte.
pub(crate) fn op_in(number: u8) -> GuestOp
    ensures { result ≡ op_in number }
{
    match number {
        0 => GuestOp::Basic,
        1 => GuestOp::SetUnit,
        _ => GuestOp::Compare,
    }
}
