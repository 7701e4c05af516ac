//! Encoding of end messages by a compatible controller.
//!
//! MSCP Basic Disk Functions Manual: end messages, unit flags, unit and controller identifiers.

ghost use Rattle.std.specs.Prelude.{◌≡◌, ◌+◌, ◌*◌, ◌%◌, ◌^◌, length};
ghost use Rattle.uda_packet.specs.DriveTypes.{drive_traits};
ghost use Rattle.uda_packet.specs.Field.{with_entries};
ghost use Rattle.uda_packet.specs.GuestEnd.{written_guest_end, guest_entries, guest_reply_entries, unit_number, drive_number, model_of};
ghost use Rattle.uda_packet.specs.GuestEnd.{addresses_of};
ghost use Rattle.uda_packet.specs.GuestEnd.{written_unit_available};
ghost use Rattle.uda_packet.specs.GuestEnd.{flags_reported, characteristics, controller_entries, unit_flags};
ghost use Rattle.uda_packet.specs.GuestEnd.{unit_identifier, identity_entries, geometry_entries};
ghost use Rattle.uda_packet.specs.GuestEnd.{volume_entries, status_entries, online_entries};

use crate::drive_type::{DriveTraits, DriveType};
use crate::encoding::head;
use crate::end::EndBody;
use crate::field::{
    BYTE_COUNT, CONTROLLER_VERSION, CYLINDER, GROUP, IDENTIFIER, MEDIA_TYPE, MULTI_UNIT, SERIAL,
    SHADOW_UNIT, STATUS, TIME_OUT, TRACK, Text, UNIT_FLAGS, UNIT_SIZE,
};
use crate::reply::{Reply, ReplyBody};
use crate::status::{ABORTED, SUCCESS};

/// The bus of a controller. It decides which controller a guest sees.
#[derive(Clone, Copy, Debug, PartialEq, Eq)]
pub enum Bus {
    /// The UNIBUS, with addresses of 18 bits: a UDA50.
    Unibus,
    /// The Q-bus, with addresses of 22 bits: an RQDX3.
    Qbus,
}

/// The identity of the controller that a guest sees.
#[derive(Clone, Copy, Debug, PartialEq, Eq)]
pub struct Identity {
    /// The bus.
    pub bus: Bus,
    /// The number by which the guest knows drive 0. The other drives follow.
    pub first_unit: u16,
}

/// The facts that a controller reports of one of its units.
#[derive(Clone, Copy, Debug, PartialEq, Eq)]
pub struct UnitReport {
    /// The drive type.
    pub kind: DriveType,
    /// Whether the drive has hardware write protection.
    pub hard: bool,
    /// Whether the unit has software write protection, set by the host.
    pub soft: bool,
    /// The size of the volume in blocks, 0 without a volume.
    pub size: u32,
}

/// The facts that a controller reports in addition to the outcome of a command.
#[derive(Clone, Copy, Debug, PartialEq, Eq)]
pub struct Report {
    /// The identity of the controller.
    pub identity: Identity,
    /// The controller flags that the host has set.
    pub controller_flags: u16,
    /// The unit that the message is about, or `None` if it isn't one of the controller's.
    pub unit: Option<UnitReport>,
}

/// Returns the text of an end message as a guest reads it.
///
/// The unit of `end` is the number of a drive. The text has the number by which the guest knows it. The
/// facts of the controller and of the unit come from `report`, not from the body. The end message of an
/// aborted command has none of them. Every byte that no field uses is 0.
///
/// MSCP Basic Disk Functions Manual: end messages.
pub fn encode_guest_end(end: &Reply, report: &Report) -> [u8; 48]
    ensures written { result ≡ written_guest_end report.now end.now }
    ensures long { length result ≡ 48 }
{
    let number = report.identity.unit_number(end.unit);
    let mut text = head(end.reference, number, end.body.code());
    STATUS.put(&mut text, end.status);
    report.put_reply(&mut text, number, end.status, end.body);
    text
}

/// Returns the text of the attention message that a unit has become available.
///
/// `number` is the number by which the guest knows the unit. The message has reference 0, status 0 and the
/// identity of the unit. The manual gives it [`ATTENTION_LENGTH`] bytes.
///
/// MSCP Basic Disk Functions Manual: unit available attention message.
pub fn encode_unit_available(unit: &UnitReport, number: u16) -> [u8; 48]
    ensures written { result ≡ written_unit_available unit.now number }
    ensures long { length result ≡ 48 }
{
    let mut text = head(0, number, UNIT_AVAILABLE);
    unit.put_identity(&mut text, number);
    text
}

impl Identity {
    /// Returns the number by which a guest knows a drive: the first unit's number plus the drive's, modulo
    /// 2^16.
    pub fn unit_number(self, drive: u16) -> u16
        ensures number { result ≡ unit_number self drive }
    {
        self.first_unit.wrapping_add(drive)
    }

    /// Returns the number of the drive that a guest means by a unit number. It is 0 to 3 for the
    /// controller's units, and another number for any other unit.
    pub fn drive_number(self, unit: u16) -> u16
        ensures number { result ≡ drive_number self unit }
    {
        unit.wrapping_sub(self.first_unit)
    }

    /// Returns an address without the bits that an address on the bus doesn't have.
    pub fn bus_address(self, address: u32) -> u32
        ensures address { result ≡ address % addresses_of self.bus }
    {
        match self.bus {
            Bus::Unibus => address % (1 << 18),
            Bus::Qbus => address % (1 << 22),
        }
    }

    // Returns the controller's identifier: its model and its class 1, a mass storage controller.
    fn controller(self) -> u64
        ensures { result ≡ model_of self.bus * 256 ^ 6 + 1 * 256 ^ 7 }
    {
        match self.bus {
            Bus::Unibus => 0x0106 << 48,
            Bus::Qbus => 0x0113 << 48,
        }
    }
}

impl Report {
    // Writes the fields that follow the status, for any message.
    fn put_reply(&self, text: &mut Text, number: u16, status: u16, body: ReplyBody)
        ensures { text.new ≡ with_entries (guest_reply_entries self.now number status body) text.old }
    {
        match body {
            ReplyBody::Basic(_) if status == ABORTED => {}
            ReplyBody::SetUnit { .. } if status == ABORTED => {}
            ReplyBody::Basic(body) => self.put(text, number, status, body),
            ReplyBody::SetUnit { .. } => self.put_online(text, number),
            other => other.put(text, number, status),
        }
    }

    // Writes the fields that follow the status, for a message that the strict profile knows.
    fn put(&self, text: &mut Text, number: u16, status: u16, body: EndBody)
        ensures { text.new ≡ with_entries (guest_entries self.now number status body) text.old }
    {
        match body {
            EndBody::Invalid | EndBody::Available => {}
            EndBody::Status { .. } => self.put_status(text, number),
            EndBody::Controller => self.put_controller(text, status == SUCCESS),
            EndBody::Online { .. } => self.put_online(text, number),
            EndBody::Moved { bytes, .. } => BYTE_COUNT.put(text, bytes),
        }
    }

    // Writes the facts of the controller, if the command succeeded.
    fn put_controller(&self, text: &mut Text, succeeded: bool)
        ensures { text.new ≡ with_entries (controller_entries self.now succeeded) text.old }
    {
        if succeeded {
            UNIT_FLAGS.put(text, self.controller_flags | REPLACES_BLOCKS);
            TIME_OUT.put(text, SECONDS);
            CONTROLLER_VERSION.put(text, VERSIONS);
            IDENTIFIER.put(text, self.identity.controller());
        }
    }

    // Writes the facts that Get Unit Status reports.
    fn put_status(&self, text: &mut Text, number: u16)
        ensures { text.new ≡ with_entries (status_entries self.now.unit number) text.old }
    {
        if let Some(unit) = self.unit {
            unit.put_identity(text, number);
            unit.put_geometry(text, number);
        }
    }

    // Writes the facts that Online reports.
    fn put_online(&self, text: &mut Text, number: u16)
        ensures { text.new ≡ with_entries (online_entries self.now.unit number) text.old }
    {
        if let Some(unit) = self.unit {
            unit.put_identity(text, number);
            unit.put_volume(text, number);
        }
    }
}

impl UnitReport {
    // Writes the identity of the unit.
    fn put_identity(&self, text: &mut Text, number: u16)
        ensures { text.new ≡ with_entries (identity_entries self.now number) text.old }
    {
        let traits = self.kind.traits();
        MULTI_UNIT.put(text, number);
        UNIT_FLAGS.put(text, self.flags(&traits));
        IDENTIFIER.put(text, identifier(&traits, number));
        MEDIA_TYPE.put(text, traits.media);
    }

    // Writes the geometry of a volume.
    fn put_geometry(&self, text: &mut Text, number: u16)
        ensures { text.new ≡ with_entries (geometry_entries self.now number) text.old }
    {
        let shape = self.kind.traits().geometry;
        SHADOW_UNIT.put(text, number);
        TRACK.put(text, shape.sectors);
        GROUP.put(text, shape.tracks);
        CYLINDER.put(text, shape.groups);
    }

    // Writes the facts of the volume.
    fn put_volume(&self, text: &mut Text, number: u16)
        ensures { text.new ≡ with_entries (volume_entries self.now number) text.old }
    {
        SHADOW_UNIT.put(text, number);
        UNIT_SIZE.put(text, self.size);
        SERIAL.put(text, FIRST_SERIAL + u32::from(number));
    }

    // Returns the unit flags.
    fn flags(&self, traits: &DriveTraits) -> u16
        requires { traits.now ≡ drive_traits self.now.kind }
        ensures { result ≡ unit_flags self.now }
    {
        let mut flags = REPLACES_BLOCKS;
        if self.hard || traits.is_read_only {
            flags += 0x2000;
        }
        if self.soft {
            flags += 0x1000;
        }
        if traits.is_removable {
            flags += 0x0080;
        }
        flags
    }
}

// Returns the unit's identifier: its number, its model and the class 2, a disk.
fn identifier(traits: &DriveTraits, number: u16) -> u64
    ensures { result ≡ unit_identifier traits.now number }
{
    u64::from(number) + (u64::from(traits.model) << 48) + (2 << 56)
}

/// The length of an attention message in bytes.
pub const ATTENTION_LENGTH: u16 = 32;

// The code of the attention message that a unit has become available.
const UNIT_AVAILABLE: u8 = 0x40;

// The bit of controller and unit flags that says that the controller replaces bad blocks, so the host
// doesn't.
const REPLACES_BLOCKS: u16 = 0x8000;

// The time in seconds after which a host may treat the controller as failed.
const SECONDS: u16 = 120;

// The controller's software version 3 and its hardware version 1.
const VERSIONS: u16 = 0x0103;

// The serial number of the volume of unit 0.
const FIRST_SERIAL: u32 = 668;
