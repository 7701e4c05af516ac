//! The drive types that a unit can report.
//!
//! MSCP Basic Disk Functions Manual: media type identifiers, unit identifiers, Get Unit Status.

ghost use Rattle.std.specs.Prelude.{◌≡◌, Some};
ghost use Rattle.uda_packet.specs.DriveTypes.{cdrom, drive_name, drive_traits, fixed, geometry, removable, type_number, type_numbered};

use std::fmt;

/// A drive type, by which a host's driver selects its tables.
#[derive(Clone, Copy, Debug, PartialEq, Eq)]
pub enum DriveType {
    /// RX50, diskette.
    Rx50,
    /// RX33, diskette.
    Rx33,
    /// RD51.
    Rd51,
    /// RD31.
    Rd31,
    /// RD52.
    Rd52,
    /// RD53.
    Rd53,
    /// RD54.
    Rd54,
    /// RA60, removable pack.
    Ra60,
    /// RA81.
    Ra81,
    /// RA82.
    Ra82,
    /// RA71.
    Ra71,
    /// RA72.
    Ra72,
    /// RA90.
    Ra90,
    /// RA92.
    Ra92,
    /// RRD40, compact disc.
    Rrd40,
}

/// The facts of a drive type that a host can read.
///
/// MSCP Basic Disk Functions Manual: media type identifiers, unit identifiers, Get Unit Status.
#[derive(Clone, Copy, Debug, PartialEq, Eq)]
pub struct DriveTraits {
    /// The usual size in blocks. A unit's size is that of its volume.
    pub blocks: u32,
    /// The model number in the unit identifier.
    pub model: u8,
    /// The media type identifier.
    pub media: u32,
    /// The geometry of a volume.
    pub geometry: Geometry,
    /// Whether the medium is removable.
    pub is_removable: bool,
    /// Whether the drive can't write.
    pub is_read_only: bool,
}

/// The geometry of a volume.
///
/// MSCP Basic Disk Functions Manual: Get Unit Status.
#[derive(Clone, Copy, Debug, PartialEq, Eq)]
pub struct Geometry {
    /// Sectors per track.
    pub sectors: u16,
    /// Tracks per group.
    pub tracks: u16,
    /// Groups per cylinder.
    pub groups: u16,
}

impl DriveType {
    /// Every drive type, in the order of their numbers.
    pub const ALL: [DriveType; 15] = [
        DriveType::Rx50,
        DriveType::Rx33,
        DriveType::Rd51,
        DriveType::Rd31,
        DriveType::Rd52,
        DriveType::Rd53,
        DriveType::Rd54,
        DriveType::Ra60,
        DriveType::Ra81,
        DriveType::Ra82,
        DriveType::Ra71,
        DriveType::Ra72,
        DriveType::Ra90,
        DriveType::Ra92,
        DriveType::Rrd40,
    ];

    // Returns the row of the drive type: its number, its name, its usual size in blocks, its model, its media
    // type, and its geometry.
    fn row(self) -> DriveRow
        ensures number { result.number ≡ type_number self }
        ensures name { result.name.now ≡ drive_name self }
        ensures traits { result.traits ≡ drive_traits self }
    {
        match self {
            DriveType::Rx50 => row(0, "RX50", removable(800, 7, 0x2565_8032, (10, 5, 16))),
            DriveType::Rx33 => row(1, "RX33", removable(2_400, 10, 0x2565_8021, (15, 2, 1))),
            DriveType::Rd51 => row(2, "RD51", fixed(21_600, 6, 0x2564_4033, (18, 4, 1))),
            DriveType::Rd31 => row(3, "RD31", fixed(41_560, 12, 0x2564_401f, (17, 4, 1))),
            DriveType::Rd52 => row(4, "RD52", fixed(60_480, 8, 0x2564_4034, (17, 8, 1))),
            DriveType::Rd53 => row(5, "RD53", fixed(138_672, 9, 0x2564_4035, (17, 8, 1))),
            DriveType::Rd54 => row(6, "RD54", fixed(311_200, 13, 0x2564_4036, (17, 15, 1))),
            DriveType::Ra60 => row(7, "RA60", removable(400_176, 4, 0x22a4_103c, (42, 6, 1))),
            DriveType::Ra81 => row(8, "RA81", fixed(891_072, 5, 0x2564_1051, (51, 14, 1))),
            DriveType::Ra82 => row(9, "RA82", fixed(1_216_665, 11, 0x2564_1052, (57, 15, 1))),
            DriveType::Ra71 => row(10, "RA71", fixed(1_367_310, 40, 0x2564_1047, (51, 14, 1))),
            DriveType::Ra72 => row(11, "RA72", fixed(1_953_300, 37, 0x2564_1048, (51, 20, 1))),
            DriveType::Ra90 => row(12, "RA90", fixed(2_376_153, 19, 0x2564_105a, (69, 13, 1))),
            DriveType::Ra92 => row(13, "RA92", fixed(2_940_951, 29, 0x2564_105c, (73, 13, 1))),
            DriveType::Rrd40 => row(14, "RRD40", cdrom(1_331_200, 26, 0x2565_2228, (128, 1, 1))),
        }
    }

    /// Returns the name, such as `RA81`.
    pub fn name(self) -> &'static str
        ensures name { result.now ≡ drive_name self }
    {
        self.row().name
    }

    /// Returns the number of the drive type, for programs that store it or pass it on.
    pub fn number(self) -> u8
        ensures number { result ≡ type_number self }
        ensures back { type_numbered result ≡ Some self }
    {
        self.row().number
    }

    /// Returns the drive type of a number, or `None` if there is none.
    pub fn of_number(number: u32) -> Option<DriveType>
        ensures type_is { result ≡ type_numbered number }
    {
        DriveType::ALL.get(number as usize).copied()
    }

    /// Returns the facts of the drive type that a host can read.
    ///
    /// MSCP Basic Disk Functions Manual: media type identifiers, unit identifiers, Get Unit Status.
    pub fn traits(self) -> DriveTraits
        ensures traits { result ≡ drive_traits self }
    {
        self.row().traits
    }
}

// A row of the table of drive types.
#[derive(Clone, Copy)]
struct DriveRow {
    number: u8,
    name: &'static str,
    traits: DriveTraits,
}

fn row(number: u8, name: &'static str, traits: DriveTraits) -> DriveRow
    ensures number { result.number ≡ number }
    ensures name { result.name.now ≡ name.now }
    ensures traits { result.traits ≡ traits }
{
    DriveRow {
        number,
        name,
        traits,
    }
}

// Makes the facts of a drive with a fixed, writable medium. The shape is sectors per track, tracks per
// group and groups per cylinder.
fn fixed(blocks: u32, model: u8, media: u32, shape: (u16, u16, u16)) -> DriveTraits
    ensures value { result ≡ fixed blocks model media (geometry shape.0 shape.1 shape.2) }
{
    let (sectors, tracks, groups) = shape;
    DriveTraits {
        blocks,
        model,
        media,
        geometry: Geometry {
            sectors,
            tracks,
            groups,
        },
        is_removable: false,
        is_read_only: false,
    }
}

// Makes the facts of a drive with a removable, writable medium.
fn removable(blocks: u32, model: u8, media: u32, shape: (u16, u16, u16)) -> DriveTraits
    ensures value { result ≡ removable blocks model media (geometry shape.0 shape.1 shape.2) }
{
    DriveTraits {
        is_removable: true,
        ..fixed(blocks, model, media, shape)
    }
}

// Makes the facts of a drive with a removable medium that it can't write.
fn cdrom(blocks: u32, model: u8, media: u32, shape: (u16, u16, u16)) -> DriveTraits
    ensures value { result ≡ cdrom blocks model media (geometry shape.0 shape.1 shape.2) }
{
    DriveTraits {
        is_read_only: true,
        ..removable(blocks, model, media, shape)
    }
}

/// A drive type that no unit reports. An image can have its size.
#[derive(Clone, Copy, Debug)]
pub struct UnreportedType {
    /// The name, such as `RA80`.
    pub name: &'static str,
    /// The usual size in blocks.
    pub blocks: u32,
}

/// The drive types that no unit reports.
pub static UNREPORTED_TYPES: [UnreportedType; 2] = [
    UnreportedType {
        name: "RA80",
        blocks: 237_212,
    },
    UnreportedType {
        name: "RA70",
        blocks: 547_041,
    },
];

impl fmt::Display for DriveType {
    ghost output = { λ kind. Some (drive_name kind) };

    fn fmt<W: fmt::Write>(&self, f: &mut fmt::Formatter<W>) -> fmt::Result {
        f.write_str(self.name())
    }
}
