//! Records that other programs put after the blocks of an image, in a block of their own.
//!
//! SIMH's sim_disk.c: the footer of a container. Microsoft's Virtual Hard Disk Image Format Specification:
//! the footer of a hard disk.
ghost use Rattle.std.specs.Prelude.{◌≡◌, ◌≤◌, ◌+◌};
ghost use Rattle.uda50_show.specs.Container.{container_record, simh_record, big_long};
ghost use Rattle.uda50_show.specs.Container.{before_zero, crc_bit, crc_byte, crc_sum, crc};

use crate::checksum::Checksum;
use crate::number::Counted;
use crate::text::{FixedText, is_same};
use byteorder::{BigEndian, ByteOrder};
use std::fmt;

/// A record after the blocks of an image.
#[derive(Clone, Copy, Debug, PartialEq, Eq)]
pub enum ContainerRecord {
    /// The record of a container of SIMH.
    Simh(SimhRecord),
    /// The footer of a fixed virtual hard disk.
    FixedVhd,
}

/// The facts in a record of SIMH.
#[derive(Clone, Copy, Debug, PartialEq, Eq)]
pub struct SimhRecord {
    /// The name of the simulator, up to a zero byte.
    pub simulator: [u8; 64],
    /// The name of the drive type, up to a zero byte.
    pub drive: [u8; 16],
    /// The number of bytes of a sector.
    pub sector_size: u32,
    /// The number of sectors.
    pub sectors: u32,
    /// Whether the checksum is right.
    pub checksum: Checksum,
}

impl ContainerRecord {
    /// Reads the last block of an image. Returns `None` if it is no such record.
    pub fn read(block: &[u8; 512]) -> Option<ContainerRecord>
        ensures record { result ≡ container_record block.now }
    {
        if is_same(&block[..4], b"simh") {
            return Some(ContainerRecord::Simh(simh_record(block)));
        }
        let is_vhd = is_same(&block[..8], b"conectix") && big_long(block, 60) == 2;
        is_vhd.then_some(ContainerRecord::FixedVhd)
    }
}

// Returns the facts in a record of SIMH.
fn simh_record(block: &[u8; 512]) -> SimhRecord
    ensures { result ≡ simh_record block.now }
{
    let mut simulator = [0; 64];
    simulator.copy_from_slice(&block[4..68]);
    let mut drive = [0; 16];
    drive.copy_from_slice(&block[68..84]);
    SimhRecord {
        simulator,
        drive,
        sector_size: big_long(block, 84),
        sectors: big_long(block, 88),
        checksum: Checksum::of(crc(block) == big_long(block, 508)),
    }
}

// Returns the long word at an offset, high byte first.
fn big_long(block: &[u8; 512], offset: usize) -> u32
    requires { offset + 4 ≤ 512 }
    ensures { result ≡ big_long offset block.now }
{
    BigEndian::read_u32(&block[offset..])
}

// Returns the CRC-32 of the first 508 bytes.
fn crc(block: &[u8; 512]) -> u32
    ensures { result ≡ crc block.now }
{
    crc_sum(block, 508) ^ u32::MAX
}

// Returns the sum of a CRC-32 after the first bytes.
#[tactic(auto, unfolding(crate::specs::Container::crc_sum))]
fn crc_sum(block: &[u8; 512], count: usize) -> u32
    requires { count ≤ 512 }
    ensures { result ≡ crc_sum count block.now }
{
    let mut sum = u32::MAX;
    for n in 0..count {
        sum = crc_byte(sum ^ u32::from(block[n]));
    }
    sum
}

// Returns the sum after the eight bits of a byte.
#[tactic(auto, unfolding(crate::specs::Container::crc_byte))]
fn crc_byte(sum: u32) -> u32
    ensures { result ≡ crc_byte sum }
{
    let four = crc_bit(crc_bit(crc_bit(crc_bit(sum))));
    crc_bit(crc_bit(crc_bit(crc_bit(four))))
}

// Returns the sum after one bit.
#[tactic(auto, unfolding(crate::specs::Container::crc_bit))]
fn crc_bit(sum: u32) -> u32
    ensures { result ≡ crc_bit sum }
{
    if sum % 2 == 1 {
        sum / 2 ^ 0xedb8_8320
    } else {
        sum / 2
    }
}

impl SimhRecord {
    /// Returns the name of the simulator.
    pub fn simulator_name(&self) -> &[u8]
        ensures name { result.now ≡ before_zero self.now.simulator }
    {
        before_zero(&self.simulator)
    }

    /// Returns the name of the drive type.
    pub fn drive_name(&self) -> &[u8]
        ensures name { result.now ≡ before_zero self.now.drive }
    {
        before_zero(&self.drive)
    }
}

/// Writes a text such as `SIMH container record, simulator "VAX", drive type "RD54", 311,200 sectors of 512 bytes`.
impl fmt::Display for ContainerRecord {
    fn fmt<W: fmt::Write>(&self, f: &mut fmt::Formatter<W>) -> fmt::Result {
        match self {
            ContainerRecord::Simh(record) => write_simh(f, record),
            ContainerRecord::FixedVhd => f.write_str("footer of a fixed VHD"),
        }
    }
}

// Writes the text of a record of SIMH.
fn write_simh<W: fmt::Write>(f: &mut fmt::Formatter<W>, record: &SimhRecord) -> fmt::Result {
    let size = Counted::bytes(u64::from(record.sector_size));
    let sectors = Counted {
        number: u64::from(record.sectors),
        noun: "sector",
    };
    write!(
        f,
        "SIMH container record, simulator \"{}\", drive type \"{}\", {sectors} of {} byte{}{}",
        FixedText(record.simulator_name()),
        FixedText(record.drive_name()),
        record.sector_size,
        size.ending(),
        record.checksum
    )
}

// Returns the bytes of a text before its first zero byte.
fn before_zero(text: &[u8]) -> &[u8]
    ensures { result.now ≡ before_zero text.now }
{
    let mut end = 0;
    while end < text.len() && text[end] != 0 {
        end += 1;
    }
    &text[..end]
}
