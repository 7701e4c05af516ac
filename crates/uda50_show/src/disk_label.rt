//! Disk labels and partition tables of Unix systems.
ghost use Rattle.std.specs.Prelude.{◌≡◌};

use crate::checksum::{Checksum, long_at_offset, word_at_offset, word_parity};
use std::fmt;

/// A disk label, by its magic numbers.
#[derive(Clone, Copy, Debug, PartialEq, Eq)]
pub enum DiskLabel {
    /// 4.3BSD's on a VAX, at byte 64 of block 0.
    Bsd(Checksum),
    /// 2.11BSD's on a PDP-11, at the start of block 1. Its checksum isn't checked.
    Bsd211,
    /// Ultrix's partition table, in block 31.
    Ultrix,
}

// The magic number at the start of a BSD disk label. The label has it a second time.
const BSD_MAGIC: u32 = 0x8256_4557;

// The same number with its halves exchanged, as on a PDP-11.
const BSD_MAGIC_PDP11: u32 = 0x4557_8256;

const ULTRIX_MAGIC: u32 = 0x0003_2957;

impl DiskLabel {
    ghost use Rattle.std.specs.Prelude.{Some, None, if◌then◌else◌};
    ghost use Rattle.uda50_show.specs.Labels.{has_bsd_label, bsd_checksum, has_bsd211_label};
    ghost use Rattle.uda50_show.specs.Labels.{has_ultrix_table};

    /// Reads the label of a VAX's BSD, in block 0.
    pub fn in_block_0(block: &[u8; 512]) -> Option<DiskLabel>
        ensures label { result ≡ (if has_bsd_label block.now
            then Some (DiskLabel.Bsd (bsd_checksum block.now)) else None) }
    {
        if long_at_offset(block, 64) != BSD_MAGIC || long_at_offset(block, 196) != BSD_MAGIC {
            return None;
        }
        let partitions = usize::from(word_at_offset(block, 202));
        let fits = partitions <= 18 && word_parity(block, 64, 74 + 8 * partitions) == 0;
        Some(DiskLabel::Bsd(Checksum::of(fits)))
    }

    /// Reads the label of a PDP-11's BSD, in block 1.
    pub fn in_block_1(block: &[u8; 512]) -> Option<DiskLabel>
        ensures label { result ≡ (if has_bsd211_label block.now then Some DiskLabel.Bsd211 else None) }
    {
        let again = long_at_offset(block, 108) == BSD_MAGIC_PDP11
            || long_at_offset(block, 132) == BSD_MAGIC_PDP11;
        (long_at_offset(block, 0) == BSD_MAGIC_PDP11 && again).then_some(DiskLabel::Bsd211)
    }

    /// Reads the partition table of Ultrix, in block 31.
    pub fn in_block_31(block: &[u8; 512]) -> Option<DiskLabel>
        ensures label { result ≡ (if has_ultrix_table block.now then Some DiskLabel.Ultrix else None) }
    {
        (long_at_offset(block, 440) == ULTRIX_MAGIC && long_at_offset(block, 444) == 1).then_some(
            DiskLabel::Ultrix,
        )
    }
}

impl DiskLabel {
    ghost use Rattle.uda50_show.specs.Labels.{label_kind};

    /// Returns the name of the kind.
    pub fn kind(&self) -> &'static str
        ensures name { result.now ≡ label_kind self.now }
    {
        match self {
            DiskLabel::Bsd(_) => "BSD disk label",
            DiskLabel::Bsd211 => "2.11BSD disk label",
            DiskLabel::Ultrix => "Ultrix partition table",
        }
    }
}

impl fmt::Display for DiskLabel {
    fn fmt<W: fmt::Write>(&self, f: &mut fmt::Formatter<W>) -> fmt::Result {
        f.write_str(self.kind())?;
        match self {
            DiskLabel::Bsd(checksum) => write!(f, "{checksum}"),
            DiskLabel::Bsd211 => f.write_str(", checksum not verified"),
            DiskLabel::Ultrix => Ok(()),
        }
    }
}
