//! Home blocks: the block of a volume that contains its format and its label.
//!
//! RT-11 Volume and File Formats Manual; Files-11 On-Disk Structure, levels 1 and 2.
ghost use Rattle.std.specs.Prelude.{◌≡◌, ◌≢◌, ◌≤◌, ◌+◌, IfSome, IsNone};
ghost use Rattle.uda50_show.specs.declared.home_block.VolumeFormat.{VolumeFormat};
ghost use Rattle.uda50_show.specs.Block.{block_bytes};
ghost use Rattle.uda50_show.specs.Home.{format_text, home_kind, volume_offset, home_checksum};

use crate::checksum::{Checksum, word_at_offset, word_sum};
use crate::text::{FixedText, is_same};
use std::fmt;

/// A format of volumes.
#[derive(Clone, Copy, Debug, PartialEq, Eq)]
pub enum VolumeFormat {
    /// RT-11.
    Rt11,
    /// Files-11 level 1, of RSX-11 and IAS.
    Ods1,
    /// Files-11 level 2, of VMS.
    Ods2,
}

impl VolumeFormat {
    // Returns the format for the text at the end of a home block.
    fn named(text: &[u8]) -> Option<VolumeFormat>
        ensures some { IfSome result (λ format. text.now ≡ format_text format) }
        ensures none { IsNone result → (format : VolumeFormat) → text.now ≢ format_text format }
    {
        if is_same(text, b"DECRT11A    ") {
            Some(VolumeFormat::Rt11)
        } else if is_same(text, b"DECFILE11A  ") {
            Some(VolumeFormat::Ods1)
        } else if is_same(text, b"DECFILE11B  ") {
            Some(VolumeFormat::Ods2)
        } else {
            None
        }
    }
}

impl VolumeFormat {
    /// Returns the name of its home block.
    pub fn kind(self) -> &'static str
        ensures name { result.now ≡ home_kind self }
    {
        match self {
            VolumeFormat::Rt11 => "RT-11 home block",
            VolumeFormat::Ods1 => "Files-11 ODS-1 home block",
            VolumeFormat::Ods2 => "Files-11 ODS-2 home block",
        }
    }
}

/// The facts of a volume in its home block.
#[derive(Clone, Copy, Debug, PartialEq, Eq)]
pub struct HomeBlock {
    /// The format.
    pub format: VolumeFormat,
    /// The volume's label.
    pub volume: [u8; 12],
    /// The volume's owner.
    pub owner: [u8; 12],
    /// The result for both checksums of a Files-11 home block.
    pub checksum: Checksum,
}

impl HomeBlock {
    /// Reads block 1 of a volume. Returns `None` if it has none of the formats.
    pub fn read(block: &[u8; 512]) -> Option<HomeBlock>
        ensures format { IfSome result (λ home. block_bytes 496 12 block.now ≡ format_text home.format) }
        ensures none { IsNone result
            → (format : VolumeFormat) → block_bytes 496 12 block.now ≢ format_text format }
        ensures volume { IfSome result (λ home.
            home.volume ≡ block_bytes (volume_offset home.format) 12 block.now) }
        ensures owner { IfSome result (λ home. home.owner ≡ block_bytes 484 12 block.now) }
        ensures checksum { IfSome result (λ home.
            home.checksum ≡ home_checksum home.format block.now) }
    {
        let format = VolumeFormat::named(&block[496..508])?;
        let label = match format {
            VolumeFormat::Ods1 => 14,
            _ => 472,
        };
        Some(HomeBlock {
            format,
            volume: twelve_at(block, label),
            owner: twelve_at(block, 484),
            checksum: checksum_in(format, block),
        })
    }
}

// Returns the result of checking a home block's checksums.
fn checksum_in(format: VolumeFormat, block: &[u8; 512]) -> Checksum
    ensures { result ≡ home_checksum format block.now }
{
    match format {
        VolumeFormat::Rt11 => Checksum::Unchecked,
        VolumeFormat::Ods1 | VolumeFormat::Ods2 => Checksum::of(
            word_sum(block, 29) == word_at_offset(block, 58)
                && word_sum(block, 255) == word_at_offset(block, 510),
        ),
    }
}

// Returns the twelve bytes from an offset.
fn twelve_at(block: &[u8; 512], offset: usize) -> [u8; 12]
    requires { offset + 12 ≤ 512 }
    ensures { result ≡ block_bytes offset 12 block.now }
{
    let mut bytes = [0; 12];
    bytes.copy_from_slice(&block[offset..offset + 12]);
    bytes
}

/// Writes a text such as `RT-11 home block, volume "RT11A", owner ""`.
impl fmt::Display for HomeBlock {
    fn fmt<W: fmt::Write>(&self, f: &mut fmt::Formatter<W>) -> fmt::Result {
        write!(
            f,
            "{}, volume \"{}\", owner \"{}\"{}",
            self.format.kind(),
            FixedText(&self.volume),
            FixedText(&self.owner),
            self.checksum
        )
    }
}
