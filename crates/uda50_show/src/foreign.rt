//! Formats of files that are no plain images, by their first bytes.
//!
//! RFC 1952: gzip. QEMU's qcow2.txt. VMware's Virtual Disk Format 1.1. VirtualBox's VDICore.h.
ghost use Rattle.std.specs.Prelude.{◌≡◌};
ghost use Rattle.uda50_show.specs.Foreign.{desktop_format, foreign_format, format_kind, is_vdi};

use crate::checksum::long_at_offset;
use crate::text::is_same;
use std::fmt;

/// A format of files that are no plain images.
#[derive(Clone, Copy, Debug, PartialEq, Eq)]
pub enum ForeignFormat {
    /// A file that gzip compressed.
    Gzip,
    /// An image of QEMU.
    Qcow2,
    /// An image of VMware with its blocks.
    Vmdk,
    /// The description of an image of VMware, whose blocks are in other files.
    VmdkDescriptor,
    /// An image of VirtualBox.
    Vdi,
}

/// The number at byte 64 of an image of VirtualBox.
const VDI_SIGNATURE: u32 = 0xbeda_107f;

impl ForeignFormat {
    /// Reads the first block of a file. Returns `None` if it begins like none of the formats.
    pub fn read(block: &[u8; 512]) -> Option<ForeignFormat>
        ensures format { result ≡ foreign_format block.now }
    {
        if is_same(&block[..2], b"\x1f\x8b") {
            Some(ForeignFormat::Gzip)
        } else if is_same(&block[..4], b"QFI\xfb") {
            Some(ForeignFormat::Qcow2)
        } else {
            desktop_format(block)
        }
    }

    /// Returns the name of the format's beginning.
    pub fn kind(&self) -> &'static str
        ensures name { result.now ≡ format_kind self.now }
    {
        match self {
            ForeignFormat::Gzip => "header of a gzip file",
            ForeignFormat::Qcow2 => "header of a qcow2 image",
            ForeignFormat::Vmdk => "header of a VMDK image",
            ForeignFormat::VmdkDescriptor => "descriptor of a VMDK image",
            ForeignFormat::Vdi => "header of a VDI image",
        }
    }
}

// Reads the first block of an image of VMware or VirtualBox.
fn desktop_format(block: &[u8; 512]) -> Option<ForeignFormat>
    ensures format { result ≡ desktop_format block.now }
{
    if is_same(&block[..4], b"KDMV") {
        Some(ForeignFormat::Vmdk)
    } else if is_same(&block[..21], b"# Disk DescriptorFile") {
        Some(ForeignFormat::VmdkDescriptor)
    } else if is_vdi(block) {
        Some(ForeignFormat::Vdi)
    } else {
        None
    }
}

// Returns whether a block is the header of an image of VirtualBox.
fn is_vdi(block: &[u8; 512]) -> bool
    ensures vdi { result ≡ is_vdi block.now }
{
    is_same(&block[..4], b"<<< ") && long_at_offset(block, 64) == VDI_SIGNATURE
}

impl fmt::Display for ForeignFormat {
    fn fmt<W: fmt::Write>(&self, f: &mut fmt::Formatter<W>) -> fmt::Result {
        f.write_str(self.kind())
    }
}
