//! Boot blocks: the bootstrap that block 0 may contain.
ghost use Rattle.std.specs.Prelude.{◌≡◌, ◌/◌, ◌==◌, true, false};
ghost use Rattle.uda50_show.specs.Boot.{is_vax_boot, area_sum};

use crate::checksum::{Checksum, word_at_offset};
use std::fmt;

/// The kind of bootstrap in a block.
#[derive(Clone, Copy, Debug, PartialEq, Eq)]
pub enum BootBlock {
    /// A bootstrap for a PDP-11: NOP and a branch.
    Pdp11,
    /// Perhaps a bootstrap for a PDP-11: it begins with a NOP or a branch, as other data can too.
    PerhapsPdp11,
    /// A bootstrap for a VAX, and whether the checksum of its identification area is right.
    Vax(Checksum),
}

/// PDP-11 Processor Handbook: NOP.
const NOP: u16 = 0o240;

/// The number of the VAX's instruction set in an identification area.
const VAX: u8 = 0x18;

impl BootBlock {
    ghost use Rattle.std.specs.Prelude.{Some};
    ghost use Rattle.uda50_show.specs.Boot.{vax_boot, pdp11_boot};

    /// Returns the kind of bootstrap in block 0, or `None` if the block doesn't begin like one.
    pub fn read(block: &[u8; 512]) -> Option<BootBlock>
        ensures vax { is_vax_boot block.now ≡ true → result ≡ Some (vax_boot block.now) }
        ensures pdp11 { is_vax_boot block.now ≡ false → result ≡ pdp11_boot block.now }
    {
        if is_vax_boot(block) {
            return Some(BootBlock::Vax(Checksum::of(area_sum(block) == 0xff)));
        }
        let nop = word_at_offset(block, 0) == NOP;
        if nop && is_branch(word_at_offset(block, 2)) {
            Some(BootBlock::Pdp11)
        } else if nop || is_branch(word_at_offset(block, 0)) {
            Some(BootBlock::PerhapsPdp11)
        } else {
            None
        }
    }
}

// Returns whether a word is the PDP-11's instruction BR.
fn is_branch(word: u16) -> bool
    ensures { result ≡ (word / 256 == 1) }
{
    word / 256 == 1
}

// Returns whether a block is marked as a bootstrap for a VAX. Byte 2 is the offset in words of its
// identification area.
fn is_vax_boot(block: &[u8; 512]) -> bool
    ensures { result ≡ is_vax_boot block.now }
{
    let area = 2 * usize::from(block[2]);
    block[3] == 1 && area + 4 <= 512 && block[area] == VAX
}

// Returns the sum, modulo 256, of the first four bytes of the identification area of such a block.
fn area_sum(block: &[u8; 512]) -> u16
    requires { is_vax_boot block.now ≡ true }
    ensures { result ≡ area_sum block.now }
{
    let area = 2 * usize::from(block[2]);
    let [first, second, third, fourth] = [
        block[area],
        block[area + 1],
        block[area + 2],
        block[area + 3],
    ];
    (u16::from(first) + u16::from(second) + u16::from(third) + u16::from(fourth)) % 256
}

impl BootBlock {
    ghost use Rattle.uda50_show.specs.Boot.{boot_kind};

    /// Returns the name of the kind.
    pub fn kind(&self) -> &'static str
        ensures name { result.now ≡ boot_kind self.now }
    {
        match self {
            BootBlock::Pdp11 => "PDP-11 boot block",
            BootBlock::PerhapsPdp11 => "perhaps a PDP-11 boot block",
            BootBlock::Vax(_) => "VAX boot block",
        }
    }
}

/// Writes a text such as `VAX boot block, checksum right`.
impl fmt::Display for BootBlock {
    fn fmt<W: fmt::Write>(&self, f: &mut fmt::Formatter<W>) -> fmt::Result {
        f.write_str(self.kind())?;
        match self {
            BootBlock::Pdp11 | BootBlock::PerhapsPdp11 => Ok(()),
            BootBlock::Vax(checksum) => write!(f, "{checksum}"),
        }
    }
}
