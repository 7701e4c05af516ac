//! The drive types of which an image can be.
ghost use Rattle.std.specs.Prelude.{◌≡◌, [], ◌∷◌, find};
ghost use Rattle.std.proofs.Common.{reverse};
ghost use Rattle.std.specs.List.Sorted.{IsNonDecreasingBy};
ghost use Rattle.uda50_show.specs.DriveTypes.{is_larger, is_smaller};

use crate::number::Counted;
use std::fmt;
use uda_packet::{DriveType, UNREPORTED_TYPES, UnreportedType};

/// A drive type, with the size of its units.
#[derive(Clone, Copy, Debug)]
pub struct DriveTypeEntry {
    /// The name, such as `RA81`.
    pub name: &'static str,
    /// The number of logical blocks that a host sees.
    pub blocks: u32,
    /// Whether a unit can report it.
    pub is_reported: bool,
}

/// How many drive types there are.
pub const DRIVE_TYPE_COUNT: usize = DriveType::ALL.len() + UNREPORTED_TYPES.len();

impl DriveTypeEntry {
    /// Returns every drive type, the smallest first.
    pub fn all() -> [DriveTypeEntry; DRIVE_TYPE_COUNT]
        ensures smallest_first { IsNonDecreasingBy (λ drive. drive.blocks) result }
    {
        let reported = DriveType::ALL.iter().map(|kind| DriveTypeEntry::of(*kind));
        let others = UNREPORTED_TYPES
            .iter()
            .map(|kind| DriveTypeEntry::of_unreported(*kind));
        let mut all = [DriveTypeEntry::of(DriveType::Ra81); DRIVE_TYPE_COUNT];
        for (place, drive) in all.iter_mut().zip(reported.chain(others)) {
            *place = drive;
        }
        all.sort_unstable_by_key(|drive| drive.blocks);
        all
    }

    /// Returns the drive type of this name. Upper and lower case are equal.
    pub fn named(name: &str) -> Option<DriveTypeEntry> {
        DriveTypeEntry::all()
            .into_iter()
            .find(|drive| drive.name.eq_ignore_ascii_case(name))
    }

    /// Returns the names of all drive types.
    pub fn names() -> [&'static str; DRIVE_TYPE_COUNT] {
        DriveTypeEntry::all().map(|drive| drive.name)
    }

    // Returns a drive type that a unit can report.
    fn of(kind: DriveType) -> DriveTypeEntry {
        DriveTypeEntry {
            name: kind.name(),
            blocks: kind.traits().blocks,
            is_reported: true,
        }
    }

    // Returns a drive type that no unit reports.
    fn of_unreported(kind: UnreportedType) -> DriveTypeEntry {
        DriveTypeEntry {
            name: kind.name,
            blocks: kind.blocks,
            is_reported: false,
        }
    }
}

impl DriveTypeEntry {
    /// Returns the first of some drive types that is larger than a size.
    pub fn next_larger(types: &[DriveTypeEntry], blocks: u32) -> Option<DriveTypeEntry>
        ensures first { result ≡ find (is_larger blocks) types.now }
    {
        let mut first: Option<DriveTypeEntry> = None;
        for drive in types {
            first = first.or(drive.if_larger(blocks));
        }
        first
    }

    /// Returns the last of some drive types that is smaller than a size.
    pub fn next_smaller(types: &[DriveTypeEntry], blocks: u32) -> Option<DriveTypeEntry>
        ensures last { result ≡ find (is_smaller blocks) (reverse types.now) }
    {
        let mut last: Option<DriveTypeEntry> = None;
        for drive in types {
            last = drive.if_smaller(blocks).or(last);
        }
        last
    }

    // Returns the drive type if it is larger than a size.
    fn if_larger(&self, blocks: u32) -> Option<DriveTypeEntry>
        ensures { result ≡ find (is_larger blocks) (self.now ∷ []) }
    {
        (self.blocks > blocks).then_some(*self)
    }

    // Returns the drive type if it is smaller than a size.
    fn if_smaller(&self, blocks: u32) -> Option<DriveTypeEntry>
        ensures { result ≡ find (is_smaller blocks) (self.now ∷ []) }
    {
        (self.blocks < blocks).then_some(*self)
    }
}

/// The names of the drive types of a size, such as `RD53, RA60`. If there are none, the text is
/// `none; nearest RX33 (1,400 blocks more), RX50 (200 blocks fewer)`.
#[derive(Clone, Copy, Debug, PartialEq, Eq)]
pub struct TypesOfSize(pub u32);

impl fmt::Display for TypesOfSize {
    fn fmt<W: fmt::Write>(&self, f: &mut fmt::Formatter<W>) -> fmt::Result {
        let mut found = false;
        for drive in DriveTypeEntry::all() {
            if drive.blocks == self.0 {
                f.write_str(if found { ", " } else { "" })?;
                f.write_str(drive.name)?;
                found = true;
            }
        }
        if found {
            Ok(())
        } else {
            write_nearest(f, self.0)
        }
    }
}

// Writes that no drive type has a size, and which are the nearest.
fn write_nearest<W: fmt::Write>(f: &mut fmt::Formatter<W>, blocks: u32) -> fmt::Result {
    f.write_str("none; nearest ")?;
    let types = DriveTypeEntry::all();
    let larger = DriveTypeEntry::next_larger(&types, blocks);
    let smaller = DriveTypeEntry::next_smaller(&types, blocks);
    if let Some(drive) = larger {
        let more = Counted::blocks(drive.blocks.saturating_sub(blocks));
        write!(f, "{} ({more} more)", drive.name)?;
    }
    if larger.is_some() && smaller.is_some() {
        f.write_str(", ")?;
    }
    if let Some(drive) = smaller {
        let fewer = Counted::blocks(blocks.saturating_sub(drive.blocks));
        write!(f, "{} ({fewer} fewer)", drive.name)?;
    }
    Ok(())
}
