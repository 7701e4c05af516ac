//! What holds of a controller of C beyond what holds of its port. C has no call that changes a drive unseen by the
//! guest.
//!
//! MSCP Basic Disk Functions Manual: unit states, unit numbers, attention messages, write protection.
ghost use Rattle.std.specs.Prelude.{◌≡◌, Some};
ghost use Rattle.uda_c.specs.Fits.{numbers_fit, is_as_attached, can_rest, image_fits, unit_fits, units_fit, fits_controller};
ghost use Rattle.uda_port.specs.Port.{read_only_by};

use uda_disk::Mode;
use uda_exec::UnitInfo;
use uda_packet::DriveType;
use uda_port::{Guest, Phase, Profile, Saved};

/// The largest number of a first unit: the fourth unit then has the number 65535.
pub const LAST_FIRST_UNIT: u16 = 65_532;

/// Returns whether the numbers of the four units don't wrap past 65,535.
pub fn numbers_fit(profile: Profile) -> bool
    ensures { result ≡ numbers_fit profile }
{
    match profile {
        Profile::Strict => true,
        Profile::Compatible(identity) => identity.first_unit <= LAST_FIRST_UNIT,
    }
}

/// Returns whether a controller of C can have the state.
pub fn fits_controller(saved: &Saved) -> bool
    ensures { result ≡ fits_controller saved.now }
{
    numbers_fit(saved.profile)
        && units_fit(saved.profile, saved.phase, saved.guest, saved.exec.units)
}

// Returns whether each of the four units fits the profile, the phase and what is reported about it.
fn units_fit(profile: Profile, phase: Phase, guest: Guest, units: [Option<UnitInfo>; 4]) -> bool
    ensures { result ≡ units_fit profile phase guest units }
{
    let [a, b, c, d] = units;
    let [kind_a, kind_b, kind_c, kind_d] = guest.types;
    let [due_a, due_b, due_c, due_d] = guest.attentions;
    if !unit_fits(profile, phase, kind_a, due_a, a) {
        return false;
    }
    if !unit_fits(profile, phase, kind_b, due_b, b) {
        return false;
    }
    if !unit_fits(profile, phase, kind_c, due_c, c) {
        return false;
    }
    unit_fits(profile, phase, kind_d, due_d, d)
}

// Returns whether a unit fits the profile, the phase, its drive type, and whether an attention message is due.
fn unit_fits(
    profile: Profile,
    phase: Phase,
    kind: DriveType,
    due: bool,
    unit: Option<UnitInfo>,
) -> bool
    ensures { result ≡ unit_fits profile phase (record { kind = kind; due = due }) unit }
{
    match unit {
        None => !due,
        Some(info) => image_fits(profile, phase, kind, due, info),
    }
}

// Returns the same of a unit with an image.
#[tactic(auto, unfolding(crate::specs::Fits::image_fits))]
fn image_fits(profile: Profile, phase: Phase, kind: DriveType, due: bool, info: UnitInfo) -> bool
    ensures { result ≡ image_fits profile phase (record { kind = kind; due = due }) info }
{
    (!is_read_only(profile, kind) || info.mode.hard)
        && ((phase.has_run() || is_as_attached(info.mode))
            && (!(info.mode.online && due) && can_rest(profile, info.mode)))
}

// Returns whether a unit of this type is read-only in the profile.
fn is_read_only(profile: Profile, kind: DriveType) -> bool
    ensures { result ≡ read_only_by profile (Some kind) }
{
    match profile {
        Profile::Strict => false,
        Profile::Compatible(_) => kind.traits().is_read_only,
    }
}

// Returns whether an available unit of the profile can have the mode: in the strict profile none is software-protected.
fn can_rest(profile: Profile, mode: Mode) -> bool
    ensures { result ≡ can_rest profile mode }
{
    match profile {
        Profile::Strict => mode.online || !mode.soft,
        Profile::Compatible(_) => true,
    }
}

// Returns whether a unit is available, without software write protection.
fn is_as_attached(mode: Mode) -> bool
    ensures { result ≡ is_as_attached mode }
{
    !mode.online && !mode.soft
}
