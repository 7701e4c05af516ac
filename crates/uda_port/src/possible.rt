//! The states that a port can have: what its phase and its profile say about the rest.
//!
//! UDA50 Programmer's Documentation Kit: initialization, interrupts, communication area.
ghost use Rattle.std.specs.Prelude.{◌≡◌};
ghost use Rattle.uda_port.specs.Possible.{has_rings, is_first_word, is_guest_cause, has_phase};
ghost use Rattle.uda_port.specs.Possible.{is_silent, is_vector, are_asked_by, settings_fit, is_past_steps, may_request};
ghost use Rattle.uda_port.specs.Possible.{can_interrupt, is_unset, addresses_by, is_base_by, is_next_to, are_unused, are_set};
ghost use Rattle.uda_port.specs.Possible.{rings_fit, none_due, is_guest_running, guest_fits, is_basic_body, are_basic};
ghost use Rattle.uda_port.specs.Possible.{queue_fits, is_first_position, is_strict_phase, is_guest_phase};
ghost use Rattle.uda_port.specs.Startup.{has_bit};

use crate::guest::Guest;
use crate::interrupt::Interrupts;
use crate::phase::{Fatal, Phase};
use crate::profile::Profile;
use crate::ring::Ring;
use crate::startup::has_bit;
use uda_exec::Position;
use uda_packet::{Bus, Reply, ReplyBody};

/// Returns whether a port can be in this phase.
pub(crate) fn has_phase(profile: Profile, phase: Phase) -> bool
    ensures { result ≡ has_phase profile phase }
{
    match profile {
        Profile::Strict => is_strict_phase(phase),
        Profile::Compatible(_) => is_guest_phase(phase),
    }
}

// Returns whether a strict port can be in this phase.
fn is_strict_phase(phase: Phase) -> bool
    ensures { result ≡ is_strict_phase phase }
{
    match phase {
        Phase::Step2 { first } => is_first_word(first),
        Phase::Step3 { first, second } => is_first_word(first) && !has_bit(second, 0),
        Phase::Wrap { .. } | Phase::PurgeTest | Phase::PollTest => false,
        Phase::Step1 | Phase::Step4 | Phase::Running | Phase::Dead { .. } => true,
    }
}

// Returns whether a compatible port can be in this phase.
fn is_guest_phase(phase: Phase) -> bool
    ensures { result ≡ is_guest_phase phase }
{
    match phase {
        Phase::Step2 { first } | Phase::Step3 { first, .. } => is_first_word(first),
        Phase::Dead { cause } => is_guest_cause(cause),
        Phase::Step1
        | Phase::Wrap { .. }
        | Phase::PurgeTest
        | Phase::PollTest
        | Phase::Step4
        | Phase::Running => true,
    }
}

// Returns whether step 1 accepts the word.
fn is_first_word(word: u16) -> bool
    ensures { result ≡ is_first_word word }
{
    has_bit(word, 15) && !has_bit(word, 14)
}

// Returns whether a compatible port can fail with this error.
fn is_guest_cause(cause: Fatal) -> bool
    ensures { result ≡ is_guest_cause cause }
{
    !matches!(cause, Fatal::CreditsExceeded | Fatal::InitializationError)
}

// Returns whether the third word has set the rings.
fn has_rings(phase: Phase) -> bool
    ensures { result ≡ has_rings phase }
{
    match phase {
        Phase::PurgeTest | Phase::PollTest | Phase::Step4 => true,
        _ => phase.has_run(),
    }
}

/// Returns whether a port in this phase can have these interrupts.
pub(crate) fn can_interrupt(profile: Profile, phase: Phase, interrupts: Interrupts) -> bool
    ensures { result ≡ can_interrupt profile phase interrupts }
{
    match profile {
        Profile::Strict => is_silent(interrupts),
        Profile::Compatible(_) => {
            settings_fit(phase, interrupts)
                && (!interrupts.requested || may_request(phase, interrupts))
        }
    }
}

// Returns whether there is neither a vector nor a request.
fn is_silent(interrupts: Interrupts) -> bool
    ensures { result ≡ is_silent interrupts }
{
    !interrupts.enabled && (interrupts.vector == 0 && !interrupts.requested)
}

// Returns whether a compatible port in this phase can have these settings.
fn settings_fit(phase: Phase, interrupts: Interrupts) -> bool
    ensures { result ≡ settings_fit phase interrupts }
{
    match phase {
        Phase::Step1 | Phase::Wrap { .. } => is_silent(interrupts),
        Phase::Step2 { first } | Phase::Step3 { first, .. } => are_asked_by(first, interrupts),
        _ => is_vector(interrupts.vector),
    }
}

// Returns whether the first word asks for these settings.
fn are_asked_by(first: u16, interrupts: Interrupts) -> bool
    ensures { result ≡ are_asked_by first interrupts }
{
    interrupts.enabled == has_bit(first, 7) && interrupts.vector == 4 * (first & 0x007f)
}

// Returns whether the first word can ask for this vector.
fn is_vector(vector: u16) -> bool
    ensures { result ≡ is_vector vector }
{
    vector % 4 == 0 && vector <= 0x01fc
}

// Returns whether a request can be pending in this phase.
fn may_request(phase: Phase, interrupts: Interrupts) -> bool
    ensures { result ≡ may_request phase interrupts }
{
    interrupts.has_vector() && (interrupts.enabled || is_past_steps(phase))
}

// Returns whether a ring transition or a fatal error can have raised a request.
fn is_past_steps(phase: Phase) -> bool
    ensures { result ≡ is_past_steps phase }
{
    matches!(phase, Phase::Running | Phase::Dead { .. })
}

/// Returns whether a port in this phase can have these rings.
pub(crate) fn rings_fit(profile: Profile, phase: Phase, responses: Ring, commands: Ring) -> bool
    ensures { result ≡ rings_fit profile phase responses commands }
{
    if has_rings(phase) {
        are_set(profile, phase, responses, commands)
    } else {
        is_unset(responses) && is_unset(commands)
    }
}

// Returns whether a port in this phase, whose rings are set, can have these rings.
fn are_set(profile: Profile, phase: Phase, responses: Ring, commands: Ring) -> bool
    ensures { result ≡ are_set profile phase responses commands }
{
    is_base_by(profile, responses.base())
        && (is_next_to(responses, commands) && (phase.has_run() || are_unused(responses, commands)))
}

// Returns whether initialization hasn't set the ring.
fn is_unset(ring: Ring) -> bool
    ensures { result ≡ is_unset ring }
{
    ring.base() == 0 && (ring.count() == 1 && ring.place() == 0)
}

// Returns whether a response ring of the profile can begin at this address.
fn is_base_by(profile: Profile, base: u32) -> bool
    ensures { result ≡ is_base_by profile base }
{
    4 <= base && base < addresses_by(profile)
}

// Returns the number of addresses of the profile's bus.
fn addresses_by(profile: Profile) -> u32
    ensures { result ≡ addresses_by profile }
{
    match profile {
        Profile::Strict => 1 << 18,
        Profile::Compatible(identity) => match identity.bus {
            Bus::Unibus => 1 << 18,
            Bus::Qbus => 1 << 22,
        },
    }
}

// Returns whether the command ring follows the response ring.
fn is_next_to(responses: Ring, commands: Ring) -> bool
    ensures { result ≡ is_next_to responses commands }
{
    u64::from(commands.base()) == u64::from(responses.base()) + 4 * u64::from(responses.count())
}

// Returns whether no descriptor of the rings was used.
fn are_unused(responses: Ring, commands: Ring) -> bool
    ensures { result ≡ are_unused responses commands }
{
    responses.place() == 0 && commands.place() == 0
}

/// Returns whether a port in this phase can have these controller flags and due attention messages.
pub(crate) fn guest_fits(profile: Profile, phase: Phase, guest: &Guest) -> bool
    ensures { result ≡ guest_fits profile phase guest.now }
{
    is_guest_running(profile, phase) || (guest.flags == 0 && none_due(&guest.attentions))
}

// Returns whether a compatible port runs, or ran until a turn met a fatal error.
fn is_guest_running(profile: Profile, phase: Phase) -> bool
    ensures { result ≡ is_guest_running profile phase }
{
    match profile {
        Profile::Strict => false,
        Profile::Compatible(_) => phase.has_run(),
    }
}

// Returns whether no attention message is due.
fn none_due(attentions: &[bool; 4]) -> bool
    ensures { result ≡ none_due attentions.now }
{
    let [a, b, c, d] = *attentions;
    !a && (!b && (!c && !d))
}

/// Returns whether a port can have queued these end messages.
pub(crate) fn queue_fits(profile: Profile, replies: &[Reply]) -> bool
    ensures { result ≡ queue_fits profile replies.now }
{
    match profile {
        Profile::Strict => are_basic(replies),
        Profile::Compatible(_) => true,
    }
}

// Returns whether all of these end messages are of the strict profile.
fn are_basic(replies: &[Reply]) -> bool
    ensures { result ≡ are_basic replies.now }
{
    for reply in replies {
        if !is_basic_body(&reply.body) {
            return false;
        }
    }
    true
}

// Returns whether an end message with this body is one of the strict profile.
fn is_basic_body(body: &ReplyBody) -> bool
    ensures { result ≡ is_basic_body body.now }
{
    matches!(body, ReplyBody::Basic(_))
}

/// Returns whether no transfer was executed yet.
pub(crate) fn is_first_position(position: Position) -> bool
    ensures { result ≡ is_first_position position }
{
    position.unit == 0 && position.lbn == 0
}
