//! Profiles: which behaviour of a host a port accepts.
//!
//! UDA50 Programmer's Documentation Kit: initialization, message envelopes.

use uda_packet::Identity;

/// Which deviations and options of a host the port accepts.
#[derive(Clone, Copy, Debug, PartialEq, Eq)]
pub enum Profile {
    /// For tests of drivers. Every text has 48 bytes, initialization accepts only rings at addresses of 18
    /// bits, and there are no interrupts.
    Strict,
    /// For existing bootstraps and operating systems, unchanged. A command has as many bytes as its length
    /// word says, and an end message as many as its kind has. Initialization accepts purge interrupts and the
    /// purge and poll test. A ring base has as many bits as the bus, and there are interrupts. The identity
    /// is what the host sees of the controller.
    Compatible(Identity),
}
