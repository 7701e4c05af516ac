//! The numbers of buses in C.
ghost use Rattle.std.specs.Prelude.{◌≡◌};
ghost use Rattle.uda_c.specs.Choices.{bus_of};

use uda_packet::Bus;

/// Returns the bus of a number, or None if there is none.
pub fn bus_of(code: u32) -> Option<Bus>
    ensures { result ≡ bus_of code }
{
    match code {
        0 => Some(Bus::Unibus),
        1 => Some(Bus::Qbus),
        _ => None,
    }
}
