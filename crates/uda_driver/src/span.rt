//! The blocks that a request uses.
ghost use Rattle.std.specs.Prelude.{◌≡◌};
ghost use Rattle.uda_disk.specs.Values.{request_value};
ghost use Rattle.uda_driver.specs.Span.{span_of, spans_clash};

use uda_disk::Request;

/// The unit of a request, the blocks that it uses of it, and whether it writes them. A request that moves none
/// uses no block. Two spans are compared without a look at their requests.
#[derive(Clone, Copy)]
pub(crate) struct Span {
    /// The unit's number.
    pub(crate) unit: u16,
    /// Whether the blocks are written.
    pub(crate) writes: bool,
    /// The first block.
    pub(crate) first: u64,
    /// The block after the last, or 0 if there is none.
    pub(crate) end: u64,
}

impl Span {
    /// Returns the span of a request.
    pub(crate) fn of(request: &Request) -> Span
        ensures span { result ≡ span_of (request_value request.now) }
    {
        let unit = request.unit();
        match request.extent() {
            Some(extent) => Span {
                unit,
                writes: extent.writes,
                first: u64::from(extent.lbn),
                end: u64::from(extent.lbn) + extent.blocks(),
            },
            None => Span {
                unit,
                writes: false,
                first: 0,
                end: 0,
            },
        }
    }

    /// Returns whether two spans share a block that one of them writes.
    pub(crate) fn clashes(self, other: Span) -> bool
        ensures clash { result ≡ spans_clash self other }
    {
        self.unit == other.unit
            && (self.writes || other.writes)
            && self.first.max(other.first) < self.end.min(other.end)
    }
}
