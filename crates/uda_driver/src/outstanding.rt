//! One outstanding request.
ghost use Rattle.std.specs.Prelude.{◌≡◌};
ghost use Rattle.uda_disk.specs.Values.{request_value};
ghost use Rattle.uda_driver.specs.Span.{span_of};

use crate::span::Span;
use uda_disk::{Answer, Request};

/// An outstanding request, and the answer that its end message will fill.
#[derive(Drop)]
pub(crate) struct Outstanding<'a> {
    /// The index in the list of requests, from 0.
    pub(crate) place: u32,
    /// The request.
    pub(crate) request: &'a Request,
    /// Its prepared answer, with capacity for the bytes of a Read.
    pub(crate) answer: Answer,
    /// The blocks that the request uses.
    pub(crate) span: Span,
    ghost spans: { span ≡ span_of (request_value request.now) },
}
