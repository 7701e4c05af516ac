//! The outstanding requests, indexed by the numbers of their buffers.
ghost use Rattle.std.specs.Prelude.{◌≡◌, ◌+◌, ◌<◌, Some, None, length, replicate, position, is_none};
ghost use Rattle.std.specs.Prelude.{slice_get, slice_set};
ghost use Rattle.uda_exec.specs.Disks.{PENDING_LIMIT};
ghost use Rattle.uda_disk.specs.Request.{Request as Asked};
ghost use Rattle.uda_driver.specs.Span.{span_of};
ghost use Rattle.uda_driver.specs.Outstanding.{refers, span_clashes, clashes_with_any};
ghost use Rattle.uda_driver.specs.DriverStep.{IsReferred};

use crate::outstanding::Outstanding;
use crate::span::Span;
use uda_exec::PENDING;

/// Returns the table with no outstanding request.
pub(crate) fn none_out<'a>() -> [Option<Outstanding<'a>>; PENDING]
    ensures { result ≡ replicate PENDING_LIMIT None }
{
    [
        None, None, None, None, None, None, None, None, None, None, None, None, None, None, None,
    ]
}

/// Adds an outstanding request with this buffer.
pub(crate) fn put_out<'a>(
    out: &mut [Option<Outstanding<'a>>; PENDING],
    number: usize,
    one: Outstanding<'a>,
)
    requires { number < PENDING_LIMIT }
    ensures { out.new ≡ slice_set out.old number (Some one.entry) }
{
    out[number] = Some(one);
}

/// Removes the outstanding request of this reference, and returns it with the number of its buffer.
pub(crate) fn take_out<'a>(
    out: &mut [Option<Outstanding<'a>>; PENDING],
    reference: u32,
) -> (usize, Outstanding<'a>)
    requires sized { length out.old ≡ PENDING_LIMIT }
    requires referred { IsReferred reference out.old }
    ensures within { result.0 < PENDING_LIMIT }
    ensures stands { slice_get out.old result.0 ≡ Some (Some result.1) }
    ensures refers { result.1.place + 1 ≡ reference }
    ensures left { out.new ≡ slice_set out.old result.0 None }
{
    let Some(number) = buffer_number(out, reference) else {
        unreachable!()
    };
    let Some(one) = out[number].take() else {
        unreachable!()
    };
    (number, one)
}

/// Returns the number of the first free buffer.
pub(crate) fn free_buffer(out: &[Option<Outstanding<'_>>; PENDING]) -> Option<usize>
    ensures { result ≡ position (λ slot. is_none slot) out.now }
{
    out.iter().position(|slot| slot.is_none())
}

// Returns the number of the buffer of the command with this reference.
fn buffer_number(out: &[Option<Outstanding<'_>>; PENDING], reference: u32) -> Option<usize>
    ensures { result ≡ position (refers reference) out.now }
{
    out.iter().position(|slot| is_referred(slot, reference))
}

// Returns whether this reference is that of the command with this buffer.
fn is_referred(slot: &Option<Outstanding<'_>>, reference: u32) -> bool
    ensures { result ≡ refers reference slot.now }
{
    match slot {
        Some(one) => u64::from(one.place) + 1 == u64::from(reference),
        None => false,
    }
}

/// Returns whether a request of these blocks conflicts with an outstanding one.
pub(crate) fn clashes_with_any(span: Span, out: &[Option<Outstanding<'_>>; PENDING]) -> bool
    ensures { (r : Asked) → span ≡ span_of r → result ≡ clashes_with_any r out.now }
{
    out.iter().any(|slot| clashes_with(span, slot))
}

// Returns whether a request of these blocks conflicts with the one that uses this buffer.
fn clashes_with(span: Span, slot: &Option<Outstanding<'_>>) -> bool
    ensures { result ≡ span_clashes span slot.now }
{
    match slot {
        Some(one) => span.clashes(one.span),
        None => false,
    }
}
