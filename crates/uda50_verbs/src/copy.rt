//! `uda50 copy`: copies an image to another one, a stream to an image, or an image to standard output.
ghost use Rattle.std.specs.Prelude.{◌≡◌, ◌<◌, ◌≤◌, None, Ok, IfSome, IsErr};

use crate::fault::{Fault, Suffix};
use crate::file_fault::{FileFault, FileRole};
use crate::image_copy::copy_image;
use crate::names::{CopyName, end_of_links, is_link};
use crate::outcome::Outcome;
use crate::reason::{ImageReason, Reason, TargetReason};
use crate::stream::{copy_from_stream, copy_to_output, is_stream};
use std::fs;
use std::io::{BufWriter, Write};
use std::ops::Range;
use uda50_arguments::{Copy, ImageName};

/// Copies blocks of an image to the same block numbers of another image. With `--verify`, it then compares
/// them. One of both may be a stream.
pub(crate) fn copy<'w, W: Write + Drop>(
    rt: &HostRuntime,
    copy: &Copy<'w>,
    out: &mut BufWriter<W>,
) -> Result<Outcome, Fault<'w>> {
    let reads_stream = is_stream(rt, copy.from);
    match (reads_stream, copy.to.is_stream()) {
        (true, true) => Err(Fault::new(copy.from.path, Reason::NoImage)),
        (false, true) => copy_to_output(rt, copy, out),
        _ => copy_to_file(rt, copy, reads_stream),
    }
}

// Copies an image or a stream to a file.
fn copy_to_file<'w>(
    rt: &HostRuntime,
    copy: &Copy<'w>,
    reads_stream: bool,
) -> Result<Outcome, Fault<'w>> {
    if copy.to.path.is_empty() {
        return Err(Fault::new("TO", Reason::Target(TargetReason::EmptyName)));
    }
    if copy.map == Some("") {
        return Err(Fault::new("--map", Reason::Target(TargetReason::EmptyName)));
    }
    match copy_to_end(rt, copy, reads_stream) {
        Ok(outcome) => Ok(outcome),
        Err(fault) => Err(fault.named(copy)),
    }
}

// Copies an image or a stream to a file. A link in the place of the file or of a named map stays one.
fn copy_to_end(
    rt: &HostRuntime,
    copy: &Copy<'_>,
    reads_stream: bool,
) -> Result<Outcome, FileFault> {
    let path = end_of_target(rt, copy)?;
    let map = match copy.map {
        Some(map) => Some(end_of_links(rt, FileRole::Map, map)?),
        None => None,
    };
    let to = ImageName {
        path: path.as_str(),
        ..copy.to
    };
    let map = match &map {
        Some(map) => Some(map.as_str()),
        None => None,
    };
    Ok(copy_or_report(rt, &Copy { to, map, ..*copy }, reads_stream))
}

// Copies an image or a stream to a file, and prints the fault if that fails.
fn copy_or_report(rt: &HostRuntime, copy: &Copy<'_>, reads_stream: bool) -> Outcome {
    let copied = match reads_stream {
        true => copy_from_stream(rt, copy),
        false => copy_image(rt, copy),
    };
    match copied {
        Ok(outcome) => outcome,
        Err(fault) => {
            fault.named(copy).print(rt);
            Outcome::FaultReported
        }
    }
}

// Returns the path of the target: if it is a link, of the file to which that leads. A new file is made through no link.
// A device keeps the name that `--device` repeats.
fn end_of_target(rt: &HostRuntime, copy: &Copy<'_>) -> Result<String, FileFault> {
    let path = copy.to.path;
    if copy.device.is_some() || !is_link(rt, path) {
        return Ok(String::from_str(rt.alloc(), path)?);
    }
    let end = end_of_links(rt, FileRole::Target, path)?;
    check_end(rt, copy, end.as_str())?;
    Ok(end)
}

// Fails if a copy may not write the file to which the link of its target leads.
fn check_end(rt: &HostRuntime, copy: &Copy<'_>, end: &str) -> Result<(), FileFault> {
    if fs::metadata(rt, copy.to.path).is_ok() {
        return match copy.force || copy.resumes {
            true => Ok(()),
            false => Err(FileRole::Target.fault(Reason::Exists)),
        };
    }
    let part = CopyName::derived(end, Suffix::Part).path(rt.alloc())?;
    match copy.resumes && fs::metadata(rt, part.as_str()).is_ok() {
        true => Ok(()),
        false => Err(FileRole::Target.fault(Reason::Target(TargetReason::LinkToNowhere))),
    }
}

/// Returns the blocks to copy, after a check that the source has all of them.
pub(crate) fn blocks_to_copy(copy: &Copy<'_>, size: u32) -> Result<Range<u32>, FileFault>
    ensures all { copy.now.blocks ≡ None → result ≡ Ok (record { start = 0; end = size }) }
    ensures asked { IfSome copy.now.blocks (λ range. range.end ≤ size
        → result ≡ Ok (record { start = range.start; end = range.end })) }
    ensures past_the_end { IfSome copy.now.blocks (λ range. size < range.end → IsErr result) }
{
    match copy.blocks {
        None => Ok(0..size),
        Some(range) if range.end <= size => Ok(range.start..range.end),
        Some(range) => Err(FileRole::Source.fault(Reason::Image(ImageReason::PastEnd {
            range,
            blocks: size,
        }))),
    }
}
