//! `uda50 info`: describes images.

use crate::container::{explain_length, last_record};
use crate::fault::Fault;
use crate::image::{NamedImage, is_writable};
use crate::outcome::Outcome;
use crate::reason::Reason;
use std::fmt::Display;
use std::io;
use std::io::Write;
use uda50_arguments::ImageName;
use uda50_show::{
    ContainerRecord, Contents, Counted, EscapedName, ImageFacts, StructureBlocks, TypesOfSize,
    error_json, image_json,
};

/// Describes each image. If one has a fault, it prints the fault's line and continues with the others.
pub(crate) fn info<'w, W: Write>(
    rt: &HostRuntime,
    images: &[ImageName<'w>],
    json: bool,
    out: &mut W,
) -> Result<Outcome, Fault<'w>> {
    let mut outcome = Outcome::Done;
    for image in images {
        if describe_or_report(rt, *image, json, out)? == Outcome::FaultReported {
            outcome = Outcome::FaultReported;
        }
    }
    Ok(outcome)
}

// Writes the lines or the object of an image, or prints its fault's line.
fn describe_or_report<'w, W: Write>(
    rt: &HostRuntime,
    image: ImageName<'w>,
    json: bool,
    out: &mut W,
) -> Result<Outcome, Fault<'w>> {
    match read_facts(rt, image) {
        Ok(facts) => write_facts(rt, &facts, json, out),
        Err(fault) => report(rt, &fault, json, out),
    }
}

// Writes the facts of an image.
fn write_facts<'w, W: Write>(
    rt: &HostRuntime,
    facts: &ImageFacts<'_>,
    json: bool,
    out: &mut W,
) -> Result<Outcome, Fault<'w>> {
    if json {
        write_object(image_json(rt.alloc(), facts), out)?;
    } else {
        write_lines(facts, out)?;
    }
    Ok(Outcome::Done)
}

// Prints a fault's line after what is written already.
fn report<'w, W: Write>(
    rt: &HostRuntime,
    fault: &Fault<'_>,
    json: bool,
    out: &mut W,
) -> Result<Outcome, Fault<'w>> {
    if json {
        write_error(rt, fault, out)?;
    }
    out.flush()?;
    fault.print(rt);
    Ok(Outcome::FaultReported)
}

// Writes the object of an image that can't be described.
fn write_error<'w, W: Write>(
    rt: &HostRuntime,
    fault: &Fault<'_>,
    out: &mut W,
) -> Result<(), Fault<'w>> {
    let reason = format!(in rt.alloc(); "{}", fault.reason)?;
    write_object(error_json(rt.alloc(), fault.name, reason.as_str()), out)
}

// Writes a line with an object.
fn write_object<'w, W: Write>(
    object: Result<String, serde_json::Error>,
    out: &mut W,
) -> Result<(), Fault<'w>> {
    let Ok(object) = object else {
        return Err(Fault::new("uda50", Reason::NoMemory));
    };
    writeln!(out, "{object}")?;
    Ok(())
}

// Reads the facts of an image.
fn read_facts<'w>(rt: &HostRuntime, name: ImageName<'w>) -> Result<ImageFacts<'w>, Fault<'w>> {
    let mut image = match NamedImage::open(rt, name) {
        Ok(image) => image,
        Err(fault) => {
            let reason = explain_length(rt, fault.name, fault.reason);
            return Err(Fault::new(fault.name, reason));
        }
    };
    let structures = read_structures(&mut image)?;
    Ok(ImageFacts {
        path: name.path,
        blocks: image.size(),
        record: last_record(&mut image),
        writable: is_writable(rt, name),
        protected: name.protected,
        contents: Contents::read(&structures),
    })
}

// Reads the blocks that can hold a structure.
fn read_structures<'w>(image: &mut NamedImage<'w>) -> Result<StructureBlocks, Fault<'w>> {
    Ok(StructureBlocks {
        zero: image.block_or_zeros(0)?,
        one: image.block_or_zeros(1)?,
        thirty_one: image.block_or_zeros(31)?,
    })
}

// Writes the lines of an image.
fn write_lines<W: Write>(facts: &ImageFacts<'_>, out: &mut W) -> io::Result<()> {
    write_size(out, facts.path, facts.blocks)?;
    write_types(out, facts)?;
    write_writable(out, writable(facts))?;
    write_contents(out, &facts.contents)
}

// Returns the text that says whether an image can be written.
fn writable(facts: &ImageFacts<'_>) -> &'static str {
    match (facts.protected, facts.writable) {
        (true, _) => "no (lock:)",
        (false, true) => "yes",
        (false, false) => "no",
    }
}

// Writes the line that says whether an image can be written.
fn write_writable<W: Write>(out: &mut W, writable: &str) -> io::Result<()> {
    writeln!(out, "  writable: {writable}")
}

// Writes the line of an image's size.
fn write_size<W: Write>(out: &mut W, path: &str, blocks: u32) -> io::Result<()> {
    let bytes = Counted::bytes(512 * u64::from(blocks));
    let blocks = Counted::blocks(blocks);
    writeln!(out, "{}: {blocks}, {bytes}", EscapedName(path))
}

// Writes the line of the drive types of an image's size. If its last block is a record, the line of this comes
// first, and the types are those of the size without it.
fn write_types<W: Write>(out: &mut W, facts: &ImageFacts<'_>) -> io::Result<()> {
    let blocks = facts.volume_blocks();
    match &facts.record {
        None => writeln!(out, "  drive types of this size: {}", TypesOfSize(blocks)),
        Some(record) => write_types_without(out, blocks, record),
    }
}

// Writes the line of a record in a block, and that of the drive types of the size before it.
fn write_types_without<W: Write>(
    out: &mut W,
    block: u32,
    record: &ContainerRecord,
) -> io::Result<()> {
    writeln!(out, "  block {block}: {record}")?;
    let types = TypesOfSize(block);
    writeln!(
        out,
        "  drive types of the size without block {block}: {types}"
    )
}

// Writes a line for each structure.
fn write_contents<W: Write>(out: &mut W, contents: &Contents) -> io::Result<()> {
    if contents.is_empty() {
        return write_unknown(out);
    }
    write_found(out, 0, contents.format)?;
    write_found(out, 0, contents.boot)?;
    write_found(out, 0, contents.label_0)?;
    write_found(out, 1, contents.home)?;
    write_found(out, 1, contents.label_1)?;
    write_found(out, 31, contents.label_31)
}

// Writes the line of an image without a known structure.
fn write_unknown<W: Write>(out: &mut W) -> io::Result<()> {
    writeln!(out, "  contents: not recognized")
}

// Writes the line of a structure in a block, if there is one.
fn write_found<W: Write, D: Display + Drop>(
    out: &mut W,
    block: u32,
    found: Option<D>,
) -> io::Result<()> {
    match found {
        Some(found) => writeln!(out, "  block {block}: {found}"),
        None => Ok(()),
    }
}
