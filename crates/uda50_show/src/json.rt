//! JSON objects of images.

use crate::{
    BootBlock, Checksum, ContainerRecord, DiskLabel, DriveTypeEntry, FixedText, HomeBlock,
    ImageFacts, SimhRecord, is_control,
};
use serde::Serialize;
use serde_json::Error;
use std::alloc::{AllocError, Global};
use std::fmt;

// The object of an image.
#[derive(Drop, Serialize)]
struct ImageObject<'w> {
    path: &'w str,
    blocks: u32,
    bytes: u64,
    drive_types: Vec<&'static str>,
    nearest: Vec<NearestObject>,
    #[serde(skip_serializing_if = "Option::is_none")]
    record: Option<RecordObject>,
    writable: bool,
    protected: bool,
    contents: Vec<StructureObject>,
}

// A drive type of nearly the size. The difference is that of its blocks and the volume's.
#[derive(Drop, Serialize)]
struct NearestObject {
    drive_type: &'static str,
    difference: i64,
}

// The record in the last block.
#[derive(Drop, Serialize)]
struct RecordObject {
    block: u32,
    kind: &'static str,
    #[serde(skip_serializing_if = "Option::is_none")]
    simulator: Option<String>,
    #[serde(skip_serializing_if = "Option::is_none")]
    drive_type: Option<String>,
    #[serde(skip_serializing_if = "Option::is_none")]
    sectors: Option<u32>,
    #[serde(skip_serializing_if = "Option::is_none")]
    sector_size: Option<u32>,
    #[serde(skip_serializing_if = "Option::is_none")]
    checksum: Option<&'static str>,
}

// A structure in a block.
#[derive(Drop, Serialize)]
struct StructureObject {
    block: u32,
    kind: &'static str,
    #[serde(skip_serializing_if = "Option::is_none")]
    volume: Option<String>,
    #[serde(skip_serializing_if = "Option::is_none")]
    owner: Option<String>,
    #[serde(skip_serializing_if = "Option::is_none")]
    checksum: Option<&'static str>,
}

// The object of an image that can't be described.
#[derive(Drop, Serialize)]
struct ErrorObject<'w> {
    path: &'w str,
    error: &'w str,
}

/// Returns the JSON object of an image.
pub fn image_json(alloc: Global, facts: &ImageFacts<'_>) -> Result<String, Error> {
    let object = image_object(alloc, facts)?;
    json_of(alloc, &object)
}

/// Returns the JSON object of an image that can't be described, with the reason.
pub fn error_json(alloc: Global, path: &str, error: &str) -> Result<String, Error> {
    json_of(alloc, &ErrorObject { path, error })
}

// Returns the JSON of a value, with an escape in place of each control character.
fn json_of<T: Serialize>(alloc: Global, object: &T) -> Result<String, Error> {
    let json = serde_json::to_string(alloc, object)?;
    if !json.chars().any(|character| is_control(character)) {
        return Ok(json);
    }
    Ok(format!(in alloc; "{}", EscapedJson(json.as_str()))?)
}

// JSON that is printed without control characters. They are only in its texts, where an escape such as
// `\u007f` means the same.
#[derive(Clone, Copy)]
struct EscapedJson<'j>(&'j str);

impl fmt::Display for EscapedJson<'_> {
    fn fmt<W: fmt::Write>(&self, f: &mut fmt::Formatter<W>) -> fmt::Result {
        for character in self.0.chars() {
            if is_control(character) {
                write!(f, "\\u{:04x}", u32::from(character))?;
            } else {
                write!(f, "{character}")?;
            }
        }
        Ok(())
    }
}

// Makes the object of an image.
fn image_object<'w>(alloc: Global, facts: &ImageFacts<'w>) -> Result<ImageObject<'w>, AllocError> {
    let volume = facts.volume_blocks();
    let drive_types = types_of_size(alloc, volume)?;
    let nearest = nearest_objects(alloc, volume, drive_types.is_empty())?;
    let record = record_object(alloc, facts)?;
    let contents = structure_objects(alloc, facts)?;
    Ok(ImageObject {
        path: facts.path,
        blocks: facts.blocks,
        bytes: 512 * u64::from(facts.blocks),
        drive_types,
        nearest,
        record,
        writable: facts.writable,
        protected: facts.protected,
        contents,
    })
}

// Returns the names of the drive types of a size.
fn types_of_size(alloc: Global, blocks: u32) -> Result<Vec<&'static str>, AllocError> {
    let mut names = Vec::new(alloc);
    for drive in DriveTypeEntry::all() {
        if drive.blocks == blocks {
            names.push(drive.name)?;
        }
    }
    Ok(names)
}

// Makes the objects of the drive types nearest to a size, unless there are some of that size.
fn nearest_objects(
    alloc: Global,
    blocks: u32,
    wanted: bool,
) -> Result<Vec<NearestObject>, AllocError> {
    let mut objects = Vec::new(alloc);
    if wanted {
        let types = DriveTypeEntry::all();
        if let Some(drive) = DriveTypeEntry::next_larger(&types, blocks) {
            objects.push(nearest_object(&drive, blocks))?;
        }
        if let Some(drive) = DriveTypeEntry::next_smaller(&types, blocks) {
            objects.push(nearest_object(&drive, blocks))?;
        }
    }
    Ok(objects)
}

// Makes the object of a drive type for a size.
fn nearest_object(drive: &DriveTypeEntry, blocks: u32) -> NearestObject {
    NearestObject {
        drive_type: drive.name,
        difference: i64::from(drive.blocks) - i64::from(blocks),
    }
}

// Makes the object of the record in the last block, if there is one.
fn record_object(
    alloc: Global,
    facts: &ImageFacts<'_>,
) -> Result<Option<RecordObject>, AllocError> {
    let block = facts.volume_blocks();
    match &facts.record {
        None => Ok(None),
        Some(ContainerRecord::FixedVhd) => Ok(Some(RecordObject {
            block,
            kind: "footer of a fixed VHD",
            simulator: None,
            drive_type: None,
            sectors: None,
            sector_size: None,
            checksum: None,
        })),
        Some(ContainerRecord::Simh(record)) => Ok(Some(simh_object(alloc, block, record)?)),
    }
}

// Makes the object of SIMH's record.
fn simh_object(alloc: Global, block: u32, record: &SimhRecord) -> Result<RecordObject, AllocError> {
    let simulator = field_text(alloc, record.simulator_name())?;
    let drive_type = field_text(alloc, record.drive_name())?;
    Ok(RecordObject {
        block,
        kind: "SIMH container record",
        simulator: Some(simulator),
        drive_type: Some(drive_type),
        sectors: Some(record.sectors),
        sector_size: Some(record.sector_size),
        checksum: checksum_word(record.checksum),
    })
}

// Makes the objects of the structures, in the order of their blocks.
fn structure_objects(
    alloc: Global,
    facts: &ImageFacts<'_>,
) -> Result<Vec<StructureObject>, AllocError> {
    let contents = &facts.contents;
    let mut objects = Vec::new(alloc);
    if let Some(format) = contents.format {
        objects.push(plain_object(0, format.kind(), None))?;
    }
    if let Some(boot) = contents.boot {
        objects.push(boot_object(boot))?;
    }
    push_label(&mut objects, 0, contents.label_0)?;
    if let Some(home) = contents.home {
        let object = home_object(alloc, &home)?;
        objects.push(object)?;
    }
    push_label(&mut objects, 1, contents.label_1)?;
    push_label(&mut objects, 31, contents.label_31)?;
    Ok(objects)
}

// Adds the object of a label, if there is one.
fn push_label(
    objects: &mut Vec<StructureObject>,
    block: u32,
    label: Option<DiskLabel>,
) -> Result<(), AllocError> {
    if let Some(label) = label {
        objects.push(label_object(block, label))?;
    }
    Ok(())
}

// Makes the object of a bootstrap.
fn boot_object(boot: BootBlock) -> StructureObject {
    let checksum = match boot {
        BootBlock::Pdp11 | BootBlock::PerhapsPdp11 => None,
        BootBlock::Vax(checksum) => checksum_word(checksum),
    };
    plain_object(0, boot.kind(), checksum)
}

// Makes the object of a label.
fn label_object(block: u32, label: DiskLabel) -> StructureObject {
    let checksum = match label {
        DiskLabel::Bsd(checksum) => checksum_word(checksum),
        DiskLabel::Bsd211 => Some("not verified"),
        DiskLabel::Ultrix => None,
    };
    plain_object(block, label.kind(), checksum)
}

// Makes the object of a home block.
fn home_object(alloc: Global, home: &HomeBlock) -> Result<StructureObject, AllocError> {
    let volume = field_text(alloc, &home.volume)?;
    let owner = field_text(alloc, &home.owner)?;
    Ok(StructureObject {
        block: 1,
        kind: home.format.kind(),
        volume: Some(volume),
        owner: Some(owner),
        checksum: checksum_word(home.checksum),
    })
}

// Makes the object of a structure without names.
fn plain_object(block: u32, kind: &'static str, checksum: Option<&'static str>) -> StructureObject {
    StructureObject {
        block,
        kind,
        volume: None,
        owner: None,
        checksum,
    }
}

// Returns the word for the result of checking a checksum, if it was checked.
fn checksum_word(checksum: Checksum) -> Option<&'static str> {
    match checksum {
        Checksum::Right => Some("right"),
        Checksum::Wrong => Some("wrong"),
        Checksum::Unchecked => None,
    }
}

// Returns the text of a field, as the lines of `uda50 info` show it.
fn field_text(alloc: Global, field: &[u8]) -> Result<String, AllocError> {
    format!(in alloc; "{}", FixedText(field))
}
