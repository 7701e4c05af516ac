//! The tasks of the program.

use crate::block_range::BlockRange;
use crate::image_name::ImageName;
use uda50_show::DriveTypeEntry;

/// The task of the program, by verb.
#[derive(Debug, Drop)]
pub enum Task<'w> {
    /// `run`: executes a script.
    Run(Run<'w>),
    /// `copy`: copies an image.
    Copy(Copy<'w>),
    /// `info`: describes images.
    Info {
        /// The images.
        images: Vec<ImageName<'w>>,
        /// Whether the descriptions are JSON.
        json: bool,
    },
    /// `dump`: prints blocks.
    Dump(Dump<'w>),
    /// `create`: makes an image.
    Create(Create<'w>),
    /// `decode`: prints the fields of packets.
    Decode {
        /// The file with the packets, `-` for standard input.
        file: &'w str,
    },
    /// `trace`: executes a script, and prints each turn of the port.
    Trace {
        /// The file with the script, `-` for standard input.
        script: &'w str,
        /// The images of units 0 to 3; `None` for no drive.
        units: Vec<Option<ImageName<'w>>>,
    },
    /// `help script`: describes the lines of a script.
    ScriptHelp,
}

/// The arguments of `run`.
#[derive(Debug, Drop)]
pub struct Run<'w> {
    /// The file with the script, `-` for standard input.
    pub script: &'w str,
    /// The images of units 0 to 3; `None` for no drive.
    pub units: Vec<Option<ImageName<'w>>>,
    /// Whether each line of the report has the name of its status.
    pub names: bool,
    /// Whether only failures are reported.
    pub quiet: bool,
    /// Whether the script is only checked.
    pub check: bool,
}

/// The arguments of `copy`.
#[derive(Clone, Copy, Debug)]
pub struct Copy<'w> {
    /// The image to read.
    pub from: ImageName<'w>,
    /// The image to write.
    pub to: ImageName<'w>,
    /// The blocks to copy; `None` for all.
    pub blocks: Option<BlockRange>,
    /// Whether the copy is read back and compared.
    pub verify: bool,
    /// Whether to continue after blocks that can't be read.
    pub skips_lost: bool,
    /// The file for the map of the lost blocks; `None` for the target's name with `.map` after it.
    pub map: Option<&'w str>,
    /// Whether an earlier copy is continued.
    pub resumes: bool,
    /// Whether blocks of zeros may become holes of the target.
    pub sparse: bool,
    /// Whether the record that another program put after the blocks is left out.
    pub without_record: bool,
    /// Whether an existing file may be written.
    pub force: bool,
    /// The device that may be written; `None` for no device.
    pub device: Option<&'w str>,
}

/// The arguments of `dump`.
#[derive(Clone, Copy, Debug)]
pub struct Dump<'w> {
    /// The image.
    pub image: ImageName<'w>,
    /// The blocks to print; `None` for all.
    pub blocks: Option<BlockRange>,
    /// The format.
    pub format: DumpFormat,
    /// Whether rows that repeat are printed too.
    pub all: bool,
}

/// The format in which `dump` prints blocks.
#[derive(Clone, Copy, Debug, PartialEq, Eq)]
pub enum DumpFormat {
    /// Bytes in hexadecimal, and as text.
    Hexadecimal,
    /// Words in octal, and as text.
    Octal,
    /// The unchanged bytes of the blocks.
    Raw {
        /// Whether they may be written to a terminal.
        force: bool,
    },
}

/// The arguments of `create`.
#[derive(Clone, Copy, Debug)]
pub struct Create<'w> {
    /// The file to make.
    pub image: ImageName<'w>,
    /// The number of its blocks.
    pub blocks: u32,
    /// The drive type of which it has that number, if `--drive` names one.
    pub drive: Option<DriveTypeEntry>,
    /// Whether an existing file may be overwritten.
    pub force: bool,
}
