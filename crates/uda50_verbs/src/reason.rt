//! The reasons of faults.

use std::fmt::Display;
use std::io::ErrorKind;
use std::{fmt, io};
use thiserror::Error;
use uda_image::StoreError;
use uda50_arguments::BlockRange;
use uda50_copy::MapError;
use uda50_script_text::{ByteOrderMark, Mistake};
use uda50_show::{ContainerRecord, Counted, DriveTypeEntry, ForeignFormat, Grouped, TokenError};

/// The reason why a file can't be used, or a verb can't continue.
#[derive(Drop)]
pub(crate) enum Reason {
    /// An allocation failed.
    NoMemory,
    /// There is no file.
    NoSuchFile,
    /// The system denied permission to open the file.
    PermissionDenied,
    /// The file to make exists already.
    Exists,
    /// The path is a folder, a device, a pipe or a socket.
    NotPlain,
    /// The image to write has the prefix `lock:`.
    Protected,
    /// Another process or unit holds the file's lock.
    InUse,
    /// The device to write is mounted, or in use in another way.
    Mounted,
    /// A stream is named where there has to be an image.
    NoImage,
    /// A stream can't be read.
    Unreadable,
    /// A stream can't be written.
    Unwritable,
    /// A stream of a script can't be read or written.
    Stream(io::Error),
    /// The file to read is a folder.
    Folder,
    /// Raw blocks would be written to a terminal.
    Terminal,
    /// An image can't be used.
    Image(ImageReason),
    /// A copy can't continue.
    Copy(CopyReason),
    /// The target of a copy can't be written, or its copy can't be resumed.
    Target(TargetReason),
    /// A map of a copy can't be read or written.
    Map(MapReason),
    /// A script can't be executed.
    Script(ScriptReason),
    /// An input can't be printed.
    Input(InputReason),
    /// A call of the system failed.
    System(io::Error),
}

/// Writes a text such as `no such file`.
impl fmt::Display for Reason {
    fn fmt<W: fmt::Write>(&self, f: &mut fmt::Formatter<W>) -> fmt::Result {
        let text = match self {
            Reason::NoMemory => "out of memory",
            Reason::NoSuchFile => "no such file",
            Reason::PermissionDenied => "permission denied",
            Reason::Exists => "exists already; --force overwrites it",
            Reason::NotPlain => "not a plain file",
            Reason::Protected => "write protected",
            Reason::InUse => "in use by another process",
            Reason::Mounted => "is mounted or in use by the system",
            Reason::NoImage => "is a stream, and not an image",
            Reason::Unreadable => "cannot be read",
            Reason::Unwritable => "cannot be written",
            Reason::Folder => "is a folder",
            Reason::Terminal => "is a terminal; --force writes raw blocks to it",
            Reason::Image(reason) => return reason.fmt(f),
            Reason::Copy(reason) => return reason.fmt(f),
            Reason::Target(reason) => return reason.fmt(f),
            Reason::Map(reason) => return reason.fmt(f),
            Reason::Script(reason) => return reason.fmt(f),
            Reason::Input(reason) => return reason.fmt(f),
            Reason::Stream(error) | Reason::System(error) => return error.fmt(f),
        };
        f.write_str(text)
    }
}

impl Reason {
    /// Returns the reason for an error of the system.
    pub(crate) fn of(error: io::Error) -> Reason {
        match Reason::of_kind(error.kind()) {
            Some(reason) => reason,
            None => Reason::System(error),
        }
    }

    /// Returns the reason for an error of a script's stream.
    pub(crate) fn of_stream(error: io::Error) -> Reason {
        match error.kind() {
            ErrorKind::IsADirectory => Reason::Folder,
            _ => Reason::Stream(error),
        }
    }

    // Returns the reason for a kind of errors, or `None` if the system's own text is printed.
    fn of_kind(kind: ErrorKind) -> Option<Reason> {
        match kind {
            ErrorKind::NotFound => Some(Reason::NoSuchFile),
            ErrorKind::PermissionDenied => Some(Reason::PermissionDenied),
            ErrorKind::AlreadyExists => Some(Reason::Exists),
            ErrorKind::OutOfMemory => Some(Reason::NoMemory),
            ErrorKind::IsADirectory => Some(Reason::NotPlain),
            _ => None,
        }
    }
}

/// The reason why an image can't be used.
#[derive(Debug, Drop, Error)]
pub(crate) enum ImageReason {
    /// The length is not a multiple of 512.
    #[error("{} is not a multiple of 512{}", Counted::bytes(*.0), length_guess(*.0))]
    Length(u64),
    /// The length is not a multiple of 512, and the file begins like one of another program.
    #[error("{} is not a multiple of 512; it begins with the {format}", Counted::bytes(*.bytes))]
    LengthOfFormat {
        /// The length.
        bytes: u64,
        /// The format.
        format: ForeignFormat,
    },
    /// The length is not a multiple of 512, and the file has a record of another program.
    #[error("{} bytes is not a multiple of 512; perhaps another emulator's format with a trailing record? {place} {record}", Grouped(*.bytes))]
    LengthWithRecord {
        /// The length.
        bytes: u64,
        /// What is said of the record's place.
        place: RecordPlace,
        /// The record.
        record: ContainerRecord,
    },
    /// There are more blocks than an image can have.
    #[error("{} blocks are more than 2,147,483,647", Grouped(*.0))]
    TooLarge(u64),
    /// The image doesn't have the blocks.
    #[error("no blocks {} to {}: the image has {}", .range.start, .range.end.saturating_sub(1), Counted::blocks(*.blocks))]
    PastEnd {
        /// The requested blocks.
        range: BlockRange,
        /// The size of the image.
        blocks: u32,
    },
    /// A block can't be read or written.
    #[error("block {block}: {error}")]
    Block {
        /// The block.
        block: u32,
        /// The error of the image.
        error: StoreError,
    },
    /// A block can't be read or written, and the system tells why.
    #[error("block {block} can't be {}: {cause}", verb_of(*.error))]
    BlockCause {
        /// The block.
        block: u32,
        /// The error of the image.
        error: StoreError,
        /// The error of the system.
        cause: io::Error,
    },
    /// Written blocks could not be synced to the medium.
    #[error("cannot be written out")]
    NotSynced,
    /// Written blocks could not be synced to the medium, and the system tells why.
    #[error("cannot be written out: {0}")]
    SyncFailed(io::Error),
}

/// The reason why a copy can't continue.
#[derive(Debug, Drop, Error)]
pub(crate) enum CopyReason {
    /// A block of the copy differs from that of the source.
    #[error("block {0} differs from the source's")]
    Differs(u32),
    /// The controller rejected a request.
    #[error("a request was rejected with status {0:04x}")]
    Rejected(u16),
    /// The source of a copy became shorter.
    #[error("ended before block {0}; it was longer when the copy began")]
    SourceEnded(u32),
    /// No program put a record after the blocks of the source.
    #[error("has no record after its blocks")]
    NoRecord,
    /// The reader of the blocks that are copied to standard output has gone.
    #[error("{0}")]
    Output(io::Error),
    /// An option of a copy needs two images.
    #[error("{0} needs images, and not a stream")]
    NeedsImages(CopyOption),
    /// A stream ended before the last block.
    #[error("ended after {0}")]
    Ended(StreamLength),
}

/// The reason why the target of a copy can't be written, or its copy can't be resumed.
#[derive(Drop)]
pub(crate) enum TargetReason {
    /// The target of a copy is its source.
    SameFile,
    /// A copy that ended early left this file.
    PartExists,
    /// A copy that ended early, and can't be resumed, left this file.
    PartWithoutMap,
    /// There is no copy to go on with.
    NothingToResume,
    /// There is the map of a copy, and not its target.
    OnlyMap,
    /// The target of a copy is as it was before that.
    NotBegun,
    /// The target of a copy and its incomplete copy exist already.
    BothExist,
    /// There is a file with the name of the incomplete copy, and no map of it.
    NoPart,
    /// A named map isn't said to be that of the incomplete copy.
    PartOfOther,
    /// The incomplete copy would be the target.
    PartIsTarget,
    /// The complete copy has more blocks than its source.
    LongerThanMap {
        /// The length.
        bytes: u64,
        /// The number of blocks of the map.
        blocks: u32,
    },
    /// The incomplete copy has fewer blocks than its map says.
    ShorterThanMap {
        /// The length.
        bytes: u64,
        /// The number of blocks up to the last one that is finished by the map.
        blocks: u32,
    },
    /// A name that is made from the target's is that of a link.
    Link,
    /// The target is a link, and there is no file.
    LinkToNowhere,
    /// Links lead to each other.
    LinksInCircle,
    /// The target has no name.
    EmptyName,
    /// The target is a device.
    Device,
    /// The target that `--device` names is none.
    NoDevice,
    /// The option `--device` names another file.
    OtherDevice,
}

/// Writes a text such as `is the source of the copy`.
impl fmt::Display for TargetReason {
    fn fmt<W: fmt::Write>(&self, f: &mut fmt::Formatter<W>) -> fmt::Result {
        let text = match self {
            TargetReason::SameFile => "is the source of the copy",
            TargetReason::PartExists =>
                "exists already; --resume goes on with it, --force begins anew",
            TargetReason::PartWithoutMap => "exists already; --force begins anew",
            TargetReason::NothingToResume => "no copy to resume: there is no map of one",
            TargetReason::OnlyMap => "no copy to resume: there is only a map of one",
            TargetReason::NotBegun =>
                "no copy to resume: the last one ended before it wrote anything",
            TargetReason::BothExist => {
                "exists already, and so does its incomplete copy; --force overwrites both"
            }
            TargetReason::NoPart => {
                "exists already, and is no incomplete copy with a map; remove it, or give it another name"
            }
            TargetReason::PartOfOther => {
                "the map doesn't say that it is of this file; if it is, give the file the name of the target"
            }
            TargetReason::PartIsTarget => "is another name of the target",
            TargetReason::LongerThanMap { bytes, blocks } => {
                return write!(
                    f,
                    "has {} bytes, and its map only {}",
                    Grouped(*bytes),
                    Counted::blocks(*blocks)
                );
            }
            TargetReason::ShorterThanMap { bytes, blocks } => {
                return write!(
                    f,
                    "has only {} of the {} bytes that its map says are copied",
                    Grouped(*bytes),
                    Grouped(512 * u64::from(*blocks))
                );
            }
            TargetReason::Link => "is a link, which a copy doesn't follow",
            TargetReason::LinkToNowhere => "is a link to a file that doesn't exist",
            TargetReason::LinksInCircle => "is a link that leads to no file",
            TargetReason::EmptyName => "has an empty name",
            TargetReason::Device => "is a device; --device writes to it",
            TargetReason::NoDevice => "is no device, and --device is for devices",
            TargetReason::OtherDevice => "--device has to name the file to write",
        };
        f.write_str(text)
    }
}

/// The reason why a map of a copy can't be read or written.
#[derive(Drop)]
pub(crate) enum MapReason {
    /// A map tells of the incomplete copy, and not of the target.
    OfPart,
    /// There is a file in the place of a map.
    NoMap,
    /// A map of blocks can't be read.
    Invalid(MapError),
    /// A map is not a text.
    NoText,
    /// A map has blocks that the source doesn't have.
    OfOther,
    /// A map would be written over a file of the copy.
    IsImage,
}

/// Writes a text such as `is a file of the copy, and not its map`.
impl fmt::Display for MapReason {
    fn fmt<W: fmt::Write>(&self, f: &mut fmt::Formatter<W>) -> fmt::Result {
        let text = match self {
            MapReason::OfPart => "is the map of an incomplete copy",
            MapReason::NoMap => "is no map, and a copy would replace it",
            MapReason::Invalid(error) => return error.fmt(f),
            MapReason::NoText => "the map is not a text in UTF-8",
            MapReason::OfOther => "the map is not one of the blocks to copy",
            MapReason::IsImage => "is a file of the copy, and not its map",
        };
        f.write_str(text)
    }
}

/// The reason why a script can't be executed.
#[derive(Debug, Drop, Error)]
pub(crate) enum ScriptReason {
    /// The image of a unit is that of an earlier unit too.
    #[error("is given twice, for units {0} and {1}")]
    GivenTwice(usize, usize),
    /// A line of the script is not a statement.
    #[error("line {line}, {mistake}")]
    Syntax {
        /// The line, from 1.
        line: u64,
        /// Its mistake.
        mistake: Mistake,
    },
    /// The script has more mistakes than are named, which is this many.
    #[error("{0} mistakes; the rest is not checked")]
    ManyMistakes(u32),
    /// The script begins with a byte order mark.
    #[error("begins with a byte order mark of {0}; a script has none")]
    ByteOrderMark(ByteOrderMark),
    /// Standard input ended before a line had all its data.
    #[error("line {0}: standard input ended inside its data")]
    DataEnded(u64),
    /// The blocks that a script reads would be written to a terminal.
    #[error("is a terminal, to which no blocks are written; redirect it to a file or a pipe")]
    BlocksToTerminal,
}

/// The reason why an input can't be printed.
#[derive(Debug, Drop, Error)]
pub(crate) enum InputReason {
    /// A token is neither a byte nor a word.
    #[error("line {line}, word {word}: {error}")]
    Token {
        /// The line, from 1.
        line: u64,
        /// The number of the token on its line, from 1.
        word: u64,
        /// The error of the token.
        error: TokenError,
    },
    /// A line of packets has bytes that are no text.
    #[error("line {0}: is not text in UTF-8")]
    NotText(u64),
    /// The text ends inside a packet.
    #[error("the last packet has {0} of 48 bytes")]
    ShortPacket(usize),
    /// The input ends inside a block.
    #[error("the last block has {0} of 512 bytes")]
    ShortBlock(usize),
    /// The input ends before the last requested block.
    #[error("ends before block {0}")]
    EndsBefore(u64),
}

/// An option of `copy` that needs two images.
#[derive(Clone, Copy, Debug, PartialEq, Eq)]
pub(crate) enum CopyOption {
    /// `--continue`
    Continue,
    /// `--verify`
    Verify,
    /// `--resume`
    Resume,
    /// `--map`
    Map,
    /// `--without-record`
    WithoutRecord,
}

impl fmt::Display for CopyOption {
    fn fmt<W: fmt::Write>(&self, f: &mut fmt::Formatter<W>) -> fmt::Result {
        f.write_str(match self {
            CopyOption::Continue => "--continue",
            CopyOption::Verify => "--verify",
            CopyOption::Resume => "--resume",
            CopyOption::Map => "--map",
            CopyOption::WithoutRecord => "--without-record",
        })
    }
}

/// The place of a record in a file whose length is not a multiple of 512.
#[derive(Clone, Copy, Debug, PartialEq, Eq)]
pub(crate) enum RecordPlace {
    /// The last 512 bytes.
    LastBytes,
    /// The last whole block.
    LastBlock,
}

impl fmt::Display for RecordPlace {
    fn fmt<W: fmt::Write>(&self, f: &mut fmt::Formatter<W>) -> fmt::Result {
        f.write_str(match self {
            RecordPlace::LastBytes => "its last 512 bytes are a",
            RecordPlace::LastBlock => "its last whole block is a",
        })
    }
}

/// The length of a stream that ended.
#[derive(Clone, Copy, Debug, PartialEq, Eq)]
pub(crate) struct StreamLength {
    /// The number of its whole blocks.
    pub(crate) blocks: u32,
    /// The number of the bytes after them.
    pub(crate) bytes: usize,
}

/// Writes a text such as `1 block and 488 bytes`.
impl fmt::Display for StreamLength {
    fn fmt<W: fmt::Write>(&self, f: &mut fmt::Formatter<W>) -> fmt::Result {
        let blocks = Counted::blocks(self.blocks);
        let bytes = Counted::bytes(self.bytes as u64);
        write!(f, "{blocks} and {bytes}")
    }
}

// Returns what could not be done with a block.
fn verb_of(error: StoreError) -> &'static str {
    match error {
        StoreError::Read => "read",
        StoreError::Write => "written",
    }
}

// Returns what is guessed of a length that is not a multiple of 512: a record after the blocks, if these are
// as many as a drive type has.
fn length_guess(bytes: u64) -> &'static str {
    let blocks = bytes / 512;
    if DriveTypeEntry::all()
        .iter()
        .any(|drive| u64::from(drive.blocks) == blocks)
    {
        "; perhaps another emulator's format with a trailing record?"
    } else {
        ""
    }
}
