//! Facts that no clause states: the errors' texts, files, and the images' calls with concrete values.
ghost use Rattle.std.specs.Prelude.{◌≡◌, ◌+◌, ◌<◌, true, IfOk, IsOk, slice_set, is_ok, if◌then◌else◌};
ghost use Rattle.uda_image.specs.Store.{HasWholeBlocks, KeepsAttributes};

use super::prints;
use std::alloc::{AllocError, Global};
use std::fs::File;
use std::path::PathBuf;
use std::test::Fail;
use std::{env, fs, io, process};
use uda_image::{BlockStore, FailingImage, FileImage, ImageError, MemImage, StoreError};

// Writes and reads a block. Generic code over a store knows only the clauses of the trait.
fn write_then_read<S: BlockStore>(
    store: &mut S,
    n: u32,
    from: &[u8; 512],
    to: &mut [u8; 512],
) -> Result<(), StoreError>
    requires { n < (S.state store.old).size }
    ensures attributes { KeepsAttributes (S.state store.old) (S.state store.new) }
    ensures infallible { (S.state store.old).never_fails.reads ≡ true → (S.state store.old).never_fails.writes ≡ true
        → IsOk result }
    ensures same { (S.state store.old).faithful ≡ true → IfOk result (λ _. to.new ≡ from.now) }
    ensures written { (S.state store.old).faithful ≡ true
        → IfOk result (λ _.
        (S.state store.new).blocks ≡ slice_set (S.state store.old).blocks n from.now) }
    ensures failures { (S.state store.old).faithful ≡ true
        → (S.state store.new).failures
        ≡ (S.state store.old).failures + (if is_ok result then 0 else 1) }
    ensures image { (S.state store.old).faithful ≡ true
        → HasWholeBlocks (S.state store.old).size (S.state store.new).blocks }
{
    store.write(n, from)?;
    store.read(n, to)
}

/// Returns a block by the bytes of its halves: 0x4400 is 256 times 0x44, then zeros.
fn block_of(halves: u16) -> [u8; 512] {
    let [first, last] = halves.to_be_bytes();
    let mut block = [first; 512];
    block[256..].fill(last);
    block
}

// Returns the bytes of these blocks, one after another.
fn bytes_of(alloc: Global, blocks: &[u16]) -> Result<Vec<u8>, AllocError> {
    let mut bytes = Vec::new(alloc);
    for halves in blocks {
        bytes.extend_from_slice(&block_of(*halves))?;
    }
    Ok(bytes)
}

/// A call of a store, with its result.
#[derive(Clone, Copy)]
pub(super) enum Call {
    /// The number of blocks.
    Size(u32),
    /// A block is read.
    Read(u32, u16),
    /// A block can't be read, and its buffer is unchanged.
    FailRead(u32),
    /// A block is written.
    Write(u32, u16),
    /// A block can't be written.
    FailWrite(u32),
    /// A block is written and then read again.
    WriteThenRead(u32, u16),
    /// Two blocks are read at once, or the store declines. The buffer then holds these blocks, if they are
    /// given.
    ReadTwo(u32, bool, Option<(u16, u16)>),
    /// Three blocks of one byte are written at once, or the store declines.
    WriteThree(u32, u8, bool),
}

impl Call {
    /// Makes the call, and returns whether it has that result.
    fn is_answered<S: BlockStore>(self, store: &mut S) -> bool {
        let size = store.size();
        match self {
            Call::Size(wanted) => size == wanted,
            Call::Read(n, halves) => n < size && reads(store, n, halves),
            Call::FailRead(n) => n < size && fails_to_read(store, n),
            Call::Write(n, halves) => n < size && store.write(n, &block_of(halves)).is_ok(),
            Call::FailWrite(n) => {
                n < size && store.write(n, &[0x44; 512]) == Err(StoreError::Write)
            }
            Call::WriteThenRead(n, halves) => n < size && writes(store, n, &block_of(halves)),
            Call::ReadTwo(n, wanted, blocks) if n < size && size - n >= 2 => {
                let mut two = [0x77; 1024];
                store.try_read_blocks(n, 2, &mut two) == wanted && are_two(&two, blocks)
            }
            Call::ReadTwo(..) => false,
            Call::WriteThree(n, byte, wanted) => {
                n < size && size - n >= 3 && store.try_write_blocks(n, 3, &[byte; 1536]) == wanted
            }
        }
    }
}

// Returns whether a block is read.
fn reads<S: BlockStore>(store: &mut S, n: u32, halves: u16) -> bool
    requires { n < (S.state store.old).size }
{
    let mut block = [0x77; 512];
    store.read(n, &mut block).is_ok() && block == block_of(halves)
}

// Returns whether a block can't be read, and its buffer is unchanged.
fn fails_to_read<S: BlockStore>(store: &mut S, n: u32) -> bool
    requires { n < (S.state store.old).size }
{
    let mut block = [0x77; 512];
    store.read(n, &mut block) == Err(StoreError::Read) && block == [0x77; 512]
}

// Returns whether a block is written and then read again.
fn writes<S: BlockStore>(store: &mut S, n: u32, written: &[u8; 512]) -> bool
    requires { n < (S.state store.old).size }
{
    let mut block = [0x77; 512];
    write_then_read(store, n, written, &mut block).is_ok() && block == *written
}

// Returns whether these are two blocks, if they are given.
fn are_two(bytes: &[u8; 1024], blocks: Option<(u16, u16)>) -> bool {
    let Some((one, other)) = blocks else {
        return true;
    };
    let (first, last) = bytes.split_at(512);
    first == block_of(one).as_slice() && last == block_of(other).as_slice()
}

/// Makes calls of a store, and returns the index of the first with a wrong answer.
pub(super) fn first_wrong<S: BlockStore>(store: &mut S, calls: &[Call]) -> Option<usize> {
    for (n, call) in calls.iter().enumerate() {
        if !call.is_answered(store) {
            return Some(n);
        }
    }
    None
}

/// The kind of an image, and the call of it that fails.
#[derive(Clone, Copy)]
enum Over {
    /// Memory.
    Memory,
    /// Memory. The call of this number fails.
    Failing(u32),
    /// A file that is writable.
    File,
    /// A file that is not writable.
    LockedFile,
    /// A file that was shortened to four blocks after it was opened.
    ShortenedFile,
}

/// An image with its blocks, the calls of it, and its blocks afterwards.
#[derive(Clone, Copy)]
struct Case {
    name: &'static str,
    over: Over,
    blocks: &'static [u16],
    calls: &'static [Call],
    left: &'static [u16],
}

/// Eight blocks that differ.
const EIGHT: &[u16] = &[
    0x3030, 0x3131, 0x3232, 0x3333, 0x3434, 0x3535, 0x3636, 0x3737,
];

/// The same after a write of three blocks at once from block 5.
const EIGHT_WRITTEN: &[u16] = &[
    0x3030, 0x3131, 0x3232, 0x3333, 0x3434, 0x4444, 0x4444, 0x4444,
];

/// Two blocks of eight are read at once, and three are written.
const AT_ONCE: &[Call] = &[
    Call::Size(8),
    Call::ReadTwo(2, true, Some((0x3232, 0x3333))),
    Call::WriteThree(5, 0x44, true),
];

static CASES: [Case; 14] = [
    Case {
        name: "no blocks",
        over: Over::Memory,
        blocks: &[],
        calls: &[Call::Size(0)],
        left: &[],
    },
    Case {
        name: "one block",
        over: Over::Memory,
        blocks: &[0x1111],
        calls: &[],
        left: &[0x1111],
    },
    Case {
        name: "a written block is read",
        over: Over::Memory,
        blocks: &[0; 8],
        calls: &[Call::WriteThenRead(7, 0x4444), Call::Read(6, 0)],
        left: &[0, 0, 0, 0, 0, 0, 0, 0x4444],
    },
    Case {
        name: "a failing write",
        over: Over::Failing(2),
        blocks: &[0; 2],
        calls: &[
            Call::Read(0, 0),
            Call::FailWrite(1),
            Call::Write(0, 0x2222),
            Call::Read(1, 0x4400),
        ],
        left: &[0x2222, 0x4400],
    },
    Case {
        name: "a failing read",
        over: Over::Failing(1),
        blocks: &[0; 2],
        calls: &[
            Call::FailRead(0),
            Call::Size(2),
            Call::WriteThenRead(0, 0x3333),
        ],
        left: &[0x3333, 0],
    },
    Case {
        name: "no call fails",
        over: Over::Failing(0),
        blocks: &[0; 2],
        calls: &[
            Call::Read(0, 0),
            Call::Read(1, 0),
            Call::WriteThenRead(0, 0x3333),
        ],
        left: &[0x3333, 0],
    },
    Case {
        name: "a file is written and read",
        over: Over::File,
        blocks: &[0x1111; 2],
        calls: &[
            Call::Size(2),
            Call::WriteThenRead(1, 0x4444),
            Call::Read(0, 0x1111),
        ],
        left: &[0x1111, 0x4444],
    },
    Case {
        name: "a file opened for reading stays",
        over: Over::LockedFile,
        blocks: &[0x1111; 2],
        calls: &[Call::Size(2), Call::FailWrite(0), Call::Read(0, 0x1111)],
        left: &[0x1111; 2],
    },
    Case {
        name: "a shortened file",
        over: Over::ShortenedFile,
        blocks: &[0x1111; 8],
        calls: &[Call::Size(8), Call::FailRead(6), Call::Read(3, 0x1111)],
        left: &[0x1111; 4],
    },
    Case {
        name: "blocks of an image at once",
        over: Over::Memory,
        blocks: EIGHT,
        calls: AT_ONCE,
        left: EIGHT_WRITTEN,
    },
    Case {
        name: "blocks of a file at once",
        over: Over::File,
        blocks: EIGHT,
        calls: AT_ONCE,
        left: EIGHT_WRITTEN,
    },
    Case {
        name: "a file opened for reading declines writes",
        over: Over::LockedFile,
        blocks: EIGHT,
        calls: &[
            Call::Size(8),
            Call::ReadTwo(2, true, Some((0x3232, 0x3333))),
            Call::WriteThree(5, 0x44, false),
        ],
        left: EIGHT,
    },
    // four blocks of the eight are left; a call for more of them reads too few
    Case {
        name: "a shortened file declines reads",
        over: Over::ShortenedFile,
        blocks: EIGHT,
        calls: &[
            Call::Size(8),
            Call::ReadTwo(2, true, Some((0x3232, 0x3333))),
            Call::ReadTwo(3, false, None),
            Call::ReadTwo(6, false, None),
        ],
        left: &[0x3030, 0x3131, 0x3232, 0x3333],
    },
    // a store of single blocks declines, which doesn't count as a call
    Case {
        name: "single blocks decline",
        over: Over::Failing(1),
        blocks: EIGHT,
        calls: &[
            Call::Size(8),
            Call::ReadTwo(2, false, Some((0x7777, 0x7777))),
            Call::WriteThree(5, 0x44, false),
            Call::Size(8),
            Call::FailRead(0),
        ],
        left: EIGHT,
    },
];

impl Case {
    /// Makes the calls, and returns the index of the first with a wrong answer. Returns the number of calls
    /// if the blocks afterwards are wrong, and `None` if nothing is.
    fn first_wrong(&self, rt: &HostRuntime) -> Result<Option<usize>, Fail> {
        let blocks = bytes_of(rt.alloc(), self.blocks)?;
        match self.over {
            Over::Memory => self.over_memory(rt.alloc(), &blocks),
            Over::Failing(at) => self.over_failing(rt.alloc(), &blocks, at),
            Over::File => self.over_file(rt, &blocks, true, blocks.len()),
            Over::LockedFile => self.over_file(rt, &blocks, false, blocks.len()),
            Over::ShortenedFile => self.over_file(rt, &blocks, true, 2048),
        }
    }

    // Makes the calls over memory.
    fn over_memory(&self, alloc: Global, blocks: &[u8]) -> Result<Option<usize>, Fail> {
        let mut image = MemImage::from_bytes(alloc, blocks)?;
        let wrong = first_wrong(&mut image, self.calls);
        self.judge(alloc, wrong, image.bytes())
    }

    // Makes the calls over memory. The call of this number fails.
    fn over_failing(&self, alloc: Global, blocks: &[u8], at: u32) -> Result<Option<usize>, Fail> {
        let image = MemImage::from_bytes(alloc, blocks)?;
        let mut failing = FailingImage::new(image, at);
        let wrong = first_wrong(&mut failing, self.calls);
        self.judge(alloc, wrong, failing.into_inner().bytes())
    }

    // Makes the calls over a file that has this length once it is open.
    fn over_file(
        &self,
        rt: &HostRuntime,
        blocks: &[u8],
        writable: bool,
        len: usize,
    ) -> Result<Option<usize>, Fail> {
        let path = file_of(rt, "image", blocks)?;
        let mut image = FileImage::open(rt, path.as_str(), writable)?;
        set_len(rt, &path, len as u64)?;
        let wrong = first_wrong(&mut image, self.calls);
        image.sync()?;
        let left = take_file(rt, &path)?;
        self.judge(rt.alloc(), wrong, &left)
    }

    // Returns the wrong call that was found, or the number of calls if these aren't the bytes afterwards.
    fn judge(
        &self,
        alloc: Global,
        wrong: Option<usize>,
        bytes: &[u8],
    ) -> Result<Option<usize>, Fail> {
        let left = bytes_of(alloc, self.left)?;
        let is_left = bytes == left.as_slice();
        Ok(match wrong {
            None if !is_left => Some(self.calls.len()),
            wrong => wrong,
        })
    }
}

#[test]
fn images(rt: HostRuntime) -> Result<(), Fail> {
    for case in &CASES {
        let wrong = case.first_wrong(&rt)?;
        assert!(rt;
            wrong.is_none(),
            "{}: call {}",
            case.name,
            wrong.unwrap_or(0)
        );
    }
    Ok(())
}

#[test]
fn images_in_memory(rt: HostRuntime) -> Result<(), Fail> {
    let zeros = MemImage::new(rt.alloc(), 2)?;
    assert!(rt; zeros.bytes() == [0; 1024].as_slice());
    let long = MemImage::from_bytes(rt.alloc(), &[0x11; 513]).err();
    assert!(rt; long == Some(ImageError::Length));
    let large = MemImage::new(rt.alloc(), 891_073).err();
    assert!(rt; large == Some(ImageError::TooLarge));
    Ok(())
}

/// The errors of an image, with their numbers and texts.
static IMAGE_ERRORS: [(ImageError, u8, &str); 4] = [
    (ImageError::NoMemory, 1, "out of memory"),
    (ImageError::Open, 2, "cannot open"),
    (ImageError::Length, 3, "length is no multiple of 512"),
    (ImageError::TooLarge, 4, "more than 891072 blocks"),
];

/// The errors of a store, with their texts.
static STORE_ERRORS: [(StoreError, &str); 2] = [
    (StoreError::Read, "a block could not be read"),
    (StoreError::Write, "a block could not be written"),
];

#[test]
fn errors(rt: HostRuntime) -> Result<(), Fail> {
    for &(error, number, text) in &IMAGE_ERRORS {
        let is_right = error as u8 == number && prints(rt.alloc(), &error, text)?;
        assert!(rt; is_right, "{text}");
    }
    for &(error, text) in &STORE_ERRORS {
        assert!(rt; prints(rt.alloc(), &error, text)?, "{text}");
    }
    Ok(())
}

// Returns a path that only this process uses, ending in a word.
fn path_of(rt: &HostRuntime, word: &str) -> io::Result<PathBuf> {
    let name = format!(in rt.alloc(); "uda-image-{}-{word}", process::id(rt.process()))?;
    Ok(env::temp_dir(rt)?.join(rt.alloc(), name.as_str())?)
}

// Makes a file with these bytes, and returns its path.
fn file_of(rt: &HostRuntime, word: &str, bytes: &[u8]) -> io::Result<PathBuf> {
    let path = path_of(rt, word)?;
    fs::write(rt, path.as_path(), bytes)?;
    Ok(path)
}

// Returns the bytes of a file, and removes it.
fn take_file(rt: &HostRuntime, path: &PathBuf) -> io::Result<Vec<u8>> {
    let bytes = fs::read(rt, path.as_path())?;
    fs::remove_file(rt, path.as_path())?;
    Ok(bytes)
}

// Sets the length of a file.
fn set_len(rt: &HostRuntime, path: &PathBuf, len: u64) -> io::Result<()> {
    File::options()
        .write(true)
        .open(rt, path.as_path())?
        .set_len(len)
}

// Opens a file of `len` zeros as an image, which may be large or not, and removes it. Returns the image's
// size.
fn open_of(rt: &HostRuntime, len: u64, large: bool) -> io::Result<Result<u32, ImageError>> {
    let path = file_of(rt, "long", &[])?;
    set_len(rt, &path, len)?;
    let opened = if large {
        FileImage::open_large(rt, path.as_str(), false)
    } else {
        FileImage::open(rt, path.as_str(), false)
    };
    let opened = match opened {
        Ok(image) => Ok(image.size()),
        Err(error) => Err(error),
    };
    fs::remove_file(rt, path.as_path())?;
    Ok(opened)
}

/// Files by their lengths: whether the image may be large, and its size or error.
static FILES: [(u64, bool, Result<u32, ImageError>); 10] = [
    (0, false, Ok(0)),
    (512, false, Ok(1)),
    (513, false, Err(ImageError::Length)),
    (891_072 * 512, false, Ok(891_072)),
    (891_073 * 512, false, Err(ImageError::TooLarge)),
    (891_073 * 512 + 1, false, Err(ImageError::Length)),
    (513, true, Err(ImageError::Length)),
    (891_073 * 512, true, Ok(891_073)),
    (2_147_483_647 * 512, true, Ok(2_147_483_647)),
    (2_147_483_648 * 512, true, Err(ImageError::TooLarge)),
];

#[test]
fn files_by_length(rt: HostRuntime) -> Result<(), Fail> {
    for &(len, large, opened) in &FILES {
        assert!(rt; open_of(&rt, len, large)? == opened, "{len} bytes");
    }
    Ok(())
}

// Returns whether a path can't be opened.
fn is_closed(rt: &HostRuntime, path: &str, writable: bool) -> bool {
    FileImage::open(rt, path, writable).err() == Some(ImageError::Open)
}

// A running program can't be opened for writing. An image that isn't writable is opened for reading only.
#[test]
fn non_regular_file_is_rejected(rt: HostRuntime) -> Result<(), Fail> {
    assert!(rt; is_closed(&rt, "/dev/null", true));
    assert!(rt; !is_closed(&rt, "/proc/self/exe", false));
    assert!(rt; is_missing_closed(&rt)?);
    assert!(rt; is_folder_closed(&rt)?);
    Ok(())
}

// Returns whether a file that doesn't exist can't be opened, and isn't made.
fn is_missing_closed(rt: &HostRuntime) -> io::Result<bool> {
    let path = path_of(rt, "missing")?;
    let is_closed = is_closed(rt, path.as_str(), false) && is_closed(rt, path.as_str(), true);
    Ok(is_closed && !fs::exists(rt, path.as_path())?)
}

// Returns whether a folder can't be opened.
fn is_folder_closed(rt: &HostRuntime) -> io::Result<bool> {
    let path = path_of(rt, "folder")?;
    fs::create_dir(rt, path.as_path())?;
    let is_closed = is_closed(rt, path.as_str(), false);
    fs::remove_dir(rt, path.as_path())?;
    Ok(is_closed)
}

// Returns whether a file that is open as this image can be opened as another: as a writable one, and as one
// that is not.
fn beside(rt: &HostRuntime, path: &PathBuf, writable: bool) -> Result<(bool, bool), ImageError> {
    let held = FileImage::open(rt, path.as_str(), writable)?;
    let is_writable = !is_closed(rt, path.as_str(), true);
    let is_readable = !is_closed(rt, path.as_str(), false);
    drop(held);
    Ok((is_writable, is_readable))
}

#[test]
fn an_image_to_be_written_is_open_once(rt: HostRuntime) -> Result<(), Fail> {
    let path = file_of(&rt, "held", &[0x11; 512])?;
    assert!(rt; beside(&rt, &path, true)? == (false, false));
    assert!(rt; beside(&rt, &path, false)? == (false, true));
    assert!(rt; take_file(&rt, &path)?.len() == 512);
    Ok(())
}
