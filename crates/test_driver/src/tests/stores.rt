//! The stores of the cases, and the execution of a case over them.
use super::asked::{Ask, Reply};
use arrayvec::ArrayVec;
use std::alloc::{AllocError, Global};
use std::fs::File;
use std::path::PathBuf;
use std::test::Fail;
use std::{env, fs, io, process};
use uda_driver::Driver;
use uda_image::{BlockStore, Drive, FailingImage, FileImage, MemImage, StoreError};

/// A store over an image, which is faithful. It keeps the first block of each call.
#[derive(Drop)]
struct Recorder {
    image: MemImage,
    calls: ArrayVec<u32, 16>,
}

impl BlockStore for Recorder {
    ghost use Rattle.uda_image.specs.Image.{image_state};
    ghost use Rattle.uda_image.specs.StoreLaws.{block_count-le, HasWholeBlocks-blocks_of};

    ghost state = { λ recorder. image_state recorder.image };

    ghost within_limit = { λ recorder. block_count-le recorder.image };

    ghost is_image = { λ recorder _. HasWholeBlocks-blocks_of recorder.image };

    ghost is_image_if_sound = { λ recorder _. HasWholeBlocks-blocks_of recorder.image };

    fn size(&self) -> u32 {
        self.image.size()
    }

    fn read(&mut self, n: u32, to: &mut [u8; 512]) -> Result<(), StoreError> {
        let _ = self.calls.try_push(n);
        self.image.read(n, to)
    }

    fn write(&mut self, n: u32, from: &[u8; 512]) -> Result<(), StoreError> {
        let _ = self.calls.try_push(n);
        self.image.write(n, from)
    }
}

/// The kind of image of unit 0. There is no other unit.
#[derive(Clone, Copy)]
pub enum Over {
    /// Memory.
    Memory,
    /// Memory with hardware protection.
    Protected,
    /// Memory. The call of this number fails.
    Failing(u32),
    /// Memory, called at these blocks in this order.
    Calls(&'static [u32]),
    /// A file that was shortened to four blocks after it was opened.
    ShortenedFile,
}

/// An image with its blocks, the runs of a driver over it, and its blocks afterwards.
#[derive(Clone, Copy)]
pub struct Case {
    pub name: &'static str,
    pub over: Over,
    /// Each block, given by the byte of its first half and that of its second.
    pub blocks: &'static [u16],
    /// The requests of each run, with their answers.
    pub runs: &'static [&'static [(Ask, Reply)]],
    /// The blocks afterwards, if they are compared.
    pub left: Option<&'static [u16]>,
}

// Returns the bytes of blocks, each given by the bytes of its halves.
fn bytes_of(alloc: Global, blocks: &[u16]) -> Result<Vec<u8>, AllocError> {
    let mut bytes = Vec::new(alloc);
    for halves in blocks {
        let [first, last] = halves.to_be_bytes();
        bytes.extend_from_slice(&[first; 256])?;
        bytes.extend_from_slice(&[last; 256])?;
    }
    Ok(bytes)
}

// Returns drives of which only unit 0 exists, with this store.
fn alone<S>(store: S, hard: bool) -> [Option<Drive<S>>; 4] {
    [Some(Drive { store, hard }), None, None, None]
}

/// Starts a driver over an image in memory.
pub fn started(alloc: Global, image: MemImage, hard: bool) -> Result<Driver<MemImage>, Fail> {
    match Driver::start(alloc, alone(image, hard)) {
        Ok(driver) => Ok(driver),
        Err(_) => Err("no memory".into()),
    }
}

fn start_failing(alloc: Global, image: FailingImage) -> Result<Driver<FailingImage>, Fail> {
    match Driver::start(alloc, alone(image, false)) {
        Ok(driver) => Ok(driver),
        Err(_) => Err("no memory".into()),
    }
}

fn start_recorder(alloc: Global, recorder: Recorder) -> Result<Driver<Recorder>, Fail> {
    match Driver::start(alloc, alone(recorder, false)) {
        Ok(driver) => Ok(driver),
        Err(_) => Err("no memory".into()),
    }
}

fn start_file(alloc: Global, image: FileImage) -> Result<Driver<FileImage>, Fail> {
    match Driver::start(alloc, alone(image, false)) {
        Ok(driver) => Ok(driver),
        Err(_) => Err("no memory".into()),
    }
}

// Returns the store of unit 0.
fn first_of<S: Drop>(drives: [Option<Drive<S>>; 4]) -> Option<S> {
    let [first, _, _, _] = drives;
    match first {
        Some(Drive { store, .. }) => Some(store),
        None => None,
    }
}

// Executes the requests of a run, and returns whether each has its answer.
fn is_answered<S: BlockStore>(
    alloc: Global,
    driver: &mut Driver<S>,
    run: &[(Ask, Reply)],
) -> Result<bool, Fail> {
    let mut requests = Vec::new(alloc);
    for (ask, _) in run {
        requests.push(ask.request(alloc)?)?;
    }
    let Ok(answers) = driver.run(&requests) else {
        return Err("the run was refused".into());
    };
    for (answer, (_, reply)) in answers.iter().zip(run) {
        if !reply.is(answer) {
            return Ok(false);
        }
    }
    Ok(answers.len() == run.len())
}

impl Case {
    /// Executes the runs, and returns the index of the first with a wrong answer. Returns the number of
    /// runs if the blocks afterwards or the store's calls are wrong, and `None` if nothing is.
    pub fn first_wrong(&self, rt: &HostRuntime) -> Result<Option<usize>, Fail> {
        let alloc = rt.alloc();
        let image = MemImage::from_bytes(alloc, &bytes_of(alloc, self.blocks)?)?;
        match self.over {
            Over::Memory => self.over_memory(alloc, image, false),
            Over::Protected => self.over_memory(alloc, image, true),
            Over::Failing(at) => self.over_failing(alloc, FailingImage::new(image, at)),
            Over::Calls(calls) => self.over_recorder(alloc, image, calls),
            Over::ShortenedFile => self.over_file(rt, image.bytes()),
        }
    }

    // Executes the runs, and returns the index of the first with a wrong answer.
    fn run<S: BlockStore>(
        &self,
        alloc: Global,
        driver: &mut Driver<S>,
    ) -> Result<Option<usize>, Fail> {
        for (n, run) in self.runs.iter().enumerate() {
            if !is_answered(alloc, driver, run)? {
                return Ok(Some(n));
            }
        }
        Ok(None)
    }

    fn over_memory(
        &self,
        alloc: Global,
        image: MemImage,
        hard: bool,
    ) -> Result<Option<usize>, Fail> {
        let mut driver = started(alloc, image, hard)?;
        let wrong = self.run(alloc, &mut driver)?;
        match first_of(driver.into_stores()) {
            Some(image) => self.judge(alloc, wrong, image.bytes()),
            None => Err("no drive".into()),
        }
    }

    fn over_failing(&self, alloc: Global, image: FailingImage) -> Result<Option<usize>, Fail> {
        let mut driver = start_failing(alloc, image)?;
        let wrong = self.run(alloc, &mut driver)?;
        match first_of(driver.into_stores()) {
            Some(image) => self.judge(alloc, wrong, image.into_inner().bytes()),
            None => Err("no drive".into()),
        }
    }

    // Returns the wrong run that was found, or the number of runs if these aren't the bytes afterwards.
    fn judge(
        &self,
        alloc: Global,
        wrong: Option<usize>,
        bytes: &[u8],
    ) -> Result<Option<usize>, Fail> {
        match self.left {
            Some(blocks) if wrong.is_none() && bytes != bytes_of(alloc, blocks)?.as_slice() => {
                Ok(Some(self.runs.len()))
            }
            _ => Ok(wrong),
        }
    }

    // Compares the store's calls too.
    fn over_recorder(
        &self,
        alloc: Global,
        image: MemImage,
        calls: &[u32],
    ) -> Result<Option<usize>, Fail> {
        let none = ArrayVec::new();
        let mut driver = start_recorder(alloc, Recorder { image, calls: none })?;
        let wrong = self.run(alloc, &mut driver)?;
        match first_of(driver.into_stores()) {
            Some(recorder) if recorder.calls.as_slice() == calls => {
                self.judge(alloc, wrong, recorder.image.bytes())
            }
            Some(_) => Ok(Some(self.runs.len())),
            None => Err("no drive".into()),
        }
    }

    // Makes the file, executes the runs, and removes it.
    fn over_file(&self, rt: &HostRuntime, bytes: &[u8]) -> Result<Option<usize>, Fail> {
        let path = scratch_file(rt, bytes)?;
        let wrong = self.run_shortened(rt, &path)?;
        let left = fs::read(rt, path.as_path())?;
        fs::remove_file(rt, path.as_path())?;
        self.judge(rt.alloc(), wrong, &left)
    }

    // Shortens the file once a driver is started over it, and executes the runs.
    fn run_shortened(&self, rt: &HostRuntime, path: &PathBuf) -> Result<Option<usize>, Fail> {
        let image = FileImage::open(rt, path.as_str(), false)?;
        let mut driver = start_file(rt.alloc(), image)?;
        shorten(rt, path)?;
        self.run(rt.alloc(), &mut driver)
    }
}

// Makes a file of these bytes, with a name that only this process uses.
fn scratch_file(rt: &HostRuntime, bytes: &[u8]) -> io::Result<PathBuf> {
    let alloc = rt.alloc();
    let name = format!(in alloc; "uda-driver-{}", process::id(rt.process()))?;
    let path = env::temp_dir(rt)?.join(alloc, name.as_str())?;
    fs::write(rt, path.as_path(), bytes)?;
    Ok(path)
}

// Leaves the first four blocks.
fn shorten(rt: &HostRuntime, path: &PathBuf) -> io::Result<()> {
    File::options()
        .write(true)
        .open(rt, path.as_path())?
        .set_len(2048)
}
