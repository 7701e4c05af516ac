//! The same commands through a port's rings, by a driver, and by the executor without either.
use crate::measure::{Contest, by_turns};
use crate::work::bring_online;
use anyhow::{Result, bail};
use std::alloc::Global;
use uda_disk::{Answer, Request};
use uda_driver::Driver;
use uda_exec::{Exec, PENDING};
use uda_image::{Drive, MemImage};
use uda_mem::HostMemory;
use uda_packet::{Command, Op, encode_command};
use uda_port::{Port, Turn};

/// The number of blocks of the image, which is in memory.
const IMAGE: u32 = 1000;

/// The number of commands of a round: no more than one run of a driver can have.
pub const COMMANDS: u32 = 4096;

/// The address of a Read's buffer in host memory, after rings and texts.
const BUFFER: u32 = 0x1000;

/// The operation of each command of a round.
#[derive(Clone, Copy, Debug, PartialEq, Eq)]
pub enum Errand {
    /// A Read of this many blocks, 32 or 1.
    Read(u32),
    /// A Get Unit Status.
    Status,
}

impl Errand {
    /// Returns the errand of these arguments.
    pub fn named(work: &str, blocks: &str) -> Result<Errand> {
        match (work, blocks) {
            ("read", "32") => Ok(Errand::Read(32)),
            ("read", "1") => Ok(Errand::Read(1)),
            ("status", "0") => Ok(Errand::Status),
            _ => bail!("the work is read of 32 blocks or 1, or status of 0"),
        }
    }

    // Returns the first block of the n-th command. It follows the blocks of the command before, and starts
    // again at the end of the image.
    fn block(self, n: u32) -> u32 {
        match self {
            Errand::Read(32) => 32 * (n % 31),
            _ => n % IMAGE,
        }
    }

    fn op(self, n: u32) -> Op {
        match self {
            Errand::Read(blocks) => Op::Read {
                bytes: blocks.saturating_mul(512),
                address: BUFFER,
                lbn: self.block(n),
            },
            Errand::Status => Op::Status,
        }
    }

    /// Returns the n-th command of a round.
    pub fn command(self, n: u32) -> Command {
        Command {
            reference: n,
            unit: 0,
            op: self.op(n),
        }
    }

    fn request(self, n: u32) -> Request {
        match self {
            Errand::Read(blocks) => Request::Read {
                unit: 0,
                lbn: self.block(n),
                bytes: 512 * u64::from(blocks),
            },
            Errand::Status => Request::Status { unit: 0 },
        }
    }

    // Returns the requests of a round.
    fn requests(self, alloc: Global) -> Result<Vec<Request>> {
        let mut requests = Vec::new(alloc);
        for n in 0..COMMANDS {
            requests.push(self.request(n))?;
        }
        Ok(requests)
    }
}

/// Returns an image as unit 0, and no other drive.
pub fn drives(alloc: Global) -> Result<[Option<Drive<MemImage>>; 4]> {
    let store = MemImage::new(alloc, IMAGE)?;
    Ok([Some(Drive { store, hard: false }), None, None, None])
}

/// Runs the rounds through a port's rings.
pub fn through_port(rt: &HostRuntime, work: &str, blocks: &str, rounds: u32) -> Result<()> {
    let mut pair = ThroughPort::new(rt.alloc(), Errand::named(work, blocks)?)?;
    by_turns(rt, &mut pair, rounds)
}

/// Runs the rounds by a driver.
pub fn through_driver(rt: &HostRuntime, work: &str, blocks: &str, rounds: u32) -> Result<()> {
    let mut pair = ThroughDriver::new(rt.alloc(), Errand::named(work, blocks)?)?;
    by_turns(rt, &mut pair, rounds)
}

// An executor whose unit 0 is online, and its host memory.
#[derive(Drop)]
struct Alone {
    exec: Exec<MemImage>,
    memory: HostMemory,
    errand: Errand,
}

impl Alone {
    fn new(alloc: Global, errand: Errand) -> Result<Alone> {
        let mut memory = memory(alloc)?;
        let mut exec = Exec::new(drives(alloc)?);
        bring_online(&mut exec, &mut memory)?;
        Ok(Alone {
            exec,
            memory,
            errand,
        })
    }

    // Runs a round by the executor only.
    fn execute(&mut self) -> Result<()> {
        for n in 0..COMMANDS {
            if !self.execute_one(self.errand.command(n)) {
                bail!("no success");
            }
        }
        Ok(())
    }

    // Returns whether a command was executed and succeeded.
    fn execute_one(&mut self, command: Command) -> bool {
        if self.exec.pending() < PENDING {
            self.exec.accept(command);
        }
        match self.exec.execute_one(&mut self.memory) {
            Some(end) => end.status == 0,
            None => false,
        }
    }
}

// A driver whose unit 0 is online, and the requests of a round.
#[derive(Drop)]
struct ThroughDriver {
    driver: Driver<MemImage>,
    requests: Vec<Request>,
    alone: Alone,
}

impl ThroughDriver {
    fn new(alloc: Global, errand: Errand) -> Result<ThroughDriver> {
        let requests = errand.requests(alloc)?;
        let driver = driver(alloc)?;
        let alone = Alone::new(alloc, errand)?;
        Ok(ThroughDriver {
            driver,
            requests,
            alone,
        })
    }
}

impl Contest for ThroughDriver {
    fn measured(&mut self) -> Result<()> {
        by_driver(&mut self.driver, self.requests.as_slice())
    }

    fn compared(&mut self) -> Result<()> {
        self.alone.execute()
    }
}

// Starts a driver and brings its unit 0 online.
fn driver(alloc: Global) -> Result<Driver<MemImage>> {
    let Ok(mut driver) = Driver::start(alloc, drives(alloc)?) else {
        bail!("no memory");
    };
    let online = Request::Online {
        unit: 0,
        protect: false,
    };
    by_driver(&mut driver, &[online])?;
    Ok(driver)
}

// Executes requests by a driver, all of which must succeed.
fn by_driver(driver: &mut Driver<MemImage>, requests: &[Request]) -> Result<()> {
    match driver.run(requests) {
        Ok(answers) if answers.iter().all(is_success) => Ok(()),
        _ => bail!("no success"),
    }
}

fn is_success(answer: &Answer) -> bool {
    match answer {
        Answer::Data { status, .. }
        | Answer::Online { status, .. }
        | Answer::Status { status, .. } => *status == 0,
        _ => false,
    }
}

/// A running port with rings of one descriptor, whose unit 0 is online, and its host memory.
#[derive(Drop)]
pub struct ThroughPort {
    port: Port<MemImage>,
    memory: HostMemory,
    alone: Alone,
}

impl ThroughPort {
    /// Makes one, and an executor like the port's.
    pub fn new(alloc: Global, errand: Errand) -> Result<ThroughPort> {
        let mut memory = memory(alloc)?;
        let port = port(alloc, &mut memory)?;
        let alone = Alone::new(alloc, errand)?;
        Ok(ThroughPort {
            port,
            memory,
            alone,
        })
    }
}

impl Contest for ThroughPort {
    // Runs one command after another, in three turns each.
    fn measured(&mut self) -> Result<()> {
        let errand = self.alone.errand;
        for n in 0..COMMANDS {
            if !send(&mut self.port, &mut self.memory, &errand.command(n)) {
                bail!("no success");
            }
        }
        Ok(())
    }

    fn compared(&mut self) -> Result<()> {
        self.alone.execute()
    }
}

// Makes host memory with room for rings, texts and one buffer.
fn memory(alloc: Global) -> Result<HostMemory> {
    Ok(HostMemory::new(alloc, 32_768)?)
}

fn port(alloc: Global, memory: &mut HostMemory) -> Result<Port<MemImage>> {
    let mut port = Port::new(alloc, Exec::new(drives(alloc)?))?;
    start_up(&mut port, memory);
    let online = Command {
        reference: 1,
        unit: 0,
        op: Op::Online { soft: None },
    };
    if !send(&mut port, memory, &online) {
        bail!("no success");
    }
    Ok(port)
}

// Initializes a port with rings of one descriptor at 8 and 12, whose texts are at 0x100 and 0x200.
fn start_up(port: &mut Port<MemImage>, memory: &mut HostMemory) {
    for word in [0x8000, 0x0008, 0x0000, 0x0001] {
        port.write_sa(word, memory);
    }
    for (address, word) in [(0xfc, 48), (0x1fc, 48), (8, 0x100), (12, 0x200)] {
        memory.write_word(address, word);
    }
}

// Posts a command, and runs the turns that it needs. Returns whether it succeeded.
fn send(port: &mut Port<MemImage>, memory: &mut HostMemory, command: &Command) -> bool {
    post(memory, command);
    port.read_ip();
    for turn in [Turn::Fetched, Turn::Executed, Turn::Delivered] {
        if port.turn(memory) != turn {
            return false;
        }
    }
    memory.read_word(0x10a) == Some(0)
}

fn post(memory: &mut HostMemory, command: &Command) {
    if let Some(text) = memory.window_mut(0x200, 48) {
        text.copy_from_slice(&encode_command(command));
    }
    memory.write_word(10, 0x8000);
    memory.write_word(14, 0x8000);
}
