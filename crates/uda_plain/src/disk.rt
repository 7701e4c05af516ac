//! The blocks and the mode of one unit.
ghost use Rattle.std.specs.Prelude.{◌≡◌, ℕ, Some, ◌≤◌, ◌<◌, ◌+◌, ◌↔◌, false, length, replicate, IfOk, IfErr};
ghost use Rattle.std.specs.Prelude.{IfSome, IsNone};
ghost use Rattle.std.specs.List.{concat};
ghost use Rattle.uda_mem.specs.Put.{put};
ghost use Rattle.uda_image.specs.Limits.{block_limit};
ghost use Rattle.uda_disk.specs.Status.{SUCCESS};
ghost use Rattle.uda_disk.specs.Request as ask;
ghost use Rattle.uda_disk.specs.Request.{blocks_for, in_blocks};
ghost use Rattle.uda_disk.specs.Answer.{Moved, Plain, blank_answer};
ghost use Rattle.uda_disk.specs.RequestEffect.{Done, Accepted, check_at, refusal_status, first_failed_check, mode_after};
ghost use Rattle.uda_disk.specs.RequestEffect.{answer_on, disk_after, answer_by, disk_by};
ghost use Rattle.uda_disk.specs.InOrderRun.{too_long};
ghost use Rattle.uda_disk.specs.Values.{request_value, extent_value, answer_value};

use std::alloc::Global;
use std::marker::Model;
use uda_disk::{Answer, Extent, Mode, Refusal, Request, first_block, status};
use uda_image::BLOCK_LIMIT;
use uda_mem::NoMemory;

/// A unit's blocks, in one array, and its mode.
#[derive(Debug, Drop)]
pub struct PlainDisk {
    blocks: Vec<[u8; 512]>,
    mode: Mode,
}

impl Model for PlainDisk {
    ghost use Rattle.std.specs.Prelude.{length, ◌≤◌};
    ghost use Rattle.uda_image.specs.Limits.{block_limit};
    ghost use Rattle.uda_disk.specs.Disk.{Disk};

    ghost Value = { Disk };

    ghost view = { λ d. record { blocks = d.blocks.items; size = length d.blocks.items; mode = d.mode } };

    ghost invariant = { λ d. length d.blocks.items ≤ block_limit };
}

/// Returns the bytes of blocks, joined.
fn joined(alloc: Global, blocks: &[[u8; 512]]) -> Result<Vec<u8>, NoMemory>
    ensures bytes { IfOk result (λ bytes. bytes.items ≡ concat blocks.now) }
{
    let mut bytes = Vec::new(alloc);
    for block in blocks {
        bytes.extend_from_slice(block)?;
    }
    Ok(bytes)
}

/// Writes `from` over the blocks from `first`.
fn overwrite(blocks: &mut [[u8; 512]], first: usize, from: &[[u8; 512]])
    requires inside { first + length from.now ≤ length blocks.old }
    ensures blocks { blocks.new ≡ put blocks.old first from.now }
{
    blocks[first..first + from.len()].copy_from_slice(from);
}

/// Writes bytes over the blocks from `first`, and fills the last block with zeros.
fn write_bytes(blocks: &mut [[u8; 512]], first: usize, bytes: &[u8])
    requires inside { first + blocks_for (length bytes.now) ≤ length blocks.old }
    ensures blocks { blocks.new ≡ put blocks.old first (in_blocks bytes.now) }
{
    for k in 0..bytes.len().div_ceil(512) {
        overwrite(blocks, first + k, &[first_block(&bytes[512 * k..])]);
    }
}

/// Writes zeros over `count` blocks from `first`.
fn clear(blocks: &mut [[u8; 512]], first: usize, count: usize)
    requires inside { first + count ≤ length blocks.old }
    ensures blocks { blocks.new ≡ put blocks.old first (replicate count (replicate 512 0)) }
{
    for k in 0..count {
        overwrite(blocks, first + k, &[[0; 512]]);
    }
}

impl PlainDisk {
    /// Makes an available unit of these blocks, with this hardware protection. Returns `None` if there are
    /// more than [`BLOCK_LIMIT`] blocks.
    pub fn new(blocks: Vec<[u8; 512]>, hard: bool) -> Option<PlainDisk>
        ensures none { IsNone result ↔ (block_limit < length blocks.items) }
        ensures disk { IfSome result (λ disk. disk ≡ record {
          blocks = blocks.items;
          size = length blocks.items;
          mode = record { online = false; hard = hard; soft = false };
        }) }
    {
        if blocks.len() > BLOCK_LIMIT as usize {
            return None;
        }
        let mode = Mode {
            online: false,
            hard,
            soft: false,
        };
        Some(PlainDisk { blocks, mode })
    }

    /// Returns the blocks.
    pub fn blocks(&self) -> &[[u8; 512]]
        ensures blocks { result.now ≡ self.now.blocks }
    {
        self.blocks.as_slice()
    }

    /// Returns the mode: whether the unit is online, and its write protections.
    pub fn mode(&self) -> Mode
        ensures mode { result ≡ self.now.mode }
    {
        self.mode
    }

    fn size(&self) -> u32
        ensures size { result ≡ self.now.size }
        ensures within { result ≤ block_limit }
    {
        self.blocks.len() as u32
    }

    // Returns the reason why a transfer is rejected, if there is one.
    fn first_failed_check(&self, extent: Extent) -> Option<Refusal>
        ensures refusal { result ≡ first_failed_check (extent_value extent) self.now.size self.now.mode }
    {
        let size = u64::from(self.size());
        let lbn = u64::from(extent.lbn);
        if !self.mode.online {
            Some(Refusal::NotOnline)
        } else if extent.bytes % 2 != 0 {
            Some(Refusal::OddCount)
        } else if size <= lbn {
            Some(Refusal::BlockPastEnd)
        } else if size - lbn < extent.blocks() {
            Some(Refusal::RangePastEnd)
        } else if extent.writes && self.mode.hard {
            Some(Refusal::HardwareProtected)
        } else if extent.writes && self.mode.soft {
            Some(Refusal::SoftwareProtected)
        } else {
            None
        }
    }

    fn online(&mut self, protect: bool) -> Answer
        ensures answer { answer_value result ≡ answer_on Done (ask.Online protect) self.old }
        ensures disk { self.new ≡ record self.old { mode = mode_after (ask.Online protect) self.old.mode } }
    {
        let status = if self.mode.online {
            status::ALREADY_ONLINE
        } else {
            status::SUCCESS
        };
        self.mode = self.mode.online(protect);
        Answer::Online {
            status,
            flags: self.mode.flags(),
            size: self.size(),
        }
    }

    fn available(&mut self) -> Answer
        ensures answer { answer_value result ≡ Plain SUCCESS }
        ensures disk { self.new ≡ record self.old { mode = mode_after ask.Available self.old.mode } }
    {
        self.mode = self.mode.available();
        Answer::Plain {
            status: status::SUCCESS,
        }
    }

    fn status(&self) -> Answer
        ensures answer { answer_value result ≡ answer_on Done ask.Status self.now }
    {
        let status = if self.mode.online {
            status::SUCCESS
        } else {
            status::AVAILABLE
        };
        Answer::Status {
            status,
            flags: self.mode.flags(),
        }
    }

    fn read(&self, alloc: Global, lbn: u32, bytes: u32) -> Result<Answer, NoMemory>
        requires inside { lbn + blocks_for bytes ≤ self.now.size }
        ensures answer { IfOk result (λ answer.
            answer_value answer ≡ answer_on Done (ask.Read lbn bytes) self.now) }
    {
        let first = lbn as usize;
        let count = bytes.div_ceil(512) as usize;
        let mut data = joined(alloc, &self.blocks[first..first + count])?;
        data.truncate(bytes as usize);
        Ok(Answer::Data {
            status: status::SUCCESS,
            bytes: data,
        })
    }

    fn write(&mut self, lbn: u32, payload: &[u8])
        requires inside { lbn + blocks_for (length payload.now) ≤ self.old.size }
        ensures blocks { self.new
            ≡ record self.old { blocks = put self.old.blocks lbn (in_blocks payload.now) } }
    {
        write_bytes(&mut self.blocks, lbn as usize, payload);
    }

    fn erase(&mut self, lbn: u32, bytes: u32)
        requires inside { lbn + blocks_for bytes ≤ self.old.size }
        ensures blocks { self.new ≡ record self.old {
          blocks = put self.old.blocks lbn (replicate (blocks_for bytes) (replicate 512 0));
        } }
    {
        clear(&mut self.blocks, lbn as usize, bytes.div_ceil(512) as usize);
    }

    // Executes a request that has passed all checks.
    fn act(&mut self, alloc: Global, request: &Request) -> Result<Answer, NoMemory>
        requires short { too_long (request_value request.now) ≡ false }
        requires free { check_at (request_value request.now).act (Some (Some self.old)) ≡ Accepted self.old }
        ensures answer { IfOk result (λ answer.
            answer_value answer ≡ answer_on Done (request_value request.now).act self.old) }
        ensures disk { IfOk result (λ _.
            self.new ≡ disk_after Done (request_value request.now).act self.old) }
        ensures unchanged { IfErr result (λ _. self.new ≡ self.old) }
    {
        Ok(match request {
            Request::Online { protect, .. } => self.online(*protect),
            Request::Available { .. } => self.available(),
            Request::Status { .. } => self.status(),
            Request::Read { lbn, bytes, .. } => self.read(alloc, *lbn, *bytes as u32)?,
            Request::Access { bytes, .. } => moved_answer(*bytes as u32),
            Request::Write { lbn, payload, .. } => {
                self.write(*lbn, payload);
                moved_answer(payload.len() as u32)
            }
            Request::Erase { lbn, bytes, .. } => {
                self.erase(*lbn, *bytes as u32);
                moved_answer(*bytes as u32)
            }
        })
    }

    /// Executes one request that isn't too long.
    ///
    /// # Errors
    ///
    /// [`NoMemory`] if the bytes of a Read can't be allocated. Nothing has changed then.
    pub(crate) fn step(&mut self, alloc: Global, request: &Request) -> Result<Answer, NoMemory>
        requires short { too_long (request_value request.now) ≡ false }
        ensures answer { IfOk result (λ answer. answer_value answer
            ≡ answer_by Done (request_value request.now).act
            (check_at (request_value request.now).act (Some (Some self.old)))) }
        ensures disk { IfOk result (λ _. self.new
            ≡ disk_by Done (request_value request.now).act
            (check_at (request_value request.now).act (Some (Some self.old))) self.old) }
        ensures unchanged { IfErr result (λ _. self.new ≡ self.old) }
    {
        let refusal = match request.extent() {
            Some(extent) => self.first_failed_check(extent),
            None => None,
        };
        match refusal {
            Some(refusal) => Ok(refused(alloc, request, refusal)),
            None => self.act(alloc, request),
        }
    }
}

/// Returns the answer of a rejected request: only its status.
pub(crate) fn refused(alloc: Global, request: &Request, refusal: Refusal) -> Answer
    ensures answer { answer_value result
        ≡ blank_answer (request_value request.now).act (refusal_status refusal) }
{
    let status = refusal.status();
    match request {
        Request::Online { .. } => Answer::Online {
            status,
            flags: 0,
            size: 0,
        },
        Request::Available { .. } => Answer::Plain { status },
        Request::Status { .. } => Answer::Status { status, flags: 0 },
        Request::Read { .. } => Answer::Data {
            status,
            bytes: Vec::new(alloc),
        },
        Request::Access { .. } | Request::Write { .. } | Request::Erase { .. } => Answer::Moved {
            status,
            bytes: 0,
        },
    }
}

fn moved_answer(bytes: u32) -> Answer
    ensures answer { answer_value result ≡ Moved SUCCESS bytes }
{
    Answer::Moved {
        status: status::SUCCESS,
        bytes,
    }
}
