//! A probe: one Get Unit Status by a host.
ghost use Rattle.std.specs.Prelude.{◌≡◌, IfOk};
ghost use Rattle.uda_script.specs.Probe.{probe_text};

use std::alloc::Global;
use uda_exec::Exec;
use uda_host::Host;
use uda_image::{Drive, MemImage};
use uda_mem::NoMemory;
use uda_packet::{Command, Op, encode_end};

/// Starts a host over a unit 0 of eight zero blocks, and executes one Get Unit Status of unit 0 with
/// reference 1. Returns the text of its end message.
///
/// MSCP Basic Disk Functions Manual: Get Unit Status.
pub fn probe(alloc: Global) -> Result<[u8; 48], NoMemory>
    ensures { IfOk result (λ text. text ≡ probe_text) }
{
    let Ok(store) = MemImage::new(alloc, 8) else {
        return Err(NoMemory);
    };
    let drive = Drive { store, hard: false };
    let Ok(mut host) = Host::start(alloc, Exec::new([Some(drive), None, None, None])) else {
        return Err(NoMemory);
    };
    let end = host.execute(&Command {
        reference: 1,
        unit: 0,
        op: Op::Status,
    });
    Ok(encode_end(&end))
}
