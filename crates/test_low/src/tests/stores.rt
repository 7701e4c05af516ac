//! Ports for any store.

use std::alloc::Global;
use std::test::Fail;
use uda_exec::Exec;
use uda_image::{BlockStore, Drive, MemImage};
use uda_port::{Phase, Port, PortAllocError};

// Callers for any store: free functions, which have the types of what they move in their signatures. A method
// works as well if its type has the port as its last field, as `uda_host`'s `Host` has.
fn port_over<S: BlockStore>(
    alloc: Global,
    drives: [Option<Drive<S>>; 4],
) -> Result<Port<S>, PortAllocError<Exec<S>>> {
    Port::new(alloc, Exec::new(drives))
}

fn stores_of<S: BlockStore>(port: Port<S>) -> [Option<Drive<S>>; 4] {
    port.into_exec().into_stores()
}

/// Returns a drive of three blocks, with hardware write protection.
fn drive(alloc: Global) -> Result<Drive<MemImage>, Fail> {
    Ok(Drive {
        store: MemImage::new(alloc, 3)?,
        hard: true,
    })
}

/// Returns the hardware write protection of a drive, and its size in blocks.
fn seen_of(drive: &Option<Drive<MemImage>>) -> Option<(bool, u32)> {
    let drive = drive.as_ref()?;
    Some((drive.hard, drive.store.size()))
}

#[test]
fn a_port_over_any_stores(rt: HostRuntime) -> Result<(), Fail> {
    let second = Some(drive(rt.alloc())?);
    let port = port_over(rt.alloc(), [None, second, None, None])?;
    assert!(rt; port.phase() == Phase::Step1);
    let [first, second, third, fourth] = &stores_of(port);
    assert!(rt; seen_of(second) == Some((true, 3)));
    assert!(rt; first.is_none() && third.is_none() && fourth.is_none());
    Ok(())
}

#[test]
fn port_alloc_error_has_its_text(rt: HostRuntime) -> Result<(), Fail> {
    let second = Some(drive(rt.alloc())?);
    let refusal = PortAllocError {
        exec: Exec::new([None, second, None, None]),
    };
    let told = format!(in rt.alloc(); "{refusal}")?;
    assert!(rt; told.as_str() == "out of memory");
    Ok(())
}
