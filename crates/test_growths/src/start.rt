//! Construction of port and driver.
use crate::counting::{Counting, Drives, one_drive};
use crate::tell::{tell, tell_drives};
use anyhow::Result;
use std::alloc::Global;
use uda_driver::Driver;
use uda_exec::Exec;
use uda_image::ImageError;
use uda_port::Port;

/// Makes a port over an executor, and prints the drives that it returns.
pub fn port(rt: &HostRuntime) -> Result<()> {
    let exec = executor(rt.alloc())?;
    tell(rt, "begun port")?;
    let made = Port::new(rt.alloc(), exec);
    tell(rt, "ended port")?;
    match made {
        Ok(port) => tell_drives(rt, &port.into_exec().into_stores()),
        Err(refusal) => {
            let exec = refusal.exec;
            tell(rt, "refused")?;
            tell_drives(rt, &exec.into_stores())
        }
    }
}

fn executor(alloc: Global) -> Result<Exec<Counting>, ImageError> {
    Ok(Exec::new(one_drive(alloc, 8, true)?))
}

/// Starts a driver over drives, and prints the drives that it returns.
pub fn driver(rt: &HostRuntime) -> Result<()> {
    let drives = one_drive(rt.alloc(), 8, true)?;
    tell(rt, "begun start")?;
    let started = Driver::start(rt.alloc(), drives);
    tell(rt, "ended start")?;
    match started {
        Ok(driver) => tell_drives(rt, &driver.into_stores()),
        Err(refusal) => {
            let drives = refusal.drives;
            tell(rt, "refused")?;
            tell_drives(rt, &drives)
        }
    }
}
