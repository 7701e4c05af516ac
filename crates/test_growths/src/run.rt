//! A run of more requests than can be outstanding at once.
use crate::counting::{Counting, one_drive};
use crate::tell::{tell, tell_bytes, tell_drives};
use anyhow::{Result, anyhow};
use std::alloc::{AllocError, Global};
use uda_disk::{Answer, Request};
use uda_driver::Driver;

/// Executes ten Writes and ten Reads, and prints the answers and the drives.
pub fn more_than_eight(rt: &HostRuntime) -> Result<()> {
    let requests = requests(rt.alloc())?;
    let mut driver = started(rt.alloc(), 10)?;
    ask_twice(rt, &mut driver, &requests)?;
    tell_drives(rt, &driver.into_stores())
}

// Executes requests and prints the answers. If an allocation fails, it runs them again on the same driver.
fn ask_twice(rt: &HostRuntime, driver: &mut Driver<Counting>, requests: &[Request]) -> Result<()> {
    tell(rt, "begun run")?;
    let first = ask(driver, requests);
    tell(rt, "ended run")?;
    if let Some(answers) = first {
        return tell_answers(rt, &answers);
    }
    tell(rt, "refused")?;
    match ask(driver, requests) {
        Some(answers) => tell_answers(rt, &answers),
        None => Err(anyhow!("refused again")),
    }
}

/// Starts a driver over one drive of `blocks` blocks of zeros.
pub fn started(alloc: Global, blocks: u32) -> Result<Driver<Counting>> {
    let drives = one_drive(alloc, blocks, false)?;
    Driver::start(alloc, drives).map_err(|_| anyhow!("no memory"))
}

// Returns the answers, or `None` if an allocation failed.
fn ask(driver: &mut Driver<Counting>, requests: &[Request]) -> Option<Vec<Answer>> {
    driver.run(requests).ok()
}

fn requests(alloc: Global) -> Result<Vec<Request>, AllocError> {
    let mut requests = Vec::new(alloc);
    requests.push(Request::Online {
        unit: 0,
        protect: false,
    })?;
    for k in 0..10u8 {
        requests.push(Request::Write {
            unit: 0,
            lbn: u32::from(k),
            payload: Vec::from_elem(alloc, k, 512)?,
        })?;
    }
    for lbn in 0..10 {
        requests.push(Request::Read {
            unit: 0,
            lbn,
            bytes: 512,
        })?;
    }
    Ok(requests)
}

fn tell_answers(rt: &HostRuntime, answers: &[Answer]) -> Result<()> {
    for answer in answers {
        println!(rt; "{answer}")?;
        if let Answer::Data { bytes, .. } = answer {
            tell_bytes(rt, bytes)?;
        }
    }
    Ok(())
}
