//! A run of a script.
use crate::counting::Counting;
use crate::run::started;
use crate::tell::{tell, tell_bytes, tell_drives};
use anyhow::{Result, anyhow, bail};
use std::alloc::Global;
use uda_driver::Driver;
use uda_grammar::{Script, parse};
use uda_script_run::run_script;

/// A script that fills blocks, reads some, and requests a status.
const SCRIPT: &str = "online 0\nfill 0 2 2 a5\nread 0 3 1\nstatus 0\nread 0 0 33\n";

/// The texts that a run writes. Their memory is allocated before the script runs.
#[derive(Drop)]
struct Texts {
    out: Vec<u8>,
    report: Vec<u8>,
}

impl Texts {
    fn is_empty(&self) -> bool {
        self.out.is_empty() && self.report.is_empty()
    }
}

/// Runs a script, and prints its texts and the drives.
pub fn fill_and_read(rt: &HostRuntime) -> Result<()> {
    let script = script(rt.alloc())?;
    let mut driver = started(rt.alloc(), 8)?;
    let mut texts = with_room(rt.alloc())?;
    ask_twice(rt, &script, &mut texts, &mut driver)?;
    tell_texts(rt, &texts)?;
    tell_drives(rt, &driver.into_stores())
}

// Runs a script. If an allocation fails, nothing must be written, and it runs again on the same driver.
fn ask_twice(
    rt: &HostRuntime,
    script: &Script,
    texts: &mut Texts,
    driver: &mut Driver<Counting>,
) -> Result<()> {
    tell(rt, "begun script")?;
    let is_done = ask(rt.alloc(), script, texts, driver);
    tell(rt, "ended script")?;
    if is_done {
        return Ok(());
    }
    tell(rt, "refused")?;
    if !texts.is_empty() || !ask(rt.alloc(), script, texts, driver) {
        bail!("written or refused again");
    }
    Ok(())
}

fn script(alloc: Global) -> Result<Script> {
    parse(alloc, SCRIPT.as_bytes()).map_err(|_| anyhow!("no script"))
}

fn with_room(alloc: Global) -> Result<Texts> {
    let mut out = Vec::new(alloc);
    out.reserve(1024)?;
    let mut report = Vec::new(alloc);
    report.reserve(1024)?;
    Ok(Texts { out, report })
}

// Returns whether the script was run.
fn ask(alloc: Global, script: &Script, texts: &mut Texts, driver: &mut Driver<Counting>) -> bool {
    let mut none: &[u8] = &[];
    let (out, report) = (&mut texts.out, &mut texts.report);
    run_script(alloc, script, &mut none, out, report, driver).is_ok()
}

fn tell_texts(rt: &HostRuntime, texts: &Texts) -> Result<()> {
    print!(rt; "{}", str::from_utf8(&texts.report)?)?;
    tell_bytes(rt, &texts.out)
}
