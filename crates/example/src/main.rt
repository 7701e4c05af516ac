//! Examples of the use of the executor, the port and the driver. Each is a module of its own, from which a program can
//! begin. The arguments name one:
//!
//!     example disk
//!     example port
//!     example driver
//!     example known
//!     example file SOURCE TARGET
//!     example back SOURCE TARGET
//!
//! Without arguments it executes those that need no files.
#![tactic(auto)]

mod disk;
mod driver;
mod file;
mod known;
mod port;

use anyhow::{Result, bail};
use std::env;

fn main(rt: HostRuntime) -> Result<()> {
    let owned: Vec<String> = env::args(&rt)?.skip(1).collect(rt.alloc())?;
    let words: Vec<&str> = owned.iter().map(|word| word.as_str()).collect(rt.alloc())?;
    run(&rt, words.as_slice())
}

// Executes the example that the words name. Without words it executes all that need no files.
fn run(rt: &HostRuntime, words: &[&str]) -> Result<()> {
    match words {
        [] => run_all(rt),
        ["disk"] => disk::run(rt),
        ["port"] => port::run(rt),
        ["driver"] => driver::run(rt),
        ["file", source, target] => file::run(rt, source, target),
        ["back", source, target] => file::run_back(rt, source, target),
        ["known"] => known::run(rt),
        _ => bail!("usage: example [disk | port | driver | known | (file | back) SOURCE TARGET]"),
    }
}

// Executes each example that needs no files, after a line with its name.
fn run_all(rt: &HostRuntime) -> Result<()> {
    println!(rt; "disk:")?;
    disk::run(rt)?;
    println!(rt; "port:")?;
    port::run(rt)?;
    println!(rt; "driver:")?;
    driver::run(rt)?;
    println!(rt; "known:")?;
    known::run(rt)
}
