//! Measures how fast the executor moves blocks, compared with a loop that moves the same blocks without it.
//! A round moves 64 MB. The two take turns in one process. Without arguments the program does nothing.
//! `run`, in this crate's folder, makes a table of all works.
//!
//! The arguments are:
//!
//! - a store: `memory` (an image of 1,000 blocks), or the path of an image file of 131,072 blocks;
//! - a work: `read` or `write`;
//! - the number of blocks of each transfer: `32` or `1`;
//! - the number of rounds;
//! - over a file with transfers of 32 blocks, optionally `32`: the loop then moves the 32 blocks of a
//!   transfer in one call, instead of one block.
//!
//! If the first argument is `port` or `driver`, 4,096 commands go through a port's rings or through a
//! driver. They are compared with the executor without either. They are `read` of `32` or `1`, or `status`
//! of `0`. If the first argument is `slice`, they go through the rings of a port in a slice, compared with
//! a port over a host memory.
//!
//! Each round prints a line: the nanoseconds of processor time of the measured way, and those of the other.
#![tactic(auto)]

mod bare;
mod layers;
mod measure;
mod slices;
mod stores;
mod work;

use anyhow::{Result, bail};
use std::env;
use stores::Call;
use work::Work;

fn main(rt: HostRuntime) -> Result<()> {
    let owned: Vec<String> = env::args(&rt)?.skip(1).collect(rt.alloc())?;
    let words: Vec<&str> = owned.iter().map(|word| word.as_str()).collect(rt.alloc())?;
    run(&rt, words.as_slice())
}

// Executes the measurement of these arguments.
fn run(rt: &HostRuntime, words: &[&str]) -> Result<()> {
    match words {
        [] => Ok(()),
        [subject, work, blocks, rounds] => rounds_of(rt, subject, work, blocks, number(rounds)?),
        [path, work, "32", rounds, "32"] => {
            let work = Work::named(work, "32")?;
            stores::over_file(rt, path, work, Call::Transfer, number(rounds)?)
        }
        _ => bail!("words: memory, a file, port, driver or slice; a work; its blocks; rounds"),
    }
}

fn number(word: &str) -> Result<u32> {
    Ok(word.parse()?)
}

// Runs the rounds of a layer or of a store.
fn rounds_of(rt: &HostRuntime, subject: &str, work: &str, blocks: &str, rounds: u32) -> Result<()> {
    match subject {
        "port" => layers::through_port(rt, work, blocks, rounds),
        "slice" => slices::through_slice(rt, work, blocks, rounds),
        "driver" => layers::through_driver(rt, work, blocks, rounds),
        "memory" => stores::over_memory(rt, work, blocks, rounds),
        path => stores::over_file(rt, path, Work::named(work, blocks)?, Call::Block, rounds),
    }
}
